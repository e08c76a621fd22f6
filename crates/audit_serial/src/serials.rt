ghost use Rattle.std.specs.Prelude.{◌≡◌, ◌<◌, ◌≤◌, ◌+◌, ◌^◌, ◌&&◌, ◌∷◌, [], ℕ, List, None, Some, IfOk, is_some, not, option_map, if◌then◌else◌};
ghost use Rattle.mcal_base.specs.det_errors.Reports as errors;
ghost use Rattle.mcal_base.specs.declared.directive.Order.TheVariants as order;
ghost use Rattle.mcal_base.specs.declared.directive.Reason.{Reason};
ghost use Rattle.run_model.specs.Machine.{Acts, Moves, Restarts, Serves, Starts, outcome, tells_nothing};
ghost use Rattle.run_model.specs.World.{World};
ghost use Rattle.spi_machine.specs.Bounds as bounds;
ghost use Rattle.spi_machine.specs.Machine as spec;
ghost use Rattle.spi_machine.specs.State as state;
ghost use Rattle.audit_base.specs.Deeds.{came};
ghost use Rattle.audit_serial.specs.Short.{IsShort};
ghost use Rattle.audit_serial.specs.Stands.{begins, state_of};
ghost use Rattle.audit_serial.specs.Words.{mode_as, pending_as};

mod calls;
mod ends;
mod sendings;
mod servings;
mod shows;
mod starts;

use crate::channels::Channels;
use crate::configured::Configured;
use crate::options::is_sync;
use crate::pending::Pending;
use crate::queue::Queue;
use crate::units::Units;
use audit_base::{Begun, Done, Told};
use mcal_base::{AnswerName, ErrorName, Unit};
use spi_machine::{AsyncMode, Call, SequenceCall, SpiTable};
use std::alloc::{AllocError, Global};

/// Uninitialised, or the asynchronous mode of an initialised module.
#[derive(Clone, Copy)]
pub enum Mode {
    /// Uninitialised.
    Off,
    /// Polling mode.
    Polling,
    /// Interrupt mode.
    Interrupt,
}

/// The machine of the serial units under a configuration. Times are in peripheral ticks.
#[derive(Drop)]
pub struct Serials {
    configured: Configured,
    alloc: Global,
    mode: Mode,
    channels: Channels,
    job_results: Vec<AnswerName>,
    sequence_results: Vec<AnswerName>,
    queue: Queue,
    units: Units,
}

/// The number of a serial unit.
fn number_of(unit: Unit) -> Option<u32>
    ensures { result ≡ spec.number_of unit }
{
    match unit {
        Unit::Spi0 => Some(0),
        Unit::Spi1 => Some(1),
        Unit::Adc0 | Unit::Adc1 => None,
    }
}

/// The unit of a line.
fn unit_of_line(line: u32) -> Option<u32>
    ensures { result ≡ spec.unit_of line }
{
    if line == 26 {
        Some(0)
    } else if line == 27 {
        Some(1)
    } else {
        None
    }
}

/// The sequence that a call sends by `Spi_SyncTransmit`, where it does.
fn sent_by(call: Option<Call>) -> Option<u32>
    ensures { result ≡ spec.sent_by call }
{
    match call {
        Some(Call::Sequence(sequence, SequenceCall::SyncTransmit)) => Some(sequence),
        _ => None,
    }
}

impl Mode {
    /// The mode of an initialised module.
    fn of(mode: AsyncMode) -> Mode
        ensures { mode_as result ≡ state.mode_of mode }
    {
        match mode {
            AsyncMode::Polling => Mode::Polling,
            AsyncMode::Interrupt => Mode::Interrupt,
        }
    }

    /// Whether the module is uninitialised.
    fn is_off(self) -> bool
        ensures { result ≡ state.is_off (mode_as self) }
    {
        matches!(self, Mode::Off)
    }

    /// Whether it is in polling mode.
    fn is_polling(self) -> bool
        ensures { result ≡ state.is_polling (mode_as self) }
    {
        matches!(self, Mode::Polling)
    }

    /// Whether it is in interrupt mode.
    fn is_interrupt(self) -> bool
        ensures { result ≡ state.is_interrupt (mode_as self) }
    {
        matches!(self, Mode::Interrupt)
    }
}

impl Serials {
    /// After power on.
    pub fn new(alloc: Global, table: SpiTable) -> Serials
        requires { IsShort table }
        ensures state { state_of result ≡ state.first_state }
        ensures table { result.configured.table ≡ table }
        ensures events { result.queue.events ≡ 0 }
    {
        Serials {
            configured: Configured::new(table),
            alloc,
            mode: Mode::Off,
            channels: Channels::new(alloc),
            job_results: Vec::new(alloc),
            sequence_results: Vec::new(alloc),
            queue: Queue::new(alloc),
            units: Units::new(alloc),
        }
    }

    /// What is configured.
    pub fn table(&self) -> &SpiTable
        ensures { result.now ≡ self.now.configured.table }
    {
        self.configured.table()
    }

    /// How many times pending sequences changed.
    pub fn events(&self) -> u32
        ensures { result ≡ self.now.queue.events }
    {
        self.queue.events()
    }

    /// A call acts, where it may.
    pub fn act(&mut self, call: Call, now: u64) -> Result<Option<Told>, AllocError>
        requires { self.old.queue.events + 1 < 2 ^ 32 }
        ensures is { (w : World) (committed : ℕ → ℕ) → w.now ≡ now →
            IfOk result (λ told. option_map (outcome (state_of self.new)) told ≡ spec.happens self.old.configured.table w (state_of self.old) (Acts call committed)) }
        ensures unchanged { IfOk result (λ told. told ≡ None → self.new ≡ self.old) }
        ensures table { self.new.configured ≡ self.old.configured }
        ensures events { IfOk result (λ _. self.new.queue.events ≤ self.old.queue.events + 1) }
    {
        match sent_by(Some(call)) {
            Some(sequence) => self.end_sending(sequence, now),
            None => {
                let told = self.answer(call)?;
                Ok(Some(told))
            }
        }
    }

    /// Whether a handler serves a line.
    pub fn has_line(&self, line: u32) -> bool
        ensures { result ≡ bounds.is_used self.now.configured.table line }
    {
        self.configured.table.uses(line)
    }

    /// Whether a line may be served: the module is initialised, and its unit's word in transfer is done.
    pub fn ready(&self, line: u32, now: u64) -> bool
        ensures { (w : World) → w.now ≡ now → result ≡ spec.ready w (state_of self.now) line }
    {
        let done = self.line_done(line, now);
        !self.mode.is_off() && done
    }

    /// Whether the word in transfer of a line's unit is done.
    fn line_done(&self, line: u32, now: u64) -> bool
        ensures { result ≡ spec.has_done now (spec.run_of (state_of self.now) (spec.unit_of line)) }
    {
        match unit_of_line(line) {
            Some(unit) => self.units.has_done(unit, now),
            None => false,
        }
    }

    /// Whether a line wants to be served: it may be, in interrupt mode.
    pub fn due(&self, line: u32, now: u64) -> bool
        ensures { (w : World) → w.now ≡ now → result ≡ spec.due w (state_of self.now) line }
    {
        let ready = self.ready(line, now);
        ready && self.mode.is_interrupt()
    }

    /// A line is served, where it may be. A word that begins there has this incoming word.
    pub fn serve(&mut self, line: u32, received: u32, now: u64) -> Result<Option<Done>, AllocError>
        requires { self.old.queue.events + 1 < 2 ^ 32 }
        ensures is { (w : World) → w.now ≡ now →
            IfOk result (λ served. option_map (came (state_of self.new)) served ≡ spec.happens self.old.configured.table w (state_of self.old) (Serves line received)) }
        ensures unchanged { IfOk result (λ served. served ≡ None → self.new ≡ self.old) }
        ensures table { self.new.configured ≡ self.old.configured }
        ensures events { IfOk result (λ _. self.new.queue.events ≤ self.old.queue.events + 1) }
    {
        if self.ready(line, now) {
            let served = self.serve_line(line, received, now)?;
            Ok(Some(served))
        } else {
            Ok(None)
        }
    }

    /// Whether a unit may start a job.
    pub fn startable(&self, unit: Unit) -> bool
        ensures { result ≡ is_some (spec.next_at self.now.configured.table (state_of self.now) (spec.number_of unit)) }
    {
        match number_of(unit) {
            Some(unit) => self.next_on(unit).is_some(),
            None => false,
        }
    }

    /// Whether a unit sends for calls alone.
    fn sends_for_calls(&self, unit: Unit) -> bool
        ensures { result ≡ spec.is_sync_number self.now.configured.table (spec.number_of unit) }
    {
        match number_of(unit) {
            Some(unit) => is_sync(&self.configured.table, unit),
            None => false,
        }
    }

    /// Whether a unit may start its next job, for no call.
    pub fn starts_next(&self, unit: Unit) -> bool
        ensures { result ≡ (not (spec.is_sync_number self.now.configured.table (spec.number_of unit)) && is_some (spec.next_at self.now.configured.table (state_of self.now) (spec.number_of unit))) }
    {
        !self.sends_for_calls(unit) && self.startable(unit)
    }

    /// Whether a line is a unit's that may start a job.
    pub fn line_waits(&self, line: u32) -> bool
        ensures { result ≡ is_some (spec.next_at self.now.configured.table (state_of self.now) (spec.unit_of line)) }
    {
        match unit_of_line(line) {
            Some(unit) => self.next_on(unit).is_some(),
            None => false,
        }
    }

    /// A unit starts its next job, or the next word of a sequence that a call sends, where it may. The word that begins
    /// has this incoming word.
    pub fn start(
        &mut self,
        unit: Unit,
        by: Option<Call>,
        received: u32,
        now: u64,
    ) -> Result<Option<Begun>, AllocError>
        requires { self.old.queue.events + 1 < 2 ^ 32 }
        ensures is { (w : World) → w.now ≡ now →
            IfOk result (λ begun. option_map (begins (state_of self.new)) begun ≡ spec.happens self.old.configured.table w (state_of self.old) (Starts unit by received)) }
        ensures unchanged { IfOk result (λ begun. begun ≡ None → self.new ≡ self.old) }
        ensures table { self.new.configured ≡ self.old.configured }
        ensures events { IfOk result (λ _. self.new.queue.events ≤ self.old.queue.events + 1) }
    {
        match number_of(unit) {
            Some(unit) => self.start_on(unit, by, received, now),
            None => Ok(None),
        }
    }

    /// A serial unit starts.
    fn start_on(
        &mut self,
        unit: u32,
        by: Option<Call>,
        received: u32,
        now: u64,
    ) -> Result<Option<Begun>, AllocError>
        requires { self.old.queue.events + 1 < 2 ^ 32 }
        ensures is { (w : World) → w.now ≡ now →
            IfOk result (λ begun. option_map (begins (state_of self.new)) begun ≡ spec.start_of self.old.configured.table w (state_of self.old) (Some unit) by received) }
        ensures unchanged { IfOk result (λ begun. begun ≡ None → self.new ≡ self.old) }
        ensures table { self.new.configured ≡ self.old.configured }
        ensures events { IfOk result (λ _. self.new.queue.events ≤ self.old.queue.events + 1) }
    {
        if is_sync(&self.configured.table, unit) {
            self.send_on(unit, received, sent_by(by), now)
        } else {
            self.start_next(unit, received, now)
        }
    }

    /// A user's source array is filled.
    pub fn fill(&mut self, channel: u32, words: &[u32]) -> Result<(), AllocError>
        ensures is { (w : World) (ws : List ℕ) → ws ≡ words.now →
            IfOk result (λ _. Some (outcome (state_of self.new) tells_nothing) ≡ spec.happens self.old.configured.table w (state_of self.old) (Moves (order.Fill channel ws))) }
        ensures table { self.new.configured ≡ self.old.configured }
        ensures events { self.new.queue.events ≡ self.old.queue.events }
    {
        let found = self.configured.table.channel(channel);
        self.channels.fill(self.alloc, channel, words, found)
    }

    /// A fault comes on the wire of a unit.
    pub fn fault(&mut self, unit: u32, now: u64) -> Result<(), AllocError>
        ensures is { (w : World) → w.now ≡ now →
            IfOk result (λ _. Some (outcome (state_of self.new) tells_nothing) ≡ spec.happens self.old.configured.table w (state_of self.old) (Moves (order.SpiFault unit))) }
        ensures table { self.new.configured ≡ self.old.configured }
        ensures events { self.new.queue.events ≡ self.old.queue.events }
    {
        self.units.fault(self.alloc, unit, now)
    }

    /// The chip is reset.
    pub fn reset(&mut self)
        ensures is { (w : World) (reason : Reason) → Some (outcome (state_of self.new) tells_nothing) ≡ spec.happens self.old.configured.table w (state_of self.old) (Restarts reason) }
        ensures table { self.new.configured ≡ self.old.configured }
        ensures events { self.new.queue.events ≡ self.old.queue.events }
    {
        self.mode = Mode::Off;
        self.channels.clear();
        self.job_results.clear();
        self.sequence_results.clear();
        self.queue.reset();
        self.units.reset();
    }

    /// Whether an error that a call finds is reported: as a runtime error, or as a development error.
    pub fn report(&self, error: ErrorName) -> Option<bool>
        ensures { result ≡ errors.reported (spec.reporting self.now.configured.table) error }
    {
        let table = &self.configured.table;
        mcal_base::det_errors::reported(table.detect, table.classification, error)
    }

    /// Whether the main function serves lines: the module is in polling mode.
    pub fn is_polling(&self) -> bool
        ensures { result ≡ state.is_polling (state_of self.now).mode }
    {
        self.mode.is_polling()
    }

    /// Whether a call polls both lines, the first unit's first; otherwise it polls none.
    pub fn polls(&self, call: Call) -> bool
        ensures { (if result then 26 ∷ 27 ∷ [] else []) ≡ spec.polls (state_of self.now) call }
    {
        match call {
            Call::MainFunctionHandling => self.mode.is_polling(),
            _ => false,
        }
    }

    /// Whether a pending sequence, or one that a unit carries out, uses a channel.
    pub fn in_use(&self, channel: u32) -> bool
        ensures { result ≡ state.uses self.now.configured.table (state_of self.now) channel }
    {
        let pending = self.queue.uses(&self.configured.table, channel);
        let carried = self.units.uses(&self.configured.table, channel);
        pending || carried
    }

    /// Whether a channel has a source array.
    pub fn fills(&self, channel: u32) -> bool
        ensures { result ≡ bounds.fills self.now.configured.table channel }
    {
        self.configured.table.channel(channel).is_some()
    }

    /// Whether the module is uninitialised.
    fn is_off(&self) -> bool
        ensures { result ≡ state.is_off (state_of self.now).mode }
    {
        self.mode.is_off()
    }

    /// Whether a sequence is pending, or a unit carries one out.
    fn is_busy(&self) -> bool
        ensures { result ≡ state.is_busy (state_of self.now) }
    {
        let pending = !self.queue.is_empty();
        let carried = self.units.is_any_carried();
        pending || carried
    }

    /// The pending sequence whose next job a unit may start.
    fn next_on(&self, unit: u32) -> Option<Pending>
        ensures { option_map pending_as result ≡ spec.next_at self.now.configured.table (state_of self.now) (Some unit) }
    {
        if self.mode.is_off() {
            None
        } else {
            self.next_of(unit)
        }
    }

    /// The pending sequence whose next job a unit runs next, where the unit is free.
    fn next_of(&self, unit: u32) -> Option<Pending>
        ensures { option_map pending_as result ≡ spec.next_by self.now.configured.table (state_of self.now) unit (state.run_at (state_of self.now) unit) }
    {
        if self.units.runs(unit) {
            None
        } else {
            self.queue.next_on(&self.configured.table, unit)
        }
    }
}
