ghost use Rattle.std.specs.Prelude.{◌≡◌, ◌==◌, ◌<◌, ◌+◌, ℕ, min, not, Some, option_map, slice_index_or, if◌then◌else◌};
ghost use Rattle.mcal_base.specs.det_errors.Reports as errors;
ghost use Rattle.mcal_base.specs.declared.answer_name.AnswerName.TheVariants.{EOk};
ghost use Rattle.run_model.specs.Machine as done;
ghost use Rattle.run_model.specs.Machine.{Acts};
ghost use Rattle.run_model.specs.World.{World};
ghost use Rattle.module_machines.specs.mcu.Checks as checks;
ghost use Rattle.module_machines.specs.mcu.Machine as spec;
ghost use Rattle.module_machines.specs.mcu.Machine.{McuState, ram_at};
ghost use Rattle.module_machines.specs.mcu.Table.{section_of};
ghost use Rattle.audit_base.specs.Comes.{Comes, Gives};
ghost use Rattle.audit_clock.specs.ClockStands.{StandsFor, is_between, pll_of};
ghost use Rattle.audit_clock.specs.Sections.{AreShort};

use crate::clock_checks::{facts, reason_name, refused, status_name};
use crate::configured::Configured;
use audit_base::{Told, named};
use mcal_base::det_errors::first_error;
use mcal_base::{AnswerName, ErrorName, Reason};
use module_machines::mcu::{Call, ClockCall, McuTable, Section};
use std::marker::Model;

/// A PLL that was started.
#[derive(Clone, Copy)]
pub struct Pll {
    /// Its multiplier.
    pub multiplier: u32,
    /// When it was started, in ticks of the oscillator.
    pub started: u64,
}

/// The machine of clock, RAM and resets under a configuration. Times are in ticks of the oscillator.
#[derive(Drop)]
pub struct Clock {
    driver: Configured,
    initialised: bool,
    rate: u32,
    pll: Option<Pll>,
    reason: Reason,
    mode: Option<u32>,
    ram: [u32; 512],
}

impl Model for Clock {
    ghost use Rattle.std.specs.Prelude.{◌≡◌, length, option_map};
    ghost use Rattle.audit_clock.specs.ClockStands.{ClockKept, pll_of};

    ghost Value = { ClockKept };

    ghost view = { λ t. record { driver = t.driver.table; initialised = t.initialised; rate = t.rate; pll = option_map pll_of t.pll; reason = t.reason; mode = t.mode; ram = t.ram } };

    ghost invariant = { λ t. length t.ram ≡ 512 };
}

/// The place behind a section, and at most behind the last RAM word.
fn end_of(section: Section) -> u32
    ensures { result ≡ min (section.base + section.size) 512 }
{
    (u64::from(section.base) + u64::from(section.size)).min(512) as u32
}

/// Whether a PLL is locked: it was started at least 100 ticks of the oscillator ago.
fn is_locked(pll: Option<Pll>, osc: u64) -> bool
    ensures { (w : World) → w.osc ≡ osc → result ≡ spec.is_locked w (option_map pll_of pll) }
{
    match pll {
        Some(pll) => osc >= 100 && pll.started <= osc - 100,
        None => false,
    }
}

impl Clock {
    /// After power on.
    pub fn new(driver: McuTable) -> Clock
        requires { AreShort driver }
        ensures is { StandsFor result spec.first_state }
        ensures driver { result.driver ≡ driver }
    {
        Clock {
            driver: Configured::new(driver),
            initialised: false,
            rate: 1,
            pll: None,
            reason: Reason::PowerOn,
            mode: None,
            ram: [0; 512],
        }
    }

    /// What is configured.
    pub fn table(&self) -> &McuTable
        ensures is { result.now ≡ self.now.driver }
        ensures short { AreShort result.now }
    {
        self.driver.table()
    }

    /// A RAM word, of 512, becomes so.
    fn put(&mut self, place: u32, value: u32)
        ensures ram { (k : ℕ) → k < 512 → slice_index_or self.new.ram k 0 ≡ if k == place then value else slice_index_or self.old.ram k 0 }
        ensures others { self.new ≡ record self.old { ram = self.new.ram } }
    {
        if place < 512 {
            self.ram[place as usize] = value;
        }
    }

    /// The RAM words from the first place on and before the second become so.
    fn fill(&mut self, start: u32, end: u32, value: u32)
        ensures ram { (k : ℕ) → k < 512 → slice_index_or self.new.ram k 0 ≡ if is_between start end k then value else slice_index_or self.old.ram k 0 }
        ensures others { self.new ≡ record self.old { ram = self.new.ram } }
    {
        for place in start..end {
            self.put(place, value);
        }
    }

    /// A section is filled with its default value.
    fn fill_section(&mut self, section: Section)
        ensures is { (s : McuState) → StandsFor self.old s → StandsFor self.new (spec.filled (Some section) s) }
        ensures driver { self.new.driver ≡ self.old.driver }
    {
        self.fill(section.base, end_of(section), section.default_value);
    }

    /// The section of a number is filled, where it is configured.
    fn fill_numbered(&mut self, number: u32)
        ensures is { (s : McuState) → StandsFor self.old s → StandsFor self.new (spec.filled (section_of self.old.driver number) s) }
        ensures driver { self.new.driver ≡ self.old.driver }
    {
        if let Some(section) = self.driver.table.section(number) {
            self.fill_section(section);
        }
    }

    /// The PLL starts with this multiplier.
    fn start_pll(&mut self, multiplier: Option<u32>, osc: u64)
        ensures is { (w : World) (s : McuState) → w.osc ≡ osc → StandsFor self.old s → StandsFor self.new (spec.clocked w multiplier s) }
        ensures driver { self.new.driver ≡ self.old.driver }
    {
        if let Some(multiplier) = multiplier {
            self.rate = 1;
            self.pll = Some(Pll {
                multiplier,
                started: osc,
            });
        }
    }

    /// The rate becomes the multiplier of the PLL.
    fn distribute(&mut self)
        ensures is { (s : McuState) → StandsFor self.old s → StandsFor self.new (spec.distributed s.pll s) }
        ensures driver { self.new.driver ≡ self.old.driver }
    {
        if let Some(pll) = self.pll {
            self.rate = pll.multiplier;
        }
    }

    /// What a call without an error does.
    fn work(&mut self, call: Call, osc: u64) -> Told
        ensures is { (w : World) (s : McuState) → w.osc ≡ osc → StandsFor self.old s →
            Gives (StandsFor self.new) result (spec.work self.old.driver w s call) }
        ensures driver { self.new.driver ≡ self.old.driver }
    {
        match call {
            Call::Init => self.initialised = true,
            Call::InitRamSection(number) => {
                self.fill_numbered(number);
                return done();
            }
            Call::Clock(ClockCall::InitClock(number)) => {
                let multiplier = self.driver.table.multiplier(number);
                self.start_pll(multiplier, osc);
                return done();
            }
            Call::Clock(ClockCall::DistributePllClock) => {
                self.distribute();
                return done();
            }
            Call::GetPllStatus => {
                return Told::with_answer(named(status_name(is_locked(self.pll, osc))));
            }
            Call::GetResetReason => return Told::with_answer(named(reason_name(self.reason))),
            Call::PerformReset => {}
            Call::SetMode(mode) => self.mode = Some(mode),
        }
        Told::nothing()
    }

    /// The first error of a call that holds.
    fn error(&self, call: Call, osc: u64) -> Option<ErrorName>
        ensures { (w : World) → w.osc ≡ osc → result ≡ checks.error_by self.now.driver call (not self.now.initialised) (not (spec.is_locked w self.now.pll)) }
    {
        let facts = facts(
            &self.driver.table,
            call,
            !self.initialised,
            !is_locked(self.pll, osc),
        );
        first_error(call.service(), &facts)
    }

    /// A call acts.
    pub fn act(&mut self, call: Call, osc: u64) -> Told
        ensures is { (w : World) (s : McuState) (committed : ℕ → ℕ) → w.osc ≡ osc → StandsFor self.old s →
            Comes (StandsFor self.new) result (spec.happens self.old.driver w s (Acts call committed)) }
        ensures driver { self.new.driver ≡ self.old.driver }
    {
        match self.error(call, osc) {
            Some(error) => Told::with_error(refused(call), error),
            None => self.work(call, osc),
        }
    }

    /// Whether an error that a call finds is reported: as a runtime error, or as a development error.
    pub fn report(&self, error: ErrorName) -> Option<bool>
        ensures { result ≡ errors.reported (checks.reporting self.now.driver) error }
    {
        mcal_base::det_errors::reported(self.driver.table.detect, 1, error)
    }

    /// The chip is reset for this reason.
    pub fn reset(&mut self, reason: Reason)
        ensures is { StandsFor self.new (spec.after_reset reason) }
        ensures driver { self.new.driver ≡ self.old.driver }
    {
        self.initialised = false;
        self.rate = 1;
        self.pll = None;
        self.reason = reason;
        self.mode = None;
        self.ram = [0; 512];
    }

    /// The peripheral ticks of a tick of the oscillator.
    pub fn rate(&self) -> u32
        ensures is { (s : McuState) → StandsFor self.now s → result ≡ s.rate }
        ensures kept { result ≡ self.now.rate }
    {
        self.rate
    }

    /// A RAM word, of 512.
    pub fn ram(&self, place: u32) -> u32
        requires { place < 512 }
        ensures { (s : McuState) → StandsFor self.now s → result ≡ ram_at s place }
    {
        self.ram[place as usize]
    }
}

/// A call that answers that it did what was asked.
fn done() -> Told
    ensures { result ≡ done.answers (done.named EOk) }
{
    Told::with_answer(named(AnswerName::EOk))
}
