ghost use Rattle.std.specs.Prelude.{◌≡◌, ◌<◌, ◌≤◌, ◌+◌, ◌^◌, ◌||◌, not, IfOk, option_copied};
ghost use Rattle.mcal_base.specs.declared.answer_name.AnswerName.TheVariants.{SpiJobQueued};
ghost use Rattle.run_model.specs.Machine as told;
ghost use Rattle.run_model.specs.Machine.{outcome};
ghost use Rattle.spi_machine.specs.Checks as checks;
ghost use Rattle.spi_machine.specs.Machine as spec;
ghost use Rattle.spi_machine.specs.Pending as pending;
ghost use Rattle.spi_machine.specs.State as state;
ghost use Rattle.spi_machine.specs.Table.{channel_of, jobs_of};
ghost use Rattle.spi_machine.specs.Wiring.{is_sync_sequence};
ghost use Rattle.audit_serial.specs.Flows.{with_request};
ghost use Rattle.audit_serial.specs.Stands.{state_of};
ghost use Rattle.audit_serial.specs.Words.{mode_as, pending_as};

use super::{Mode, Serials};
use crate::buffers::SetUp;
use crate::carrying::Carrying;
use crate::checks::{facts, refused};
use crate::numbered::item;
use crate::options::{
    both_notices, is_sent_at_once, job_list, jobs_listed, sequence_notice, unit_of,
};
use crate::pending::Pending;
use crate::queue::Change;
use crate::results::all_get;
use audit_base::{Told, named};
use mcal_base::det_errors::first_error;
use mcal_base::{Answer, AnswerName, ErrorName, Head};
use spi_machine::{Call, ChannelCall, Pointer, Query, SequenceCall};
use std::alloc::AllocError;

/// The answer that is a name.
fn answers(name: AnswerName) -> Told
    ensures { result ≡ told.answers (told.named name) }
{
    Told::with_answer(named(name))
}

/// The status of a module or of a unit.
fn status(off: bool, busy: bool) -> AnswerName
    ensures { result ≡ spec.status_by off busy }
{
    if off {
        AnswerName::SpiUninit
    } else if busy {
        AnswerName::SpiBusy
    } else {
        AnswerName::SpiIdle
    }
}

impl Serials {
    /// What the unit of a sequence carries out for a call.
    pub(super) fn carrying(&self, sequence: u32) -> Option<&Carrying>
        ensures { option_copied result ≡ spec.carried_for self.now.configured.table (state_of self.now) sequence }
    {
        if self.carries_none(sequence) {
            None
        } else {
            self.units
                .carrying(unit_of(&self.configured.table, sequence))
        }
    }

    /// Whether the unit of a sequence can carry out nothing: the module is uninitialised, or the unit is of the other kind.
    fn carries_none(&self, sequence: u32) -> bool
        ensures { result ≡ state.is_off (state_of self.now).mode || not (is_sync_sequence self.now.configured.table sequence) }
    {
        let off = self.mode.is_off();
        let at_once = is_sent_at_once(&self.configured.table, sequence);
        off || !at_once
    }

    /// Whether a call finds its sequence held.
    fn finds_held(&self, call: Call) -> bool
        ensures { result ≡ spec.finds_held self.now.configured.table (state_of self.now) call }
    {
        match call {
            Call::Sequence(sequence, call) => self.finds_sequence_held(sequence, call),
            Call::Init
            | Call::DeInit
            | Call::SetAsyncMode(_)
            | Call::MainFunctionHandling
            | Call::Channel(..)
            | Call::Get(_) => false,
        }
    }

    /// Whether a call about a sequence finds it held.
    fn finds_sequence_held(&self, sequence: u32, call: SequenceCall) -> bool
        ensures { result ≡ spec.finds_held self.now.configured.table (state_of self.now) (Call.Sequence sequence call) }
    {
        match call {
            SequenceCall::AsyncTransmit => self.queue.is_held(&self.configured.table, sequence),
            SequenceCall::SyncTransmit => self.carrying(sequence).is_some(),
            SequenceCall::Cancel => false,
        }
    }

    /// The first error of a call that holds.
    pub(super) fn error(&self, call: Call) -> Option<ErrorName>
        ensures { result ≡ checks.error_by self.now.configured.table call (state.is_off (state_of self.now).mode) (spec.finds_held self.now.configured.table (state_of self.now) call) }
    {
        let held = self.finds_held(call);
        let facts = facts(&self.configured.table, call, self.mode.is_off(), held);
        first_error(call.service(), &facts)
    }

    /// A call that sends no sequence at once acts.
    pub(super) fn answer(&mut self, call: Call) -> Result<Told, AllocError>
        requires { self.old.queue.events + 1 < 2 ^ 32 }
        ensures is { IfOk result (λ told. outcome (state_of self.new) told ≡ spec.acts self.old.configured.table (state_of self.old) call) }
        ensures table { self.new.configured ≡ self.old.configured }
        ensures events { IfOk result (λ _. self.new.queue.events ≤ self.old.queue.events + 1) }
    {
        match self.error(call) {
            Some(error) => Ok(Told::with_error(refused(call), error)),
            None => self.work(call),
        }
    }

    /// What a call without an error does.
    fn work(&mut self, call: Call) -> Result<Told, AllocError>
        requires { self.old.queue.events + 1 < 2 ^ 32 }
        ensures is { IfOk result (λ told. outcome (state_of self.new) told ≡ spec.work self.old.configured.table (state_of self.old) call) }
        ensures table { self.new.configured ≡ self.old.configured }
        ensures events { IfOk result (λ _. self.new.queue.events ≤ self.old.queue.events + 1) }
    {
        match call {
            Call::Init => {
                self.initialise()?;
                Ok(Told::nothing())
            }
            Call::DeInit => Ok(self.switch(Mode::Off)),
            Call::SetAsyncMode(mode) => Ok(self.switch(Mode::of(mode))),
            Call::MainFunctionHandling => Ok(Told::nothing()),
            Call::Channel(channel, call) => self.work_on_channel(channel, call),
            Call::Sequence(sequence, call) => self.work_on_sequence(sequence, call),
            Call::Get(query) => Ok(answers(self.query(query))),
        }
    }

    /// All results are OK, nothing is pending, and the units are free.
    fn initialise(&mut self) -> Result<(), AllocError>
        ensures state { IfOk result (λ _. state_of self.new ≡ spec.initial self.old.configured.table (state_of self.old)) }
        ensures table { self.new.configured ≡ self.old.configured }
        ensures events { self.new.queue.events ≡ self.old.queue.events }
    {
        self.channels
            .initialise(self.alloc, self.configured.table())?;
        self.mode = Mode::Polling;
        self.job_results.clear();
        self.sequence_results.clear();
        self.queue.clear();
        self.units.clear();
        Ok(())
    }

    /// The whole module changes its mode, unless it is busy.
    fn switch(&mut self, mode: Mode) -> Told
        ensures is { outcome (state_of self.new) result ≡ spec.unless_busy (state.is_busy (state_of self.old)) (state_of self.old) (record (state_of self.old) { mode = mode_as mode }) }
        ensures table { self.new.configured ≡ self.old.configured }
        ensures events { self.new.queue.events ≡ self.old.queue.events }
    {
        if self.is_busy() {
            answers(AnswerName::ENotOk)
        } else {
            self.mode = mode;
            answers(AnswerName::EOk)
        }
    }

    /// What a call about a channel without an error does.
    fn work_on_channel(&mut self, number: u32, call: ChannelCall) -> Result<Told, AllocError>
        ensures is { IfOk result (λ told. outcome (state_of self.new) told ≡ spec.channel_work (channel_of self.old.configured.table number) (state_of self.old) number call) }
        ensures table { self.new.configured ≡ self.old.configured }
        ensures events { self.new.queue.events ≡ self.old.queue.events }
    {
        match call {
            ChannelCall::WriteIb(pointer) => self.write(number, pointer),
            ChannelCall::ReadIb => Ok(Told::with_answer(self.read(number))),
            ChannelCall::SetupEb(source, destination, words) => {
                self.set_up(
                    number,
                    SetUp {
                        source,
                        destination,
                        words,
                    },
                )
            }
        }
    }

    /// An internal channel is written.
    fn write(&mut self, number: u32, pointer: Pointer) -> Result<Told, AllocError>
        ensures is { IfOk result (λ told. outcome (state_of self.new) told ≡ spec.channel_work (channel_of self.old.configured.table number) (state_of self.old) number (ChannelCall.WriteIb pointer)) }
        ensures table { self.new.configured ≡ self.old.configured }
        ensures events { self.new.queue.events ≡ self.old.queue.events }
    {
        let channel = self.configured.table.channel(number);
        self.channels.write(self.alloc, number, pointer, channel)?;
        Ok(answers(AnswerName::EOk))
    }

    /// An internal channel is read.
    fn read(&self, number: u32) -> Answer
        ensures { result ≡ spec.read_answer (channel_of self.now.configured.table number) (state.channel_at (state_of self.now) number) }
    {
        let channel = self.configured.table.channel(number);
        Answer {
            head: Head::Name(AnswerName::EOk),
            words: self.channels.readable(self.alloc, number, channel),
        }
    }

    /// An external channel is set up.
    fn set_up(&mut self, number: u32, set_up: SetUp) -> Result<Told, AllocError>
        ensures is { IfOk result (λ told. outcome (state_of self.new) told ≡ spec.channel_work (channel_of self.old.configured.table number) (state_of self.old) number (ChannelCall.SetupEb set_up.source set_up.destination set_up.words)) }
        ensures table { self.new.configured ≡ self.old.configured }
        ensures events { self.new.queue.events ≡ self.old.queue.events }
    {
        self.channels.set_up(self.alloc, number, set_up)?;
        Ok(answers(AnswerName::EOk))
    }

    /// What a call about a sequence without an error does, but for one that sends it at once.
    fn work_on_sequence(&mut self, sequence: u32, call: SequenceCall) -> Result<Told, AllocError>
        requires { self.old.queue.events + 1 < 2 ^ 32 }
        ensures is { IfOk result (λ told. outcome (state_of self.new) told ≡ spec.sequence_work self.old.configured.table (state_of self.old) sequence call) }
        ensures table { self.new.configured ≡ self.old.configured }
        ensures events { IfOk result (λ _. self.new.queue.events ≤ self.old.queue.events + 1) }
    {
        match call {
            SequenceCall::AsyncTransmit => {
                self.accept(sequence)?;
                Ok(answers(AnswerName::EOk))
            }
            SequenceCall::Cancel => self.cancel(sequence),
            SequenceCall::SyncTransmit => Ok(Told::nothing()),
        }
    }

    /// The jobs of a sequence are queued.
    pub(super) fn queue_jobs(&mut self, sequence: u32) -> Result<(), AllocError>
        ensures state { IfOk result (λ _. state_of self.new ≡ record (state_of self.old) { job_results = pending.all_get SpiJobQueued (jobs_of self.old.configured.table sequence) (state_of self.old).job_results }) }
        ensures table { self.new.configured ≡ self.old.configured }
        ensures queue { self.new.queue ≡ self.old.queue }
    {
        let list = job_list(&self.configured.table, sequence);
        all_get(
            &mut self.job_results,
            jobs_listed(&list),
            AnswerName::SpiJobQueued,
        )
    }

    /// A request is accepted.
    fn accept(&mut self, sequence: u32) -> Result<(), AllocError>
        requires { self.old.queue.events + 1 < 2 ^ 32 }
        ensures state { IfOk result (λ _. state_of self.new ≡ spec.accepted self.old.configured.table (state_of self.old) sequence) }
        ensures table { self.new.configured ≡ self.old.configured }
        ensures events { IfOk result (λ _. self.new.queue.events ≤ self.old.queue.events + 1) }
    {
        self.push(sequence)?;
        self.set_sequence(sequence, AnswerName::SpiSeqPending)?;
        self.queue_jobs(sequence)
    }

    /// A sequence is pending, with the results that its jobs have now.
    fn push(&mut self, sequence: u32) -> Result<(), AllocError>
        requires { self.old.queue.events + 1 < 2 ^ 32 }
        ensures state { IfOk result (λ _. state_of self.new ≡ with_request self.old.configured.table (state_of self.old) sequence) }
        ensures table { self.new.configured ≡ self.old.configured }
        ensures events { IfOk result (λ _. self.new.queue.events ≡ self.old.queue.events + 1) }
    {
        let list = job_list(&self.configured.table, sequence);
        self.queue
            .request(sequence, jobs_listed(&list), &self.job_results)
    }

    /// A sequence is cancelled.
    fn cancel(&mut self, sequence: u32) -> Result<Told, AllocError>
        requires { self.old.queue.events + 1 < 2 ^ 32 }
        ensures is { IfOk result (λ told. outcome (state_of self.new) told ≡ spec.sequence_work self.old.configured.table (state_of self.old) sequence SequenceCall.Cancel) }
        ensures table { self.new.configured ≡ self.old.configured }
        ensures events { IfOk result (λ _. self.new.queue.events ≤ self.old.queue.events + 1) }
    {
        match self.queue.find(sequence) {
            Some(entry) => self.cancel_pending(entry),
            None => Ok(Told::nothing()),
        }
    }

    /// A pending sequence is cancelled: at once where none of its jobs runs.
    fn cancel_pending(&mut self, entry: Pending) -> Result<Told, AllocError>
        requires { self.old.queue.events + 1 < 2 ^ 32 }
        ensures is { IfOk result (λ told. outcome (state_of self.new) told ≡ spec.cancelled_by self.old.configured.table (state_of self.old) (pending_as entry) (state.is_running (state_of self.old) entry.sequence)) }
        ensures table { self.new.configured ≡ self.old.configured }
        ensures events { IfOk result (λ _. self.new.queue.events ≤ self.old.queue.events + 1) }
    {
        if self.units.is_running(entry.sequence) {
            self.queue.change(entry.sequence, Change::Cancels);
            Ok(Told::nothing())
        } else {
            let notice = sequence_notice(&self.configured.table, entry.sequence);
            self.end(entry, entry.next as u64, AnswerName::SpiSeqCanceled)?;
            Ok(Told::with_notices(both_notices(None, notice)))
        }
    }

    /// What a query answers.
    fn query(&self, query: Query) -> AnswerName
        ensures { result ≡ spec.query_answer (state_of self.now) query }
    {
        match query {
            Query::Status => status(self.mode.is_off(), self.is_busy()),
            Query::JobResult(job) => item(&self.job_results, job as usize, AnswerName::SpiJobOk),
            Query::SequenceResult(sequence) => item(
                &self.sequence_results,
                sequence as usize,
                AnswerName::SpiSeqOk,
            ),
            Query::HwUnitStatus(unit) => {
                let runs = self.units.runs(unit);
                let carries = self.units.carries(unit);
                status(false, runs || carries)
            }
        }
    }
}
