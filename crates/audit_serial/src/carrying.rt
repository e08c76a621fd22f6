ghost use Rattle.std.specs.Prelude.{◌≡◌, Some};
ghost use Rattle.spi_machine.specs.Machine as machine;
ghost use Rattle.spi_machine.specs.Pending as queue;
ghost use Rattle.spi_machine.specs.State as spec;
ghost use Rattle.spi_machine.specs.Transfers as transfers;
ghost use Rattle.audit_serial.specs.Carried.{may_end_at, may_go_on_at};
ghost use Rattle.audit_serial.specs.Words.{pending_as, word_as};

use crate::options::sequence_uses;
use crate::pending::Pending;
use crate::run::Run;
use crate::words::JobWord;
use spi_machine::SpiTable;
use std::marker::Model;

/// What a unit carries out for a call: the call's sequence, and its job that runs.
#[derive(Drop)]
pub struct Carrying {
    entry: Pending,
    run: Run,
}

impl Model for Carrying {
    ghost use Rattle.spi_machine.specs.State as spec;
    ghost use Rattle.audit_serial.specs.Words.{pending_as};

    ghost Value = { spec.Carrying };

    ghost view = { λ t. record { entry = pending_as t.entry; run = t.run } };
}

impl Carrying {
    /// A unit carries out a sequence.
    pub(crate) fn new(entry: Pending, run: Run) -> Carrying
        ensures { result ≡ record { entry = pending_as entry; run = run } }
    {
        Carrying { entry, run }
    }

    /// The sequence.
    pub(crate) fn entry(&self) -> Pending
        ensures { pending_as result ≡ self.now.entry }
    {
        self.entry
    }

    /// Its job that runs.
    pub(crate) fn run(self) -> Run
        ensures { result ≡ self.run }
    {
        self.run
    }

    /// Whether it is this sequence.
    pub(crate) fn is_of(&self, sequence: u32) -> bool
        ensures { result ≡ queue.is_of sequence self.now.entry }
    {
        self.entry.is_of(sequence)
    }

    /// Whether a further word is there: of the job, or of a further job.
    fn sends_on(&self, table: &SpiTable) -> bool
        ensures { result ≡ machine.sends_on table.now self.now }
    {
        let goes_on = self.run.goes_on();
        let further = self.entry.has_further(table);
        goes_on || !self.run.has_failed() && further
    }

    /// Whether a further word may begin for a call.
    pub(crate) fn may_go_on(&self, table: &SpiTable, sequence: u32, now: u64) -> bool
        ensures { result ≡ may_go_on_at table.now now self.now sequence }
    {
        let done = self.run.is_done(now);
        let sends = self.sends_on(table);
        self.is_of(sequence) && done && sends
    }

    /// Whether its call may end.
    pub(crate) fn may_end(&self, table: &SpiTable, now: u64) -> bool
        ensures { result ≡ may_end_at table.now now self.now }
    {
        let done = self.run.is_done(now);
        let sends = self.sends_on(table);
        done && !sends
    }

    /// Whether it uses a channel.
    pub(crate) fn uses(&self, table: &SpiTable, channel: u32) -> bool
        ensures { result ≡ spec.carries_channel table.now channel (Some self.now) }
    {
        sequence_uses(table, channel, self.entry.sequence)
    }

    /// A fault comes on the wire.
    pub(crate) fn fault(&mut self, now: u64)
        ensures { Some self.new ≡ machine.faulted_carrying now (Some self.old) }
    {
        self.run.fault(now);
    }

    /// Its word in transfer.
    pub(crate) fn word(&self) -> JobWord
        ensures { word_as result ≡ transfers.word_of self.now.run }
    {
        self.run.word()
    }
}
