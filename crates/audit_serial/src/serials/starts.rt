ghost use Rattle.std.specs.Prelude.{◌≡◌, ◌<◌, ◌≤◌, ◌+◌, ◌^◌, [], IfOk, None, Some, option_map};
ghost use Rattle.run_model.specs.World.{World};
ghost use Rattle.spi_machine.specs.Machine as spec;
ghost use Rattle.spi_machine.specs.Transfers as transfers;
ghost use Rattle.audit_base.specs.Deeds.{begun_of};
ghost use Rattle.audit_serial.specs.Stands.{begins, state_of};
ghost use Rattle.audit_serial.specs.Words.{pending_as};

use super::Serials;
use crate::pending::{Pending, device_of};
use crate::queue::Change;
use crate::run::Run;
use crate::words::JobWord;
use audit_base::Begun;
use mcal_base::AnswerName;
use std::alloc::AllocError;

/// A word of a job that begins on a unit, for a device.
pub(super) fn begun(unit: u32, device: Option<u8>, word: JobWord) -> Begun
    ensures { begun_of result ≡ record { unit = unit; word = word.sent; width = word.width; device = device } }
{
    Begun {
        unit,
        word: word.sent,
        width: word.width,
        device,
    }
}

impl Serials {
    /// A unit starts its next job, where there is one.
    pub(super) fn start_next(
        &mut self,
        unit: u32,
        received: u32,
        now: u64,
    ) -> Result<Option<Begun>, AllocError>
        requires { self.old.queue.events + 1 < 2 ^ 32 }
        ensures is { (w : World) → w.now ≡ now →
            IfOk result (λ begun. option_map (begins (state_of self.new)) begun ≡ spec.start_by self.old.configured.table w (state_of self.old) (Some unit) received (spec.next_at self.old.configured.table (state_of self.old) (Some unit))) }
        ensures unchanged { IfOk result (λ begun. begun ≡ None → self.new ≡ self.old) }
        ensures table { self.new.configured ≡ self.old.configured }
        ensures events { IfOk result (λ _. self.new.queue.events ≤ self.old.queue.events + 1) }
    {
        match self.next_on(unit) {
            Some(entry) => {
                let begun = self.start_job(unit, received, entry, now)?;
                Ok(Some(begun))
            }
            None => Ok(None),
        }
    }

    /// The next job of a sequence starts on a unit.
    fn start_job(
        &mut self,
        unit: u32,
        received: u32,
        entry: Pending,
        now: u64,
    ) -> Result<Begun, AllocError>
        requires { self.old.queue.events + 1 < 2 ^ 32 }
        ensures is { (w : World) → w.now ≡ now →
            IfOk result (λ begun. begins (state_of self.new) begun ≡ spec.started self.old.configured.table w (state_of self.old) unit received (pending_as entry)) }
        ensures table { self.new.configured ≡ self.old.configured }
        ensures events { IfOk result (λ _. self.new.queue.events ≤ self.old.queue.events + 1) }
    {
        let job = entry.next_job(&self.configured.table);
        self.queue.change(entry.sequence, Change::Starts);
        self.set_job(job, AnswerName::SpiJobPending)?;
        let run = self.first_run(entry.sequence, job, received, now)?;
        self.begin_word(unit, received, Some(entry), run)
    }

    /// The first word of a job begins: its words are those of its channels as they stand.
    pub(super) fn first_run(
        &self,
        sequence: u32,
        job: u32,
        received: u32,
        now: u64,
    ) -> Result<Run, AllocError>
        ensures { IfOk result (λ run. run ≡ transfers.begun now received sequence (spec.job_words self.now.configured.table (state_of self.now) job) []) }
    {
        let words = self
            .channels
            .job_words(self.alloc, &self.configured.table, job)?;
        Ok(Run::begun(self.alloc, sequence, words, received, now))
    }

    /// The word of a run begins on a unit.
    pub(super) fn begin_word(
        &mut self,
        unit: u32,
        received: u32,
        entry: Option<Pending>,
        run: Run,
    ) -> Result<Begun, AllocError>
        ensures is { IfOk result (λ begun. begins (state_of self.new) begun ≡ spec.begins_on self.old.configured.table (state_of self.old) unit received (option_map pending_as entry) run) }
        ensures table { self.new.configured ≡ self.old.configured }
        ensures events { self.new.queue.events ≡ self.old.queue.events }
    {
        let begun = begun(unit, device_of(&self.configured.table, entry), run.word());
        self.units.put_run(self.alloc, unit, received, run)?;
        Ok(begun)
    }
}
