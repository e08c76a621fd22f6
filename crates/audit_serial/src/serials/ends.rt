ghost use Rattle.std.specs.Prelude.{◌≡◌, ◌<◌, ◌≤◌, ◌+◌, ◌^◌, IfOk, Some, option_map};
ghost use Rattle.mcal_base.specs.declared.answer_name.AnswerName.TheVariants.{SpiJobOk, SpiSeqOk};
ghost use Rattle.run_model.specs.Machine.{outcome};
ghost use Rattle.spi_machine.specs.Machine as spec;
ghost use Rattle.spi_machine.specs.Numbered.{with_item};
ghost use Rattle.spi_machine.specs.Pending as pending;
ghost use Rattle.audit_serial.specs.Flows.{over_by};
ghost use Rattle.audit_serial.specs.Stands.{state_of};
ghost use Rattle.audit_serial.specs.Words.{pending_as};

use super::Serials;
use crate::numbered::set_item;
use crate::options::{both_notices, job_list, job_notice, jobs_listed, sequence_notice};
use crate::pending::Pending;
use crate::queue::Change;
use crate::results::give_back;
use audit_base::Told;
use mcal_base::AnswerName;
use std::alloc::AllocError;

/// The result of a job.
pub(super) fn job_result(failed: bool) -> AnswerName
    ensures { result ≡ spec.result_by failed }
{
    if failed {
        AnswerName::SpiJobFailed
    } else {
        AnswerName::SpiJobOk
    }
}

/// The result of a sequence.
pub(super) fn sequence_result(failed: bool) -> AnswerName
    ensures { result ≡ spec.sequence_result_by failed }
{
    if failed {
        AnswerName::SpiSeqFailed
    } else {
        AnswerName::SpiSeqOk
    }
}

impl Serials {
    /// A job gets a result.
    pub(super) fn set_job(&mut self, job: u32, name: AnswerName) -> Result<(), AllocError>
        ensures state { IfOk result (λ _. state_of self.new ≡ record (state_of self.old) { job_results = with_item SpiJobOk (state_of self.old).job_results job name }) }
        ensures table { self.new.configured ≡ self.old.configured }
        ensures queue { self.new.queue ≡ self.old.queue }
    {
        set_item(
            &mut self.job_results,
            job as usize,
            AnswerName::SpiJobOk,
            name,
        )
    }

    /// A sequence gets a result.
    pub(super) fn set_sequence(&mut self, sequence: u32, name: AnswerName) -> Result<(), AllocError>
        ensures state { IfOk result (λ _. state_of self.new ≡ record (state_of self.old) { sequence_results = with_item SpiSeqOk (state_of self.old).sequence_results sequence name }) }
        ensures table { self.new.configured ≡ self.old.configured }
        ensures queue { self.new.queue ≡ self.old.queue }
    {
        set_item(
            &mut self.sequence_results,
            sequence as usize,
            AnswerName::SpiSeqOk,
            name,
        )
    }

    /// The jobs of a sequence from a place on get back what they had.
    pub(super) fn restore_jobs(&mut self, entry: Pending, from: u64) -> Result<(), AllocError>
        ensures state { IfOk result (λ _. state_of self.new ≡ record (state_of self.old) { job_results = pending.given_back self.old.configured.table (pending_as entry) from (state_of self.old).job_results }) }
        ensures table { self.new.configured ≡ self.old.configured }
        ensures queue { self.new.queue ≡ self.old.queue }
    {
        let list = job_list(&self.configured.table, entry.sequence);
        give_back(
            &mut self.job_results,
            jobs_listed(&list),
            entry.results(),
            from,
        )
    }

    /// A sequence ends with a result; its jobs from a place on never ran.
    pub(super) fn end(
        &mut self,
        entry: Pending,
        from: u64,
        name: AnswerName,
    ) -> Result<(), AllocError>
        ensures state { IfOk result (λ _. state_of self.new ≡ spec.ended self.old.configured.table (state_of self.old) (pending_as entry) from name) }
        ensures table { self.new.configured ≡ self.old.configured }
        ensures events { self.new.queue.events ≡ self.old.queue.events }
    {
        self.queue.remove(entry.sequence);
        self.set_sequence(entry.sequence, name)?;
        self.restore_jobs(entry, from)
    }

    /// A sequence ends with its job, or its next job waits.
    pub(super) fn go_past(
        &mut self,
        entry: Pending,
        ends: Option<AnswerName>,
    ) -> Result<Told, AllocError>
        requires { self.old.queue.events + 1 < 2 ^ 32 }
        ensures is { IfOk result (λ told. outcome (state_of self.new) told ≡ spec.sequence_after self.old.configured.table (state_of self.old) (pending_as entry) ends) }
        ensures table { self.new.configured ≡ self.old.configured }
        ensures events { self.new.queue.events ≤ self.old.queue.events + 1 }
    {
        let first = job_notice(
            &self.configured.table,
            entry.next_job(&self.configured.table),
        );
        match ends {
            Some(name) => {
                let second = sequence_notice(&self.configured.table, entry.sequence);
                self.end(entry, entry.next as u64 + 1, name)?;
                Ok(Told::with_notices(both_notices(first, second)))
            }
            None => {
                self.queue.change(entry.sequence, Change::GoesOn);
                Ok(Told::with_notices(both_notices(first, None)))
            }
        }
    }

    /// The job of a unit that was made free is over.
    pub(super) fn end_job(
        &mut self,
        failed: bool,
        entry: Option<Pending>,
    ) -> Result<Told, AllocError>
        requires { self.old.queue.events + 1 < 2 ^ 32 }
        ensures is { IfOk result (λ told. outcome (state_of self.new) told ≡ over_by self.old.configured.table (state_of self.old) failed (option_map pending_as entry)) }
        ensures table { self.new.configured ≡ self.old.configured }
        ensures events { self.new.queue.events ≤ self.old.queue.events + 1 }
    {
        match entry {
            Some(entry) => self.end_job_of(failed, entry),
            None => Ok(Told::nothing()),
        }
    }

    /// The same, where its sequence is pending.
    fn end_job_of(&mut self, failed: bool, entry: Pending) -> Result<Told, AllocError>
        requires { self.old.queue.events + 1 < 2 ^ 32 }
        ensures is { IfOk result (λ told. outcome (state_of self.new) told ≡ over_by self.old.configured.table (state_of self.old) failed (Some (pending_as entry))) }
        ensures table { self.new.configured ≡ self.old.configured }
        ensures events { self.new.queue.events ≤ self.old.queue.events + 1 }
    {
        let job = entry.next_job(&self.configured.table);
        let ends = entry.ends_by(&self.configured.table, failed);
        self.set_job(job, job_result(failed))?;
        self.go_past(entry, ends)
    }
}
