ghost use Rattle.std.specs.Prelude.{◌≡◌, IfOk, None, Some, true, option_map, if◌then◌else◌};
ghost use Rattle.mcal_base.specs.declared.answer_name.AnswerName.TheVariants.{EOk, ENotOk};
ghost use Rattle.run_model.specs.Machine.{outcome};
ghost use Rattle.run_model.specs.World.{World};
ghost use Rattle.spi_machine.specs.Machine as spec;
ghost use Rattle.spi_machine.specs.State as state;
ghost use Rattle.spi_machine.specs.Transfers as transfers;
ghost use Rattle.spi_machine.specs.Wiring as wiring;
ghost use Rattle.audit_serial.specs.Carried.{may_go_on_at};
ghost use Rattle.audit_serial.specs.Flows.{SendsOn, ends_by, sent_free};
ghost use Rattle.audit_serial.specs.Stands.{begins, state_of};
ghost use Rattle.audit_serial.specs.Words.{pending_as};

use super::Serials;
use super::ends::{job_result, sequence_result};
use super::starts::begun;
use crate::carrying::Carrying;
use crate::options::{job_list, jobs_listed, unit_of};
use crate::pending::{Pending, device_of};
use crate::run::Run;
use audit_base::{Begun, Told, named};
use mcal_base::{AnswerName, ErrorName};
use spi_machine::{Call, SequenceCall};
use std::alloc::AllocError;

impl Serials {
    /// A word of a sequence that a call sends begins on a unit, where it may.
    pub(super) fn send_on(
        &mut self,
        unit: u32,
        received: u32,
        sequence: Option<u32>,
        now: u64,
    ) -> Result<Option<Begun>, AllocError>
        ensures is { (w : World) → w.now ≡ now →
            IfOk result (λ begun. option_map (begins (state_of self.new)) begun ≡ spec.sent_word self.old.configured.table w (state_of self.old) unit received sequence) }
        ensures unchanged { IfOk result (λ begun. begun ≡ None → self.new ≡ self.old) }
        ensures table { self.new.configured ≡ self.old.configured }
        ensures queue { IfOk result (λ _. self.new.queue ≡ self.old.queue) }
    {
        match sequence {
            Some(sequence) => {
                let own = unit_of(&self.configured.table, sequence);
                if own == unit {
                    self.send(unit, received, sequence, now)
                } else {
                    Ok(None)
                }
            }
            None => Ok(None),
        }
    }

    /// A word of a sequence begins on its unit, where it may.
    fn send(
        &mut self,
        unit: u32,
        received: u32,
        sequence: u32,
        now: u64,
    ) -> Result<Option<Begun>, AllocError>
        requires { wiring.unit_of_sequence self.old.configured.table sequence ≡ unit }
        ensures is { (w : World) → w.now ≡ now →
            IfOk result (λ begun. option_map (begins (state_of self.new)) begun ≡ spec.sent_from self.old.configured.table w (state_of self.old) unit received sequence (spec.carried_for self.old.configured.table (state_of self.old) sequence)) }
        ensures unchanged { IfOk result (λ begun. begun ≡ None → self.new ≡ self.old) }
        ensures table { self.new.configured ≡ self.old.configured }
        ensures queue { IfOk result (λ _. self.new.queue ≡ self.old.queue) }
    {
        match self.may_go_on(sequence, now) {
            Some(may) => {
                if may {
                    self.send_next(unit, received, now)
                } else {
                    Ok(None)
                }
            }
            None => self.send_first(unit, received, sequence, now),
        }
    }

    /// Whether a further word of a sequence may begin, where its unit carries one out.
    fn may_go_on(&self, sequence: u32, now: u64) -> Option<bool>
        ensures { result ≡ option_map (λ x. may_go_on_at self.now.configured.table now x sequence) (spec.carried_for self.now.configured.table (state_of self.now) sequence) }
    {
        match self.carrying(sequence) {
            Some(carrying) => Some(carrying.may_go_on(&self.configured.table, sequence, now)),
            None => None,
        }
    }

    /// The first word of a sequence begins, where its call finds no error.
    fn send_first(
        &mut self,
        unit: u32,
        received: u32,
        sequence: u32,
        now: u64,
    ) -> Result<Option<Begun>, AllocError>
        ensures is { (w : World) → w.now ≡ now →
            IfOk result (λ begun. option_map (begins (state_of self.new)) begun ≡ spec.sent_first self.old.configured.table w (state_of self.old) unit received sequence (spec.error_of_sending self.old.configured.table (state_of self.old) sequence)) }
        ensures unchanged { IfOk result (λ begun. begun ≡ None → self.new ≡ self.old) }
        ensures table { self.new.configured ≡ self.old.configured }
        ensures queue { IfOk result (λ _. self.new.queue ≡ self.old.queue) }
    {
        match self.sending_error(sequence) {
            Some(_) => Ok(None),
            None => {
                let begun = self.begin_sequence(unit, received, sequence, now)?;
                Ok(Some(begun))
            }
        }
    }

    /// What a call finds wrong with a sequence that it sends.
    fn sending_error(&self, sequence: u32) -> Option<ErrorName>
        ensures { result ≡ spec.error_of_sending self.now.configured.table (state_of self.now) sequence }
    {
        self.error(Call::Sequence(sequence, SequenceCall::SyncTransmit))
    }

    /// The first word of a sequence begins: it is pending, and its jobs are queued.
    fn begin_sequence(
        &mut self,
        unit: u32,
        received: u32,
        sequence: u32,
        now: u64,
    ) -> Result<Begun, AllocError>
        ensures is { (w : World) → w.now ≡ now →
            IfOk result (λ begun. begins (state_of self.new) begun ≡ spec.carries_job self.old.configured.table w (spec.sequence_begun self.old.configured.table (state_of self.old) sequence) unit received (spec.as_requested self.old.configured.table (state_of self.old) sequence)) }
        ensures table { self.new.configured ≡ self.old.configured }
        ensures queue { IfOk result (λ _. self.new.queue ≡ self.old.queue) }
    {
        let entry = self.requested(sequence);
        self.set_sequence(sequence, AnswerName::SpiSeqPending)?;
        self.queue_jobs(sequence)?;
        self.carry_job(unit, received, entry, now)
    }

    /// A sequence as a unit takes it: with the results that its jobs have now.
    fn requested(&self, sequence: u32) -> Pending
        ensures { pending_as result ≡ spec.as_requested self.now.configured.table (state_of self.now) sequence }
    {
        let list = job_list(&self.configured.table, sequence);
        Pending::requested(sequence, 0, jobs_listed(&list), &self.job_results)
    }

    /// The next job of a sequence is pending, and its first word begins.
    fn carry_job(
        &mut self,
        unit: u32,
        received: u32,
        entry: Pending,
        now: u64,
    ) -> Result<Begun, AllocError>
        ensures is { (w : World) → w.now ≡ now →
            IfOk result (λ begun. begins (state_of self.new) begun ≡ spec.carries_job self.old.configured.table w (state_of self.old) unit received (pending_as entry)) }
        ensures table { self.new.configured ≡ self.old.configured }
        ensures queue { IfOk result (λ _. self.new.queue ≡ self.old.queue) }
    {
        let job = entry.next_job(&self.configured.table);
        self.set_job(job, AnswerName::SpiJobPending)?;
        let run = self.first_run(entry.sequence, job, received, now)?;
        self.carry_on(unit, received, entry, run)
    }

    /// A word of a sequence's job begins.
    fn carry_on(
        &mut self,
        unit: u32,
        received: u32,
        entry: Pending,
        run: Run,
    ) -> Result<Begun, AllocError>
        ensures is { IfOk result (λ begun. begins (state_of self.new) begun ≡ spec.carries_on self.old.configured.table (state_of self.old) unit received (pending_as entry) run) }
        ensures table { self.new.configured ≡ self.old.configured }
        ensures queue { IfOk result (λ _. self.new.queue ≡ self.old.queue) }
    {
        let begun = begun(
            unit,
            device_of(&self.configured.table, Some(entry)),
            run.word(),
        );
        self.units
            .put_carried(self.alloc, unit, received, Carrying::new(entry, run))?;
        Ok(begun)
    }

    /// A further word of what a unit carries out begins.
    fn send_next(&mut self, unit: u32, received: u32, now: u64) -> Result<Option<Begun>, AllocError>
        requires { SendsOn self.old.configured.table (state.carried_at (state_of self.old) unit) }
        ensures is { (w : World) → w.now ≡ now →
            IfOk result (λ begun. option_map (begins (state_of self.new)) begun ≡ option_map (λ x. spec.sent_on self.old.configured.table w (state_of self.old) unit received x (transfers.goes_on x.run)) (state.carried_at (state_of self.old) unit)) }
        ensures unchanged { IfOk result (λ begun. begun ≡ None → self.new ≡ self.old) }
        ensures table { self.new.configured ≡ self.old.configured }
        ensures queue { IfOk result (λ _. self.new.queue ≡ self.old.queue) }
    {
        match self.units.take_carried(unit) {
            Some(carrying) => {
                let entry = carrying.entry();
                let begun = self.send_taken(unit, received, entry, carrying.run(), now)?;
                Ok(Some(begun))
            }
            None => Ok(None),
        }
    }

    /// The same, where it was taken from the unit.
    fn send_taken(
        &mut self,
        unit: u32,
        received: u32,
        entry: Pending,
        run: Run,
        now: u64,
    ) -> Result<Begun, AllocError>
        requires { SendsOn self.old.configured.table (Some (record { entry = pending_as entry; run = run })) }
        ensures is { (w : World) → w.now ≡ now →
            IfOk result (λ begun. begins (state_of self.new) begun ≡ spec.sent_on self.old.configured.table w (state_of self.old) unit received (record { entry = pending_as entry; run = run }) (transfers.goes_on run)) }
        ensures table { self.new.configured ≡ self.old.configured }
        ensures queue { IfOk result (λ _. self.new.queue ≡ self.old.queue) }
    {
        if run.goes_on() {
            self.send_same(unit, received, entry, run, now)
        } else {
            let next = entry.following(&self.configured.table);
            self.finish_job(entry, run, false)?;
            self.carry_job(unit, received, next, now)
        }
    }

    /// The next word of the same job begins.
    fn send_same(
        &mut self,
        unit: u32,
        received: u32,
        entry: Pending,
        run: Run,
        now: u64,
    ) -> Result<Begun, AllocError>
        ensures is { (w : World) → w.now ≡ now →
            IfOk result (λ begun. begins (state_of self.new) begun ≡ spec.sent_on self.old.configured.table w (state_of self.old) unit received (record { entry = pending_as entry; run = run }) true) }
        ensures table { self.new.configured ≡ self.old.configured }
        ensures queue { IfOk result (λ _. self.new.queue ≡ self.old.queue) }
    {
        let mut run = run;
        self.channels.store(self.alloc, run.word(), run.incoming())?;
        run.go_on(entry.sequence, received, now)?;
        self.carry_on(unit, received, entry, run)
    }

    /// The last word of a job is taken, and the job has its result.
    fn finish_job(&mut self, entry: Pending, run: Run, failed: bool) -> Result<(), AllocError>
        ensures state { IfOk result (λ _. state_of self.new ≡ spec.job_done self.old.configured.table (state_of self.old) (record { entry = pending_as entry; run = run }) failed) }
        ensures table { self.new.configured ≡ self.old.configured }
        ensures queue { IfOk result (λ _. self.new.queue ≡ self.old.queue) }
    {
        let job = entry.next_job(&self.configured.table);
        self.take_last(run, failed)?;
        self.set_job(job, job_result(failed))
    }

    /// A call that sends a sequence ends, where it may: its last word is taken, or it finds an error.
    pub(super) fn end_sending(
        &mut self,
        sequence: u32,
        now: u64,
    ) -> Result<Option<Told>, AllocError>
        ensures is { (w : World) → w.now ≡ now →
            IfOk result (λ told. option_map (outcome (state_of self.new)) told ≡ spec.sending_ends self.old.configured.table w (state_of self.old) sequence (spec.carried_for self.old.configured.table (state_of self.old) sequence)) }
        ensures unchanged { IfOk result (λ told. told ≡ None → self.new ≡ self.old) }
        ensures table { self.new.configured ≡ self.old.configured }
        ensures queue { IfOk result (λ _. self.new.queue ≡ self.old.queue) }
    {
        match self.may_end(sequence, now) {
            Some(may) => {
                if may {
                    self.end_carried(sequence)
                } else {
                    Ok(None)
                }
            }
            None => Ok(self.not_sent(sequence)),
        }
    }

    /// Whether the call of a sequence may end, where its unit carries the sequence out.
    fn may_end(&self, sequence: u32, now: u64) -> Option<bool>
        ensures { result ≡ ends_by self.now.configured.table now sequence (spec.carried_for self.now.configured.table (state_of self.now) sequence) }
    {
        match self.carrying(sequence) {
            Some(carrying) => {
                if carrying.is_of(sequence) {
                    Some(carrying.may_end(&self.configured.table, now))
                } else {
                    None
                }
            }
            None => None,
        }
    }

    /// A call that began no word finds an error, or may not end.
    fn not_sent(&self, sequence: u32) -> Option<Told>
        ensures { option_map (outcome (state_of self.now)) result ≡ spec.not_sent (state_of self.now) sequence (spec.error_of_sending self.now.configured.table (state_of self.now) sequence) }
    {
        match self.sending_error(sequence) {
            Some(error) => Some(Told::with_error(named(AnswerName::ENotOk), error)),
            None => None,
        }
    }

    /// What the unit of a sequence carries out ends.
    fn end_carried(&mut self, sequence: u32) -> Result<Option<Told>, AllocError>
        ensures is { IfOk result (λ told. option_map (outcome (state_of self.new)) told ≡ option_map (λ x. spec.sent self.old.configured.table (state_of self.old) (wiring.unit_of_sequence self.old.configured.table sequence) x x.run.transfer.failed) (state.carried_at (state_of self.old) (wiring.unit_of_sequence self.old.configured.table sequence))) }
        ensures unchanged { IfOk result (λ told. told ≡ None → self.new ≡ self.old) }
        ensures table { self.new.configured ≡ self.old.configured }
        ensures queue { IfOk result (λ _. self.new.queue ≡ self.old.queue) }
    {
        let unit = unit_of(self.configured.table(), sequence);
        match self.units.take_carried(unit) {
            Some(carrying) => {
                let entry = carrying.entry();
                let told = self.end_taken(entry, carrying.run())?;
                Ok(Some(told))
            }
            None => Ok(None),
        }
    }

    /// The same, where it was taken from the unit.
    fn end_taken(&mut self, entry: Pending, run: Run) -> Result<Told, AllocError>
        ensures is { IfOk result (λ told. outcome (state_of self.new) told ≡ sent_free self.old.configured.table (state_of self.old) (record { entry = pending_as entry; run = run }) run.transfer.failed) }
        ensures table { self.new.configured ≡ self.old.configured }
        ensures queue { IfOk result (λ _. self.new.queue ≡ self.old.queue) }
    {
        let failed = run.has_failed();
        self.finish_job(entry, run, failed)?;
        self.set_sequence(entry.sequence, sequence_result(failed))?;
        self.restore_jobs(entry, entry.next as u64 + 1)?;
        Ok(Told::with_answer(named(sending_answer(failed))))
    }
}

/// What a call answers that has sent its sequence.
fn sending_answer(failed: bool) -> AnswerName
    ensures { result ≡ (if failed then ENotOk else EOk) }
{
    if failed {
        AnswerName::ENotOk
    } else {
        AnswerName::EOk
    }
}
