ghost use Rattle.std.specs.Prelude.{◌≡◌, ◌<◌, ◌≤◌, ◌+◌, ◌^◌, ℕ, IfOk, Some, true, false};
ghost use Rattle.run_model.specs.Machine.{outcome, tells_nothing};
ghost use Rattle.run_model.specs.World.{World};
ghost use Rattle.spi_machine.specs.Machine as spec;
ghost use Rattle.spi_machine.specs.State as state;
ghost use Rattle.spi_machine.specs.State.{SpiState};
ghost use Rattle.spi_machine.specs.Transfers as transfers;
ghost use Rattle.audit_base.specs.Deeds.{came};
ghost use Rattle.audit_serial.specs.Flows.{served_free};
ghost use Rattle.audit_serial.specs.Stands.{begins, state_of};

use super::{Serials, unit_of_line};
use crate::run::Run;
use audit_base::{Begun, Done, Told};
use std::alloc::AllocError;

impl Serials {
    /// A line is served: the done word of its unit is taken.
    pub(super) fn serve_line(
        &mut self,
        line: u32,
        received: u32,
        now: u64,
    ) -> Result<Done, AllocError>
        requires { self.old.queue.events + 1 < 2 ^ 32 }
        ensures is { (w : World) → w.now ≡ now →
            IfOk result (λ served. came (state_of self.new) served ≡ spec.served self.old.configured.table w (state_of self.old) (spec.unit_of line) received (spec.run_of (state_of self.old) (spec.unit_of line))) }
        ensures table { self.new.configured ≡ self.old.configured }
        ensures events { IfOk result (λ _. self.new.queue.events ≤ self.old.queue.events + 1) }
    {
        match unit_of_line(line) {
            Some(unit) => self.serve_unit(unit, received, now),
            None => Ok(nothing()),
        }
    }

    /// The done word of a unit is taken.
    fn serve_unit(&mut self, unit: u32, received: u32, now: u64) -> Result<Done, AllocError>
        requires { self.old.queue.events + 1 < 2 ^ 32 }
        ensures is { (w : World) → w.now ≡ now →
            IfOk result (λ served. came (state_of self.new) served ≡ spec.served self.old.configured.table w (state_of self.old) (Some unit) received (state.run_at (state_of self.old) unit)) }
        ensures table { self.new.configured ≡ self.old.configured }
        ensures events { IfOk result (λ _. self.new.queue.events ≤ self.old.queue.events + 1) }
    {
        match self.units.take_run(unit) {
            Some(run) => self.serve_run(unit, received, run, now),
            None => Ok(nothing()),
        }
    }

    /// The done word of a run is taken, of a unit that was made free.
    fn serve_run(
        &mut self,
        unit: u32,
        received: u32,
        run: Run,
        now: u64,
    ) -> Result<Done, AllocError>
        requires { self.old.queue.events + 1 < 2 ^ 32 }
        ensures is { (w : World) → w.now ≡ now →
            IfOk result (λ served. came (state_of self.new) served ≡ served_free self.old.configured.table w (state_of self.old) unit received run (transfers.goes_on run)) }
        ensures table { self.new.configured ≡ self.old.configured }
        ensures events { IfOk result (λ _. self.new.queue.events ≤ self.old.queue.events + 1) }
    {
        if run.goes_on() {
            let begun = self.go_on(unit, received, run, now)?;
            Ok(Done {
                told: Told::nothing(),
                begins: Some(begun),
            })
        } else {
            let told = self.end_run(run)?;
            Ok(Done { told, begins: None })
        }
    }

    /// The next word of a run begins.
    fn go_on(&mut self, unit: u32, received: u32, run: Run, now: u64) -> Result<Begun, AllocError>
        ensures is { (w : World) → w.now ≡ now →
            IfOk result (λ begun. begins (state_of self.new) begun ≡ served_free self.old.configured.table w (state_of self.old) unit received run true) }
        ensures table { self.new.configured ≡ self.old.configured }
        ensures events { IfOk result (λ _. self.new.queue.events ≡ self.old.queue.events) }
    {
        let mut run = run;
        let sequence = run.sequence();
        let entry = self.queue.find(sequence);
        self.channels.store(self.alloc, run.word(), run.incoming())?;
        run.go_on(sequence, received, now)?;
        self.begin_word(unit, received, entry, run)
    }

    /// A run ends.
    fn end_run(&mut self, run: Run) -> Result<Told, AllocError>
        requires { self.old.queue.events + 1 < 2 ^ 32 }
        ensures is { (w : World) (u received : ℕ) → IfOk result (λ told. outcome (state_of self.new) told ≡ served_free self.old.configured.table w (state_of self.old) u received run false) }
        ensures table { self.new.configured ≡ self.old.configured }
        ensures events { IfOk result (λ _. self.new.queue.events ≤ self.old.queue.events + 1) }
    {
        let failed = run.has_failed();
        let entry = self.queue.find(run.sequence());
        self.take_last(run, failed)?;
        self.end_job(failed, entry)
    }

    /// The last word of a run is taken, where it didn't fail.
    pub(super) fn take_last(&mut self, run: Run, failed: bool) -> Result<(), AllocError>
        ensures state { IfOk result (λ _. state_of self.new ≡ spec.after_last (state_of self.old) run failed) }
        ensures table { self.new.configured ≡ self.old.configured }
        ensures queue { self.new.queue ≡ self.old.queue }
    {
        if failed {
            Ok(())
        } else {
            self.channels.take_last(self.alloc, run)
        }
    }
}

/// Nothing is told, and no word begins.
fn nothing() -> Done
    ensures { (s : SpiState) → came s result ≡ outcome s tells_nothing }
{
    Done {
        told: Told::nothing(),
        begins: None,
    }
}
