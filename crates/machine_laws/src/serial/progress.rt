//! Results of requests and starts, when lines are ready and due, and that what waits goes on.

ghost use Rattle.std.specs.Prelude.{◌≡◌, ◌≢◌, ◌↔◌, ◌+◌, ◌≤◌, ℕ, true, false, [], ◌∷◌, length, Contains, List, Option, Some, None};
ghost use Rattle.std.specs.List.{list_all};
ghost use Rattle.mcal_base.specs.declared.answer_name.AnswerName.TheVariants.{EOk, SpiJobQueued, SpiJobPending};
ghost use Rattle.mcal_base.specs.declared.moves.Unit as units;
ghost use Rattle.run_model.specs.Machine.{Acts, Serves, Starts, Outcome, named};
ghost use Rattle.run_model.specs.World.{World};
ghost use Rattle.spi_machine.specs.Machine.{spi_machine, next_at, number_of, unit_of};
ghost use Rattle.spi_machine.specs.Pending.{Pending, is_for, job_result, next_job};
ghost use Rattle.spi_machine.specs.Runs.{Occurrence, after_all};
ghost use Rattle.spi_machine.specs.State.{SpiState, is_off, run_at};
ghost use Rattle.spi_machine.specs.Table.{jobs_of, is_sync_unit};
ghost use Rattle.spi_machine.specs.Transfers.{Run, goes_on};
ghost use Rattle.spi_machine.specs.declared.call.AsyncMode.TheVariants.{Polling, Interrupt};
ghost use Rattle.spi_machine.specs.declared.call.Call.{Call};
ghost use Rattle.spi_machine.specs.declared.call.Call.TheVariants.{Init, MainFunctionHandling, Sequence, SetAsyncMode};
ghost use Rattle.spi_machine.specs.declared.call.SequenceCall.TheVariants.{AsyncTransmit};
ghost use Rattle.spi_machine.specs.declared.table.SpiTable.{SpiTable};
ghost use Rattle.machine_laws.specs.serial.Buffers.{leaves_mode};

/// As a request is accepted each job of its sequence is queued, and as a unit that starts jobs starts one that job is
/// pending.
pub fn results_of_jobs_that_wait()
    ensures queued { (d : SpiTable) (w : World) (s : SpiState) (q job : ℕ) (times : ℕ → ℕ) (out : Outcome SpiState)
        → (spi_machine d).happens w s (Acts (Sequence q AsyncTransmit) times) ≡ Some out → out.told.error ≡ None
        → Contains (jobs_of d q) job → job_result out.state.job_results job ≡ SpiJobQueued }
    ensures pending { (d : SpiTable) (w : World) (s : SpiState) (unit : units.Unit) (made_by : Option Call) (received : ℕ) (out : Outcome SpiState) (u : ℕ) (p : Pending)
        → (spi_machine d).happens w s (Starts unit made_by received) ≡ Some out → number_of unit ≡ Some u → is_sync_unit d u ≡ false → next_at d s (Some u) ≡ Some p
        → job_result out.state.job_results (next_job d p) ≡ SpiJobPending }
{}

/// The line of a unit that runs a job is ready exactly from the time on at which the word in transfer has gone on for 8
/// ticks, and that of a free unit never is.
pub fn ready_by_times()
    ensures running { (d : SpiTable) (w : World) (s : SpiState) (line u : ℕ) (r : Run)
        → is_off s.mode ≡ false → unit_of line ≡ Some u → run_at s u ≡ Some r
        → ((spi_machine d).ready w s line ≡ true) ↔ (r.transfer.began + 8 ≤ w.now) }
    ensures free { (d : SpiTable) (w : World) (s : SpiState) (line u : ℕ)
        → unit_of line ≡ Some u → run_at s u ≡ None → (spi_machine d).ready w s line ≡ false }
{}

/// After `Spi_SetAsyncMode` that answers `E_OK`, until the mode is set anew: in interrupt mode a line is due exactly
/// where it is ready, and the main function serves none; in polling mode, and after `Spi_Init`, no line is due, and the
/// main function serves those of both units, unit 0 first.
pub fn lines_by_mode()
    ensures interrupt { (d : SpiTable) (w later : World) (s : SpiState) (line : ℕ) (times : ℕ → ℕ) (out : Outcome SpiState) (history : List Occurrence)
        → (spi_machine d).happens w s (Acts (SetAsyncMode Interrupt) times) ≡ Some out → out.told.error ≡ None → out.told.answer ≡ named EOk
        → list_all (λ (x : Occurrence). leaves_mode x.what) history ≡ true
        → let end = after_all d out.state history in
        (spi_machine d).due later end line ≡ (spi_machine d).ready later end line }
    ensures unpolled { (d : SpiTable) (w later : World) (s : SpiState) (times : ℕ → ℕ) (out : Outcome SpiState) (history : List Occurrence)
        → (spi_machine d).happens w s (Acts (SetAsyncMode Interrupt) times) ≡ Some out → out.told.error ≡ None → out.told.answer ≡ named EOk
        → list_all (λ (x : Occurrence). leaves_mode x.what) history ≡ true
        → (spi_machine d).polls later (after_all d out.state history) MainFunctionHandling ≡ [] }
    ensures polling { (d : SpiTable) (w later : World) (s : SpiState) (line : ℕ) (times : ℕ → ℕ) (out : Outcome SpiState) (history : List Occurrence)
        → (spi_machine d).happens w s (Acts (SetAsyncMode Polling) times) ≡ Some out → out.told.error ≡ None → out.told.answer ≡ named EOk
        → list_all (λ (x : Occurrence). leaves_mode x.what) history ≡ true
        → (spi_machine d).due later (after_all d out.state history) line ≡ false }
    ensures polled { (d : SpiTable) (w later : World) (s : SpiState) (times : ℕ → ℕ) (out : Outcome SpiState) (history : List Occurrence)
        → (spi_machine d).happens w s (Acts (SetAsyncMode Polling) times) ≡ Some out → out.told.error ≡ None → out.told.answer ≡ named EOk
        → list_all (λ (x : Occurrence). leaves_mode x.what) history ≡ true
        → (spi_machine d).polls later (after_all d out.state history) MainFunctionHandling ≡ 26 ∷ 27 ∷ [] }
    ensures initial { (d : SpiTable) (w later : World) (s : SpiState) (times : ℕ → ℕ) (out : Outcome SpiState) (history : List Occurrence)
        → (spi_machine d).happens w s (Acts Init times) ≡ Some out → out.told.error ≡ None
        → list_all (λ (x : Occurrence). leaves_mode x.what) history ≡ true
        → (spi_machine d).polls later (after_all d out.state history) MainFunctionHandling ≡ 26 ∷ 27 ∷ [] }
{}

/// What waits goes on: a free unit may start where a pending sequence has its next job on it, and a serving that doesn't
/// end the job begins its next word, with one word more received and the same words to send.
pub fn what_waits_goes_on()
    ensures startable { (d : SpiTable) (w : World) (s : SpiState) (unit : units.Unit) (u : ℕ) (p : Pending)
        → is_off s.mode ≡ false → number_of unit ≡ Some u → run_at s u ≡ None → Contains s.pending p → is_for d u p ≡ true
        → (spi_machine d).startable w s unit ≡ true }
    ensures received { (d : SpiTable) (w : World) (s : SpiState) (line received : ℕ) (out : Outcome SpiState) (u : ℕ) (r after : Run)
        → (spi_machine d).happens w s (Serves line received) ≡ Some out → unit_of line ≡ Some u → run_at s u ≡ Some r → goes_on r ≡ true
        → run_at out.state u ≡ Some after → length after.received ≡ length r.received + 1 }
    ensures runs { (d : SpiTable) (w : World) (s : SpiState) (line received : ℕ) (out : Outcome SpiState) (u : ℕ) (r : Run)
        → (spi_machine d).happens w s (Serves line received) ≡ Some out → unit_of line ≡ Some u → run_at s u ≡ Some r → goes_on r ≡ true
        → run_at out.state u ≢ None }
{}
