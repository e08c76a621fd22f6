//! Which result an end gives, and what a call that waits has sent.

ghost use Rattle.std.specs.Prelude.{◌≡◌, ◌≢◌, ℕ, true, List, None};
ghost use Rattle.mcal_base.specs.declared.answer_name.AnswerName.TheVariants.{SpiJobFailed};
ghost use Rattle.spi_machine.specs.Machine.{spi_machine};
ghost use Rattle.spi_machine.specs.Pending.{job_result};
ghost use Rattle.spi_machine.specs.State.{first_state, run_at};
ghost use Rattle.spi_machine.specs.Table.{is_sync_unit};
ghost use Rattle.spi_machine.specs.declared.call.Call.{Call};
ghost use Rattle.spi_machine.specs.declared.table.SpiTable.{SpiTable};
ghost use Rattle.board_promises.specs.whole_runs.Runs.{Event, AreAllowed, NoneOf};
ghost use Rattle.board_promises.specs.run_laws.Results.{AreEndedAs, state_of, can_fail};
ghost use Rattle.board_promises.specs.run_laws.Sent.{AreSent};

/// In every run each end of a requested sequence gives the result that the events say. It is cancelled where a cancel
/// came since the request, at that cancel or as its running job ends. Else it ends as its own job ends: failed where
/// that job's word had failed, by a refused exchange as it began or a fault of its unit's wire before it was done; and
/// OK where the word hadn't, and no further job of it is there.
pub fn ends_by_their_events()
    ensures { (d : SpiTable) (past : List (Event Call)) → AreAllowed (spi_machine d) first_state past → AreEndedAs d past }
{}

/// In every run a call of `Spi_SyncTransmit` that ends with `E_OK` has sent all jobs of its sequence in their order,
/// each with all its words as its channels stood when it began, and nothing else on its unit, which was free before.
/// Each word was done before the next one began, or the call ended, and none failed. Each word that came in was stored
/// as it was taken, where a user's array takes it, and as its job ended, where an internal channel does. Its sequence is
/// OK. One that ends with `E_NOT_OK` and no error ends by a word that failed, and its sequence has failed. That a call
/// begins no word behind its act is a rule of legal runs.
pub fn calls_that_wait_send_all()
    ensures { (d : SpiTable) (past : List (Event Call)) → AreAllowed (spi_machine d) first_state past → AreSent d past }
{}

/// In every run a unit whose sequences `Spi_SyncTransmit` sends runs no job of a requested sequence, so that its line is
/// never ready.
pub fn units_that_send_run_no_job()
    ensures { (d : SpiTable) (past : List (Event Call)) (unit : ℕ) → AreAllowed (spi_machine d) first_state past
        → is_sync_unit d unit ≡ true → run_at (state_of d past) unit ≡ None }
{}

/// In every run in which no exchange was refused and no fault met a wire no job has failed.
pub fn jobs_fail_by_faults_alone()
    ensures { (d : SpiTable) (past : List (Event Call)) (job : ℕ)
        → AreAllowed (spi_machine d) first_state past → NoneOf can_fail past
        → job_result (state_of d past).job_results job ≢ SpiJobFailed }
{}
