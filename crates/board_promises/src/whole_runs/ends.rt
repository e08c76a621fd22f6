//! The order of jobs and the ends of sequences of the serial driver.

ghost use Rattle.std.specs.Prelude.{List, ℕ};
ghost use Rattle.spi_machine.specs.Promised.{HasPriorities};
ghost use Rattle.spi_machine.specs.Machine.{spi_machine};
ghost use Rattle.spi_machine.specs.State.{first_state};
ghost use Rattle.spi_machine.specs.declared.call.Call.{Call};
ghost use Rattle.spi_machine.specs.declared.table.SpiTable.{SpiTable};
ghost use Rattle.board_promises.specs.whole_runs.Ends.{AreEnded, HasOneEnd};
ghost use Rattle.board_promises.specs.whole_runs.Order.{AreInOrder};
ghost use Rattle.board_promises.specs.whole_runs.Runs.{Event, AreAllowed};
ghost use Rattle.board_promises.specs.whole_runs.SequenceRuns.{seen_of};

/// In every run, between an accepted request of a sequence and the next one of the same sequence, with no reset between,
/// there is exactly one end, with one result; where the run stops first or a reset comes between, there is at most one.
/// Where a notice is configured an end tells it exactly once, and nothing else tells it.
pub fn sequences_end_once()
    ensures results { (d : SpiTable) (past : List (Event Call)) → AreAllowed (spi_machine d) first_state past → AreEnded d (seen_of d past) }
    ensures ends { (d : SpiTable) (past : List (Event Call)) (q : ℕ) → AreAllowed (spi_machine d) first_state past → HasOneEnd q (seen_of d past) }
{}

/// In every run each start on a serial unit starts the next job: that of a started sequence that isn't interruptible, else
/// the one of highest priority, and among equals that of the earliest request.
pub fn jobs_start_in_order()
    ensures { (d : SpiTable) (past : List (Event Call)) → HasPriorities d → AreAllowed (spi_machine d) first_state past → AreInOrder d (seen_of d past) }
{}
