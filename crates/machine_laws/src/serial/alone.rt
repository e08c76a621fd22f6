//! A sequence that is left alone ends: its jobs end with their words, and it ends with its jobs.

ghost use Rattle.std.specs.Prelude.{◌≡◌, ◌+◌, ◌<◌, ℕ, length, List, Some, find};
ghost use Rattle.spi_machine.specs.Pending.{Pending, is_of};
ghost use Rattle.spi_machine.specs.Runs.{Occurrence};
ghost use Rattle.spi_machine.specs.State.{SpiState, run_at};
ghost use Rattle.spi_machine.specs.Table.{jobs_of};
ghost use Rattle.spi_machine.specs.Transfers.{Run};
ghost use Rattle.spi_machine.specs.declared.table.SpiTable.{SpiTable};
ghost use Rattle.machine_laws.specs.serial.Alone.{RunsOn, StaysPending};

/// A pending sequence that nothing drops ends as its last job ends, at the latest: while it stays pending, fewer of its jobs end
/// than it has left. And a job that a unit runs ends with its last word, at the latest: while the unit runs it, its line is served
/// less often than it has words left. So a sequence whose lines are served, and whose jobs start as what waits goes on, ends.
pub fn left_alone_ends()
    ensures jobs { (d : SpiTable) (q : ℕ) (s : SpiState) (p : Pending) (history : List Occurrence) (ends : ℕ)
        → find (is_of q) s.pending ≡ Some p → p.next < length (jobs_of d q) → StaysPending d q s history ends
        → p.next + ends < length (jobs_of d q) }
    ensures words { (d : SpiTable) (u : ℕ) (s : SpiState) (r : Run) (history : List Occurrence) (servings : ℕ)
        → run_at s u ≡ Some r → RunsOn d u s history servings → 0 < servings
        → length r.received + servings < length r.words }
{}
