//! How sequences go on and end.

ghost use Rattle.std.specs.Prelude.{◌≡◌, ◌||◌, ℕ, true, false, not, [], Option, Some, None, find};
ghost use Rattle.mcal_base.specs.declared.moves.Unit as units;
ghost use Rattle.run_model.specs.Machine.{Happening, Acts, Serves, Starts, Outcome};
ghost use Rattle.run_model.specs.World.{World};
ghost use Rattle.spi_machine.specs.Machine.{spi_machine, next_at, number_of};
ghost use Rattle.spi_machine.specs.Pending.{Pending, is_of, has_further, goes_to_next, cancels, starts, sequence_result};
ghost use Rattle.spi_machine.specs.Promised.{drops};
ghost use Rattle.spi_machine.specs.State.{SpiState, is_running};
ghost use Rattle.spi_machine.specs.Transfers.{Run};
ghost use Rattle.spi_machine.specs.Table.{is_sync_unit};
ghost use Rattle.spi_machine.specs.Wiring.{is_sync_sequence};
ghost use Rattle.spi_machine.specs.declared.call.Call.{Call};
ghost use Rattle.spi_machine.specs.declared.call.Call.TheVariants.{Sequence};
ghost use Rattle.spi_machine.specs.declared.call.SequenceCall.TheVariants.{Cancel};
ghost use Rattle.spi_machine.specs.declared.table.SpiTable.{SpiTable};
ghost use Rattle.machine_laws.specs.serial.Ends.{Sequel, EndsWith};

/// A pending sequence that `Spi_AsyncTransmit` requests is left, or changed by what concerns it alone: its job starts, it
/// is cancelled, its job ends well and its next one waits, or it ends. It ends as cancelled at a cancel while none of its
/// jobs runs, and as its own running job ends after a cancel; as failed as its own job fails; and as OK as its own last
/// job ends well.
pub fn sequences_by_their_own()
    ensures { (d : SpiTable) (w : World) (s : SpiState) (h : Happening Call) (out : Outcome SpiState) (q : ℕ) (p : Pending)
        → (spi_machine d).happens w s h ≡ Some out → drops h ≡ false → is_sync_sequence d q ≡ false → find (is_of q) s.pending ≡ Some p
        → Sequel d s q p h (find (is_of q) out.state.pending) (sequence_result out.state.sequence_results q) }
{}

/// As the running job of a pending sequence ends, the sequence ends with it if it was cancelled, the job failed or no
/// further job is there; else its next job is the one behind.
pub fn sequence_as_its_job_ends()
    ensures ends { (d : SpiTable) (w : World) (s : SpiState) (line received : ℕ) (out : Outcome SpiState) (q : ℕ) (p : Pending) (r : Run)
        → (spi_machine d).happens w s (Serves line received) ≡ Some out → find (is_of q) s.pending ≡ Some p → EndsWith s q line r
        → p.cancelled || r.transfer.failed || not (has_further d p) ≡ true → find (is_of q) out.state.pending ≡ None }
    ensures goes_on { (d : SpiTable) (w : World) (s : SpiState) (line received : ℕ) (out : Outcome SpiState) (q : ℕ) (p : Pending) (r : Run)
        → (spi_machine d).happens w s (Serves line received) ≡ Some out → find (is_of q) s.pending ≡ Some p → EndsWith s q line r
        → p.cancelled || r.transfer.failed || not (has_further d p) ≡ false → find (is_of q) out.state.pending ≡ Some (goes_to_next p) }
{}

/// A sequence that is cancelled while its job runs stays pending until that ends, and nothing is told.
pub fn cancelled_while_its_job_runs()
    ensures waits { (d : SpiTable) (w : World) (s : SpiState) (q : ℕ) (times : ℕ → ℕ) (out : Outcome SpiState) (p : Pending)
        → (spi_machine d).happens w s (Acts (Sequence q Cancel) times) ≡ Some out → out.told.error ≡ None
        → find (is_of q) s.pending ≡ Some p → is_running s q ≡ true → find (is_of q) out.state.pending ≡ Some (cancels p) }
    ensures quiet { (d : SpiTable) (w : World) (s : SpiState) (q : ℕ) (times : ℕ → ℕ) (out : Outcome SpiState) (p : Pending)
        → (spi_machine d).happens w s (Acts (Sequence q Cancel) times) ≡ Some out → out.told.error ≡ None
        → find (is_of q) s.pending ≡ Some p → is_running s q ≡ true → out.told.notices ≡ [] }
{}

/// The sequence whose job is started by a unit that starts jobs has started.
pub fn sequence_as_its_job_starts()
    ensures { (d : SpiTable) (w : World) (s : SpiState) (unit : units.Unit) (made_by : Option Call) (received : ℕ) (out : Outcome SpiState) (u : ℕ) (next p : Pending)
        → (spi_machine d).happens w s (Starts unit made_by received) ≡ Some out → number_of unit ≡ Some u → is_sync_unit d u ≡ false → next_at d s (Some u) ≡ Some next
        → find (is_of next.sequence) s.pending ≡ Some p → find (is_of next.sequence) out.state.pending ≡ Some (starts p) }
{}
