//! Why words fail.

ghost use Rattle.std.specs.Prelude.{◌≡◌, ◌↔◌, ◌⊎◌, ℕ, true, false, List, Option, Some};
ghost use Rattle.std.specs.List.{list_all};
ghost use Rattle.mcal_base.specs.declared.moves.Unit as units;
ghost use Rattle.run_model.specs.Machine.{Happening, Starts, Outcome};
ghost use Rattle.run_model.specs.World.{World};
ghost use Rattle.spi_machine.specs.Machine.{spi_machine};
ghost use Rattle.spi_machine.specs.Promised.{received_at};
ghost use Rattle.spi_machine.specs.Runs.{Occurrence, after_all};
ghost use Rattle.spi_machine.specs.State.{SpiState, run_at, carried_at};
ghost use Rattle.spi_machine.specs.Table.{is_sync_unit};
ghost use Rattle.spi_machine.specs.Transfers.{Run, refused};
ghost use Rattle.spi_machine.specs.declared.call.Call.{Call};
ghost use Rattle.spi_machine.specs.declared.table.SpiTable.{SpiTable};
ghost use Rattle.machine_laws.specs.serial.Faults.{MeetsFault, begins_on, leaves_word, run_carried};

/// A word in transfer has failed exactly where its exchange was refused as it began, or a fault met its wire since,
/// before it was done: of a job that a unit started, and of one that it runs for a call of `Spi_SyncTransmit`. As a job
/// ends by that word, the job fails exactly where the word has failed.
pub fn words_fail_by_faults()
    ensures started { (d : SpiTable) (w : World) (s : SpiState) (h : Happening Call) (out : Outcome SpiState) (u : ℕ) (r : Run) (history : List Occurrence)
        → (spi_machine d).happens w s h ≡ Some out → begins_on u out.begins ≡ true → is_sync_unit d u ≡ false
        → list_all (λ (x : Occurrence). leaves_word u x.what) history ≡ true → run_at (after_all d out.state history) u ≡ Some r
        → (r.transfer.failed ≡ true) ↔ ((received_at h ≡ refused) ⊎ MeetsFault u w.now history) }
    ensures sent { (d : SpiTable) (w : World) (s : SpiState) (unit : units.Unit) (made_by : Option Call) (received : ℕ) (out : Outcome SpiState) (u : ℕ) (r : Run) (history : List Occurrence)
        → (spi_machine d).happens w s (Starts unit made_by received) ≡ Some out → begins_on u out.begins ≡ true → is_sync_unit d u ≡ true
        → list_all (λ (x : Occurrence). leaves_word u x.what) history ≡ true → run_carried (carried_at (after_all d out.state history) u) ≡ Some r
        → (r.transfer.failed ≡ true) ↔ ((received ≡ refused) ⊎ MeetsFault u w.now history) }
{}
