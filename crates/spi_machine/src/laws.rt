//! What the serial driver's machine does, in the subject's own words.

ghost use Rattle.std.specs.Prelude.{◌≡◌, ℕ, ◌+◌, true, false, [], ◌∷◌, ◌++◌, length, drop, slice_get, slice_index_or, if◌then◌else◌, Option, Some, None, List, IsSome, is_some, find};
ghost use Rattle.mcal_base.specs.declared.directive.Reason.{Reason};
ghost use Rattle.mcal_base.specs.declared.moves.Unit as units;
ghost use Rattle.run_model.specs.Machine.{Happening, Acts, Serves, Starts, Restarts, Outcome, ErrorLeaves, tells_nothing, outcome, answers, named};
ghost use Rattle.run_model.specs.World.{World};
ghost use Rattle.mcal_base.specs.declared.answer_name.AnswerName.TheVariants.{ENotOk};
ghost use Rattle.mcal_base.specs.declared.error_name.ErrorName.TheVariants.{SpiUninit};
ghost use Rattle.spi_machine.specs.Promised as laws;
ghost use Rattle.spi_machine.specs.Numbered.{word_at};
ghost use Rattle.spi_machine.specs.Table.{is_sync_unit};
ghost use Rattle.spi_machine.specs.Wiring.{is_sync_sequence};
ghost use Rattle.spi_machine.specs.Runs.{Occurrence, after_all};
ghost use Rattle.spi_machine.specs.Machine.{spi_machine, number_of, next_at, unit_of, job_words, as_begun, pending_of};
ghost use Rattle.spi_machine.specs.State.{SpiState, first_state, channel_at, internal_word, is_busy, is_off, is_running, run_at, wire_at};
ghost use Rattle.spi_machine.specs.Transfers.{ToChannel, JobWord, Run, begun, goes_on, no_word, on_wire, received_with, word_of};
ghost use Rattle.spi_machine.specs.Pending as pending;
ghost use Rattle.spi_machine.specs.Pending.{next_job};
ghost use Rattle.spi_machine.specs.declared.call.Call.{Call};
ghost use Rattle.spi_machine.specs.declared.call.Call.TheVariants.{Init, Sequence};
ghost use Rattle.spi_machine.specs.declared.call.SequenceCall.TheVariants.{Cancel};
ghost use Rattle.spi_machine.specs.declared.table.SpiTable.{SpiTable};

/// An act of every service but `Spi_SyncTransmit` is always allowed, and one that finds an error leaves the state and
/// gives no notice.
pub fn acts()
    ensures allowed { (d : SpiTable) (w : World) (s : SpiState) (call : Call) (times : ℕ → ℕ) → laws.is_sending call ≡ false → IsSome ((spi_machine d).happens w s (Acts call times)) }
    ensures error { (d : SpiTable) (w : World) (s : SpiState) (call : Call) (times : ℕ → ℕ) (out : Outcome SpiState)
        → (spi_machine d).happens w s (Acts call times) ≡ Some out → ErrorLeaves s out }
{}

/// A reset is always allowed, and gives the first state.
pub fn resets()
    ensures { (d : SpiTable) (w : World) (s : SpiState) (reason : Reason) → (spi_machine d).happens w s (Restarts reason) ≡ Some (outcome first_state tells_nothing) }
{}

/// While the module is uninitialised no line is ready or due, no unit may start, and a call finds it so:
/// `Spi_Init`, `Spi_GetStatus` and `Spi_MainFunction_Handling` excepted.
pub fn uninitialised()
    ensures ready { (d : SpiTable) (w : World) (s : SpiState) (line : ℕ) → is_off s.mode ≡ true → (spi_machine d).ready w s line ≡ false }
    ensures due { (d : SpiTable) (w : World) (s : SpiState) (line : ℕ) → is_off s.mode ≡ true → (spi_machine d).due w s line ≡ false }
    ensures startable { (d : SpiTable) (w : World) (s : SpiState) (unit : units.Unit) → is_off s.mode ≡ true → (spi_machine d).startable w s unit ≡ false }
    ensures calls { (d : SpiTable) (w : World) (s : SpiState) (call : Call) (times : ℕ → ℕ) (out : Outcome SpiState)
        → (spi_machine d).happens w s (Acts call times) ≡ Some out → is_off s.mode ≡ true → laws.needs_init call ≡ true → out.told.error ≡ Some SpiUninit }
{}

/// A unit starts a job only while it is free. The job is that of a started sequence that isn't interruptible, else the
/// one of highest priority, and among equals that of the earliest request: each pending sequence whose next job is for
/// that unit yields to it.
pub fn next_job_is_the_best()
    ensures free { (d : SpiTable) (s : SpiState) (u : ℕ) (p : pending.Pending) → next_at d s (Some u) ≡ Some p → run_at s u ≡ None }
    ensures best { (d : SpiTable) (s : SpiState) (u : ℕ) (p : pending.Pending) → laws.HasPriorities d → next_at d s (Some u) ≡ Some p → laws.IsNext d u s.pending p }
{}

/// A job's words are as they stood at its start, whatever happens while it runs. At its start they are the words of its
/// channels as these stand, and each serving that goes on sends the next one of them. On a unit that `Spi_SyncTransmit`
/// uses a start is none of the next job.
pub fn words_as_at_the_start()
    ensures start { (d : SpiTable) (w : World) (s : SpiState) (unit : units.Unit) (made_by : Option Call) (received : ℕ) (out : Outcome SpiState) (u : ℕ) (p : pending.Pending)
        → (spi_machine d).happens w s (Starts unit made_by received) ≡ Some out → number_of unit ≡ Some u → is_sync_unit d u ≡ false → next_at d s (Some u) ≡ Some p
        → run_at out.state u ≡ Some (begun w.now received p.sequence (job_words d s (next_job d p)) []) }
    ensures since { (d : SpiTable) (w : World) (s : SpiState) (h : Happening Call) (out : Outcome SpiState) (u : ℕ) (r after : Run)
        → (spi_machine d).happens w s h ≡ Some out → run_at s u ≡ Some r → run_at out.state u ≡ Some after → after.words ≡ r.words }
    ensures sent { (d : SpiTable) (w : World) (s : SpiState) (line received : ℕ) (out : Outcome SpiState) (u : ℕ) (r : Run)
        → (spi_machine d).happens w s (Serves line received) ≡ Some out → unit_of line ≡ Some u → run_at s u ≡ Some r → goes_on r ≡ true
        → wire_at out.state u ≡ wire_at s u ++ on_wire received (slice_index_or r.words (length r.received + 1) no_word) ∷ [] }
{}

/// A word begins exactly at a start of a serial unit and at a serving where the job goes on. At a start it is the job's
/// first word, and at a serving the job's next one, for the device of that job. Whatever happens but a reset, the wire
/// of a unit shows one word more where a word begins on the unit, as it is sent and as what comes in with it, and else
/// what it showed.
pub fn words_that_begin()
    ensures exactly { (d : SpiTable) (w : World) (s : SpiState) (h : Happening Call) (out : Outcome SpiState)
        → (spi_machine d).happens w s h ≡ Some out → is_some out.begins ≡ laws.is_beginning s h }
    ensures start { (d : SpiTable) (w : World) (s : SpiState) (unit : units.Unit) (made_by : Option Call) (received : ℕ) (out : Outcome SpiState) (u : ℕ) (p : pending.Pending)
        → (spi_machine d).happens w s (Starts unit made_by received) ≡ Some out → number_of unit ≡ Some u → is_sync_unit d u ≡ false → next_at d s (Some u) ≡ Some p
        → out.begins ≡ Some (as_begun d u (Some p) (slice_index_or (job_words d s (next_job d p)) 0 no_word)) }
    ensures serving { (d : SpiTable) (w : World) (s : SpiState) (line received : ℕ) (out : Outcome SpiState) (u : ℕ) (r : Run)
        → (spi_machine d).happens w s (Serves line received) ≡ Some out → unit_of line ≡ Some u → run_at s u ≡ Some r → goes_on r ≡ true
        → out.begins ≡ Some (as_begun d u (pending_of s r) (slice_index_or r.words (length r.received + 1) no_word)) }
    ensures wire { (d : SpiTable) (w : World) (s : SpiState) (h : Happening Call) (out : Outcome SpiState) (u : ℕ)
        → (spi_machine d).happens w s h ≡ Some out → laws.is_reset h ≡ false → wire_at out.state u ≡ wire_at s u ++ laws.shown_on u (laws.received_at h) out.begins }
{}

/// Between a request of a sequence that `Spi_AsyncTransmit` sends and its end there is one result. Whatever happens, an initialisation and a reset
/// excepted, a sequence stays pending or not, with its result and with nothing told; or it wasn't pending and is
/// requested; or it was pending and ends: at a cancel, at the serving of a failed word, or where no further job of it is there. Its result is then
/// cancelled, else failed, else OK, its notice is given where that is configured, and its jobs that never ran have the
/// results that they had at the request. In every run an initialisation meets no pending sequence, and makes all results
/// OK.
pub fn one_end_for_each_request()
    ensures turns { (d : SpiTable) (w : World) (s : SpiState) (h : Happening Call) (out : Outcome SpiState) (q : ℕ)
        → (spi_machine d).happens w s h ≡ Some out → laws.drops h ≡ false → is_sync_sequence d q ≡ false → laws.Turn d q s h out }
    ensures initialised { (d : SpiTable) (w : World) (xs : List Occurrence) (times : ℕ → ℕ) (out : Outcome SpiState) (q : ℕ)
        → (spi_machine d).happens w (after_all d first_state xs) (Acts Init times) ≡ Some out → out.told.error ≡ None
        → laws.Renewed q (after_all d first_state xs) out }
{}

/// A deinitialisation or a change of the mode that finds no error but a pending sequence answers `E_NOT_OK` and leaves
/// the state.
pub fn changes_while_busy()
    ensures { (d : SpiTable) (w : World) (s : SpiState) (call : Call) (times : ℕ → ℕ) (out : Outcome SpiState)
        → (spi_machine d).happens w s (Acts call times) ≡ Some out → out.told.error ≡ None → laws.is_change call ≡ true → is_busy s ≡ true
        → out ≡ outcome s (answers (named ENotOk)) }
{}

/// In every run nothing is pending while the module is uninitialised.
pub fn idle_while_uninitialised()
    ensures { (d : SpiTable) (xs : List Occurrence) → is_off (after_all d first_state xs).mode ≡ true → (after_all d first_state xs).pending ≡ [] }
{}

/// A pending sequence that is cancelled while none of its jobs runs ends at once, as cancelled, with its notice.
pub fn cancelled_while_it_waits()
    ensures { (d : SpiTable) (w : World) (s : SpiState) (q : ℕ) (times : ℕ → ℕ) (out : Outcome SpiState) (p : pending.Pending)
        → (spi_machine d).happens w s (Acts (Sequence q Cancel) times) ≡ Some out → out.told.error ≡ None
        → find (pending.is_of q) s.pending ≡ Some p → is_running s q ≡ false → laws.EndsCancelled d q out }
{}

/// A good word is stored, as it is served, at its place of the user's destination array where it has one, and else
/// nowhere. No other word of these arrays changes there.
pub fn good_word()
    ensures { (d : SpiTable) (w : World) (s : SpiState) (line received : ℕ) (out : Outcome SpiState) (u : ℕ) (r : Run) (channel place : ℕ)
        → (spi_machine d).happens w s (Serves line received) ≡ Some out → unit_of line ≡ Some u → run_at s u ≡ Some r → r.transfer.failed ≡ false
        → laws.destination_word out.state channel place
        ≡ (if laws.goes_to_array channel place (word_of r) (word_of r).goes then r.transfer.incoming else laws.destination_word s channel place) }
{}

/// As a job ends well, each word of an internal channel that it received stands at its place there, the last one where
/// several have that place, and all other received words are as before.
pub fn received_by_place()
    ensures received { (d : SpiTable) (w : World) (s : SpiState) (line received : ℕ) (out : Outcome SpiState) (u : ℕ) (r : Run) (n : ℕ) (x : JobWord)
        → (spi_machine d).happens w s (Serves line received) ≡ Some out → unit_of line ≡ Some u → run_at s u ≡ Some r → laws.ends_well (Some r) ≡ true
        → slice_get r.words n ≡ Some x → x.goes ≡ ToChannel → laws.go_there x.channel x.place (drop (n + 1) r.words) ≡ false
        → internal_word out.state x.channel true x.place ≡ word_at (received_with r) n }
    ensures others { (d : SpiTable) (w : World) (s : SpiState) (line received : ℕ) (out : Outcome SpiState) (u : ℕ) (r : Run) (channel place : ℕ)
        → (spi_machine d).happens w s (Serves line received) ≡ Some out → unit_of line ≡ Some u → run_at s u ≡ Some r → laws.ends_well (Some r) ≡ true
        → laws.go_there channel place r.words ≡ false → internal_word out.state channel true place ≡ internal_word s channel true place }
{}

/// A serving that doesn't go on ends its job: failed if its word failed, and else OK. The unit is then free, the job's
/// notice is given where it is configured, and then that of its sequence if this ends too.
pub fn end_of_a_job()
    ensures { (d : SpiTable) (w : World) (s : SpiState) (line received : ℕ) (out : Outcome SpiState) (u : ℕ) (r : Run) (p : pending.Pending)
        → (spi_machine d).happens w s (Serves line received) ≡ Some out → unit_of line ≡ Some u → run_at s u ≡ Some r → goes_on r ≡ false
        → find (pending.is_of r.sequence) s.pending ≡ Some p → laws.NamesJobsOnce d → laws.EndsJob d u p (laws.job_ends_as r.transfer.failed) out }
{}

/// A failed word is stored nowhere, and its job fails as it is served.
pub fn failed_word()
    ensures { (d : SpiTable) (w : World) (s : SpiState) (line received : ℕ) (out : Outcome SpiState) (u : ℕ) (r : Run) (p : pending.Pending)
        → (spi_machine d).happens w s (Serves line received) ≡ Some out → unit_of line ≡ Some u → run_at s u ≡ Some r
        → r.transfer.failed ≡ true → find (pending.is_of r.sequence) s.pending ≡ Some p → laws.NamesJobsOnce d
        → laws.FailsJob u (next_job d p) s out.state }
{}

/// What may be read of an internal channel changes where a job ends well, and at an initialisation and a reset, and at
/// nothing else.
pub fn received_after_a_good_end()
    ensures { (d : SpiTable) (w : World) (s : SpiState) (h : Happening Call) (out : Outcome SpiState) (c : ℕ)
        → (spi_machine d).happens w s h ≡ Some out → laws.renews d s h ≡ false → (channel_at out.state c).received ≡ (channel_at s c).received }
{}
