//! What the machine of the capture channels comes to.

ghost use Rattle.std.specs.Prelude.{◌≡◌, ◌≢◌, ℕ, ◌+◌, ◌-◌, ◌%◌, ◌^◌, ◌==◌, ◌<◌, ◌≤◌, Bool, true, false, ◌&&◌, ◌||◌, if◌then◌else◌, List, [], ◌∷◌, ◌++◌, length, Some, None};
ghost use Rattle.std.specs.List.{AllByRecursion};
ghost use Rattle.mcal_base.specs.declared.config.icu.IcuMeasurementMode.{IcuMeasurementMode};
ghost use Rattle.mcal_base.specs.declared.config.icu.IcuMeasurementMode.TheVariants.{SignalEdgeDetect, EdgeCounter, Timestamp, SignalMeasurement};
ghost use Rattle.mcal_base.specs.declared.config.icu.IcuStartEdge.{IcuStartEdge};
ghost use Rattle.mcal_base.specs.declared.directive.Order.{Order};
ghost use Rattle.mcal_base.specs.declared.directive.Order.TheVariants.{Level};
ghost use Rattle.mcal_base.specs.declared.directive.Reason.{Reason};
ghost use Rattle.mcal_base.specs.declared.notice.NoticeKind.TheVariants.{IcuSignalNotification, IcuTimestampNotification};
ghost use Rattle.run_model.specs.Machine.{Happening, Acts, Serves, Restarts, Outcome, ErrorLeaves, tells_nothing, outcome};
ghost use Rattle.run_model.specs.World.{World};
ghost use Rattle.module_machines.specs.icu.Shown.{stamp_at};
ghost use Rattle.module_machines.specs.icu.Edges.{Edge, measures, time_between};
ghost use Rattle.module_machines.specs.icu.Claims.{HasRoom, is_switch, IsMeasure, IsCleared, drops_mark, drops_count, tells_notice};
ghost use Rattle.module_machines.specs.icu.Machine.{IcuState, Capture, Start, first_state, icu_machine, acts, capture_at, moved, is_taken, edge_taken, channel_work, index, stamped, measured, served_by, completes, stamp_in, handed};
ghost use Rattle.module_machines.specs.icu.Table.{is_counter, is_linear, chooses, channel_of, channel_of_line, channel_number};
ghost use Rattle.module_machines.specs.declared.icu.call.Call.{Call};
ghost use Rattle.module_machines.specs.declared.icu.call.Call.TheVariants.{Init, DeInit};
ghost use Rattle.module_machines.specs.declared.icu.call.Call.TheVariants as calls;
ghost use Rattle.module_machines.specs.declared.icu.call.ChannelCall.{ChannelCall};
ghost use Rattle.module_machines.specs.declared.icu.call.ChannelCall.TheVariants.{SetActivationCondition, GetInputState, ResetEdgeCount, StartTimestamp, StopTimestamp, StartSignalMeasurement, StopSignalMeasurement, GetTimeElapsed, GetDutyCycleValues};
ghost use Rattle.module_machines.specs.declared.icu.table.Channel.{Channel};
ghost use Rattle.module_machines.specs.declared.icu.table.IcuTable.{IcuTable};

/// A call always acts, and one that finds an error leaves the state and gives no notice.
pub fn errors_leave()
    ensures acts { (d : IcuTable) (w : World) (s : IcuState) (call : Call) (committed : ℕ → ℕ)
        → (icu_machine d).happens w s (Acts call committed) ≡ Some (acts d s call) }
    ensures leaves { (d : IcuTable) (s : IcuState) (call : Call) → ErrorLeaves s (acts d s call) }
{}

/// A reset is always allowed, and gives the first state.
pub fn resets_begin()
    ensures { (d : IcuTable) (w : World) (s : IcuState) (reason : Reason)
        → (icu_machine d).happens w s (Restarts reason) ≡ Some (outcome first_state tells_nothing) }
{}

/// While the module is uninitialised no line is ready, and a line that isn't ready may not be served.
pub fn lines_of_uninitialised()
    ensures none { (d : IcuTable) (w : World) (s : IcuState) (line : ℕ)
        → s.initialised ≡ false → (icu_machine d).ready w s line ≡ false }
    ensures unserved { (d : IcuTable) (w : World) (s : IcuState) (line received : ℕ)
        → (icu_machine d).ready w s line ≡ false → (icu_machine d).happens w s (Serves line received) ≡ None }
{}

/// At most four edges wait on a channel: so it is at first, and whatever happens leaves it so.
pub fn four_edges_wait()
    ensures first { HasRoom first_state }
    ensures stays { (d : IcuTable) (w : World) (s : IcuState) (h : Happening Call) (out : Outcome IcuState)
        → HasRoom s → (icu_machine d).happens w s h ≡ Some out → HasRoom out.state }
{}

/// An edge that finds four waiting is lost, and changes nothing else. The next one that finds room is kept behind those
/// that wait, and is marked as after a gap.
pub fn fifth_edge_is_lost()
    ensures lost { (k : Channel) (now : ℕ) (rising : Bool) (x : Capture)
        → is_taken k rising x ≡ true → is_counter k.mode ≡ false → length x.waiting ≡ 4
        → edge_taken k now rising x ≡ record x { lost = true } }
    ensures next { (k : Channel) (now : ℕ) (rising : Bool) (x : Capture)
        → is_taken k rising x ≡ true → is_counter k.mode ≡ false → length x.waiting < 4
        → edge_taken k now rising x
        ≡ record x { waiting = x.waiting ++ record { time = now % 2 ^ 32; rising = rising; after_gap = x.lost } ∷ []; lost = false } }
{}

/// Enabling, starting, stopping and disabling leave no edge waiting, and forget that one was lost. No other call about
/// the channel touches what waits.
pub fn switching_empties()
    ensures empties { (call : ChannelCall) (x : Capture)
        → is_switch call ≡ true → (channel_work call x).waiting ≡ [] }
    ensures forgets { (call : ChannelCall) (x : Capture)
        → is_switch call ≡ true → (channel_work call x).lost ≡ false }
    ensures leaves { (call : ChannelCall) (x : Capture)
        → is_switch call ≡ false → (channel_work call x).waiting ≡ x.waiting }
{}

/// A stamp goes to the place of the index, and no other place changes. Nothing but a serving and a reset changes a place.
pub fn stamps_stay()
    ensures served { (k : Channel) (e : Edge) (x : Capture) (place : ℕ)
        → stamp_in (stamped k e x).stored place ≡ (if index k x == place then e.time else stamp_in x.stored place) }
    ensures measuring { (k : Channel) (e : Edge) (x : Capture) → (measured k e x).stored ≡ x.stored }
    ensures acts { (d : IcuTable) (s : IcuState) (call : Call) (channel place : ℕ)
        → channel < 8 → stamp_at (acts d s call).state channel place ≡ stamp_at s channel place }
    ensures moves { (d : IcuTable) (w : World) (s : IcuState) (order : Order) (channel place : ℕ)
        → channel < 8 → stamp_at (moved d w s order) channel place ≡ stamp_at s channel place }
{}

/// No measure spans a gap: each is a row of served edges, from one of its first direction to the next one of its last,
/// and none but the first is marked as after a gap.
pub fn measures_have_no_gap()
    ensures { (first last : Bool) (served : List Edge)
        → AllByRecursion (IsMeasure first last served) (measures first last served) }
{}

/// A time below 2 ^ 32 is measured as it is, also where the times of the edges went through 0.
pub fn times_are_measured()
    ensures { (a b : Edge) (earlier later : ℕ)
        → a.time ≡ earlier % 2 ^ 32 → b.time ≡ later % 2 ^ 32 → earlier ≤ later → later - earlier < 2 ^ 32
        → time_between a b ≡ later - earlier }
{}

/// A value is handed out once. One that wasn't stays over a stop, and none stays over a start.
pub fn values_are_handed_out_once()
    ensures time { (none : List ℕ) (k : Channel) (x : Capture) → handed none k (channel_work GetTimeElapsed x) ≡ none }
    ensures duty { (none : List ℕ) (k : Channel) (x : Capture) → handed none k (channel_work GetDutyCycleValues x) ≡ none }
    ensures stop { (none : List ℕ) (k : Channel) (x : Capture) → handed none k (channel_work StopSignalMeasurement x) ≡ handed none k x }
    ensures start { (none : List ℕ) (k : Channel) (x : Capture) → handed none k (channel_work StartSignalMeasurement x) ≡ none }
{}

/// `Icu_Init` and `Icu_DeInit` leave each configured channel off, with its notification off, its default edges, no edge
/// that waits, no mark, no count, index 0, and nothing to hand out.
pub fn channels_are_cleared()
    ensures init { (d : IcuTable) (s : IcuState) (c : ℕ) (k : Channel)
        → s.initialised ≡ false → channel_of d c ≡ Some k → IsCleared k (capture_at (acts d s Init).state c) }
    ensures deinit { (d : IcuTable) (s : IcuState) (c : ℕ) (k : Channel)
        → s.initialised ≡ true → channel_of d c ≡ Some k → IsCleared k (capture_at (acts d s DeInit).state c) }
{}

/// A call without an error works on its channel, and leaves any other one as it is.
pub fn calls_work_on_their_channel()
    ensures own { (d : IcuTable) (s : IcuState) (c : ℕ) (k : Channel) (call : ChannelCall)
        → channel_of d c ≡ Some k → (acts d s (calls.Channel c call)).told.error ≡ None
        → capture_at (acts d s (calls.Channel c call)).state c ≡ channel_work call (capture_at s c) }
    ensures others { (d : IcuTable) (s : IcuState) (c other : ℕ) (call : ChannelCall)
        → other < 8 → other ≢ c → capture_at (acts d s (calls.Channel c call)).state other ≡ capture_at s other }
{}

/// A serving of a detection gives its notice where the notification is on. One of a timestamp channel gives it where,
/// besides, the number of stamps since the start is a multiple of the interval. One of a measure gives none.
pub fn servings_notify()
    ensures detection { (d : IcuTable) (w : World) (s : IcuState) (line received : ℕ) (k : Channel) (out : Outcome IcuState)
        → (icu_machine d).happens w s (Serves line received) ≡ Some out → channel_of_line d line ≡ Some k → k.mode ≡ SignalEdgeDetect
        → out.told ≡ tells_notice (capture_at s (channel_number line)).notification IcuSignalNotification (channel_number line) }
    ensures stamps { (d : IcuTable) (w : World) (s : IcuState) (line received : ℕ) (k : Channel) (a : Start) (out : Outcome IcuState)
        → (icu_machine d).happens w s (Serves line received) ≡ Some out → channel_of_line d line ≡ Some k → k.mode ≡ Timestamp
        → (capture_at s (channel_number line)).start ≡ Some a
        → out.told ≡ tells_notice ((capture_at s (channel_number line)).notification && (length (capture_at s (channel_number line)).served + 1) % a.interval == 0)
        IcuTimestampNotification (channel_number line) }
    ensures measures { (d : IcuTable) (w : World) (s : IcuState) (line received : ℕ) (k : Channel) (out : Outcome IcuState)
        → (icu_machine d).happens w s (Serves line received) ≡ Some out → channel_of_line d line ≡ Some k → k.mode ≡ SignalMeasurement
        → out.told ≡ tells_nothing }
{}

/// The index is the number of stamps since the start, which a circular buffer takes modulo its size. It is 0 before a
/// start and after one, and stays over a stop. A linear buffer that becomes full is off.
pub fn index_counts_stamps()
    ensures before { (k : Channel) (x : Capture) → x.start ≡ None → index k x ≡ 0 }
    ensures start { (k : Channel) (x : Capture) (size interval : ℕ) → index k (channel_work (StartTimestamp size interval) x) ≡ 0 }
    ensures stop { (k : Channel) (x : Capture) → index k (channel_work StopTimestamp x) ≡ index k x }
    ensures linear { (k : Channel) (x : Capture) (a : Start) → x.start ≡ Some a → is_linear k.buffer ≡ true → index k x ≡ length x.served }
    ensures circular { (k : Channel) (x : Capture) (a : Start) → x.start ≡ Some a → is_linear k.buffer ≡ false → index k x ≡ length x.served % a.size }
    ensures stamp { (k : Channel) (e : Edge) (x : Capture) → length (stamped k e x).served ≡ length x.served + 1 }
    ensures full { (k : Channel) (e : Edge) (x : Capture) (a : Start)
        → x.start ≡ Some a → is_linear k.buffer ≡ true → length x.served + 1 ≡ a.size → (stamped k e x).on ≡ false }
{}

/// The active mark is set by each detected edge and by each value that is complete. It is dropped by the call that asks
/// for it and by a choice of edges. No other call, no stamp and no edge that comes touches it.
pub fn marks_are_set_and_dropped()
    ensures detected { (k : Channel) (e : Edge) (x : Capture) → (served_by SignalEdgeDetect k e x).active ≡ true }
    ensures measured { (k : Channel) (e : Edge) (x : Capture) → (served_by SignalMeasurement k e x).active ≡ (completes k x.served e || x.active) }
    ensures stamped { (k : Channel) (e : Edge) (x : Capture) → (served_by Timestamp k e x).active ≡ x.active }
    ensures asked { (x : Capture) → (channel_work GetInputState x).active ≡ false }
    ensures chosen { (edge : IcuStartEdge) (x : Capture) → (channel_work (SetActivationCondition (Some edge)) x).active ≡ false }
    ensures other { (call : ChannelCall) (x : Capture) → drops_mark call ≡ false → (channel_work call x).active ≡ x.active }
    ensures edges { (k : Channel) (now : ℕ) (rising : Bool) (x : Capture) → (edge_taken k now rising x).active ≡ x.active }
{}

/// Each chosen edge is counted while that is enabled, and no other one. The count is made 0 by a reset of it alone, and
/// no serving and no other call changes it.
pub fn edges_are_counted()
    ensures counted { (k : Channel) (now : ℕ) (rising : Bool) (x : Capture)
        → k.mode ≡ EdgeCounter → x.on ≡ true → chooses x.activation rising ≡ true → (edge_taken k now rising x).count ≡ (x.count + 1) % 2 ^ 32 }
    ensures unchosen { (k : Channel) (now : ℕ) (rising : Bool) (x : Capture)
        → k.mode ≡ EdgeCounter → chooses x.activation rising ≡ false → edge_taken k now rising x ≡ x }
    ensures off { (k : Channel) (now : ℕ) (rising : Bool) (x : Capture) → x.on ≡ false → edge_taken k now rising x ≡ x }
    ensures reset { (x : Capture) → (channel_work ResetEdgeCount x).count ≡ 0 }
    ensures other { (call : ChannelCall) (x : Capture) → drops_count call ≡ false → (channel_work call x).count ≡ x.count }
    ensures served { (mode : IcuMeasurementMode) (k : Channel) (e : Edge) (x : Capture) → (served_by mode k e x).count ≡ x.count }
{}

/// An edge comes where the level of a pin changes, to each configured channel of that pin and to no other one.
pub fn edges_come_to_their_pin()
    ensures own { (d : IcuTable) (w : World) (s : IcuState) (c : ℕ) (k : Channel) (high : Bool)
        → channel_of d c ≡ Some k → w.levels k.pin ≢ high → capture_at (moved d w s (Level k.pin high)) c ≡ edge_taken k w.now high (capture_at s c) }
    ensures others { (d : IcuTable) (w : World) (s : IcuState) (c : ℕ) (k : Channel) (pin : ℕ) (high : Bool)
        → channel_of d c ≡ Some k → k.pin ≢ pin → capture_at (moved d w s (Level pin high)) c ≡ capture_at s c }
    ensures unchanged { (d : IcuTable) (w : World) (s : IcuState) (pin : ℕ) (high : Bool) → w.levels pin ≡ high → moved d w s (Level pin high) ≡ s }
{}
