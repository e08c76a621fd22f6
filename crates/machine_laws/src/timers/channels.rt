//! What the machine of the timer driver makes of a channel, over every history: its mark by the times of its expiries,
//! what it answers, stops, sleep and wakeups.

ghost use Rattle.std.specs.Prelude.{◌≡◌, ◌↔◌, ◌<◌, ℕ, ◌+◌, ◌-◌, ◌*◌, Bool, true, false, if◌then◌else◌, List, [], Some, None};
ghost use Rattle.std.specs.List.{list_all};
ghost use Rattle.mcal_base.specs.Expiry.{count_of};
ghost use Rattle.mcal_base.specs.declared.directive.Reason.{Reason};
ghost use Rattle.mcal_base.specs.declared.notice.NoticeKind.TheVariants.{GptNotification, EcuMCheckWakeup, EcuMSetWakeupEvent};
ghost use Rattle.run_model.specs.Machine.{Serves, Restarts, Acts, Outcome, ErrorLeaves, tells_nothing, outcome, number};
ghost use Rattle.run_model.specs.World.{World};
ghost use Rattle.module_machines.specs.gpt.Machine.{GptState, Never, Running, Stopped, channel_at, first_state, gpt_machine, acts, ready, runs_at, is_off, is_asleep};
ghost use Rattle.module_machines.specs.gpt.Table.{channel_of};
ghost use Rattle.module_machines.specs.declared.gpt.call.Call.{Call};
ghost use Rattle.module_machines.specs.declared.gpt.call.Call.TheVariants.{SetMode};
ghost use Rattle.module_machines.specs.declared.gpt.call.Call.TheVariants as calls;
ghost use Rattle.module_machines.specs.declared.gpt.call.ChannelCall.TheVariants.{GetTimeElapsed, GetTimeRemaining, StartTimer, StopTimer, Change};
ghost use Rattle.module_machines.specs.declared.gpt.call.Change.TheVariants.{Notification, Check};
ghost use Rattle.module_machines.specs.declared.gpt.call.GptMode.TheVariants.{Normal, Sleep};
ghost use Rattle.module_machines.specs.declared.gpt.table.Channel.{Channel};
ghost use Rattle.module_machines.specs.declared.gpt.table.GptTable.{GptTable};
ghost use Rattle.machine_laws.specs.timers.Channels.{Occurrence, after_all, leaves_course, leaves_start, leaves_notification, leaves_serving, leaves_wakeup, KeepsChannels, one_notice};
ghost use Rattle.machine_laws.specs.timers.Expiries.{ExpiresBetween};

/// A call always acts, and one that finds an error leaves the state and gives no notice.
pub fn errors_leave()
    ensures acts { (d : GptTable) (w : World) (s : GptState) (call : Call) (committed : ℕ → ℕ)
        → (gpt_machine d).happens w s (Acts call committed) ≡ Some (acts d w s call) }
    ensures leaves { (d : GptTable) (w : World) (s : GptState) (call : Call) → ErrorLeaves s (acts d w s call) }
{}

/// A reset is always allowed, and gives the first state.
pub fn resets_begin()
    ensures { (d : GptTable) (w : World) (s : GptState) (reason : Reason)
        → (gpt_machine d).happens w s (Restarts reason) ≡ Some (outcome first_state tells_nothing) }
{}

/// A mark stands exactly where an expiry time of the channel that runs lies after the time at which its mark was dropped
/// last, and has come. One that was never started or was stopped has none.
pub fn mark_by_times()
    ensures running { (d : GptTable) (w : World) (s : GptState) (c start target : ℕ) (k : Channel)
        → channel_of d c ≡ Some k → (channel_at s c).course ≡ Running start target
        → (ready d w s c ≡ true) ↔ ExpiresBetween k.one_shot start target k.prescaler (channel_at s c).dropped w.now }
    ensures never { (d : GptTable) (w : World) (s : GptState) (c : ℕ)
        → (channel_at s c).course ≡ Never → ready d w s c ≡ false }
    ensures stopped { (d : GptTable) (w : World) (s : GptState) (c value target : ℕ)
        → (channel_at s c).course ≡ Stopped value target → ready d w s c ≡ false }
{}

/// After a start, whatever comes that neither starts, stops nor serves the channel, and no sleep: its mark stands exactly
/// where an expiry time of that start has come, its elapsed value is what a counter has counted from there, and what
/// remains is the rest of the target. A one-shot one runs until its expiry time, and a continuous one from then on.
pub fn after_a_start()
    ensures mark { (d : GptTable) (w later : World) (s : GptState) (c target : ℕ) (k : Channel) (history : List Occurrence)
        → let out = acts d w s (calls.Channel c (StartTimer target)) in
        out.told.error ≡ None → channel_of d c ≡ Some k → list_all (λ (x : Occurrence). leaves_course c x.what) history ≡ true
        → (ready d later (after_all d out.state history) c ≡ true) ↔ ExpiresBetween k.one_shot w.now target k.prescaler w.now later.now }
    ensures elapsed { (d : GptTable) (w later : World) (s : GptState) (c target : ℕ) (k : Channel) (history : List Occurrence)
        → let out = acts d w s (calls.Channel c (StartTimer target)) in
        out.told.error ≡ None → channel_of d c ≡ Some k → list_all (λ (x : Occurrence). leaves_course c x.what) history ≡ true
        → (acts d later (after_all d out.state history) (calls.Channel c GetTimeElapsed)).told.answer
        ≡ number (count_of k.one_shot w.now target k.prescaler later.now) }
    ensures remaining { (d : GptTable) (w later : World) (s : GptState) (c target : ℕ) (k : Channel) (history : List Occurrence)
        → let out = acts d w s (calls.Channel c (StartTimer target)) in
        out.told.error ≡ None → channel_of d c ≡ Some k → list_all (λ (x : Occurrence). leaves_course c x.what) history ≡ true
        → (acts d later (after_all d out.state history) (calls.Channel c GetTimeRemaining)).told.answer
        ≡ number (target - count_of k.one_shot w.now target k.prescaler later.now) }
    ensures one_shot { (d : GptTable) (w later : World) (s : GptState) (c target : ℕ) (k : Channel) (history : List Occurrence)
        → let out = acts d w s (calls.Channel c (StartTimer target)) in
        out.told.error ≡ None → channel_of d c ≡ Some k → list_all (λ (x : Occurrence). leaves_course c x.what) history ≡ true
        → k.one_shot ≡ true → 0 < target → 0 < k.prescaler
        → (runs_at d later (after_all d out.state history) c ≡ true) ↔ (later.now < w.now + target * k.prescaler) }
    ensures continuous { (d : GptTable) (w later : World) (s : GptState) (c target : ℕ) (k : Channel) (history : List Occurrence)
        → let out = acts d w s (calls.Channel c (StartTimer target)) in
        out.told.error ≡ None → channel_of d c ≡ Some k → list_all (λ (x : Occurrence). leaves_course c x.what) history ≡ true
        → k.one_shot ≡ false
        → runs_at d later (after_all d out.state history) c ≡ true }
{}

/// After `Gpt_Init` a channel that isn't started has no mark, and answers 0 for what has elapsed and for what remains.
pub fn after_init()
    ensures mark { (d : GptTable) (w later : World) (s : GptState) (c : ℕ) (history : List Occurrence)
        → let out = acts d w s calls.Init in
        out.told.error ≡ None → c < 8 → list_all (λ (x : Occurrence). leaves_start c x.what) history ≡ true
        → ready d later (after_all d out.state history) c ≡ false }
    ensures elapsed { (d : GptTable) (w later : World) (s : GptState) (c : ℕ) (k : Channel) (history : List Occurrence)
        → let out = acts d w s calls.Init in
        out.told.error ≡ None → channel_of d c ≡ Some k → list_all (λ (x : Occurrence). leaves_course c x.what) history ≡ true
        → (acts d later (after_all d out.state history) (calls.Channel c GetTimeElapsed)).told.answer ≡ number 0 }
    ensures remaining { (d : GptTable) (w later : World) (s : GptState) (c : ℕ) (k : Channel) (history : List Occurrence)
        → let out = acts d w s calls.Init in
        out.told.error ≡ None → channel_of d c ≡ Some k → list_all (λ (x : Occurrence). leaves_course c x.what) history ≡ true
        → (acts d later (after_all d out.state history) (calls.Channel c GetTimeRemaining)).told.answer ≡ number 0 }
{}

/// A serving drops the mark: from then on it stands exactly where an expiry time of the same start has come since.
pub fn after_a_serving()
    ensures { (d : GptTable) (w later : World) (s : GptState) (c start target received : ℕ) (k : Channel) (out : Outcome GptState) (history : List Occurrence)
        → (gpt_machine d).happens w s (Serves c received) ≡ Some out
        → channel_of d c ≡ Some k → (channel_at s c).course ≡ Running start target
        → list_all (λ (x : Occurrence). leaves_course c x.what) history ≡ true
        → (ready d later (after_all d out.state history) c ≡ true) ↔ ExpiresBetween k.one_shot start target k.prescaler w.now later.now }
{}

/// A channel that runs and is stopped answers from then on what had elapsed and what remained then, and no mark stands
/// until it is started again, whatever else comes. To stop one that doesn't run leaves every channel as it was, with its mark.
pub fn after_a_stop()
    ensures value { (d : GptTable) (w later : World) (s : GptState) (c : ℕ) (history : List Occurrence)
        → let out = acts d w s (calls.Channel c StopTimer) in
        out.told.error ≡ None → runs_at d w s c ≡ true → list_all (λ (x : Occurrence). leaves_course c x.what) history ≡ true
        → (acts d later (after_all d out.state history) (calls.Channel c GetTimeElapsed)).told.answer
        ≡ (acts d w s (calls.Channel c GetTimeElapsed)).told.answer }
    ensures rest { (d : GptTable) (w later : World) (s : GptState) (c : ℕ) (history : List Occurrence)
        → let out = acts d w s (calls.Channel c StopTimer) in
        out.told.error ≡ None → runs_at d w s c ≡ true → list_all (λ (x : Occurrence). leaves_course c x.what) history ≡ true
        → (acts d later (after_all d out.state history) (calls.Channel c GetTimeRemaining)).told.answer
        ≡ (acts d w s (calls.Channel c GetTimeRemaining)).told.answer }
    ensures mark { (d : GptTable) (w later : World) (s : GptState) (c : ℕ) (history : List Occurrence)
        → let out = acts d w s (calls.Channel c StopTimer) in
        out.told.error ≡ None → runs_at d w s c ≡ true → list_all (λ (x : Occurrence). leaves_start c x.what) history ≡ true
        → ready d later (after_all d out.state history) c ≡ false }
    ensures rests { (d : GptTable) (w : World) (s : GptState) (c : ℕ)
        → runs_at d w s c ≡ false → KeepsChannels s (acts d w s (calls.Channel c StopTimer)).state }
{}

/// `Gpt_SetMode` to sleep leaves a channel whose wakeup is on as it was. Any other loses its mark, and gets none while it
/// is left alone; where it ran it keeps the elapsed value of that time. To normal it restarts none.
pub fn after_a_sleep()
    ensures asleep { (d : GptTable) (w : World) (s : GptState)
        → is_off s.mode ≡ false → is_asleep (acts d w s (SetMode (Some Sleep))).state.mode ≡ true }
    ensures woken_by { (d : GptTable) (w : World) (s : GptState) (c : ℕ)
        → c < 8 → (channel_at s c).switches.wakeup ≡ true
        → channel_at (acts d w s (SetMode (Some Sleep))).state c ≡ channel_at s c }
    ensures mark { (d : GptTable) (w later : World) (s : GptState) (c : ℕ) (history : List Occurrence)
        → is_off s.mode ≡ false → (channel_at s c).switches.wakeup ≡ false
        → list_all (λ (x : Occurrence). leaves_course c x.what) history ≡ true
        → ready d later (after_all d (acts d w s (SetMode (Some Sleep))).state history) c ≡ false }
    ensures value { (d : GptTable) (w later : World) (s : GptState) (c : ℕ) (k : Channel) (history : List Occurrence)
        → is_off s.mode ≡ false → channel_of d c ≡ Some k → (channel_at s c).switches.wakeup ≡ false → runs_at d w s c ≡ true
        → list_all (λ (x : Occurrence). leaves_course c x.what) history ≡ true
        → (acts d later (after_all d (acts d w s (SetMode (Some Sleep))).state history) (calls.Channel c GetTimeElapsed)).told.answer
        ≡ (acts d w s (calls.Channel c GetTimeElapsed)).told.answer }
    ensures normal { (d : GptTable) (w : World) (s : GptState)
        → is_off s.mode ≡ false
        → let out = acts d w s (SetMode (Some Normal)) in
        (is_asleep out.state.mode ≡ false) × (out.state.channels ≡ s.channels) }
{}

/// A serving in normal mode gives the channel's notice exactly where its notification was switched on last. In sleep
/// mode it gives that of a wakeup exactly where the channel's wakeup is on.
pub fn notices_of_servings()
    ensures normal { (d : GptTable) (w later : World) (s : GptState) (c received : ℕ) (on : Bool) (out : Outcome GptState) (history : List Occurrence)
        → let switched = acts d w s (calls.Channel c (Change (Notification on))) in
        switched.told.error ≡ None → list_all (λ (x : Occurrence). leaves_notification c x.what) history ≡ true
        → let end = after_all d switched.state history in
        is_asleep end.mode ≡ false → (gpt_machine d).happens later end (Serves c received) ≡ Some out
        → out.told.notices ≡ (if on then one_notice GptNotification c else []) }
    ensures asleep { (d : GptTable) (w : World) (s : GptState) (c received : ℕ) (out : Outcome GptState)
        → is_asleep s.mode ≡ true → (gpt_machine d).happens w s (Serves c received) ≡ Some out
        → out.told.notices ≡ (if (channel_at s c).switches.wakeup then one_notice EcuMCheckWakeup c else []) }
{}

/// `Gpt_CheckWakeup` tells of a wakeup once: after it, it tells none until a serving of the channel. After a serving in
/// sleep mode with the channel's wakeup on, the next one tells it.
pub fn wakeups_are_told_once()
    ensures once { (d : GptTable) (w later : World) (s : GptState) (c : ℕ) (history : List Occurrence)
        → let checked = acts d w s (calls.Channel c (Change Check)) in
        checked.told.error ≡ None → list_all (λ (x : Occurrence). leaves_serving c x.what) history ≡ true
        → (acts d later (after_all d checked.state history) (calls.Channel c (Change Check))).told.notices ≡ [] }
    ensures next { (d : GptTable) (w later : World) (s : GptState) (c received : ℕ) (k : Channel) (out : Outcome GptState) (history : List Occurrence)
        → is_asleep s.mode ≡ true → (channel_at s c).switches.wakeup ≡ true → channel_of d c ≡ Some k
        → (gpt_machine d).happens w s (Serves c received) ≡ Some out
        → list_all (λ (x : Occurrence). leaves_wakeup c x.what) history ≡ true
        → (acts d later (after_all d out.state history) (calls.Channel c (Change Check))).told.notices ≡ one_notice EcuMSetWakeupEvent c }
{}
