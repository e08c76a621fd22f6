//! What the machine of the pulse outputs comes to.

ghost use Rattle.std.specs.Prelude.{◌≡◌, ◌≢◌, ◌↔◌, ℕ, ◌+◌, ◌*◌, ◌<◌, ◌≤◌, Bool, true, false, not, nat_lt, if◌then◌else◌, List, Option, Some, None};
ghost use Rattle.std.specs.List.{list_all};
ghost use Rattle.mcal_base.specs.declared.directive.Reason.{Reason};
ghost use Rattle.run_model.specs.Machine.{Acts, Serves, Restarts, Outcome, ErrorLeaves, tells_nothing, outcome};
ghost use Rattle.run_model.specs.World.{World};
ghost use Rattle.module_machines.specs.pwm.Runs.{StartsAtEnd, TurnsBetween, Occurrence, sets_output, leaves_off, after_all};
ghost use Rattle.module_machines.specs.pwm.Machine.{PwmState, Pulse, first_state, pwm_machine, acts, ready, is_marked, pulse_at, level_at};
ghost use Rattle.module_machines.specs.pwm.Output.{Idle, Runs, GivesWay, Regime, absolute, regime_level, with_new, turns, turns_between};
ghost use Rattle.module_machines.specs.pwm.Table.{channel_of};
ghost use Rattle.module_machines.specs.declared.pwm.call.Call.{Call};
ghost use Rattle.module_machines.specs.declared.pwm.call.Call.TheVariants as calls;
ghost use Rattle.module_machines.specs.declared.pwm.call.ChannelCall.{ChannelCall};
ghost use Rattle.module_machines.specs.declared.pwm.call.ChannelCall.TheVariants.{EnableNotification, DisableNotification};
ghost use Rattle.module_machines.specs.declared.pwm.call.PwmEdge.{PwmEdge};
ghost use Rattle.module_machines.specs.declared.pwm.call.PwmEdge.TheVariants.{Rising, Falling, Both};
ghost use Rattle.module_machines.specs.declared.pwm.table.Channel.{Channel};
ghost use Rattle.module_machines.specs.declared.pwm.table.PwmTable.{PwmTable};

/// A call always acts, and one that finds an error leaves the state and gives no notice.
pub fn errors_leave()
    ensures acts { (d : PwmTable) (w : World) (s : PwmState) (call : Call) (committed : ℕ → ℕ)
        → (pwm_machine d).happens w s (Acts call committed) ≡ Some (acts d w s call committed) }
    ensures leaves { (d : PwmTable) (w : World) (s : PwmState) (call : Call) (committed : ℕ → ℕ)
        → ErrorLeaves s (acts d w s call committed) }
{}

/// A reset is always allowed, and gives the first state.
pub fn resets_begin()
    ensures { (d : PwmTable) (w : World) (s : PwmState) (reason : Reason)
        → (pwm_machine d).happens w s (Restarts reason) ≡ Some (outcome first_state tells_nothing) }
{}

/// While the module is uninitialised no line is ready, and a line that isn't ready may not be served.
pub fn lines_of_uninitialised()
    ensures none { (d : PwmTable) (w : World) (s : PwmState) (line : ℕ)
        → s.initialised ≡ false → (pwm_machine d).ready w s line ≡ false }
    ensures unserved { (d : PwmTable) (w : World) (s : PwmState) (line received : ℕ)
        → (pwm_machine d).ready w s line ≡ false → (pwm_machine d).happens w s (Serves line received) ≡ None }
{}

/// In each period the level is the polarity's for the absolute duty, and then the opposite.
pub fn level_in_a_period()
    ensures { (polarity : Bool) (r : Regime) (periods place : ℕ) → place < r.period
        → regime_level polarity r (r.start + (periods * r.period + place)) ≡ (if nat_lt place r.duty then polarity else not polarity) }
{}

/// By a duty of 0 the level is never the polarity's. By one of 0x8000, and by each above it, it always is, where there
/// is a period. Without a period it never is.
pub fn level_of_whole_duties()
    ensures never { (polarity : Bool) (start period now : ℕ)
        → regime_level polarity (record { start = start; period = period; duty = absolute period 0 }) now ≡ not polarity }
    ensures always { (polarity : Bool) (start period duty now : ℕ) → 0 < period → 0x8000 ≤ duty
        → regime_level polarity (record { start = start; period = period; duty = absolute period duty }) now ≡ polarity }
    ensures no_period { (polarity : Bool) (start duty now : ℕ)
        → regime_level polarity (record { start = start; period = 0; duty = duty }) now ≡ not polarity }
{}

/// A new period and duty change nothing before the end of the period that runs, also where that is one of a regime that
/// took over, and from there on they alone count. That end comes within one period, and is the end of a whole number of
/// periods since the start.
pub fn new_duty_waits()
    ensures running { (polarity : Bool) (r : Regime) (now period duty : ℕ) → 0 < r.period → r.start ≤ now
        → StartsAtEnd polarity r now period duty (with_new now period duty (Runs r)) }
    ensures taken_over { (polarity : Bool) (r next : Regime) (now period duty : ℕ) → 0 < next.period → next.start ≤ now
        → StartsAtEnd polarity next now period duty (with_new now period duty (GivesWay r next)) }
{}

/// They take over at once where the output is idle, and where the period that runs is 0.
pub fn new_duty_at_once()
    ensures idle { (high : Bool) (now period duty : ℕ)
        → with_new now period duty (Idle high) ≡ Runs (record { start = now; period = period; duty = duty }) }
    ensures running { (r : Regime) (now period duty : ℕ) → r.period ≡ 0
        → with_new now period duty (Runs r) ≡ Runs (record { start = now; period = period; duty = duty }) }
    ensures taken_over { (r next : Regime) (now period duty : ℕ) → next.period ≡ 0 → next.start ≤ now
        → with_new now period duty (GivesWay r next) ≡ Runs (record { start = now; period = period; duty = duty }) }
{}

/// One that comes while another waits takes its place.
pub fn last_duty_counts()
    ensures { (r next : Regime) (now period duty : ℕ) → now < next.start
        → with_new now period duty (GivesWay r next) ≡ with_new now period duty (Runs r) }
{}

/// A change rises from false to true, it falls from true to false, and one of both kinds is either.
pub fn kinds_of_changes()
    ensures rising { (before after : Bool)
        → (turns Rising before after ≡ true) ↔ ((before ≡ false) × (after ≡ true)) }
    ensures falling { (before after : Bool)
        → (turns Falling before after ≡ true) ↔ ((before ≡ true) × (after ≡ false)) }
    ensures both { (before after : Bool) → (turns Both before after ≡ true) ↔ (before ≢ after) }
{}

/// A change is found exactly where there is a unit of time, after the first time and not after the second, at which the
/// level is another one than a unit before, in the way that is asked for.
pub fn changes_by_times()
    ensures { (edge : PwmEdge) (level : ℕ → Bool) (after now : ℕ)
        → (turns_between edge level after now ≡ true) ↔ TurnsBetween edge level after now }
{}

/// A mark stays while time goes on, and over calls that set what the output does. Where none stands, such a call leaves
/// one exactly if it changes the level in a notified way.
pub fn marks_stay()
    ensures later { (k : Option Channel) (p : Pulse) (now later : ℕ)
        → now ≤ later → is_marked k now p ≡ true → is_marked k later p ≡ true }
    ensures over { (d : PwmTable) (w : World) (s : PwmState) (c : ℕ) (call : ChannelCall) (committed : ℕ → ℕ)
        → sets_output call ≡ true → ready d w s (c + 8) ≡ true
        → ready d w (acts d w s (calls.Channel c call) committed).state (c + 8) ≡ true }
    ensures left { (d : PwmTable) (w : World) (s : PwmState) (c : ℕ) (call : ChannelCall) (edge : PwmEdge) (committed : ℕ → ℕ)
        → sets_output call ≡ true → (pulse_at s c).notified ≡ Some edge
        → let out = acts d w s (calls.Channel c call) committed in
        out.told.error ≡ None → turns edge (level_at d w s c) (level_at d w out.state c) ≡ true
        → ready d w out.state (c + 8) ≡ true }
    ensures none { (d : PwmTable) (w : World) (s : PwmState) (c : ℕ) (call : ChannelCall) (edge : PwmEdge) (committed : ℕ → ℕ)
        → sets_output call ≡ true → (pulse_at s c).notified ≡ Some edge → ready d w s (c + 8) ≡ false
        → let out = acts d w s (calls.Channel c call) committed in
        turns edge (level_at d w s c) (level_at d w out.state c) ≡ false
        → ready d w out.state (c + 8) ≡ false }
{}

/// `Pwm_Init` starts each configured channel with its defaults at the time that its event carries, and leaves its
/// notification off.
pub fn init_starts_channels()
    ensures initialised { (d : PwmTable) (w : World) (s : PwmState) (committed : ℕ → ℕ)
        → s.initialised ≡ false → (acts d w s calls.Init committed).state.initialised ≡ true }
    ensures level { (d : PwmTable) (w later : World) (s : PwmState) (c : ℕ) (k : Channel) (committed : ℕ → ℕ)
        → s.initialised ≡ false → channel_of d c ≡ Some k
        → level_at d later (acts d w s calls.Init committed).state c
        ≡ regime_level k.polarity_high (record { start = committed c; period = k.period_ticks; duty = absolute k.period_ticks k.duty_cycle_default }) later.now }
    ensures period { (d : PwmTable) (w : World) (s : PwmState) (c : ℕ) (k : Channel) (committed : ℕ → ℕ)
        → s.initialised ≡ false → channel_of d c ≡ Some k
        → (pulse_at (acts d w s calls.Init committed).state c).period ≡ k.period_ticks }
    ensures off { (d : PwmTable) (w : World) (s : PwmState) (c : ℕ) (k : Channel) (committed : ℕ → ℕ)
        → s.initialised ≡ false → channel_of d c ≡ Some k
        → (pulse_at (acts d w s calls.Init committed).state c).notified ≡ None }
{}

/// `Pwm_DeInit` leaves the module uninitialised, with each configured channel at its idle level from then on.
pub fn deinit_leaves_idle_levels()
    ensures uninitialised { (d : PwmTable) (w : World) (s : PwmState) (committed : ℕ → ℕ)
        → s.initialised ≡ true → (acts d w s calls.DeInit committed).state.initialised ≡ false }
    ensures level { (d : PwmTable) (w later : World) (s : PwmState) (c : ℕ) (k : Channel) (committed : ℕ → ℕ)
        → s.initialised ≡ true → channel_of d c ≡ Some k
        → level_at d later (acts d w s calls.DeInit committed).state c ≡ k.idle_high }
{}

/// A call about one channel leaves every other one of the eight.
pub fn other_channels_stay()
    ensures { (d : PwmTable) (w : World) (s : PwmState) (c other : ℕ) (call : ChannelCall) (committed : ℕ → ℕ)
        → other < 8 → other ≢ c
        → pulse_at (acts d w s (calls.Channel c call) committed).state other ≡ pulse_at s other }
{}

/// After a channel's notification was disabled, or the module deinitialised, its line isn't ready, whatever happens,
/// until the notification is enabled again.
pub fn no_mark_while_off()
    ensures disabled { (d : PwmTable) (w later : World) (s : PwmState) (c : ℕ) (committed : ℕ → ℕ) (xs : List Occurrence)
        → let out = acts d w s (calls.Channel c DisableNotification) committed in
        out.told.error ≡ None → list_all (λ (x : Occurrence). leaves_off c x.what) xs ≡ true
        → ready d later (after_all d out.state xs) (c + 8) ≡ false }
    ensures deinitialised { (d : PwmTable) (w later : World) (s : PwmState) (c : ℕ) (committed : ℕ → ℕ) (xs : List Occurrence)
        → let out = acts d w s calls.DeInit committed in
        out.told.error ≡ None → list_all (λ (x : Occurrence). leaves_off c x.what) xs ≡ true
        → ready d later (after_all d out.state xs) (c + 8) ≡ false }
{}

/// Enabling and disabling the notification of a channel drop its mark, and so does a serving.
pub fn marks_are_dropped()
    ensures enabling { (d : PwmTable) (w : World) (s : PwmState) (c : ℕ) (edge : PwmEdge) (committed : ℕ → ℕ)
        → let out = acts d w s (calls.Channel c (EnableNotification edge)) committed in
        out.told.error ≡ None → ready d w out.state (c + 8) ≡ false }
    ensures disabling { (d : PwmTable) (w : World) (s : PwmState) (c : ℕ) (committed : ℕ → ℕ)
        → let out = acts d w s (calls.Channel c DisableNotification) committed in
        out.told.error ≡ None → ready d w out.state (c + 8) ≡ false }
    ensures serving { (d : PwmTable) (w : World) (s : PwmState) (line received : ℕ) (out : Outcome PwmState)
        → (pwm_machine d).happens w s (Serves line received) ≡ Some out → ready d w out.state line ≡ false }
{}
