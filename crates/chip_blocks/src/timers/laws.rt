//! What the block's accesses come to, over every history.

ghost use Rattle.std.specs.Prelude.{◌≡◌, ◌≤◌, ℕ, true, false, Bool, List};
ghost use Rattle.std.specs.List.{AllByRecursion};
ghost use Rattle.mcal_base.specs.Bits.{has_bit};
ghost use Rattle.mcal_base.specs.Expiry.{count_of};
ghost use Rattle.mcal_base.specs.declared.register.Reg.TheVariants.{TimerGateSet, TimerZero, TimerFlags};
ghost use Rattle.chip_blocks.specs.timers.Timers.{Timers, timer_at, counter, is_running, is_flagged, expired_between, gate_set, gate_clear, zeroed, flag_clear, after_write};
ghost use Rattle.chip_blocks.specs.timers.Run.{Run};
ghost use Rattle.chip_blocks.specs.timers.Accesses.{Access, after_all, LeavesCount, LeavesFlag, LeavesStanding, expires_in, HasChannel, Starts, Counting};
ghost use Rattle.chip_blocks.specs.declared.timers.timer.Timer.{Timer};

/// A counter counts from its last start, with the target, the prescaler and the one-shot bit that stood
/// there, whatever is read, written to other registers or done to other channels since.
pub fn counter_since_start()
    ensures { (b : Timers) (c bits : ℕ) (history : List Access)
        → Starts b c bits → AllByRecursion (LeavesCount c) history
        → let end = after_all (after_write b TimerGateSet bits) history in
        counter (timer_at end c) end.time
        ≡ count_of (has_bit b.one_shot c) b.time (timer_at b c).target (timer_at b c).prescaler end.time }
{}

/// A flag stands exactly where an expiry came since its last clearing, once or several times, whatever was
/// started, stopped or zeroed since. Where nothing was, it is one of the counter that was under way at the clearing.
pub fn flag_since_clearing()
    ensures any { (b : Timers) (c bits : ℕ) (history : List Access)
        → HasChannel b c → has_bit bits c ≡ true → AllByRecursion (LeavesStanding c) history
        → let cleared = after_write b TimerFlags bits in
        let end = after_all cleared history in
        is_flagged (timer_at end c) end.time ≡ expires_in c cleared history }
    ensures counting { (b : Timers) (c bits : ℕ) (history : List Access)
        → HasChannel b c → has_bit bits c ≡ true → AllByRecursion (LeavesFlag c) history
        → let end = after_all (after_write b TimerFlags bits) history in
        is_flagged (timer_at end c) end.time ≡ expired_between (timer_at b c).count b.time end.time }
{}

/// A running counter that is zeroed counts on from there, with the target, the prescaler and the one-shot bit
/// that it has.
pub fn counter_since_zero()
    ensures { (b : Timers) (c bits : ℕ) (r : Run) (history : List Access)
        → Counting b c r → has_bit bits c ≡ true → AllByRecursion (LeavesCount c) history
        → let end = after_all (after_write b TimerZero bits) history in
        counter (timer_at end c) end.time ≡ count_of r.one_shot b.time r.target r.prescaler end.time }
{}

/// To start, to stop or to zero a counter neither sets nor clears its flag, and to clear the flag clears it
/// whatever it stood for.
pub fn flag_at_an_act()
    ensures start { (one_shot : Bool) (now : ℕ) (t : Timer)
        → is_flagged (gate_set one_shot now t) now ≡ is_flagged t now }
    ensures stop { (now : ℕ) (t : Timer) → is_flagged (gate_clear now t) now ≡ is_flagged t now }
    ensures zero { (now : ℕ) (t : Timer) → is_flagged (zeroed now t) now ≡ is_flagged t now }
    ensures clear { (now : ℕ) (t : Timer) → is_flagged (flag_clear now t) now ≡ false }
{}

/// A counter that is zeroed is 0, and runs on if it ran.
pub fn zero_runs_on()
    ensures counter { (now : ℕ) (t : Timer) → counter (zeroed now t) now ≡ 0 }
    ensures running { (now : ℕ) (t : Timer) → is_running (zeroed now t) now ≡ is_running t now }
{}

/// A counter that is stopped keeps its value, and so does one that doesn't run, for as long as nothing is
/// done to it.
pub fn counter_at_rest()
    ensures stopped { (now : ℕ) (t : Timer) → is_running (gate_clear now t) now ≡ false }
    ensures value { (now : ℕ) (t : Timer) → counter (gate_clear now t) now ≡ counter t now }
    ensures rests { (b : Timers) (c : ℕ) (history : List Access)
        → HasChannel b c → is_running (timer_at b c) b.time ≡ false → AllByRecursion (LeavesCount c) history
        → counter (timer_at (after_all b history) c) (after_all b history).time ≡ counter (timer_at b c) b.time }
{}
