//! What the block's accesses come to, over every history.

ghost use Rattle.std.specs.Prelude.{◌≡◌, ◌<◌, ◌↔◌, ℕ, Bool, List, None, Some, true, false, nat_lt, if◌then◌else◌};
ghost use Rattle.std.specs.List.{AllByRecursion};
ghost use Rattle.mcal_base.specs.Bits.{has_bit};
ghost use Rattle.mcal_base.specs.declared.register.Reg.TheVariants.{PulseCommit, PulseIdle, PulseFlags};
ghost use Rattle.chip_blocks.specs.timers.Accesses.{Access};
ghost use Rattle.chip_blocks.specs.pulses.Regime.{regime_level};
ghost use Rattle.chip_blocks.specs.pulses.Pulses.{Pulses, pulses_fresh, pulse_at, level_at, is_flagged, after_write};
ghost use Rattle.chip_blocks.specs.pulses.Accesses.{after_all, LeavesOutput, HasChannel, standing, Running, period_end, place_of, LeavesStanding, ChangesIn};
ghost use Rattle.chip_blocks.specs.declared.pulses.regime.Regime.{Regime};

/// After a commit the output is that of the period, the duty and the polarity that stood there, all three
/// together: from the commit on where the channel was idle or had no period, and else from the end of the period
/// that ran, up to which it is that of the regime that stood. What is written to the three registers later, or
/// done to other channels, doesn't matter.
pub fn output_since_commit()
    ensures idle { (b : Pulses) (c value : ℕ) (history : List Access)
        → HasChannel b c → standing (pulse_at b c).output b.time ≡ None → AllByRecursion (LeavesOutput c) history
        → let end = after_all (after_write b (PulseCommit c) value) history in
        level_at end c ≡ regime_level (record { start = b.time; wave = (pulse_at b c).wave }) end.time }
    ensures no_period { (b : Pulses) (c value : ℕ) (r : Regime) (history : List Access)
        → HasChannel b c → standing (pulse_at b c).output b.time ≡ Some r → r.wave.period ≡ 0 → AllByRecursion (LeavesOutput c) history
        → let end = after_all (after_write b (PulseCommit c) value) history in
        level_at end c ≡ regime_level (record { start = b.time; wave = (pulse_at b c).wave }) end.time }
    ensures running { (b : Pulses) (c value : ℕ) (r : Regime) (history : List Access)
        → Running b c r → AllByRecursion (LeavesOutput c) history
        → let turn = period_end r b.time in
        let end = after_all (after_write b (PulseCommit c) value) history in
        level_at end c
        ≡ (if nat_lt end.time turn
        then regime_level r end.time
        else regime_level (record { start = turn; wave = (pulse_at b c).wave }) end.time) }
{}

/// After a write to `P<c>.IDLE` the output has that level, and what was committed before doesn't come.
pub fn output_since_idle()
    ensures high { (b : Pulses) (c : ℕ) (history : List Access)
        → HasChannel b c → AllByRecursion (LeavesOutput c) history
        → level_at (after_all (after_write b (PulseIdle c) 1) history) c ≡ true }
    ensures low { (b : Pulses) (c : ℕ) (history : List Access)
        → HasChannel b c → AllByRecursion (LeavesOutput c) history
        → level_at (after_all (after_write b (PulseIdle c) 0) history) c ≡ false }
{}

/// Whatever was done before, a flag stands exactly where the output changed to its level since its last clearing,
/// between two units of time or by a write, chosen or not, whatever was written since and however long it ticked.
pub fn flag_since_clearing()
    ensures { (time : ℕ) (before since : List Access) (to : Bool) (c bits : ℕ)
        → c < 8 → has_bit bits (place_of to c) ≡ true → AllByRecursion (LeavesStanding to c) since
        → let cleared = after_write (after_all (pulses_fresh time) before) PulseFlags bits in
        let end = after_all cleared since in
        (is_flagged to (pulse_at end c) end.time ≡ true) ↔ ChangesIn to c cleared since }
{}
