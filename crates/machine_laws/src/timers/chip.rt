//! The flags of the timer block, by the times of expiries.

ghost use Rattle.std.specs.Prelude.{◌≡◌, ◌↔◌, ℕ, true, false, List};
ghost use Rattle.std.specs.List.{AllByRecursion};
ghost use Rattle.mcal_base.specs.Bits.{has_bit};
ghost use Rattle.mcal_base.specs.declared.register.Reg.TheVariants.{TimerGateSet, TimerFlags};
ghost use Rattle.chip_blocks.specs.timers.Timers.{Timers, timer_at, is_flagged, after_write};
ghost use Rattle.chip_blocks.specs.timers.Accesses.{Access, after_all, LeavesFlag, LeavesStanding, HasChannel, Starts};
ghost use Rattle.machine_laws.specs.timers.Expiries.{ExpiresBetween};
ghost use Rattle.machine_laws.specs.timers.Flags.{ExpiryIn};

/// A flag stands exactly where, since it was cleared last, some expiry time came of the counter that was under way then.
/// After a start with the flag down it stands exactly where an expiry time of that start has come.
pub fn flag_by_times()
    ensures cleared { (b : Timers) (c bits : ℕ) (history : List Access)
        → HasChannel b c → has_bit bits c ≡ true → AllByRecursion (LeavesStanding c) history
        → let cleared = after_write b TimerFlags bits in
        let end = after_all cleared history in
        (is_flagged (timer_at end c) end.time ≡ true) ↔ ExpiryIn cleared c history }
    ensures started { (b : Timers) (c bits : ℕ) (history : List Access)
        → Starts b c bits → is_flagged (timer_at b c) b.time ≡ false → AllByRecursion (LeavesFlag c) history
        → let end = after_all (after_write b TimerGateSet bits) history in
        (is_flagged (timer_at end c) end.time ≡ true)
        ↔ ExpiresBetween (has_bit b.one_shot c) b.time (timer_at b c).target (timer_at b c).prescaler b.time end.time }
{}
