//! Counters and expiries, by times. The timer block and the timer driver's machine count by the same definitions.

ghost use Rattle.std.specs.Prelude.{◌≡◌, ◌≢◌, ◌↔◌, ℕ, ◌+◌, ◌-◌, ◌*◌, ◌<◌, ◌≤◌, Bool, true, false, nat_lt};
ghost use Rattle.mcal_base.specs.Expiry.{count_of, expiries, runs_on};
ghost use Rattle.machine_laws.specs.timers.Expiries.{ExpiresAt, ExpiresBetween, IsReachedAt};

/// One expiry or several came after a time and not after another exactly where the numbers of expiries differ: such a
/// time lies between.
pub fn expiries_by_times()
    ensures { (one_shot : Bool) (start target prescaler after now : ℕ)
        → (nat_lt (expiries one_shot start target prescaler after) (expiries one_shot start target prescaler now) ≡ true)
        ↔ ExpiresBetween one_shot start target prescaler after now }
{}

/// A one-shot counter shows a count for a prescaler's worth of time each, up to its target, and from then on its target.
/// A continuous one begins at 0 again with each target's worth of counts.
pub fn counts_by_times()
    ensures one_shot { (start target prescaler counts place : ℕ) → place < prescaler → counts < target
        → count_of true start target prescaler (start + (counts * prescaler + place)) ≡ counts }
    ensures full { (start target prescaler now : ℕ) → 0 < prescaler → start + target * prescaler ≤ now
        → count_of true start target prescaler now ≡ target }
    ensures continuous { (start target prescaler rounds counts place : ℕ) → place < prescaler → counts < target
        → count_of false start target prescaler (start + (rounds * (target * prescaler) + (counts * prescaler + place))) ≡ counts }
{}

/// A one-shot timer expires exactly when its counter reaches its target: it is there for the first time. A continuous one
/// expires when its counter goes to 0 from the last count below its target, and it does so at no other time.
pub fn expiries_at_targets()
    ensures one_shot { (start target prescaler time : ℕ) → 0 < target → 0 < prescaler
        → ExpiresAt true start target prescaler time ↔ IsReachedAt (count_of true start target prescaler) target time }
    ensures continuous { (start target prescaler time : ℕ)
        → ExpiresAt false start target prescaler time
        → (count_of false start target prescaler time ≡ 0) × (count_of false start target prescaler (time - 1) ≡ target - 1) }
    ensures alone { (start target prescaler time : ℕ) → 0 < target → 0 < prescaler
        → count_of false start target prescaler time ≡ 0 → count_of false start target prescaler (time - 1) ≢ 0
        → ExpiresAt false start target prescaler time }
{}

/// A one-shot timer runs until it expires, and a continuous one always.
pub fn runs_until_expiry()
    ensures one_shot { (start target prescaler now : ℕ) → 0 < target → 0 < prescaler
        → (runs_on true start target prescaler now ≡ true) ↔ (now < start + target * prescaler) }
    ensures continuous { (start target prescaler now : ℕ) → runs_on false start target prescaler now ≡ true }
{}
