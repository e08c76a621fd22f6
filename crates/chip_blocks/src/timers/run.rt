ghost use Rattle.std.specs.Prelude.{◌≡◌, ◌<◌};
ghost use Rattle.chip_blocks.specs.timers.Run.{run_count, run_goes_on, run_expiries, restarted};

use std::marker::Model;

/// A counter under way: when it was started, with the target, the prescaler and the one-shot bit that stood
/// there. Neither the target nor the prescaler is 0.
#[derive(Clone, Copy)]
pub struct Run {
    start: u64,
    target: u32,
    prescaler: u32,
    one_shot: bool,
}

impl Model for Run {
    ghost use Rattle.std.specs.Prelude.{◌<◌, ◌^◌};
    ghost use Rattle.chip_blocks.specs.timers.Run as spec;

    ghost Value = { spec.Run };

    ghost view = { λ r. record { start = r.start; target = r.target; prescaler = r.prescaler; one_shot = r.one_shot } };

    ghost invariant = { λ r. (0 < r.target) × (r.target < 2 ^ 32) × (0 < r.prescaler) };

    ghost inverse = { λ r. record { start = r.start; target = r.target; prescaler = r.prescaler; one_shot = r.one_shot } };
}

impl Run {
    /// A counter that starts from 0.
    pub fn new(start: u64, target: u32, prescaler: u32, one_shot: bool) -> Run
        requires target { 0 < target }
        requires prescaler { 0 < prescaler }
        ensures { result ≡ record { start = start; target = target; prescaler = prescaler; one_shot = one_shot } }
    {
        Run {
            start,
            target,
            prescaler,
            one_shot,
        }
    }

    /// The counter.
    pub fn counter(&self, now: u64) -> u32
        ensures { result ≡ run_count self.now now }
    {
        let counts = now.saturating_sub(self.start) / u64::from(self.prescaler);
        let target = u64::from(self.target);
        if self.one_shot {
            counts.min(target) as u32
        } else {
            (counts % target) as u32
        }
    }

    /// Whether it counts on. A one-shot counter stops at its target.
    pub fn goes_on(&self, now: u64) -> bool
        ensures { result ≡ run_goes_on self.now now }
    {
        let counts = now.saturating_sub(self.start) / u64::from(self.prescaler);
        if self.one_shot {
            counts < u64::from(self.target)
        } else {
            true
        }
    }

    /// How many expiries came not after a time.
    pub fn expiries(&self, time: u64) -> u64
        ensures { result ≡ run_expiries self.now time }
    {
        let period = u64::from(self.target) * u64::from(self.prescaler);
        let expired = time.saturating_sub(self.start) / period;
        if self.one_shot {
            expired.min(1)
        } else {
            expired
        }
    }

    /// The same counter, started from 0 anew.
    pub fn again(&self, now: u64) -> Run
        ensures { result ≡ restarted self.now now }
    {
        Run {
            start: now,
            target: self.target,
            prescaler: self.prescaler,
            one_shot: self.one_shot,
        }
    }
}
