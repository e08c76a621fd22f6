ghost use Rattle.std.specs.Prelude.{◌≡◌, ◌+◌, ◌<◌, ◌^◌};
ghost use Rattle.chip_blocks.specs.units.Clock.{fresh, number_of, is_locked, read_of, rate_after, started, after_write, ticked};
ghost use Rattle.mcal_base.specs.declared.directive.Reason.TheVariants.{PowerOn};

use mcal_base::{Config, Reason, Reg};
use std::marker::Model;

/// How many ticks of the oscillator a PLL takes to lock.
const LOCKING: u64 = 100;

/// A PLL that was started.
#[derive(Clone, Copy)]
pub struct Pll {
    /// `M.PLL`
    pub multiplier: u32,
    /// The time of the oscillator at which it was written.
    pub started: u64,
}

/// The clock block: the registers `M.PLL` to `M.REASON` as they stand at the time of the oscillator, which it
/// keeps.
#[derive(Drop)]
pub struct ClockBlock {
    osc: u64,
    pll: Option<Pll>,
    rate: u32,
    reason: Reason,
}

impl Model for ClockBlock {
    ghost use Rattle.chip_blocks.specs.units.Clock.{Clock, Runs};

    ghost Value = { Clock };

    ghost view = { λ b. record { osc = b.osc; pll = b.pll; rate = b.rate; reason = b.reason } };

    ghost invariant = { λ b. Runs b.rate b.pll };

    ghost inverse = { λ b. record { osc = b.osc; pll = b.pll; rate = b.rate; reason = b.reason } };
}

impl ClockBlock {
    /// As at power on, at time 0. The block is the same under every configuration.
    pub fn new(_config: &Config) -> ClockBlock
        ensures { result ≡ fresh 0 PowerOn }
    {
        ClockBlock::fresh(0, Reason::PowerOn)
    }

    fn fresh(osc: u64, reason: Reason) -> ClockBlock
        ensures { result ≡ fresh osc reason }
    {
        ClockBlock {
            osc,
            pll: None,
            rate: 1,
            reason,
        }
    }

    /// A reset: no PLL, the rate is 1, and `M.REASON` tells the reason. The time goes on.
    pub fn reset(&mut self, reason: Reason)
        ensures { self.new ≡ fresh self.old.osc reason }
    {
        *self = ClockBlock::fresh(self.osc, reason);
    }

    /// Reads a register.
    pub fn read(&mut self, reg: Reg) -> u32
        ensures value { result ≡ read_of self.old reg }
        ensures state { self.new ≡ self.old }
    {
        match reg {
            Reg::ClockLock => u32::from(self.locked()),
            Reg::ResetReason => number(self.reason),
            _ => 0,
        }
    }

    /// Writes a register. A register without a stated write ignores it, and so does `M.RESET`.
    pub fn write(&mut self, reg: Reg, value: u32)
        ensures { self.new ≡ after_write self.old reg value }
    {
        match reg {
            Reg::ClockPll => self.start(value),
            Reg::ClockRate => self.rate = self.rate_after(value),
            _ => {}
        }
    }

    /// The passing of so many ticks of the oscillator.
    pub fn tick(&mut self, ticks: u64)
        requires { self.old.osc + ticks < 2 ^ 64 }
        ensures { self.new ≡ ticked self.old ticks }
    {
        self.osc += ticks;
    }

    /// The time of the oscillator.
    pub fn osc(&self) -> u64
        ensures { result ≡ self.now.osc }
    {
        self.osc
    }

    /// How many peripheral ticks a tick of the oscillator is.
    pub fn rate(&self) -> u32
        ensures rate { result ≡ self.now.rate }
        ensures runs { 0 < result }
    {
        self.rate
    }

    fn locked(&self) -> bool
        ensures { result ≡ is_locked self.now }
    {
        match self.pll {
            Some(pll) => LOCKING <= self.osc.saturating_sub(pll.started),
            None => false,
        }
    }

    fn start(&mut self, multiplier: u32)
        ensures { self.new ≡ started self.old multiplier }
    {
        if multiplier != 0 {
            self.pll = Some(Pll {
                multiplier,
                started: self.osc,
            });
            self.rate = 1;
        }
    }

    fn rate_after(&self, value: u32) -> u32
        ensures { result ≡ rate_after self.now value }
    {
        match (value, self.pll) {
            (0, _) => 1,
            (1, Some(pll)) => pll.multiplier,
            _ => self.rate,
        }
    }
}

/// What `M.REASON` reads.
fn number(reason: Reason) -> u32
    ensures { result ≡ number_of reason }
{
    match reason {
        Reason::PowerOn => 0,
        Reason::Watchdog => 1,
        Reason::Software => 2,
    }
}
