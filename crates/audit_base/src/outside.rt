ghost use Rattle.std.specs.Prelude.{◌≡◌, ◌<◌, ◌≤◌, ◌+◌, ◌^◌, ℕ, IfOk, false, replicate};
ghost use Rattle.mcal_base.specs.declared.directive.Order.TheVariants.{Tick};
ghost use Rattle.run_model.specs.World.{World, world_start, world_after};
ghost use Rattle.audit_base.specs.Outside.{IsWorld, IsAfter, IsThere, CanMove};

use crate::samples::Samples;
use mcal_base::Order;
use std::alloc::{AllocError, Global};

/// The time, and what stands outside the chip.
#[derive(Drop)]
pub struct Outside {
    /// The ticks of the oscillator so far.
    pub osc: u64,
    /// The peripheral ticks so far.
    pub time: u64,
    /// The outside level of each pin.
    pub levels: [bool; 64],
    /// What the analog inputs took.
    pub samples: Samples,
    /// How many happenings the machines were told so far.
    pub told: u32,
}

/// All pins are low.
fn all_low() -> [bool; 64]
    ensures { result ≡ replicate 64 false }
{
    [false; 64]
}

impl Outside {
    /// At power on.
    pub fn new(alloc: Global) -> Result<Outside, AllocError>
        ensures world { IfOk result (λ outside. (devices : ℕ) → IsWorld outside (world_start devices)) }
        ensures start { IfOk result (λ outside. (outside.told ≡ 0) × (outside.osc ≡ 0)) }
    {
        let samples = Samples::new(alloc)?;
        Ok(Outside {
            osc: 0,
            time: 0,
            levels: all_low(),
            samples,
            told: 0,
        })
    }

    /// The machines were told one more happening.
    pub fn count(&mut self)
        requires { self.old.told + 1 < 2 ^ 32 }
        ensures world { (w : World) → IsWorld self.old w → IsWorld self.new w }
        ensures after { IsAfter self.old self.new }
        ensures told { self.new.told ≡ self.old.told + 1 }
        ensures osc { self.new.osc ≡ self.old.osc }
    {
        self.told += 1;
    }

    /// The outside level of a pin, of 64.
    pub fn level(&self, pin: u32) -> bool
        requires { pin < 64 }
        ensures { (w : World) → IsWorld self.now w → result ≡ w.levels pin }
    {
        self.levels[pin as usize]
    }

    /// Ticks of the oscillator come, each of which is so many peripheral ticks.
    fn tick(&mut self, ticks: u32, rate: u32)
        requires { CanMove self.old (Tick ticks) rate }
        ensures short { self.new.osc < 2 ^ 63 }
        ensures world { (w : World) → IsWorld self.old w → IsWorld self.new (world_after w rate (Tick ticks)) }
        ensures told { self.new.told ≡ self.old.told }
        ensures later { (self.old.osc ≤ self.new.osc) × (self.old.time ≤ self.new.time) }
    {
        self.osc += ticks as u64;
        self.time += ticks as u64 * rate as u64;
    }

    /// The hardware moves, as the machines were told before; a tick of the oscillator is so many peripheral ticks.
    pub fn move_by(&mut self, order: &Order, rate: u32) -> Result<(), AllocError>
        requires short { self.old.osc < 2 ^ 63 }
        requires there { IsThere order.now }
        requires times { CanMove self.old order.now rate }
        requires count { self.old.told + 1 < 2 ^ 32 }
        ensures world { (w : World) → IsWorld self.old w → IfOk result (λ _. IsWorld self.new (world_after w rate order.now)) }
        ensures after { IfOk result (λ _. IsAfter self.old self.new) }
        ensures told { IfOk result (λ _. self.new.told ≡ self.old.told + 1) }
        ensures short { IfOk result (λ _. self.new.osc < 2 ^ 63) }
    {
        self.told += 1;
        match order {
            Order::Tick(ticks) => self.tick(*ticks, rate),
            Order::Level(pin, high) => self.levels[*pin as usize] = *high,
            Order::Analog(input, value) => self.samples.take(*input, self.time, *value)?,
            _ => {}
        }
        Ok(())
    }
}
