ghost use Rattle.std.specs.Prelude.{◌≡◌, Bool, List, ℕ, length, slice_index, slice_set, ◌<◌, ◌%◌, ◌^◌};
ghost use Rattle.chip_blocks.specs.units.Pins.{fresh, bit_at, is_out, mode, is_pulse, level, latch, mode_named, ones_set, ones_clear, with_mode, after_write, flip, put, chosen, at_port};

use crate::units::bits::has;
use mcal_base::{Config, PortPinMode, Reg};
use std::marker::Model;

/// How many halves the pins have, and how many pins there are.
const HALVES: u32 = 2;

const PINS: u32 = 64;

/// The pin block: the registers `D.DIRSET0` to `D63.MODE` and `Q0.PUT` to `Q7.PUT`, and what a read of
/// `F0.FLIP` to `F63.FLIP` leaves.
#[derive(Drop)]
pub struct PinBlock {
    out: [u32; 2],
    latches: [u32; 2],
    modes: [PortPinMode; 64],
}

impl Model for PinBlock {
    ghost use Rattle.std.specs.Prelude.{◌≡◌, length};
    ghost use Rattle.chip_blocks.specs.units.Pins.{Pins};

    ghost Value = { Pins };

    ghost view = { λ b. record { out = b.out; latches = b.latches; modes = b.modes } };

    ghost invariant = { λ b. (length b.out ≡ 2) × (length b.latches ≡ 2) × (length b.modes ≡ 64) };

    ghost inverse = { λ b. record { out = b.out; latches = b.latches; modes = b.modes } };
}

impl PinBlock {
    /// All pins in, their latches low. The block is the same under every configuration.
    pub fn new(_config: &Config) -> PinBlock
        ensures { result ≡ fresh }
    {
        PinBlock::fresh()
    }

    #[tactic(auto, unfolding(crate::specs::units::Pins::fresh))]
    fn fresh() -> PinBlock
        ensures { result ≡ fresh }
    {
        PinBlock {
            out: [0; 2],
            latches: [0; 2],
            modes: [PortPinMode::Adc; 64],
        }
    }

    /// A reset: all pins are in, and their latches low.
    pub fn reset(&mut self)
        ensures { self.new ≡ fresh }
    {
        *self = PinBlock::fresh();
    }

    /// Reads a register. None has a stated read from the block alone.
    pub fn read(&mut self, _reg: Reg) -> u32
        ensures value { result ≡ 0 }
        ensures state { self.new ≡ self.old }
    {
        0
    }

    /// Writes a register. A register without a stated write ignores it, and `D<p>.MODE` ignores a number that
    /// names no mode.
    pub fn write(&mut self, reg: Reg, value: u32)
        ensures { self.new ≡ after_write self.old reg value }
    {
        match reg {
            Reg::PinDirectionSet(half) => set(&mut self.out, half, value),
            Reg::PinDirectionClear(half) => clear(&mut self.out, half, value),
            Reg::PinOutSet(half) => set(&mut self.latches, half, value),
            Reg::PinOutClear(half) => clear(&mut self.latches, half, value),
            Reg::PinMode(pin) => self.set_mode(pin, value),
            Reg::PortPut(port) => self.put(port, value),
            _ => {}
        }
    }

    /// The latch of a pin becomes the other level, where the pin is out.
    pub fn flip(&mut self, pin: u32)
        ensures { self.new ≡ flip self.old pin }
    {
        if !self.is_out(pin) {
            return;
        }
        if self.latch(pin) {
            clear(&mut self.latches, pin / 32, place(pin));
        } else {
            set(&mut self.latches, pin / 32, place(pin));
        }
    }

    /// The passing of time changes no register of the block.
    pub fn tick(&mut self, _ticks: u64)
        ensures { self.new ≡ self.old }
    {}

    /// The level of a pin, with its outside level and the output of the pulse channel that names it, where one
    /// does.
    pub fn pin(&self, pin: u32, outside: bool, pulse: Option<bool>) -> bool
        ensures { result ≡ level self.now pin outside pulse }
    {
        if !self.is_out(pin) {
            return outside;
        }
        match (self.mode(pin), pulse) {
            (PortPinMode::Pwm, Some(output)) => output,
            _ => self.latch(pin),
        }
    }

    /// Whether a pin is out.
    pub fn is_out(&self, pin: u32) -> bool
        ensures { result ≡ is_out self.now pin }
    {
        bit(&self.out, pin)
    }

    /// The latch of a pin.
    pub fn latch(&self, pin: u32) -> bool
        ensures latch { result ≡ latch self.now pin }
        ensures halves { length self.now.latches ≡ 2 }
    {
        bit(&self.latches, pin)
    }

    /// The mode of a pin.
    pub fn mode(&self, pin: u32) -> PortPinMode
        ensures { result ≡ mode self.now pin }
    {
        if pin < PINS {
            self.modes[pin as usize]
        } else {
            PortPinMode::Adc
        }
    }

    fn set_mode(&mut self, pin: u32, value: u32)
        ensures { self.new ≡ after_write self.old (Reg.PinMode pin) value }
    {
        if let Some(mode) = mode_named(value) {
            if pin < PINS {
                self.modes[pin as usize] = mode;
            }
        }
    }

    /// The latches of a port's pins that are out and whose bit of the mask is one become their bits of the
    /// levels; the word is 256 * mask + levels.
    fn put(&mut self, port: u32, word: u32)
        ensures { self.new ≡ put self.old port word }
    {
        let half = port / 4;
        let chosen = at_port(port, word / 256) & half_of(&self.out, half);
        clear(&mut self.latches, half, chosen);
        set(&mut self.latches, half, chosen & at_port(port, word));
    }
}

/// The mode that a number names.
fn mode_named(number: u32) -> Option<PortPinMode>
    ensures { result ≡ mode_named number }
{
    match number {
        0 => Some(PortPinMode::Adc),
        1 => Some(PortPinMode::Dio),
        2 => Some(PortPinMode::Icu),
        3 => Some(PortPinMode::Pwm),
        4 => Some(PortPinMode::Spi),
        _ => None,
    }
}

/// The bit of a pin in the two halves.
fn bit(halves: &[u32; 2], pin: u32) -> bool
    ensures { result ≡ bit_at halves.now pin }
{
    pin < PINS && has(halves[(pin / 32) as usize], pin % 32)
}

/// The bit of a pin in its half.
fn place(pin: u32) -> u32
    ensures { result ≡ 2 ^ (pin % 32) }
{
    1 << (pin % 32)
}

/// Eight bits of a port, at the places of its pins in their half.
fn at_port(port: u32, bits: u32) -> u32
    ensures { result ≡ at_port port bits }
{
    (bits % 256) << (8 * (port % 4))
}

/// A half; one that isn't there has no bits.
fn half_of(halves: &[u32; 2], half: u32) -> u32
    ensures { result ≡ slice_index halves.now half }
{
    if half < HALVES {
        halves[half as usize]
    } else {
        0
    }
}

fn set(halves: &mut [u32; 2], half: u32, bits: u32)
    ensures { halves.new ≡ ones_set halves.old half bits }
{
    if half < HALVES {
        halves[half as usize] |= bits;
    }
}

fn clear(halves: &mut [u32; 2], half: u32, bits: u32)
    ensures { halves.new ≡ ones_clear halves.old half bits }
{
    if half < HALVES {
        halves[half as usize] &= !bits;
    }
}
