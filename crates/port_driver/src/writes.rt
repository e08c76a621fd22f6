//! The writes of all pins: levels and directions by halves, modes pin by pin.

ghost use Rattle.std.specs.Prelude.{◌≡◌, ◌≤◌, ◌^◌, ◌%◌, is_some};
ghost use Rattle.mcal_base.specs.Bits.{bit_of};
ghost use Rattle.module_machines.specs.port.Machine as machine;
ghost use Rattle.port_driver.specs.Writes as spec;

use crate::driver::PortDriver;
use mcal_base::{Move, PortPinDirection, PortPinMode, Reg};
use module_machines::port::Pin;

/// What is written by halves of the pins.
#[derive(Clone, Copy)]
pub enum Side {
    /// The levels of the configured pins.
    Levels,
    /// Their directions.
    Directions,
    /// The directions that may not change.
    Fixed,
}

impl Side {
    /// What a configured pin's bit is to be, where it is to be something.
    fn wanted(self, pin: Pin) -> Option<bool>
        ensures { result ≡ spec.wanted self pin }
    {
        match self {
            Side::Levels => Some(pin.level_high),
            Side::Directions => Some(is_out(pin.direction)),
            Side::Fixed if pin.direction_changeable => None,
            Side::Fixed => Some(is_out(pin.direction)),
        }
    }

    /// The register that sets or clears the bits of a half.
    pub fn register(self, set: bool, half: u32) -> Reg
        ensures { result ≡ spec.register self set half }
    {
        match self {
            Side::Levels if set => Reg::PinOutSet(half),
            Side::Levels => Reg::PinOutClear(half),
            Side::Directions | Side::Fixed if set => Reg::PinDirectionSet(half),
            Side::Directions | Side::Fixed => Reg::PinDirectionClear(half),
        }
    }
}

/// Whether a direction is out.
pub fn is_out(direction: PortPinDirection) -> bool
    ensures { result ≡ machine.is_out direction }
{
    match direction {
        PortPinDirection::In => false,
        PortPinDirection::Out => true,
    }
}

/// The number of a mode.
pub fn mode_number(mode: PortPinMode) -> u32
    ensures { result ≡ spec.mode_number mode }
{
    match mode {
        PortPinMode::Adc => 0,
        PortPinMode::Dio => 1,
        PortPinMode::Icu => 2,
        PortPinMode::Pwm => 3,
        PortPinMode::Spi => 4,
    }
}

/// The bit of a pin in its half.
pub fn bit(pin: u32) -> u32
    ensures { result ≡ 2 ^ (pin % 32) }
{
    1 << (pin % 32)
}

/// Whether a bit that is wanted so is one of those that are set, or cleared.
fn asks(set: bool, wanted: Option<bool>) -> bool
    ensures { result ≡ spec.asks set wanted }
{
    match wanted {
        None => false,
        Some(high) => high == set,
    }
}

fn counted(it: bool) -> u16
    ensures { result ≡ bit_of it }
{
    if it { 1 } else { 0 }
}

fn chosen(it: bool, one: u32, other: u32) -> u32
    ensures { result ≡ spec.chosen it one other }
{
    if it { one } else { other }
}

impl PortDriver {
    /// What a pin's bit is to be, where it is to be something.
    fn wants(&self, side: Side, number: u32) -> Option<bool>
        ensures { result ≡ spec.wants self.now side number }
    {
        match self.pin(number) {
            None => None,
            Some(pin) => side.wanted(pin),
        }
    }

    fn is_configured(&self, number: u32) -> bool
        ensures { result ≡ spec.is_configured self.now number }
    {
        self.pin(number).is_some()
    }

    /// The bits of a write by halves.
    fn ones(&self, side: Side, write: u16) -> u32
        ensures { result ≡ spec.ones (spec.wants self.now side) write }
    {
        let set = write % 2 == 0;
        let first = 32 * u32::from(write / 2);
        let mut bits = 0;
        for place in 0..32u32 {
            if asks(set, self.wants(side, first + place)) {
                bits |= 1 << place;
            }
        }
        bits
    }

    /// One of the four writes by halves: bits that are set, and bits that are cleared, of the first half and of the second.
    pub fn half_write(&self, side: Side, write: u16) -> Move
        ensures { result ≡ spec.half_write self.now side write }
    {
        let register = side.register(write % 2 == 0, u32::from(write / 2));
        Move::Write(register, self.ones(side, write))
    }

    /// How many pins are configured.
    pub fn configured(&self) -> u16
        ensures count { result ≡ spec.configured self.now }
        ensures few { result ≤ 64 }
    {
        let mut seen = 0u16;
        for number in 0..64u32 {
            seen += counted(self.is_configured(number));
        }
        seen
    }

    /// The configured pin of this rank.
    fn ranked(&self, rank: u16) -> u32
        ensures { result ≡ spec.ranked self.now rank }
    {
        let mut seen = 0u16;
        let mut found = 0;
        for number in 0..64u32 {
            let here = self.is_configured(number);
            found = chosen(here && seen == rank, number, found);
            seen += counted(here);
        }
        found
    }

    fn initial_mode(&self, number: u32) -> PortPinMode
        ensures { result ≡ spec.initial_mode self.now number }
    {
        match self.pin(number) {
            None => PortPinMode::Adc,
            Some(pin) => pin.initial_mode,
        }
    }

    /// The write of the initial mode of the configured pin of this rank.
    pub fn mode_write(&self, rank: u16) -> Move
        ensures { result ≡ spec.mode_write self.now rank }
    {
        let number = self.ranked(rank);
        Move::Write(Reg::PinMode(number), mode_number(self.initial_mode(number)))
    }
}
