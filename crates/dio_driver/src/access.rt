ghost use Rattle.std.specs.Prelude.{◌≡◌, ◌<◌, ◌≤◌};
ghost use Rattle.module_machines.specs.dio.Values as values;
ghost use Rattle.dio_driver.specs.Accesses as spec;

use mcal_base::{AnswerName, Move, Reg};
use module_machines::dio::{Call, PortPins};
use service_outline::{Reply, named, nothing, number};

/// The one access of a call without an error, at which it acts and ends.
#[derive(Clone, Copy)]
pub enum Access {
    /// It reads the level of a pin.
    Level(u32),
    /// It inverts the latch of a pin, and reads its level after that.
    Flip(u32),
    /// It reads the levels of some pins of a port.
    Levels(PortPins),
    /// It puts levels to the latches of some pins of a port.
    Put(PortPins, u8),
}

impl Access {
    /// The access of a call, and the pins that it is about.
    pub(crate) fn of(call: Call, pins: PortPins) -> Access
        ensures { result ≡ spec.access_of call pins }
    {
        match call {
            Call::ReadChannel(pin) => Access::Level(pin),
            Call::FlipChannel(pin) => Access::Flip(pin),
            Call::WriteChannel(_, high) => Access::Put(pins, moved_up(pins, u32::from(high))),
            Call::ReadPort(_) | Call::ReadChannelGroup(_) => Access::Levels(pins),
            Call::WritePort(_, value) | Call::WriteChannelGroup(_, value) => {
                Access::Put(pins, moved_up(pins, value))
            }
        }
    }

    /// The move.
    pub(crate) fn made(self) -> Move
        ensures { result ≡ spec.move_of self }
    {
        match self {
            Access::Level(pin) => Move::Read(Reg::PortLevels(pin / 8)),
            Access::Flip(pin) => Move::Read(Reg::PinFlip(pin)),
            Access::Levels(pins) => Move::Read(Reg::PortLevels(pins.port as u32)),
            Access::Put(pins, levels) => {
                let word = 256 * (pins.mask as u32) + (levels as u32);
                Move::Write(Reg::PortPut(pins.port as u32), word)
            }
        }
    }

    /// What the call answers, by the value that the access gave.
    pub(crate) fn answer(self, value: u32) -> Reply
        ensures { result ≡ spec.answer_by self value }
    {
        match self {
            Access::Level(pin) => level(stands_high(value, pin % 8)),
            Access::Flip(_) => level(value == 1),
            Access::Levels(pins) => number(moved_down(pins, value)),
            Access::Put(..) => nothing(),
        }
    }
}

/// What the bit of the first of these pins counts in their port.
fn weight(pins: PortPins) -> u32
    ensures is { result ≡ values.weight pins }
    ensures few { 0 < result }
    ensures most { result ≤ 128 }
{
    1 << ((pins.offset % 8) as u32)
}

/// A value as levels of the pins' port: its lowest eight bits moved up, of which those of the pins stay.
fn moved_up(pins: PortPins, value: u32) -> u8
    ensures { result ≡ values.moved_up pins value }
{
    let moved = (value % 256) * weight(pins);
    (moved & (pins.mask as u32)) as u8
}

/// The pins' value in their port's: their bits alone, moved down.
fn moved_down(pins: PortPins, port: u32) -> u32
    ensures { result ≡ values.moved_down pins port }
{
    (port & (pins.mask as u32)) / weight(pins)
}

/// Whether a bit of a port's value is set.
fn stands_high(port: u32, place: u32) -> bool
    requires { place < 8 }
    ensures { result ≡ values.stands_high port place }
{
    (port >> place) % 2 == 1
}

/// The answer that is a level.
fn level(high: bool) -> Reply
    ensures { result ≡ values.level_answer high }
{
    if high {
        named(AnswerName::StdHigh)
    } else {
        named(AnswerName::StdLow)
    }
}
