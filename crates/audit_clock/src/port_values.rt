ghost use Rattle.std.specs.Prelude.{◌≡◌, ◌<◌, ◌≤◌};
ghost use Rattle.mcal_base.specs.Bits.{bit_of};
ghost use Rattle.module_machines.specs.dio.Values as spec;
ghost use Rattle.module_machines.specs.dio.Checks as checks;

use audit_base::{named, nothing, number};
use mcal_base::{Answer, AnswerName};
use module_machines::dio::{Call, PortPins};

/// What the bit of the first of these pins counts in their port.
fn weight(pins: PortPins) -> u32
    ensures is { result ≡ spec.weight pins }
    ensures few { 0 < result }
    ensures most { result ≤ 128 }
{
    1 << ((pins.offset % 8) as u32)
}

/// The word that puts a value to these pins: the mask in bits 8 to 15, and below it the value's lowest eight bits moved up, of
/// which those of the pins stay.
pub(crate) fn word_of(pins: PortPins, value: u32) -> u32
    ensures { result ≡ spec.word_of pins (spec.moved_up pins value) }
{
    let moved = (value % 256) * weight(pins);
    let levels = (moved & (pins.mask as u32)) as u8;
    256 * (pins.mask as u32) + (levels as u32)
}

/// 1 where a level is high, and 0 where it is low.
pub(crate) fn bit(high: bool) -> u32
    ensures { result ≡ bit_of high }
{
    if high { 1 } else { 0 }
}

/// The value of these pins in their port's: their bits alone, moved down.
pub(crate) fn moved_down(pins: PortPins, port: u32) -> u32
    ensures { result ≡ spec.moved_down pins port }
{
    (port & (pins.mask as u32)) / weight(pins)
}

/// The answer that is a level.
pub(crate) fn level_answer(high: bool) -> Answer
    ensures { result ≡ spec.level_answer high }
{
    if high {
        named(AnswerName::StdHigh)
    } else {
        named(AnswerName::StdLow)
    }
}

/// The answer of a call with an error.
pub(crate) fn refused(call: Call) -> Answer
    ensures { result ≡ checks.answer_refused call }
{
    match call {
        Call::ReadChannel(_) | Call::FlipChannel(_) => named(AnswerName::StdLow),
        Call::ReadPort(_) | Call::ReadChannelGroup(_) => number(0),
        Call::WriteChannel(..) | Call::WritePort(..) | Call::WriteChannelGroup(..) => nothing(),
    }
}
