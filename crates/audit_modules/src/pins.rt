ghost use Rattle.std.specs.Prelude.{◌≡◌, ◌<◌, length};
ghost use Rattle.std.specs.Bool.{OnTrue};
ghost use Rattle.module_machines.specs.port.Bounds.{PinAgrees, PinsAgree};
ghost use Rattle.module_machines.specs.port.Machine as spec;
ghost use Rattle.module_machines.specs.port.Machine.{PortState, pin_at};
ghost use Rattle.audit_clock.specs.PinStands.{StandsFor};
ghost use Rattle.audit_frames.specs.Decides.{Decides};
ghost use Rattle.audit_modules.specs.Agrees.{PinsUnless, mode_number};

use crate::outputs::is_same;
use audit_clock::Pins;
use chip_blocks::units::PinBlock;
use mcal_base::{PortPinDirection, PortPinMode};

/// How many pins there are.
const PINS: u32 = 64;

/// Whether a direction is out.
fn is_out(direction: PortPinDirection) -> bool
    ensures { result ≡ spec.is_out direction }
{
    matches!(direction, PortPinDirection::Out)
}

/// The number of a mode, as the chip has it.
fn mode_number(mode: PortPinMode) -> u32
    ensures { result ≡ mode_number mode }
{
    match mode {
        PortPinMode::Adc => 0,
        PortPinMode::Dio => 1,
        PortPinMode::Icu => 2,
        PortPinMode::Pwm => 3,
        PortPinMode::Spi => 4,
    }
}

/// Whether two modes are the same.
fn is_same_mode(first: PortPinMode, second: PortPinMode) -> bool
    ensures { Decides result (first ≡ second) }
{
    mode_number(first) == mode_number(second)
}

/// Whether the chip has a pin as the machine has it.
fn has_pin(pins: &Pins, block: &PinBlock, number: u32) -> bool
    requires { number < 64 }
    ensures is { (s : PortState) → StandsFor pins.now s → Decides result (PinAgrees block.now number (pin_at s number)) }
    ensures halves { length block.now.latches ≡ 2 }
{
    let state = pins.state(number);
    if !is_same(block.latch(number), state.latch) {
        return false;
    }
    if !is_same(block.is_out(number), is_out(state.direction)) {
        return false;
    }
    is_same_mode(block.mode(number), state.mode)
}

/// Whether the chip has all pins as the machine has them. Where it has, its block has the latches of both halves.
pub(crate) fn pins_agree(pins: &Pins, block: &PinBlock) -> bool
    ensures agree { (s : PortState) → StandsFor pins.now s → Decides result (PinsAgree block.now s) }
    ensures halves { OnTrue result (length block.now.latches ≡ 2) }
{
    for number in 0..PINS {
        if !has_pin(pins, block, number) {
            return false;
        }
    }
    true
}

/// The same, unless the pins are busy.
pub fn pins_stand(pins: &Pins, block: &PinBlock, busy: bool) -> bool
    ensures { (s : PortState) → StandsFor pins.now s → Decides result (PinsUnless busy block.now s) }
{
    if busy {
        return true;
    }
    pins_agree(pins, block)
}
