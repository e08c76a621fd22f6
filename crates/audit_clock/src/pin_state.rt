ghost use Rattle.std.specs.Prelude.{◌≡◌, ◌<◌};
ghost use Rattle.mcal_base.specs.Bits.{has_bit};
ghost use Rattle.module_machines.specs.port.Checks as checks;
ghost use Rattle.module_machines.specs.port.Machine as spec;
ghost use Rattle.audit_clock.specs.PinStands.{latched, state_of, turned};

use mcal_base::{PortPinDirection, PortPinMode};
use module_machines::port::{Pin, PinCall};

/// A pin.
#[derive(Clone, Copy)]
pub struct PinState {
    /// Its direction.
    pub direction: PortPinDirection,
    /// Its mode.
    pub mode: PortPinMode,
    /// Whether its latch is high.
    pub latch: bool,
}

/// A pin after a reset.
pub(crate) const UNTOUCHED: PinState = PinState {
    direction: PortPinDirection::In,
    mode: PortPinMode::Adc,
    latch: false,
};

/// What a call about all pins makes of each that is configured.
#[derive(Clone, Copy)]
pub enum Whole {
    /// It becomes as it is configured.
    Configured,
    /// It takes its configured direction again.
    Refreshed,
}

/// A pin after a call about all pins.
pub(crate) fn turned(by: Whole, pin: Option<Pin>, state: PinState) -> PinState
    ensures { state_of result ≡ turned by pin (state_of state) }
{
    match by {
        Whole::Configured => initial(pin, state),
        Whole::Refreshed => refreshed(pin, state),
    }
}

/// A pin as it is configured, where it is.
fn initial(pin: Option<Pin>, state: PinState) -> PinState
    ensures { state_of result ≡ spec.initial pin (state_of state) }
{
    match pin {
        Some(pin) => PinState {
            direction: pin.direction,
            mode: pin.initial_mode,
            latch: pin.level_high,
        },
        None => state,
    }
}

/// A pin with its configured direction, where that may not change.
fn refreshed(pin: Option<Pin>, state: PinState) -> PinState
    ensures { state_of result ≡ spec.refreshed pin (state_of state) }
{
    match pin {
        Some(pin) => {
            if pin.direction_changeable {
                state
            } else {
                PinState {
                    direction: pin.direction,
                    ..state
                }
            }
        }
        None => state,
    }
}

/// A pin after a call about it.
pub(crate) fn changed(call: PinCall, state: PinState) -> PinState
    ensures { state_of result ≡ spec.changed call (state_of state) }
{
    match call {
        PinCall::SetPinDirection(direction) => PinState { direction, ..state },
        PinCall::SetPinMode(Some(mode)) => PinState { mode, ..state },
        PinCall::SetPinMode(None) => state,
    }
}

/// A pin with this latch, where it is out.
pub(crate) fn with_latch(high: bool, state: PinState) -> PinState
    ensures { state_of result ≡ spec.with_latch high (state_of state) }
{
    match state.direction {
        PortPinDirection::In => state,
        PortPinDirection::Out => PinState {
            latch: high,
            ..state
        },
    }
}

/// Whether a bit of a word is set.
pub(crate) fn has_bit(word: u32, place: u32) -> bool
    requires { place < 32 }
    ensures { result ≡ has_bit word place }
{
    (word >> place) % 2 == 1
}

/// The pin at a place of a port, of eight, after a word of 256 * mask + levels is put to the port.
pub(crate) fn latched(word: u32, place: u32, state: PinState) -> PinState
    requires { place < 8 }
    ensures { state_of result ≡ latched word place (state_of state) }
{
    if has_bit(word, 8 + place) {
        with_latch(has_bit(word, place), state)
    } else {
        state
    }
}

/// The level of a pin, by what stands outside and the output of the pulse channel that is seen at it.
pub(crate) fn level_of(pin: PinState, outside: bool, pulse: Option<bool>) -> bool
    ensures { result ≡ spec.level_of (state_of pin) outside pulse }
{
    match pin.direction {
        PortPinDirection::In => outside,
        PortPinDirection::Out => match pin.mode {
            PortPinMode::Pwm => pulse.unwrap_or(pin.latch),
            PortPinMode::Adc | PortPinMode::Dio | PortPinMode::Icu | PortPinMode::Spi => pin.latch,
        },
    }
}

/// Whether the errors of a call about a pin hold, in their order.
pub(crate) fn pin_facts(off: bool, pin: Option<Pin>, call: PinCall) -> [bool; 6]
    ensures { result ≡ checks.pin_facts off pin call }
{
    match call {
        PinCall::SetPinDirection(_) => [
            off,
            pin.is_none(),
            !has_changeable_direction(pin),
            false,
            false,
            false,
        ],
        PinCall::SetPinMode(mode) => [
            off,
            pin.is_none(),
            !has_mode(pin, mode),
            !has_changeable_mode(pin),
            false,
            false,
        ],
    }
}

fn has_changeable_direction(pin: Option<Pin>) -> bool
    ensures { result ≡ checks.has_changeable_direction pin }
{
    match pin {
        Some(pin) => pin.direction_changeable,
        None => false,
    }
}

fn has_changeable_mode(pin: Option<Pin>) -> bool
    ensures { result ≡ checks.has_changeable_mode pin }
{
    match pin {
        Some(pin) => pin.mode_changeable,
        None => false,
    }
}

fn has_mode(pin: Option<Pin>, mode: Option<PortPinMode>) -> bool
    ensures { result ≡ checks.has_mode pin mode }
{
    match (pin, mode) {
        (Some(pin), Some(mode)) => pin.modes.has(mode),
        _ => false,
    }
}
