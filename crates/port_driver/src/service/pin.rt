use crate::writes::{Side, bit, is_out, mode_number};
use mcal_base::{Move, PortPinDirection, PortPinMode, Reg};
use service_outline::{Body, BodyTaken, Epilogue, acts_with, nothing};

/// A call about a pin, from the load of the state word on.
#[derive(Clone, Copy)]
pub enum PinBody {
    /// It acts, and the pin takes the direction.
    Direction(u32, PortPinDirection),
    /// It acts, and the pin takes the mode.
    Mode(u32, PortPinMode),
}

impl Body for PinBody {
    ghost use Rattle.port_driver.specs.laws.Pins.{pin_work, pin_takes};

    ghost work_of = { pin_work };

    ghost takes = { pin_takes };

    fn next(&self) -> Move {
        match *self {
            PinBody::Direction(pin, direction) => {
                let register = Side::Directions.register(is_out(direction), pin / 32);
                Move::Write(register, bit(pin))
            }
            PinBody::Mode(pin, mode) => Move::Write(Reg::PinMode(pin), mode_number(mode)),
        }
    }

    fn took(&mut self, _value: u32) -> BodyTaken {
        acts_with(nothing(), Epilogue::Nothing)
    }
}
