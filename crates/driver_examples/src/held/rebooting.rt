use mcal_base::{Move, Reg};
use service_outline::{Body, BodyTaken, Epilogue, acts_with, nothing};

/// The reset of the chip.
#[derive(Clone, Copy)]
pub enum Rebooting {
    /// It resets the chip, and acts.
    Reset,
}

impl Body for Rebooting {
    ghost use Rattle.driver_examples.specs.held.Toy.{reboot_work, reboot_takes};

    ghost work_of = { reboot_work };

    ghost takes = { reboot_takes };

    fn next(&self) -> Move {
        match *self {
            Rebooting::Reset => Move::Write(Reg::ResetRequest, 1),
        }
    }

    fn took(&mut self, _value: u32) -> BodyTaken {
        match *self {
            Rebooting::Reset => acts_with(nothing(), Epilogue::Nothing),
        }
    }
}
