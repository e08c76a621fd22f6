use mcal_base::{Move, Reg};
use service_outline::{Body, BodyTaken, Epilogue, acts_with, nothing};

/// `Mcu_PerformReset`, from the load of the state word on.
#[derive(Clone, Copy)]
pub enum ResetBody {
    /// It acts, and asks for the reset, which ends the frame.
    Reset,
}

impl Body for ResetBody {
    ghost use Rattle.mcu_driver.specs.laws.Reset.{reset_work, reset_takes};

    ghost work_of = { reset_work };

    ghost takes = { reset_takes };

    fn next(&self) -> Move {
        match *self {
            ResetBody::Reset => Move::Write(Reg::ResetRequest, 1),
        }
    }

    fn took(&mut self, _value: u32) -> BodyTaken {
        match *self {
            ResetBody::Reset => acts_with(nothing(), Epilogue::Nothing),
        }
    }
}
