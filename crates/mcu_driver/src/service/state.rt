use crate::words::{MODE, STATE};
use mcal_base::Move;
use service_outline::{Body, BodyTaken, Epilogue, acts_with, nothing};

/// `Mcu_Init` and `Mcu_SetMode`, from the load of the state word on.
#[derive(Clone, Copy)]
pub enum StateBody {
    /// It acts, and the module is initialised.
    Initialise,
    /// It acts, and keeps this mode.
    Keep(u32),
}

impl Body for StateBody {
    ghost use Rattle.mcu_driver.specs.laws.State.{state_work, state_takes};

    ghost work_of = { state_work };

    ghost takes = { state_takes };

    fn next(&self) -> Move {
        match *self {
            StateBody::Initialise => Move::Store(STATE, 1),
            StateBody::Keep(mode) => Move::Store(MODE, mode),
        }
    }

    fn took(&mut self, _value: u32) -> BodyTaken {
        acts_with(nothing(), Epilogue::Nothing)
    }
}
