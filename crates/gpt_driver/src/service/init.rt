use crate::words::{LINES, STATE};
use mcal_base::{Move, Reg};
use service_outline::{Body, BodyTaken, Epilogue, acts_with, goes, nothing};

/// `Gpt_Init`, from the load of the state word on.
#[derive(Clone, Copy)]
pub enum InitBody {
    /// It enables the lines.
    Enable,
    /// It acts, and the module is initialised.
    Store,
}

impl Body for InitBody {
    ghost use Rattle.gpt_driver.specs.laws.Init.{init_work, init_takes};

    ghost work_of = { init_work };

    ghost takes = { init_takes };

    fn next(&self) -> Move {
        match *self {
            InitBody::Enable => Move::Write(Reg::EnableSet, LINES),
            InitBody::Store => Move::Store(STATE, 1),
        }
    }

    fn took(&mut self, _value: u32) -> BodyTaken {
        match *self {
            InitBody::Enable => {
                *self = InitBody::Store;
                goes()
            }
            InitBody::Store => acts_with(nothing(), Epilogue::Nothing),
        }
    }
}
