use mcal_base::{AnswerName, Move};
use service_outline::{Body, BodyTaken, Epilogue, acts_with, named};
use word_shapes::jobs::{Placed, SetUp};

/// `Spi_SetupEB`, from the load of the state word on.
#[derive(Clone, Copy)]
pub enum SetUpBody {
    /// It acts, and keeps the set-up of a channel.
    Store(Placed, SetUp),
}

impl Body for SetUpBody {
    ghost use Rattle.spi_sequences.specs.laws.services.ChannelSteps.{set_up_work, set_up_takes};

    ghost work_of = { set_up_work };

    ghost takes = { set_up_takes };

    fn next(&self) -> Move {
        match self {
            SetUpBody::Store(placed, set_up) => Move::Store(placed.set_up(), set_up.packed()),
        }
    }

    fn took(&mut self, _value: u32) -> BodyTaken {
        match self {
            SetUpBody::Store(..) => acts_with(named(AnswerName::EOk), Epilogue::Nothing),
        }
    }
}
