use crate::words::level;
use mcal_base::{AnswerName, Move, Reg};
use service_outline::{Body, BodyTaken, Epilogue, acts_with, named, nothing};

/// `Pwm_SetOutputToIdle` and `Pwm_GetOutputState`, from the load of the state word on.
#[derive(Clone, Copy)]
pub enum RestBody {
    /// It acts, and the output has this level from now on.
    Rest(u8, bool),
    /// It acts, and reads the level.
    Ask(u8),
}

impl Body for RestBody {
    ghost use Rattle.pwm_driver.specs.laws.Rest.{rest_work, rest_takes};

    ghost work_of = { rest_work };

    ghost takes = { rest_takes };

    fn next(&self) -> Move {
        match *self {
            RestBody::Rest(channel, high) => {
                Move::Write(Reg::PulseIdle(u32::from(channel)), level(high))
            }
            RestBody::Ask(channel) => Move::Read(Reg::PulseOut(u32::from(channel))),
        }
    }

    fn took(&mut self, value: u32) -> BodyTaken {
        match *self {
            RestBody::Rest(..) => acts_with(nothing(), Epilogue::Nothing),
            RestBody::Ask(_) if value == 1 => acts_with(
                named(AnswerName::PwmHigh),
                Epilogue::Nothing,
            ),
            RestBody::Ask(_) => acts_with(named(AnswerName::PwmLow), Epilogue::Nothing),
        }
    }
}
