use crate::words::bit;
use mcal_base::{Move, Reg};
use service_outline::{Body, BodyTaken, Epilogue, acts, acts_with, ends, nothing};

/// `Gpt_StopTimer`, from the load of the state word on.
#[derive(Clone, Copy)]
pub enum StopBody {
    /// It acts, and a one-shot channel stops. One that has expired keeps its flag.
    OneShot(u8),
    /// It acts, and a continuous channel stops.
    Continuous(u8),
    /// It clears the flag.
    Flag(u8),
}

impl Body for StopBody {
    ghost use Rattle.gpt_driver.specs.laws.Stop.{stop_work, stop_takes};

    ghost work_of = { stop_work };

    ghost takes = { stop_takes };

    fn next(&self) -> Move {
        match *self {
            StopBody::OneShot(channel) | StopBody::Continuous(channel) => {
                Move::Write(Reg::TimerGateClear, bit(channel))
            }
            StopBody::Flag(channel) => Move::Write(Reg::TimerFlags, bit(channel)),
        }
    }

    fn took(&mut self, _value: u32) -> BodyTaken {
        match *self {
            StopBody::OneShot(_) => acts_with(nothing(), Epilogue::Nothing),
            StopBody::Continuous(channel) => {
                *self = StopBody::Flag(channel);
                acts()
            }
            StopBody::Flag(_) => ends(None, nothing(), Epilogue::Nothing),
        }
    }
}
