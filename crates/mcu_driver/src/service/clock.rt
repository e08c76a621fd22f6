use mcal_base::{AnswerName, Move, Reg};
use service_outline::{Body, BodyTaken, Epilogue, acts_with, goes, named};

/// `Mcu_InitClock` and `Mcu_DistributePllClock`, from the load of the state word on.
#[derive(Clone, Copy)]
pub enum ClockBody {
    /// It acts, and the PLL starts with this multiplier.
    Start(u32),
    /// It looks whether the PLL is locked. Where it isn't it acts, and owes this.
    Look(Epilogue),
    /// It acts, and the rate is the multiplier.
    Take,
}

impl Body for ClockBody {
    ghost use Rattle.mcu_driver.specs.laws.Clock.{clock_work, clock_takes};

    ghost work_of = { clock_work };

    ghost takes = { clock_takes };

    fn next(&self) -> Move {
        match *self {
            ClockBody::Start(multiplier) => Move::Write(Reg::ClockPll, multiplier),
            ClockBody::Look(_) => Move::Read(Reg::ClockLock),
            ClockBody::Take => Move::Write(Reg::ClockRate, 1),
        }
    }

    fn took(&mut self, value: u32) -> BodyTaken {
        match *self {
            ClockBody::Look(owed) => {
                if value == 0 {
                    acts_with(named(AnswerName::ENotOk), owed)
                } else {
                    *self = ClockBody::Take;
                    goes()
                }
            }
            ClockBody::Start(_) | ClockBody::Take => acts_with(
                named(AnswerName::EOk),
                Epilogue::Nothing,
            ),
        }
    }
}
