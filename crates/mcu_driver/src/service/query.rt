ghost use Rattle.std.specs.Prelude.{◌≡◌};
ghost use Rattle.mcu_driver.specs.laws.Query as spec;

use mcal_base::{AnswerName, Move, Reg};
use service_outline::{Body, BodyTaken, Epilogue, acts_with, named};

/// `Mcu_GetPllStatus` and `Mcu_GetResetReason`, from the load of the state word on.
#[derive(Clone, Copy)]
pub enum QueryBody {
    /// It acts, and reads whether the PLL is locked.
    Status,
    /// It acts, and reads why the chip was reset.
    Reason,
}

impl Body for QueryBody {
    ghost use Rattle.mcu_driver.specs.laws.Query.{query_work, query_takes};

    ghost work_of = { query_work };

    ghost takes = { query_takes };

    fn next(&self) -> Move {
        match *self {
            QueryBody::Status => Move::Read(Reg::ClockLock),
            QueryBody::Reason => Move::Read(Reg::ResetReason),
        }
    }

    fn took(&mut self, value: u32) -> BodyTaken {
        let name = match *self {
            QueryBody::Status => status(value),
            QueryBody::Reason => reason(value),
        };
        acts_with(named(name), Epilogue::Nothing)
    }
}

/// What the lock register says.
fn status(value: u32) -> AnswerName
    ensures { result ≡ spec.status value }
{
    if value == 0 {
        AnswerName::McuPllUnlocked
    } else {
        AnswerName::McuPllLocked
    }
}

/// What the register of the reset's reason says.
fn reason(value: u32) -> AnswerName
    ensures { result ≡ spec.reason value }
{
    if value == 0 {
        AnswerName::McuPowerOnReset
    } else if value == 1 {
        AnswerName::McuWatchdogReset
    } else {
        AnswerName::McuSwReset
    }
}
