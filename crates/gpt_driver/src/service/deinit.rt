use crate::words::{LAST_WORD, LINES, STATE, TARGETS};
use mcal_base::{Move, Reg};
use service_outline::{Body, BodyTaken, Epilogue, acts, acts_with, ends, goes, nothing};

/// `Gpt_DeInit`, from the load of the state word on.
#[derive(Clone, Copy)]
pub enum DeInitBody {
    /// It looks whether a channel runs. Where one does, it owes this.
    Look(Epilogue),
    /// It acts, and the module is uninitialised.
    Store,
    /// It makes the counters 0.
    Zero,
    /// It clears the flags.
    Flags,
    /// It disables the lines.
    Disable,
    /// It forgets the target or the switches of a channel, and goes on with the next word.
    Forget(u32),
}

impl Body for DeInitBody {
    ghost use Rattle.gpt_driver.specs.laws.DeInit.{deinit_work, deinit_takes};

    ghost work_of = { deinit_work };

    ghost takes = { deinit_takes };

    fn next(&self) -> Move {
        match *self {
            DeInitBody::Look(_) => Move::Read(Reg::TimerRun),
            DeInitBody::Store => Move::Store(STATE, 0),
            DeInitBody::Zero => Move::Write(Reg::TimerZero, LINES),
            DeInitBody::Flags => Move::Write(Reg::TimerFlags, LINES),
            DeInitBody::Disable => Move::Write(Reg::EnableClear, LINES),
            DeInitBody::Forget(word) => Move::Store(word, 0),
        }
    }

    fn took(&mut self, value: u32) -> BodyTaken {
        let (after, taken) = match *self {
            DeInitBody::Look(_) if value == 0 => (DeInitBody::Store, goes()),
            DeInitBody::Look(busy) => (*self, acts_with(nothing(), busy)),
            DeInitBody::Store => (DeInitBody::Zero, acts()),
            DeInitBody::Zero => (DeInitBody::Flags, goes()),
            DeInitBody::Flags => (DeInitBody::Disable, goes()),
            DeInitBody::Disable => (DeInitBody::Forget(TARGETS), goes()),
            DeInitBody::Forget(word) if word < LAST_WORD => {
                (DeInitBody::Forget(word + 1), goes())
            }
            DeInitBody::Forget(_) => (*self, ends(None, nothing(), Epilogue::Nothing)),
        };
        *self = after;
        taken
    }
}
