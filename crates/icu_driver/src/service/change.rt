use crate::service::init::condition;
use crate::words::{MARKS, SWITCHES, word};
use mcal_base::{AnswerName, IcuStartEdge, Move, Reg};
use service_outline::{Body, BodyTaken, Epilogue, acts, acts_with, ends, named, nothing};

/// The services that set or ask for what a channel keeps, from the load of the state word on.
#[derive(Clone, Copy)]
pub enum ChangeBody {
    /// It acts, and the notification is on or off.
    Notify(u8, bool),
    /// It acts, and these edges are chosen. The active mark goes where the channel has one.
    Choose(u8, IcuStartEdge, bool),
    /// It drops the active mark.
    Drop(u8),
    /// It acts, and loads the active mark.
    Ask(u8),
    /// It drops the mark, which was this.
    Take(u8, u32),
}

impl Body for ChangeBody {
    ghost use Rattle.icu_driver.specs.laws.Change.{change_work, change_takes};

    ghost work_of = { change_work };

    ghost takes = { change_takes };

    fn next(&self) -> Move {
        match *self {
            ChangeBody::Notify(channel, on) => Move::Store(word(SWITCHES, channel), u32::from(on)),
            ChangeBody::Choose(channel, edge, _) => {
                Move::Write(Reg::CaptureCondition(u32::from(channel)), condition(edge))
            }
            ChangeBody::Ask(channel) => Move::Load(word(MARKS, channel)),
            ChangeBody::Drop(channel) | ChangeBody::Take(channel, _) => {
                Move::Store(word(MARKS, channel), 0)
            }
        }
    }

    fn took(&mut self, value: u32) -> BodyTaken {
        let (after, taken) = match *self {
            ChangeBody::Notify(..) => (*self, acts_with(nothing(), Epilogue::Nothing)),
            ChangeBody::Choose(channel, _, true) => (ChangeBody::Drop(channel), acts()),
            ChangeBody::Choose(_, _, false) => (*self, acts_with(nothing(), Epilogue::Nothing)),
            ChangeBody::Drop(_) => (*self, ends(None, nothing(), Epilogue::Nothing)),
            ChangeBody::Ask(channel) => (ChangeBody::Take(channel, value), acts()),
            ChangeBody::Take(_, mark) => {
                let name = if mark == 1 {
                    AnswerName::IcuActive
                } else {
                    AnswerName::IcuIdle
                };
                (*self, ends(None, named(name), Epilogue::Nothing))
            }
        };
        *self = after;
        taken
    }
}
