ghost use Rattle.std.specs.Prelude.{◌≡◌};
ghost use Rattle.module_machines.specs.dio.Checks.{answer_refused};

use crate::access::Access;
use mcal_base::{Answer, AnswerName, DevError, Event, Move, Routine, Taken};
use module_machines::dio::Call;
use service_outline::{Reply, named, nothing, number};

/// The driver word that a call with an error loads, to act. It is never stored.
pub const NOWHERE: u32 = 57_344;

/// A call under way. Most have one step.
#[derive(Clone, Copy)]
pub enum DioFrame {
    /// Before its one access, at which it acts and ends.
    Access(Access),
    /// Before it acts on an error, with what it reports then.
    Refused(Call, Option<DevError>),
    /// Before it reports the error, and ends.
    Telling(Call, DevError),
}

impl Routine for DioFrame {
    ghost use Rattle.dio_driver.specs.Frames.{dio_move, dio_left, dio_gave};

    ghost move_of = { dio_move };

    ghost left = { dio_left };

    ghost gave = { dio_gave };

    fn next(&self) -> Move {
        match self {
            DioFrame::Access(access) => access.made(),
            DioFrame::Refused(..) => Move::Load(NOWHERE),
            DioFrame::Telling(_, error) => Move::Report(*error),
        }
    }

    fn took(&mut self, value: u32) -> Taken {
        let mut ended = None;
        let event = self.took_into(value, &mut ended);
        Taken { event, ended }
    }

    fn took_into(&mut self, value: u32, ended: &mut Option<Answer>) -> Option<Event> {
        match *self {
            DioFrame::Access(access) => {
                access.answer(value).write(ended);
                Some(Event::Act)
            }
            DioFrame::Refused(call, None) => {
                refused(call).write(ended);
                Some(Event::Act)
            }
            DioFrame::Refused(call, Some(error)) => {
                *self = DioFrame::Telling(call, error);
                Some(Event::Act)
            }
            DioFrame::Telling(call, _) => {
                refused(call).write(ended);
                None
            }
        }
    }
}

/// The answer of a call with an error.
fn refused(call: Call) -> Reply
    ensures { result ≡ answer_refused call }
{
    match call {
        Call::ReadChannel(_) | Call::FlipChannel(_) => named(AnswerName::StdLow),
        Call::ReadPort(_) | Call::ReadChannelGroup(_) => number(0),
        Call::WriteChannel(..) | Call::WritePort(..) | Call::WriteChannelGroup(..) => nothing(),
    }
}
