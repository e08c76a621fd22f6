use crate::words::{KINDS, both, stands};
use mcal_base::{Event, Move, Notice, NoticeKind, Reg};
use service_outline::{Body, BodyTaken, Epilogue, ends, goes, nothing};

/// The handler of a channel's line, in its window.
#[derive(Clone, Copy)]
pub enum ServeBody {
    /// It loads the chosen changes of all channels.
    Kinds(u8),
    /// It looks whether a flag of a chosen change stands. These are chosen.
    Look(u8, u32),
    /// It serves: it clears the flags.
    Clear(u8),
}

impl Body for ServeBody {
    ghost use Rattle.pwm_driver.specs.laws.Serve.{serve_work, serve_takes};

    ghost work_of = { serve_work };

    ghost takes = { serve_takes };

    fn next(&self) -> Move {
        match *self {
            ServeBody::Kinds(_) => Move::Load(KINDS),
            ServeBody::Look(..) => Move::Read(Reg::PulseFlags),
            ServeBody::Clear(channel) => Move::Write(Reg::PulseFlags, both(channel)),
        }
    }

    fn took(&mut self, value: u32) -> BodyTaken {
        let (after, taken) = match *self {
            ServeBody::Kinds(channel) => (ServeBody::Look(channel, value), goes()),
            ServeBody::Look(channel, kinds) if stands(kinds, value, channel) => {
                (ServeBody::Clear(channel), goes())
            }
            ServeBody::Look(..) => (*self, ends(None, nothing(), Epilogue::Nothing)),
            ServeBody::Clear(channel) => {
                let id = u32::from(channel);
                let notice = Epilogue::One(Notice {
                    kind: NoticeKind::PwmNotification,
                    id,
                });
                (*self, ends(Some(Event::Serve(id + 8)), nothing(), notice))
            }
        };
        *self = after;
        taken
    }
}
