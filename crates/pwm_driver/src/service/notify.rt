use crate::words::{KINDS, both, with, without};
use mcal_base::{Move, Reg};
use module_machines::pwm::PwmEdge;
use service_outline::{Body, BodyTaken, Epilogue, acts, ends, goes, nothing};

/// `Pwm_EnableNotification` and `Pwm_DisableNotification`, from the load of the state word on.
#[derive(Clone, Copy)]
pub enum NotifyBody {
    /// To enable: it loads the chosen changes of all channels.
    Load(u8, PwmEdge),
    /// It chooses these changes of the channel, and all others as they were: these are all of them then.
    Choose(u8, u32),
    /// It acts, and clears the channel's flags.
    Clear(u8, u32),
    /// To disable: it loads the chosen changes of all channels.
    Find(u8),
    /// It acts, and chooses none of the channel.
    Drop(u32),
    /// It keeps the chosen changes.
    Keep(u32),
}

impl Body for NotifyBody {
    ghost use Rattle.pwm_driver.specs.laws.Notify.{notify_work, notify_takes};

    ghost work_of = { notify_work };

    ghost takes = { notify_takes };

    fn next(&self) -> Move {
        match *self {
            NotifyBody::Load(..) | NotifyBody::Find(_) => Move::Load(KINDS),
            NotifyBody::Choose(_, kinds) | NotifyBody::Drop(kinds) => {
                Move::Write(Reg::PulseEdges, kinds)
            }
            NotifyBody::Clear(channel, _) => Move::Write(Reg::PulseFlags, both(channel)),
            NotifyBody::Keep(kinds) => Move::Store(KINDS, kinds),
        }
    }

    fn took(&mut self, value: u32) -> BodyTaken {
        let (after, taken) = match *self {
            NotifyBody::Load(channel, edge) => {
                (
                    NotifyBody::Choose(channel, with(value, channel, edge)),
                    goes(),
                )
            }
            NotifyBody::Choose(channel, kinds) => (NotifyBody::Clear(channel, kinds), goes()),
            NotifyBody::Clear(_, kinds) => (NotifyBody::Keep(kinds), acts()),
            NotifyBody::Find(channel) => (NotifyBody::Drop(without(value, channel)), goes()),
            NotifyBody::Drop(kinds) => (NotifyBody::Keep(kinds), acts()),
            NotifyBody::Keep(_) => (*self, ends(None, nothing(), Epilogue::Nothing)),
        };
        *self = after;
        taken
    }
}
