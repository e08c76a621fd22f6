ghost use Rattle.std.specs.Prelude.{◌≡◌};
ghost use Rattle.module_machines.specs.gpt.Machine as machine;
ghost use Rattle.gpt_driver.specs.laws.Switch as spec;

use crate::switches::{packed, unpacked};
use crate::words::switches_word;
use mcal_base::{Move, Notice, NoticeKind};
use module_machines::gpt::{Change, Switches};
use service_outline::{Body, BodyTaken, Epilogue, acts_with, goes, nothing};

/// The services that change the switches of a channel, from the load of the state word on.
#[derive(Clone, Copy)]
pub enum SwitchBody {
    /// It loads the switches of the channel.
    Load(u8, Change),
    /// It acts, and stores them changed. They were these.
    Store(u8, Change, Switches),
}

impl Body for SwitchBody {
    ghost use Rattle.gpt_driver.specs.laws.Switch.{switch_work, switch_takes};

    ghost work_of = { switch_work };

    ghost takes = { switch_takes };

    fn next(&self) -> Move {
        match *self {
            SwitchBody::Load(channel, _) => Move::Load(switches_word(channel)),
            SwitchBody::Store(channel, change, switches) => {
                Move::Store(switches_word(channel), packed(changed(change, switches)))
            }
        }
    }

    fn took(&mut self, value: u32) -> BodyTaken {
        match *self {
            SwitchBody::Load(channel, change) => {
                *self = SwitchBody::Store(channel, change, unpacked(value));
                goes()
            }
            SwitchBody::Store(channel, change, switches) => {
                acts_with(nothing(), told(change, channel, switches))
            }
        }
    }
}

/// The switches, changed so.
fn changed(change: Change, switches: Switches) -> Switches
    ensures { result ≡ machine.changed change switches }
{
    let mut switches = switches;
    match change {
        Change::Notification(on) => switches.notification = on,
        Change::Wakeup(on) => switches.wakeup = on,
        Change::Check => switches.woken = false,
    }
    switches
}

/// What is told of the switches as they were.
fn told(change: Change, channel: u8, switches: Switches) -> Epilogue
    ensures { result ≡ spec.event_owed change channel switches }
{
    match change {
        Change::Check if switches.woken => Epilogue::One(Notice {
            kind: NoticeKind::EcuMSetWakeupEvent,
            id: u32::from(channel),
        }),
        _ => Epilogue::Nothing,
    }
}
