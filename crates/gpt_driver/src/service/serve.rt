ghost use Rattle.std.specs.Prelude.{◌≡◌};
ghost use Rattle.gpt_driver.specs.laws.Serve as spec;

use crate::switches::{packed, unpacked};
use crate::words::{STATE, bit, has, switches_word};
use mcal_base::{Event, Move, Notice, NoticeKind, Reg};
use module_machines::gpt::Switches;
use service_outline::{Body, BodyTaken, Epilogue, ends, goes, nothing};

/// The handler of a channel's line, in its window.
#[derive(Clone, Copy)]
pub enum ServeBody {
    /// It looks whether the flag stands.
    Look(u8),
    /// It loads the state word.
    Mode(u8),
    /// It loads the switches, after whether the mode is sleep.
    Switches(u8, bool),
    /// It serves: it clears the flag.
    Clear(u8, bool, Switches),
    /// It keeps the wakeup mark.
    Mark(u8, Switches),
}

impl Body for ServeBody {
    ghost use Rattle.gpt_driver.specs.laws.Serve.{serve_work, serve_takes};

    ghost work_of = { serve_work };

    ghost takes = { serve_takes };

    fn next(&self) -> Move {
        match *self {
            ServeBody::Look(_) => Move::Read(Reg::TimerFlags),
            ServeBody::Mode(_) => Move::Load(STATE),
            ServeBody::Switches(channel, _) => Move::Load(switches_word(channel)),
            ServeBody::Clear(channel, ..) => Move::Write(Reg::TimerFlags, bit(channel)),
            ServeBody::Mark(channel, switches) => {
                let woken = Switches {
                    woken: true,
                    ..switches
                };
                Move::Store(switches_word(channel), packed(woken))
            }
        }
    }

    fn took(&mut self, value: u32) -> BodyTaken {
        let (after, taken) = match *self {
            ServeBody::Look(channel) if has(value, channel) => (ServeBody::Mode(channel), goes()),
            ServeBody::Look(_) => (*self, ends(None, nothing(), Epilogue::Nothing)),
            ServeBody::Mode(channel) => (ServeBody::Switches(channel, value == 2), goes()),
            ServeBody::Switches(channel, asleep) => (
                ServeBody::Clear(channel, asleep, unpacked(value)),
                goes(),
            ),
            ServeBody::Clear(channel, asleep, switches) => served(channel, asleep, switches),
            ServeBody::Mark(channel, _) => {
                let notice = told(NoticeKind::EcuMCheckWakeup, channel);
                (*self, ends(None, nothing(), notice))
            }
        };
        *self = after;
        taken
    }
}

/// What the serving leaves.
fn served(channel: u8, asleep: bool, switches: Switches) -> (ServeBody, BodyTaken)
    ensures { result ≡ spec.serve_clears channel asleep switches }
{
    let here = ServeBody::Clear(channel, asleep, switches);
    let event = Some(Event::Serve(u32::from(channel)));
    if asleep && switches.wakeup {
        let serves = BodyTaken { event, done: None };
        (ServeBody::Mark(channel, switches), serves)
    } else {
        let owed = if !asleep && switches.notification {
            told(NoticeKind::GptNotification, channel)
        } else {
            Epilogue::Nothing
        };
        (here, ends(event, nothing(), owed))
    }
}

fn told(kind: NoticeKind, channel: u8) -> Epilogue
    ensures { result ≡ spec.told kind channel }
{
    let id = u32::from(channel);
    Epilogue::One(Notice { kind, id })
}
