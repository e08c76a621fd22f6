ghost use Rattle.std.specs.Prelude.{◌≡◌};
ghost use Rattle.wdg_driver.specs.laws.Body as spec;

use crate::timing::{load, state_word};
use crate::words::{STATE, TIMEOUT};
use mcal_base::{AnswerName, Move, Reg, WdgMode};
use module_machines::wdg::{Timing, narrow};
use service_outline::{Body, BodyTaken, Epilogue, Reply, acts, ends, goes, named, nothing};

/// What a call answers that has started the watchdog.
#[derive(Clone, Copy)]
pub enum Says {
    /// Nothing.
    Silent,
    /// `E_OK`
    Accepted,
}

/// The services of the watchdog, from the load of the state word on. Each starts the watchdog's time anew, by a mode and
/// a timeout that it keeps then.
#[derive(Clone, Copy)]
pub enum WdgBody {
    /// It looks which timeout was set last, for this mode.
    Look(WdgMode),
    /// It acts, and the watchdog's time begins anew.
    Start(Timing, Says),
    /// It keeps the mode.
    KeepMode(Timing, Says),
    /// It keeps the timeout.
    KeepTimeout(Timing, Says),
}

impl Body for WdgBody {
    ghost use Rattle.wdg_driver.specs.laws.Body.{wdg_work, wdg_takes};

    ghost work_of = { wdg_work };

    ghost takes = { wdg_takes };

    fn next(&self) -> Move {
        match *self {
            WdgBody::Look(_) => Move::Load(TIMEOUT),
            WdgBody::Start(timing, _) => Move::Write(Reg::WatchdogLoad, load(&timing)),
            WdgBody::KeepMode(timing, _) => Move::Store(STATE, state_word(timing.mode)),
            WdgBody::KeepTimeout(timing, _) => Move::Store(TIMEOUT, timing.timeout as u32),
        }
    }

    fn took(&mut self, value: u32) -> BodyTaken {
        match *self {
            WdgBody::Look(mode) => {
                let timeout = narrow(value);
                *self = WdgBody::Start(Timing { mode, timeout }, Says::Accepted);
                goes()
            }
            WdgBody::Start(timing, says) => {
                *self = WdgBody::KeepMode(timing, says);
                acts()
            }
            WdgBody::KeepMode(timing, says) => {
                *self = WdgBody::KeepTimeout(timing, says);
                goes()
            }
            WdgBody::KeepTimeout(_, says) => ends(None, reply(says), Epilogue::Nothing),
        }
    }
}

/// The answer in full.
fn reply(says: Says) -> Reply
    ensures { result ≡ spec.answer_of says }
{
    match says {
        Says::Silent => nothing(),
        Says::Accepted => named(AnswerName::EOk),
    }
}
