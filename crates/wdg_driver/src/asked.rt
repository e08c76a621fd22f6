ghost use Rattle.std.specs.Prelude.{◌≡◌};
ghost use Rattle.wdg_driver.specs.laws.Look as spec;
ghost use Rattle.module_machines.specs.wdg.Checks as checks;

use crate::driver::WdgDriver;
use crate::service::{Says, WdgBody};
use crate::timing::mode_in;
use crate::words::STATE;
use mcal_base::det_errors::{Facts, first_error};
use mcal_base::{Answer, AnswerName, ErrorName};
use module_machines::wdg::{Call, Timing, narrow};
use service_outline::{Done, Epilogue, Looked, Reply, named, nothing};

/// A call with the driver that it is made of.
#[derive(Clone, Copy)]
pub struct Asked {
    /// The call.
    pub call: Call,
    /// The driver.
    pub driver: WdgDriver,
}

impl service_outline::Service for Asked {
    type Body = WdgBody;

    ghost use Rattle.wdg_driver.specs.laws.Look.{wdg_looked};
    ghost use Rattle.wdg_driver.specs.declared.words.TheConstants.{STATE};

    ghost WORD = { STATE };

    const WORD: u32 = STATE;

    ghost looked_of = { wdg_looked };

    fn look(&self, value: u32) -> Looked<WdgBody> {
        match first_error(self.call.service(), &self.facts(value)) {
            Some(error) => Looked::Refused(self.refusal(error)),
            None => self.begin(value),
        }
    }

    fn finish(_body: &WdgBody, _ended: &mut Option<Answer>) {}
}

impl Asked {
    /// Which errors the state word and the arguments show, in the order of the service's errors.
    fn facts(&self, state: u32) -> Facts
        ensures { result.holds ≡ spec.facts_of self.now state }
    {
        let uninit = state == 0;
        let (first, second) = match self.call {
            Call::Init => (false, false),
            Call::SetMode(mode) => (uninit, mode.is_none()),
            Call::SetTriggerCondition(ticks) => (uninit, (self.driver.max_ticks as u32) < ticks),
        };
        Facts {
            holds: [first, second, false, false, false, false],
        }
    }

    /// What a call with this error is done with.
    fn refusal(&self, error: ErrorName) -> Done
        ensures { result ≡ spec.refusal_of self.now error }
    {
        Done {
            answer: refused(self.call),
            owed: self.driver.owed(self.call.service(), error),
        }
    }

    /// What a call without an error goes on with. The off mode that isn't allowed is no error: it is answered so.
    fn begin(&self, state: u32) -> Looked<WdgBody>
        ensures { result ≡ spec.begins self.now state }
    {
        match self.call {
            Call::Init => Looked::Goes(WdgBody::Start(self.driver.initial, Says::Silent)),
            Call::SetMode(Some(mode)) if self.driver.allows(mode) => Looked::Goes(WdgBody::Look(
                mode,
            )),
            Call::SetMode(_) => Looked::Refused(Done {
                answer: named(AnswerName::ENotOk),
                owed: Epilogue::Nothing,
            }),
            Call::SetTriggerCondition(ticks) => {
                let timing = Timing {
                    mode: mode_in(state),
                    timeout: narrow(ticks),
                };
                Looked::Goes(WdgBody::Start(timing, Says::Silent))
            }
        }
    }
}

/// The answer of a call with an error.
fn refused(call: Call) -> Reply
    ensures { result ≡ checks.answer_refused call }
{
    match call {
        Call::SetMode(_) => named(AnswerName::ENotOk),
        Call::Init | Call::SetTriggerCondition(_) => nothing(),
    }
}
