ghost use Rattle.std.specs.Prelude.{◌≡◌};
ghost use Rattle.mcu_driver.specs.laws.Look as spec;
ghost use Rattle.module_machines.specs.mcu.Checks as checks;

use crate::driver::McuDriver;
use crate::service::clock::ClockBody;
use crate::service::fill::Fill;
use crate::service::query::QueryBody;
use crate::service::reset::ResetBody;
use crate::service::state::StateBody;
use crate::service::{self, McuBody};
use crate::words::STATE;
use mcal_base::det_errors::{Facts, first_error};
use mcal_base::{Answer, AnswerName, ErrorName, Service};
use module_machines::mcu::{Call, ClockCall, Section};
use service_outline::{Done, Epilogue, Looked, Reply, named, nothing};

/// A call with the driver that it is made of.
#[derive(Clone, Copy)]
pub struct Asked {
    /// The call.
    pub call: Call,
    /// The driver.
    pub driver: McuDriver,
}

impl service_outline::Service for Asked {
    type Body = McuBody;

    ghost use Rattle.mcu_driver.specs.laws.Look.{mcu_looked};
    ghost use Rattle.mcu_driver.specs.declared.words.TheConstants.{STATE};

    ghost WORD = { STATE };

    const WORD: u32 = STATE;

    ghost looked_of = { mcu_looked };

    fn look(&self, value: u32) -> Looked<McuBody> {
        match first_error(self.call.service(), &self.facts(value)) {
            Some(error) => Looked::Refused(self.refusal(error)),
            None => self.begin(),
        }
    }

    fn finish(_body: &McuBody, _ended: &mut Option<Answer>) {}
}

impl Asked {
    /// Which errors the state word and the arguments show, in the order of the service's errors.
    fn facts(&self, state: u32) -> Facts
        ensures { result.holds ≡ spec.facts_of self.now state }
    {
        let uninit = state == 0;
        let (first, second) = match self.call {
            Call::Init => (false, false),
            Call::InitRamSection(number) => (uninit, self.driver.section(number).is_none()),
            Call::Clock(ClockCall::InitClock(setting)) => {
                (uninit, self.driver.multiplier(setting).is_none())
            }
            Call::SetMode(mode) => (uninit, !self.driver.has_mode(mode)),
            Call::Clock(ClockCall::DistributePllClock)
            | Call::GetPllStatus
            | Call::GetResetReason
            | Call::PerformReset => (uninit, false),
        };
        Facts {
            holds: [first, second, false, false, false, false],
        }
    }

    /// What a call with this error is done with.
    fn refusal(&self, error: ErrorName) -> Done
        ensures { result ≡ spec.refusal_of self.now error }
    {
        Done {
            answer: refused(self.call),
            owed: self.driver.owed(self.call.service(), error),
        }
    }

    /// What a call that nothing forbids so far goes on with.
    fn begin(&self) -> Looked<McuBody>
        ensures { result ≡ spec.begun_of self.now }
    {
        match self.call {
            Call::Init => Looked::Goes(service::state_body(StateBody::Initialise)),
            Call::SetMode(mode) => Looked::Goes(service::state_body(StateBody::Keep(mode))),
            Call::InitRamSection(number) => match self.driver.section(number) {
                Some(section) => Looked::Goes(service::fill_body(fill(number, section))),
                None => let_be(),
            },
            Call::Clock(ClockCall::InitClock(setting)) => match self.driver.multiplier(setting) {
                Some(multiplier) => {
                    Looked::Goes(service::clock_body(ClockBody::Start(multiplier)))
                }
                None => let_be(),
            },
            Call::Clock(ClockCall::DistributePllClock) => {
                let owed = self
                    .driver
                    .owed(Service::McuDistributePllClock, ErrorName::McuPllNotLocked);
                Looked::Goes(service::clock_body(ClockBody::Look(owed)))
            }
            Call::GetPllStatus => Looked::Goes(service::query_body(QueryBody::Status)),
            Call::GetResetReason => Looked::Goes(service::query_body(QueryBody::Reason)),
            Call::PerformReset => Looked::Goes(service::reset_body(ResetBody::Reset)),
        }
    }
}

/// How a section of a number is filled.
fn fill(number: u32, section: Section) -> Fill
    ensures { result ≡ spec.fill number section }
{
    Fill {
        section: number,
        base: narrow(section.base),
        size: narrow(section.size),
        value: section.default_value,
    }
}

/// A number of at most 16 bits.
fn narrow(number: u32) -> u16
    ensures { result ≡ spec.narrow number }
{
    if number < 65_536 { number as u16 } else { 0 }
}

/// A call that does nothing.
fn let_be() -> Looked<McuBody>
    ensures { result ≡ spec.let_be }
{
    Looked::Refused(Done {
        answer: nothing(),
        owed: Epilogue::Nothing,
    })
}

/// The answer of a call with an error.
fn refused(call: Call) -> Reply
    ensures { result ≡ checks.answer_refused call }
{
    match call {
        Call::InitRamSection(_) | Call::Clock(_) => named(AnswerName::ENotOk),
        Call::GetPllStatus => named(AnswerName::McuPllStatusUndefined),
        Call::GetResetReason => named(AnswerName::McuResetUndefined),
        Call::Init | Call::PerformReset | Call::SetMode(_) => nothing(),
    }
}
