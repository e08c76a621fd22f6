ghost use Rattle.std.specs.Prelude.{◌≡◌};
ghost use Rattle.pwm_driver.specs.laws.Look as spec;
ghost use Rattle.module_machines.specs.pwm.Checks as checks;

use crate::driver::PwmDriver;
use crate::service::deinit::DeInitBody;
use crate::service::init::Setup;
use crate::service::notify::NotifyBody;
use crate::service::output::{OutputBody, Want};
use crate::service::rest::RestBody;
use crate::service::{self, PwmBody};
use crate::words::STATE;
use mcal_base::det_errors::{Facts, first_error};
use mcal_base::{Answer, AnswerName, ErrorName};
use module_machines::pwm::{Call, Channel, ChannelCall};
use service_outline::{Done, Epilogue, Looked, Reply, named, nothing};

/// A call with the driver that it is made of.
#[derive(Clone, Copy)]
pub struct Asked {
    /// The call.
    pub call: Call,
    /// The driver.
    pub driver: PwmDriver,
}

impl service_outline::Service for Asked {
    type Body = PwmBody;

    ghost use Rattle.pwm_driver.specs.laws.Look.{pwm_looked};
    ghost use Rattle.pwm_driver.specs.declared.words.TheConstants.{STATE};

    ghost WORD = { STATE };

    const WORD: u32 = STATE;

    ghost looked_of = { pwm_looked };

    fn look(&self, value: u32) -> Looked<PwmBody> {
        match first_error(self.call.service(), &self.facts(value)) {
            Some(error) => Looked::Refused(self.refusal(error)),
            None => self.begin(),
        }
    }

    fn finish(_body: &PwmBody, _ended: &mut Option<Answer>) {}
}

impl Asked {
    /// Which errors the state word and the arguments show, in the order of the service's errors.
    fn facts(&self, state: u32) -> Facts
        ensures { result.holds ≡ spec.facts_of self.now state }
    {
        let uninit = state == 0;
        let (first, second, third) = match self.call {
            Call::Init => (!uninit, false, false),
            Call::DeInit => (uninit, false, false),
            Call::GetOutputState(number) => (uninit, self.driver.channel(number).is_none(), false),
            Call::Channel(number, call) => {
                let channel = self.driver.channel(number);
                (uninit, !allows(call, channel), !may_set(call, channel))
            }
        };
        Facts {
            holds: [first, second, third, false, false, false],
        }
    }

    /// What a call with this error is done with.
    fn refusal(&self, error: ErrorName) -> Done
        ensures { result ≡ spec.refusal_of self.now error }
    {
        Done {
            answer: refused(self.call),
            owed: self.driver.owed(self.call.service(), error),
        }
    }

    /// What a call that nothing forbids goes on with.
    fn begin(&self) -> Looked<PwmBody>
        ensures { result ≡ spec.begun_of self.now }
    {
        let driver = self.driver;
        match self.call {
            Call::Init => Looked::Goes(service::init_body(Setup { driver })),
            Call::DeInit => Looked::Goes(service::deinit_body(DeInitBody::Store(*driver))),
            Call::GetOutputState(number) => match driver.channel(number) {
                Some(channel) => { Looked::Goes(service::rest_body(RestBody::Ask(channel.number))) }
                None => let_be(),
            },
            Call::Channel(number, call) => match driver.channel(number) {
                Some(channel) => Looked::Goes(begin_at(channel, call)),
                None => let_be(),
            },
        }
    }
}

/// What a call about a configured channel goes on with.
fn begin_at(channel: Channel, call: ChannelCall) -> PwmBody
    ensures { result ≡ spec.begun_with channel call }
{
    let number = channel.number;
    match call {
        ChannelCall::SetDutyCycle(duty) => service::output_body(OutputBody::Load(Want {
            channel: number,
            period: 0,
            duty,
            high: channel.polarity_high,
            keeps: false,
        })),
        ChannelCall::SetPeriodAndDuty(period, duty) => {
            service::output_body(OutputBody::Period(Want {
                channel: number,
                period,
                duty,
                high: channel.polarity_high,
                keeps: true,
            }))
        }
        ChannelCall::SetOutputToIdle => service::rest_body(RestBody::Rest(
            number,
            channel.idle_high,
        )),
        ChannelCall::EnableNotification(edge) => {
            service::notify_body(NotifyBody::Load(number, edge))
        }
        ChannelCall::DisableNotification => service::notify_body(NotifyBody::Find(number)),
    }
}

/// A call that does nothing.
fn let_be() -> Looked<PwmBody>
    ensures { result ≡ spec.let_be }
{
    Looked::Refused(Done {
        answer: nothing(),
        owed: Epilogue::Nothing,
    })
}

/// The answer of a call with an error.
fn refused(call: Call) -> Reply
    ensures { result ≡ checks.answer_refused call }
{
    match call {
        Call::GetOutputState(_) => named(AnswerName::PwmLow),
        Call::Init | Call::DeInit | Call::Channel(..) => nothing(),
    }
}

/// Whether a call may name the channel.
fn allows(call: ChannelCall, channel: Option<Channel>) -> bool
    ensures { result ≡ checks.allows call channel }
{
    match call {
        ChannelCall::EnableNotification(_) | ChannelCall::DisableNotification => match channel {
            Some(found) => found.notification,
            None => false,
        },
        ChannelCall::SetDutyCycle(_)
        | ChannelCall::SetPeriodAndDuty(..)
        | ChannelCall::SetOutputToIdle => channel.is_some(),
    }
}

/// Whether a call may set the period of the channel, where it does.
fn may_set(call: ChannelCall, channel: Option<Channel>) -> bool
    ensures { result ≡ checks.may_set call channel }
{
    match call {
        ChannelCall::SetPeriodAndDuty(..) => match channel {
            Some(found) => found.variable_period,
            None => false,
        },
        ChannelCall::SetDutyCycle(_)
        | ChannelCall::SetOutputToIdle
        | ChannelCall::EnableNotification(_)
        | ChannelCall::DisableNotification => true,
    }
}
