ghost use Rattle.std.specs.Prelude.{◌≡◌};
ghost use Rattle.gpt_driver.specs.laws.Look as spec;
ghost use Rattle.module_machines.specs.gpt.Checks as checks;

use crate::driver::GptDriver;
use crate::service::count::CountBody;
use crate::service::deinit::DeInitBody;
use crate::service::init::InitBody;
use crate::service::mode::ModeBody;
use crate::service::start::{Start, StartBody};
use crate::service::stop::StopBody;
use crate::service::switch::SwitchBody;
use crate::service::{ChannelBody, GptBody};
use crate::words::STATE;
use mcal_base::det_errors::{Facts, first_error};
use mcal_base::{Answer, ErrorName, Service};
use module_machines::gpt::{Call, Change, Channel, ChannelCall, GptMode};
use service_outline::{Done, Epilogue, Looked, Or, Reply, nothing, number};

/// A call with the driver that it is made of.
#[derive(Clone, Copy)]
pub struct Asked {
    /// The call.
    pub call: Call,
    /// The driver.
    pub driver: GptDriver,
}

impl service_outline::Service for Asked {
    type Body = GptBody;

    ghost use Rattle.gpt_driver.specs.laws.Look.{gpt_looked};
    ghost use Rattle.gpt_driver.specs.declared.words.TheConstants.{STATE};

    ghost WORD = { STATE };

    const WORD: u32 = STATE;

    ghost looked_of = { gpt_looked };

    fn look(&self, value: u32) -> Looked<GptBody> {
        match first_error(self.call.service(), &self.facts(value)) {
            Some(error) => Looked::Refused(self.refusal(error)),
            None => self.begin(),
        }
    }

    fn finish(_body: &GptBody, _ended: &mut Option<Answer>) {}
}

impl Asked {
    /// Which errors the state word and the arguments show, in the order of the service's errors.
    fn facts(&self, state: u32) -> Facts
        ensures { result.holds ≡ spec.facts_of self.now state }
    {
        let uninit = state == 0;
        let holds = match self.call {
            Call::Init => [!uninit, false, false, false, false, false],
            Call::DeInit => [uninit, false, false, false, false, false],
            Call::SetMode(mode) => [uninit, mode.is_none(), false, false, false, false],
            Call::Channel(number, call) => {
                let channel = self.driver.channel(number);
                let asleep = state == 2;
                [
                    uninit,
                    !allows(call, channel),
                    !takes(call, channel),
                    asleep,
                    false,
                    false,
                ]
            }
        };
        Facts { holds }
    }

    /// What a call with this error is done with.
    fn refusal(&self, error: ErrorName) -> Done
        ensures { result ≡ spec.refusal_of self.now error }
    {
        Done {
            answer: refused(self.call),
            owed: self.driver.owed(self.call.service(), error),
        }
    }

    /// What a call that nothing forbids so far goes on with.
    fn begin(&self) -> Looked<GptBody>
        ensures { result ≡ spec.begun_of self.now }
    {
        match self.call {
            Call::Init => Looked::Goes(Or::First(Or::First(InitBody::Enable))),
            Call::DeInit => {
                let busy = self.driver.owed(Service::GptDeInit, ErrorName::GptBusy);
                Looked::Goes(Or::First(Or::Second(Or::First(DeInitBody::Look(busy)))))
            }
            Call::SetMode(Some(mode)) => {
                let body = match mode {
                    GptMode::Normal => ModeBody::Wake,
                    GptMode::Sleep => ModeBody::Gather(0, 0),
                };
                Looked::Goes(Or::First(Or::Second(Or::Second(body))))
            }
            Call::SetMode(None) => let_be(),
            Call::Channel(number, call) => match self.driver.channel(number) {
                Some(channel) => Looked::Goes(Or::Second(Or::First(self.begin_at(channel, call)))),
                None => let_be(),
            },
        }
    }

    /// The same, for a call that names a configured channel.
    fn begin_at(&self, channel: Channel, call: ChannelCall) -> ChannelBody
        ensures { result ≡ spec.begun_with self.now.driver channel call }
    {
        let number = channel.number;
        match call {
            ChannelCall::GetTimeElapsed => Or::First(Or::First(CountBody::ElapsedLow(number))),
            ChannelCall::GetTimeRemaining => Or::First(Or::First(CountBody::RemainingTarget(
                number,
            ))),
            ChannelCall::StartTimer(value) => Or::First(Or::Second(StartBody::Look(Start {
                channel: number,
                value,
                prescaler: channel.prescaler,
                one_shot_bits: self.driver.one_shot_bits(),
                busy: self.driver.owed(Service::GptStartTimer, ErrorName::GptBusy),
            }))),
            ChannelCall::StopTimer if channel.one_shot => Or::Second(Or::First(StopBody::OneShot(
                number,
            ))),
            ChannelCall::StopTimer => Or::Second(Or::First(StopBody::Continuous(number))),
            ChannelCall::Change(change) => Or::Second(Or::Second(SwitchBody::Load(number, change))),
        }
    }
}

/// A call that does nothing.
fn let_be() -> Looked<GptBody>
    ensures { result ≡ spec.let_be }
{
    Looked::Refused(Done {
        answer: nothing(),
        owed: Epilogue::Nothing,
    })
}

/// The answer of a call with an error.
fn refused(call: Call) -> Reply
    ensures { result ≡ checks.answer_refused call }
{
    match call {
        Call::Channel(_, ChannelCall::GetTimeElapsed | ChannelCall::GetTimeRemaining) => number(0),
        _ => nothing(),
    }
}

/// Whether a call may name the channel.
fn allows(call: ChannelCall, channel: Option<Channel>) -> bool
    ensures { result ≡ checks.allows call channel }
{
    match (call, channel) {
        (ChannelCall::Change(Change::Check), _) => true,
        (_, None) => false,
        (ChannelCall::Change(Change::Notification(_)), Some(found)) => found.notification,
        (ChannelCall::Change(Change::Wakeup(_)), Some(found)) => found.wakeup,
        (_, Some(_)) => true,
    }
}

/// Whether the channel may be started with the call's value, where it has one.
fn takes(call: ChannelCall, channel: Option<Channel>) -> bool
    ensures { result ≡ checks.takes call channel }
{
    match (call, channel) {
        (ChannelCall::StartTimer(_), None) => false,
        (ChannelCall::StartTimer(value), Some(found)) => {
            value != 0 && value <= found.tick_value_max
        }
        _ => true,
    }
}
