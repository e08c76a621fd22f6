ghost use Rattle.std.specs.Prelude.{◌≡◌};
ghost use Rattle.module_machines.specs.icu.Checks as checks;
ghost use Rattle.module_machines.specs.icu.Table as table;
ghost use Rattle.icu_driver.specs.laws.Look as spec;

use crate::driver::IcuDriver;
use crate::service::change::ChangeBody;
use crate::service::count::CountBody;
use crate::service::deinit::DeInitBody;
use crate::service::duty::DutyBody;
use crate::service::gate::GateBody;
use crate::service::init::InitBody;
use crate::service::measure::MeasureBody;
use crate::service::stamp::{StampBody, Stamping};
use crate::service::{self, IcuBody};
use crate::words::STATE;
use mcal_base::det_errors::{Facts, first_error};
use mcal_base::{
    Answer, AnswerName, ErrorName, IcuMeasurementMode, IcuSignalMeasurementProperty, Service,
};
use module_machines::icu::{Call, Channel, ChannelCall};
use service_outline::{Done, Epilogue, Looked, Reply, named, nothing, number, numbers};

/// A call with the driver that it is made of.
#[derive(Clone, Copy)]
pub struct Asked {
    /// The call.
    pub call: Call,
    /// The driver.
    pub driver: IcuDriver,
}

impl service_outline::Service for Asked {
    type Body = IcuBody;

    ghost use Rattle.icu_driver.specs.laws.Look.{icu_looked};
    ghost use Rattle.icu_driver.specs.declared.words.TheConstants.{STATE};

    ghost WORD = { STATE };

    const WORD: u32 = STATE;

    ghost looked_of = { icu_looked };

    fn look(&self, value: u32) -> Looked<IcuBody> {
        match first_error(self.call.service(), &self.facts(value)) {
            Some(error) => Looked::Refused(self.refusal(error)),
            None => self.begin(),
        }
    }

    fn finish(_body: &IcuBody, _ended: &mut Option<Answer>) {}
}

impl Asked {
    /// Which errors the state word and the arguments show, in the order of the service's errors.
    fn facts(&self, state: u32) -> Facts
        ensures { result.holds ≡ spec.facts_of self.now state }
    {
        let uninit = state == 0;
        let holds = match self.call {
            Call::Init => [!uninit, false, false, false, false, false],
            Call::DeInit => [uninit, false, false, false, false, false],
            Call::Channel(number, call) => {
                let channel = self.driver.channel(number);
                let (first, second) = wrong(call);
                [uninit, !allows(call, channel), first, second, false, false]
            }
        };
        Facts { holds }
    }

    /// What a call with this error is done with.
    fn refusal(&self, error: ErrorName) -> Done
        ensures { result ≡ spec.refusal_of self.now error }
    {
        Done {
            answer: refused(self.call),
            owed: self.driver.owed(self.call.service(), error),
        }
    }

    /// What a call that nothing forbids so far goes on with.
    fn begin(&self) -> Looked<IcuBody>
        ensures { result ≡ spec.begun_of self.now }
    {
        match self.call {
            Call::Init => Looked::Goes(service::init_body(InitBody::Condition(*self.driver, 0))),
            Call::DeInit => Looked::Goes(service::deinit_body(DeInitBody::Store(*self.driver))),
            Call::Channel(number, call) => match self.driver.channel(number) {
                Some(channel) => self.begin_at(channel, call),
                None => let_be(),
            },
        }
    }

    /// The same, for a call that names a configured channel.
    fn begin_at(&self, channel: Channel, call: ChannelCall) -> Looked<IcuBody>
        ensures { result ≡ spec.begun_with self.now.driver channel call }
    {
        match call {
            ChannelCall::SetActivationCondition(None) => let_be(),
            ChannelCall::SetActivationCondition(Some(edge)) => {
                let marked = detects(channel.mode);
                Looked::Goes(service::change_body(ChangeBody::Choose(channel.number, edge, marked)))
            }
            _ => Looked::Goes(self.goes_at(channel.number, call)),
        }
    }

    /// The same, for a call that chooses no edges.
    fn goes_at(&self, number: u8, call: ChannelCall) -> IcuBody
        ensures { result ≡ spec.goes_with self.now.driver number call }
    {
        match call {
            ChannelCall::SetActivationCondition(_) | ChannelCall::GetInputState => {
                service::change_body(ChangeBody::Ask(number))
            }
            ChannelCall::EnableNotification => service::change_body(ChangeBody::Notify(
                number, true,
            )),
            ChannelCall::DisableNotification => service::change_body(ChangeBody::Notify(
                number, false,
            )),
            ChannelCall::EnableEdgeDetection => service::gate_body(GateBody::Open(number)),
            ChannelCall::DisableEdgeDetection | ChannelCall::StopSignalMeasurement => {
                service::gate_body(GateBody::Close(number))
            }
            ChannelCall::ResetEdgeCount => service::count_body(CountBody::Zero(number)),
            ChannelCall::EnableEdgeCount => service::count_body(CountBody::Open(number)),
            ChannelCall::DisableEdgeCount => service::count_body(CountBody::Close(number)),
            ChannelCall::GetEdgeNumbers => service::count_body(CountBody::Low(number)),
            ChannelCall::StartTimestamp(size, interval) => {
                service::stamp_body(StampBody::Open(Stamping {
                    channel: number,
                    size,
                    interval,
                }))
            }
            ChannelCall::StopTimestamp => {
                let owed = self
                    .driver
                    .owed(Service::IcuStopTimestamp, ErrorName::IcuNotStarted);
                service::stamp_body(StampBody::Look(number, owed))
            }
            ChannelCall::GetTimestampIndex => service::stamp_body(StampBody::Started(number)),
            ChannelCall::StartSignalMeasurement => {
                service::measure_body(MeasureBody::Open(number))
            }
            ChannelCall::GetTimeElapsed => service::measure_body(MeasureBody::Waits(number)),
            ChannelCall::GetDutyCycleValues => service::duty_body(DutyBody::Waits(number)),
        }
    }
}

/// A call that does nothing.
fn let_be() -> Looked<IcuBody>
    ensures { result ≡ spec.let_be }
{
    Looked::Refused(Done {
        answer: nothing(),
        owed: Epilogue::Nothing,
    })
}

/// The answer of a call with an error.
fn refused(call: Call) -> Reply
    ensures { result ≡ checks.answer_refused call }
{
    match call {
        Call::Channel(_, ChannelCall::GetInputState) => named(AnswerName::IcuIdle),
        Call::Channel(
            _,
            ChannelCall::GetEdgeNumbers
            | ChannelCall::GetTimestampIndex
            | ChannelCall::GetTimeElapsed,
        ) => number(0),
        Call::Channel(_, ChannelCall::GetDutyCycleValues) => numbers(0, 0),
        _ => nothing(),
    }
}

/// Whether the call's own arguments are wrong: the first and the second that may be.
fn wrong(call: ChannelCall) -> (bool, bool)
    ensures { result ≡ spec.wrong call }
{
    match call {
        ChannelCall::SetActivationCondition(edge) => (edge.is_none(), false),
        ChannelCall::StartTimestamp(size, interval) => (size == 0 || 64 < size, interval == 0),
        _ => (false, false),
    }
}

/// Whether a call may name the channel.
fn allows(call: ChannelCall, channel: Option<Channel>) -> bool
    ensures { result ≡ checks.allows call channel }
{
    match channel {
        Some(found) => suits(call, found),
        None => false,
    }
}

/// Whether a channel is for what is asked of it.
fn suits(call: ChannelCall, channel: Channel) -> bool
    ensures { result ≡ checks.suits call channel }
{
    let mode = channel.mode;
    match call {
        ChannelCall::SetActivationCondition(_) => !measures(mode),
        ChannelCall::EnableNotification | ChannelCall::DisableNotification => {
            has_notification(channel)
        }
        ChannelCall::GetInputState => detects(mode) || measures(mode),
        ChannelCall::EnableEdgeDetection | ChannelCall::DisableEdgeDetection => detects(mode),
        ChannelCall::ResetEdgeCount
        | ChannelCall::EnableEdgeCount
        | ChannelCall::DisableEdgeCount
        | ChannelCall::GetEdgeNumbers => counts(mode),
        ChannelCall::StartTimestamp(..)
        | ChannelCall::StopTimestamp
        | ChannelCall::GetTimestampIndex => stamps(mode),
        ChannelCall::StartSignalMeasurement | ChannelCall::StopSignalMeasurement => {
            measures(mode)
        }
        ChannelCall::GetTimeElapsed => measures(mode) && !is_duty_cycle(channel.measured),
        ChannelCall::GetDutyCycleValues => measures(mode) && is_duty_cycle(channel.measured),
    }
}

fn has_notification(channel: Channel) -> bool
    ensures { result ≡ checks.has_notification channel }
{
    (detects(channel.mode) && channel.signal_notification)
        || (stamps(channel.mode) && channel.timestamp_notification)
}

fn detects(mode: IcuMeasurementMode) -> bool
    ensures { result ≡ table.is_detection mode }
{
    match mode {
        IcuMeasurementMode::SignalEdgeDetect => true,
        _ => false,
    }
}

fn counts(mode: IcuMeasurementMode) -> bool
    ensures { result ≡ table.is_counter mode }
{
    match mode {
        IcuMeasurementMode::EdgeCounter => true,
        _ => false,
    }
}

fn stamps(mode: IcuMeasurementMode) -> bool
    ensures { result ≡ table.is_timestamp mode }
{
    match mode {
        IcuMeasurementMode::Timestamp => true,
        _ => false,
    }
}

fn measures(mode: IcuMeasurementMode) -> bool
    ensures { result ≡ table.is_measurement mode }
{
    match mode {
        IcuMeasurementMode::SignalMeasurement => true,
        _ => false,
    }
}

fn is_duty_cycle(measured: Option<IcuSignalMeasurementProperty>) -> bool
    ensures { result ≡ table.is_duty_cycle measured }
{
    match measured {
        Some(IcuSignalMeasurementProperty::DutyCycle) => true,
        _ => false,
    }
}
