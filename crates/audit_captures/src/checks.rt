ghost use Rattle.std.specs.Prelude.{◌≡◌, [], ◌∷◌, false, List, Some, option_map};
ghost use Rattle.run_model.specs.Machine as done;
ghost use Rattle.module_machines.specs.icu.Checks as checks;
ghost use Rattle.module_machines.specs.icu.Edges as edges;
ghost use Rattle.module_machines.specs.icu.Machine as spec;
ghost use Rattle.module_machines.specs.icu.Machine.{Stamp};
ghost use Rattle.module_machines.specs.icu.Table as table;
ghost use Rattle.audit_captures.specs.Stands.{capture_of, value_as, FollowsIf};

use crate::capture::Capture;
use crate::measure::Value;
use audit_base::{named, nothing, number, numbers};
use mcal_base::det_errors::Facts;
use mcal_base::{Answer, AnswerName, IcuMeasurementMode, IcuSignalMeasurementProperty};
use module_machines::icu::{Call, Channel, ChannelCall, IcuTable};

/// Whether the errors of a call hold, in their order: the module is uninitialised, or the channel is stamping or isn't.
pub(crate) fn facts(driver: &IcuTable, call: Call, off: bool, stamping: bool) -> Facts
    ensures { result.holds ≡ checks.facts_by driver.now call off stamping }
{
    let holds = match call {
        Call::Init => [!off, false, false, false, false, false],
        Call::DeInit => [off, false, false, false, false, false],
        Call::Channel(number, call) => {
            let wrong = !allows(call, driver.channel(number));
            let (first, second) = channel_facts(call, stamping);
            [off, wrong, first, second, false, false]
        }
    };
    Facts { holds }
}

/// The errors that a channel's call has besides.
fn channel_facts(call: ChannelCall, stamping: bool) -> (bool, bool)
    ensures { result.0 ∷ result.1 ∷ false ∷ false ∷ [] ≡ checks.channel_facts call stamping }
{
    match call {
        ChannelCall::SetActivationCondition(edge) => (edge.is_none(), false),
        ChannelCall::StartTimestamp(size, interval) => (size == 0 || 64 < size, interval == 0),
        ChannelCall::StopTimestamp => (!stamping, false),
        _ => (false, false),
    }
}

fn is_measurement(channel: Channel) -> bool
    ensures { result ≡ table.is_measurement channel.mode }
{
    matches!(channel.mode, IcuMeasurementMode::SignalMeasurement)
}

fn is_duty_cycle(channel: Channel) -> bool
    ensures { result ≡ table.is_duty_cycle channel.measured }
{
    matches!(
        channel.measured,
        Some(IcuSignalMeasurementProperty::DutyCycle)
    )
}

fn is_detection(channel: Channel) -> bool
    ensures { result ≡ table.is_detection channel.mode }
{
    matches!(channel.mode, IcuMeasurementMode::SignalEdgeDetect)
}

fn is_timestamp(channel: Channel) -> bool
    ensures { result ≡ table.is_timestamp channel.mode }
{
    matches!(channel.mode, IcuMeasurementMode::Timestamp)
}

fn has_notification(channel: Channel) -> bool
    ensures { result ≡ checks.has_notification channel }
{
    is_detection(channel) && channel.signal_notification
        || is_timestamp(channel) && channel.timestamp_notification
}

/// Whether a configured channel is for what is asked of it.
fn suits(call: ChannelCall, channel: Channel) -> bool
    ensures { result ≡ checks.suits call channel }
{
    match call {
        ChannelCall::SetActivationCondition(_) => !is_measurement(channel),
        ChannelCall::EnableNotification | ChannelCall::DisableNotification => {
            has_notification(channel)
        }
        ChannelCall::GetInputState => is_detection(channel) || is_measurement(channel),
        ChannelCall::EnableEdgeDetection | ChannelCall::DisableEdgeDetection => {
            is_detection(channel)
        }
        ChannelCall::ResetEdgeCount
        | ChannelCall::EnableEdgeCount
        | ChannelCall::DisableEdgeCount
        | ChannelCall::GetEdgeNumbers => { matches!(channel.mode, IcuMeasurementMode::EdgeCounter) }
        ChannelCall::StartTimestamp(..)
        | ChannelCall::StopTimestamp
        | ChannelCall::GetTimestampIndex => is_timestamp(channel),
        ChannelCall::StartSignalMeasurement | ChannelCall::StopSignalMeasurement => {
            is_measurement(channel)
        }
        ChannelCall::GetTimeElapsed => is_measurement(channel) && !is_duty_cycle(channel),
        ChannelCall::GetDutyCycleValues => is_measurement(channel) && is_duty_cycle(channel),
    }
}

fn allows(call: ChannelCall, channel: Option<Channel>) -> bool
    ensures { result ≡ checks.allows call channel }
{
    match channel {
        Some(channel) => suits(call, channel),
        None => false,
    }
}

/// The answer that is the state of an input.
fn input_answer(active: bool) -> Answer
    ensures { result ≡ checks.input_answer active }
{
    if active {
        named(AnswerName::IcuActive)
    } else {
        named(AnswerName::IcuIdle)
    }
}

/// The answer of a call with an error.
pub(crate) fn refused(call: Call) -> Answer
    ensures { result ≡ checks.answer_refused call }
{
    match call {
        Call::Channel(_, ChannelCall::GetInputState) => input_answer(false),
        Call::Channel(
            _,
            ChannelCall::GetEdgeNumbers
            | ChannelCall::GetTimestampIndex
            | ChannelCall::GetTimeElapsed,
        ) => number(0),
        Call::Channel(_, ChannelCall::GetDutyCycleValues) => numbers(0, 0),
        _ => nothing(),
    }
}

/// A value as an answer.
fn answer_of(value: Value) -> Answer
    ensures { result ≡ done.numbers (value_as value) }
{
    match value {
        Value::Time(time) => number(time),
        Value::Duty(active, period) => numbers(active, period),
    }
}

/// The value, where there is one, and else this.
fn value_or(none: Value, value: Option<Value>) -> Value
    ensures { value_as result ≡ spec.value_or (value_as none) (option_map value_as value) }
{
    match value {
        Some(value) => value,
        None => none,
    }
}

/// What is handed out: the newest value where it wasn't yet, and else this.
fn handed(none: Value, capture: Capture) -> Value
    ensures { (k : Channel) (es : List edges.Edge) (stored : List Stamp) → option_map value_as capture.value ≡ edges.newest (edges.values k es) →
        value_as result ≡ spec.handed (value_as none) k (capture_of capture es stored) }
{
    if capture.handed_out {
        none
    } else {
        value_or(none, capture.value)
    }
}

/// What a call about a channel without an error answers.
pub(crate) fn answer(capture: Capture, channel: Channel, call: ChannelCall) -> Answer
    ensures { (es : List edges.Edge) (stored : List Stamp) → FollowsIf (Some channel) capture es →
        result ≡ spec.channel_answer channel call (capture_of capture es stored) }
{
    match call {
        ChannelCall::GetInputState => input_answer(capture.active),
        ChannelCall::GetEdgeNumbers => number(capture.count),
        ChannelCall::GetTimestampIndex => number(capture.index(channel)),
        ChannelCall::GetTimeElapsed => answer_of(handed(Value::Time(0), capture)),
        ChannelCall::GetDutyCycleValues => answer_of(handed(Value::Duty(0, 0), capture)),
        _ => nothing(),
    }
}
