ghost use Rattle.std.specs.Prelude.{◌≡◌};
ghost use Rattle.module_machines.specs.pwm.Checks as checks;

use audit_base::{named, nothing};
use mcal_base::det_errors::Facts;
use mcal_base::{Answer, AnswerName};
use module_machines::pwm::{Call, Channel, ChannelCall, PwmTable};

/// Whether the errors of a call hold, in their order: the module is uninitialised, or its argument is wrong.
pub(crate) fn facts(driver: &PwmTable, call: Call, off: bool) -> Facts
    ensures { result.holds ≡ checks.facts_by driver.now call off }
{
    let holds = match call {
        Call::Init => [!off, false, false, false, false, false],
        Call::DeInit => [off, false, false, false, false, false],
        Call::GetOutputState(number) => [
            off,
            driver.channel(number).is_none(),
            false,
            false,
            false,
            false,
        ],
        Call::Channel(number, call) => {
            let channel = driver.channel(number);
            [
                off,
                !allows(call, channel),
                !may_set(call, channel),
                false,
                false,
                false,
            ]
        }
    };
    Facts { holds }
}

/// The answer that is a level.
pub(crate) fn level_answer(high: bool) -> Answer
    ensures { result ≡ checks.level_answer high }
{
    if high {
        named(AnswerName::PwmHigh)
    } else {
        named(AnswerName::PwmLow)
    }
}

/// The answer of a call with an error.
pub(crate) fn refused(call: Call) -> Answer
    ensures { result ≡ checks.answer_refused call }
{
    match call {
        Call::GetOutputState(_) => level_answer(false),
        Call::Init | Call::DeInit | Call::Channel(..) => nothing(),
    }
}

/// Whether a call may name a channel.
fn allows(call: ChannelCall, channel: Option<Channel>) -> bool
    ensures { result ≡ checks.allows call channel }
{
    match call {
        ChannelCall::EnableNotification(_) | ChannelCall::DisableNotification => {
            channel.is_some_and(|channel: Channel| -> bool { channel.notification })
        }
        _ => channel.is_some(),
    }
}

/// Whether a call that sets the period of a channel may do so.
fn may_set(call: ChannelCall, channel: Option<Channel>) -> bool
    ensures { result ≡ checks.may_set call channel }
{
    match call {
        ChannelCall::SetPeriodAndDuty(..) => {
            channel.is_some_and(|channel: Channel| -> bool { channel.variable_period })
        }
        _ => true,
    }
}
