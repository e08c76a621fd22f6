ghost use Rattle.std.specs.Prelude.{◌≡◌};
ghost use Rattle.module_machines.specs.gpt.Checks as checks;

use audit_base::{nothing, number};
use mcal_base::Answer;
use mcal_base::det_errors::Facts;
use module_machines::gpt::{Call, Change, Channel, ChannelCall, GptTable};

/// Whether the errors of a call hold, in their order: the module is uninitialised, it sleeps, a channel is busy.
pub(crate) fn facts(driver: &GptTable, call: Call, off: bool, asleep: bool, busy: bool) -> Facts
    ensures { result.holds ≡ checks.facts_by driver.now call off asleep busy }
{
    let holds = match call {
        Call::Init => [!off, false, false, false, false, false],
        Call::DeInit => [off, busy, false, false, false, false],
        Call::SetMode(mode) => [off, mode.is_none(), false, false, false, false],
        Call::Channel(number, call) => {
            let channel = driver.channel(number);
            [
                off,
                !allows(call, channel),
                !takes(call, channel),
                asleep,
                busy,
                false,
            ]
        }
    };
    Facts { holds }
}

/// The answer of a call with an error.
pub(crate) fn refused(call: Call) -> Answer
    ensures { result ≡ checks.answer_refused call }
{
    match call {
        Call::Channel(_, ChannelCall::GetTimeElapsed | ChannelCall::GetTimeRemaining) => number(0),
        _ => nothing(),
    }
}

/// Whether a call may name a channel.
fn allows(call: ChannelCall, channel: Option<Channel>) -> bool
    ensures { result ≡ checks.allows call channel }
{
    match call {
        ChannelCall::Change(Change::Notification(_)) => {
            channel.is_some_and(|channel: Channel| -> bool { channel.notification })
        }
        ChannelCall::Change(Change::Wakeup(_)) => {
            channel.is_some_and(|channel: Channel| -> bool { channel.wakeup })
        }
        ChannelCall::Change(Change::Check) => true,
        _ => channel.is_some(),
    }
}

/// Whether a channel may be started with the call's value, where it has one.
fn takes(call: ChannelCall, channel: Option<Channel>) -> bool
    ensures { result ≡ checks.takes call channel }
{
    let ChannelCall::StartTimer(value) = call else {
        return true;
    };
    match channel {
        Some(channel) => value != 0 && value <= channel.tick_value_max,
        None => false,
    }
}
