ghost use Rattle.std.specs.Prelude.{◌≡◌, slice_get, true};
ghost use Rattle.module_machines.specs.gpt.Requests as spec;

use crate::gpt::call::{Call, Change, ChannelCall, GptMode};
use mcal_base::{Argument, ArgumentName, Request, Service};

/// A number that is asked with, 0 where there is none.
fn number(argument: Option<Argument>) -> u32
    ensures { result ≡ spec.number_of argument }
{
    match argument {
        Some(Argument::Number(number)) => number,
        _ => 0,
    }
}

/// A mode that is asked for, none where it is none of the two.
fn mode(argument: Option<Argument>) -> Option<GptMode>
    ensures { result ≡ spec.mode_of argument }
{
    match argument {
        Some(Argument::Name(ArgumentName::GptModeNormal)) => Some(GptMode::Normal),
        Some(Argument::Name(ArgumentName::GptModeSleep)) => Some(GptMode::Sleep),
        _ => None,
    }
}

/// An argument of a request.
fn argument(request: &Request, at: usize) -> Option<Argument>
    ensures { result ≡ slice_get request.now.arguments at }
{
    request.arguments.as_slice().get(at).copied()
}

/// The call of a service of the module with its arguments.
fn call_by(service: Service, first: Option<Argument>, second: Option<Argument>) -> Call
    requires { spec.has_service service ≡ true }
    ensures { result ≡ spec.call_by service first second }
{
    match service {
        Service::GptInit => Call::Init,
        Service::GptDeInit => Call::DeInit,
        Service::GptSetMode => Call::SetMode(mode(first)),
        Service::GptGetTimeElapsed => on(first, ChannelCall::GetTimeElapsed),
        Service::GptGetTimeRemaining => on(first, ChannelCall::GetTimeRemaining),
        Service::GptStartTimer => on(first, ChannelCall::StartTimer(number(second))),
        Service::GptStopTimer => on(first, ChannelCall::StopTimer),
        Service::GptEnableNotification => on(
            first,
            ChannelCall::Change(Change::Notification(true)),
        ),
        Service::GptDisableNotification => on(
            first,
            ChannelCall::Change(Change::Notification(false)),
        ),
        Service::GptEnableWakeup => on(first, ChannelCall::Change(Change::Wakeup(true))),
        Service::GptDisableWakeup => on(first, ChannelCall::Change(Change::Wakeup(false))),
        Service::GptCheckWakeup => on(first, ChannelCall::Change(Change::Check)),
        _ => unreachable!(),
    }
}

fn on(channel: Option<Argument>, call: ChannelCall) -> Call
    ensures { result ≡ spec.on channel call }
{
    Call::Channel(number(channel), call)
}

/// The call that a request asks for, which names a service of the module.
pub fn call_of(request: &Request) -> Call
    requires { spec.has_service request.now.service ≡ true }
    ensures { result ≡ spec.call_of request.now }
{
    call_by(request.service, argument(request, 0), argument(request, 1))
}
