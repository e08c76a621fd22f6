ghost use Rattle.std.specs.Prelude.{◌≡◌, Some, true, slice_get};
ghost use Rattle.module_machines.specs.pwm.Requests as spec;

use crate::pwm::call::{Call, ChannelCall, PwmEdge};
use mcal_base::{Argument, ArgumentName, Request, Service};

/// The call that a request asks for. Its service is one of the pulse driver's.
pub fn call_of(request: &Request) -> Call
    requires { spec.has_service request.now.service ≡ true }
    ensures { spec.call_of request.now ≡ Some result }
{
    match asked(request) {
        Some(call) => call,
        None => unreachable!(),
    }
}

/// The call that a request asks for, none where its service is one of another module.
pub(crate) fn asked(request: &Request) -> Option<Call>
    ensures { result ≡ spec.call_of request.now }
{
    let first = argument(request, 0);
    let second = argument(request, 1);
    call_by(request.service, first, second, argument(request, 2))
}

/// An argument of a request.
fn argument(request: &Request, at: usize) -> Option<Argument>
    ensures { result ≡ slice_get request.now.arguments at }
{
    request.arguments.as_slice().get(at).copied()
}

/// A number that is asked with, 0 where there is none.
fn number(argument: Option<Argument>) -> u32
    ensures { result ≡ spec.number_of argument }
{
    match argument {
        Some(Argument::Number(number)) => number,
        _ => 0,
    }
}

/// The changes that are asked for, both kinds where nothing else is named.
fn edge(argument: Option<Argument>) -> PwmEdge
    ensures { result ≡ spec.edge_of argument }
{
    match argument {
        Some(Argument::Name(ArgumentName::PwmRisingEdge)) => PwmEdge::Rising,
        Some(Argument::Name(ArgumentName::PwmFallingEdge)) => PwmEdge::Falling,
        _ => PwmEdge::Both,
    }
}

/// The call of a service with its arguments, none where the service is one of another module.
fn call_by(
    service: Service,
    first: Option<Argument>,
    second: Option<Argument>,
    third: Option<Argument>,
) -> Option<Call>
    ensures { result ≡ spec.call_by service first second third }
{
    let channel = number(first);
    match service {
        Service::PwmInit => Some(Call::Init),
        Service::PwmDeInit => Some(Call::DeInit),
        Service::PwmSetDutyCycle => Some(Call::Channel(
            channel,
            ChannelCall::SetDutyCycle(number(second)),
        )),
        Service::PwmSetPeriodAndDuty => Some(Call::Channel(
            channel,
            ChannelCall::SetPeriodAndDuty(number(second), number(third)),
        )),
        Service::PwmSetOutputToIdle => Some(Call::Channel(channel, ChannelCall::SetOutputToIdle)),
        Service::PwmGetOutputState => Some(Call::GetOutputState(channel)),
        Service::PwmEnableNotification => Some(Call::Channel(
            channel,
            ChannelCall::EnableNotification(edge(second)),
        )),
        Service::PwmDisableNotification => {
            Some(Call::Channel(channel, ChannelCall::DisableNotification))
        }
        _ => None,
    }
}
