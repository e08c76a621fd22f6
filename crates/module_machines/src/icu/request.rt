ghost use Rattle.std.specs.Prelude.{◌≡◌, Some, true, slice_get};
ghost use Rattle.module_machines.specs.icu.Requests as spec;

use crate::icu::call::{Call, ChannelCall};
use mcal_base::{Argument, ArgumentName, IcuStartEdge, Request, Service};

/// The call that a request asks for. Its service is one of the capture driver's.
pub fn call_of(request: &Request) -> Call
    requires { spec.has_service request.now.service ≡ true }
    ensures { spec.call_of request.now ≡ Some result }
{
    match asked(request) {
        Some(call) => call,
        None => unreachable!(),
    }
}

/// The call that a request asks for, none where its service is one of another module.
fn asked(request: &Request) -> Option<Call>
    ensures { result ≡ spec.call_of request.now }
{
    let first = argument(request, 0);
    let second = argument(request, 1);
    call_by(request.service, first, second, argument(request, 2))
}

/// An argument of a request.
fn argument(request: &Request, at: usize) -> Option<Argument>
    ensures { result ≡ slice_get request.now.arguments at }
{
    request.arguments.as_slice().get(at).copied()
}

/// A number that is asked with, 0 where there is none.
fn number(argument: Option<Argument>) -> u32
    ensures { result ≡ spec.number_of argument }
{
    match argument {
        Some(Argument::Number(number)) => number,
        _ => 0,
    }
}

/// The edges that are asked for, none where none of the three names stands there.
fn edge(argument: Option<Argument>) -> Option<IcuStartEdge>
    ensures { result ≡ spec.edge_of argument }
{
    match argument {
        Some(Argument::Name(ArgumentName::IcuRisingEdge)) => Some(IcuStartEdge::Rising),
        Some(Argument::Name(ArgumentName::IcuFallingEdge)) => Some(IcuStartEdge::Falling),
        Some(Argument::Name(ArgumentName::IcuBothEdges)) => Some(IcuStartEdge::Both),
        _ => None,
    }
}

/// The call of a service with its arguments, none where the service is one of another module.
fn call_by(
    service: Service,
    first: Option<Argument>,
    second: Option<Argument>,
    third: Option<Argument>,
) -> Option<Call>
    ensures { result ≡ spec.call_by service first second third }
{
    match service {
        Service::IcuInit => Some(Call::Init),
        Service::IcuDeInit => Some(Call::DeInit),
        _ => match channel_call_by(service, second, third) {
            Some(call) => Some(Call::Channel(number(first), call)),
            None => None,
        },
    }
}

/// What a service asks of its channel, none where the service is one of another module or of no channel.
fn channel_call_by(
    service: Service,
    second: Option<Argument>,
    third: Option<Argument>,
) -> Option<ChannelCall>
    ensures { result ≡ spec.channel_call_by service second third }
{
    match service {
        Service::IcuSetActivationCondition => {
            Some(ChannelCall::SetActivationCondition(edge(second)))
        }
        Service::IcuEnableNotification => Some(ChannelCall::EnableNotification),
        Service::IcuDisableNotification => Some(ChannelCall::DisableNotification),
        Service::IcuGetInputState => Some(ChannelCall::GetInputState),
        Service::IcuEnableEdgeDetection => Some(ChannelCall::EnableEdgeDetection),
        Service::IcuDisableEdgeDetection => Some(ChannelCall::DisableEdgeDetection),
        Service::IcuResetEdgeCount => Some(ChannelCall::ResetEdgeCount),
        Service::IcuEnableEdgeCount => Some(ChannelCall::EnableEdgeCount),
        Service::IcuDisableEdgeCount => Some(ChannelCall::DisableEdgeCount),
        Service::IcuGetEdgeNumbers => Some(ChannelCall::GetEdgeNumbers),
        Service::IcuStartTimestamp => {
            Some(ChannelCall::StartTimestamp(number(second), number(third)))
        }
        Service::IcuStopTimestamp => Some(ChannelCall::StopTimestamp),
        Service::IcuGetTimestampIndex => Some(ChannelCall::GetTimestampIndex),
        Service::IcuStartSignalMeasurement => Some(ChannelCall::StartSignalMeasurement),
        Service::IcuStopSignalMeasurement => Some(ChannelCall::StopSignalMeasurement),
        Service::IcuGetTimeElapsed => Some(ChannelCall::GetTimeElapsed),
        Service::IcuGetDutyCycleValues => Some(ChannelCall::GetDutyCycleValues),
        _ => None,
    }
}
