ghost use Rattle.std.specs.Prelude.{◌≡◌, true, Some, slice_get};
ghost use Rattle.adc_machine.specs.Requests as spec;

use crate::call::{Call, GroupCall, ResultBuffer};
use mcal_base::{Argument, ModuleName, Request, Service};

/// Whether a service is one of the driver's.
pub fn has_service(service: Service) -> bool
    ensures { result ≡ spec.has_service service }
{
    matches!(service.module(), ModuleName::Adc)
}

/// The call that a request of a service of the driver asks for.
pub fn call_of(request: &Request) -> Call
    requires { spec.has_service request.now.service ≡ true }
    ensures { Some result ≡ spec.call_of request.now }
{
    call_by(request.service, argument(request, 0), argument(request, 1))
}

/// An argument of a request.
fn argument(request: &Request, at: usize) -> Option<Argument>
    ensures { result ≡ slice_get request.now.arguments at }
{
    request.arguments.as_slice().get(at).copied()
}

/// A number that is asked with, 0 where there is none.
fn number(argument: Option<Argument>) -> u32
    ensures { result ≡ spec.number_of argument }
{
    match argument {
        Some(Argument::Number(number)) => number,
        _ => 0,
    }
}

/// The buffer that is asked for, none for `null`.
fn buffer(argument: Option<Argument>) -> Option<ResultBuffer>
    ensures { result ≡ spec.buffer_of argument }
{
    match argument {
        Some(Argument::Number(0)) => Some(ResultBuffer::Zero),
        Some(Argument::Number(1)) => Some(ResultBuffer::One),
        _ => None,
    }
}

/// The call of a service of the driver with its arguments.
fn call_by(service: Service, first: Option<Argument>, second: Option<Argument>) -> Call
    requires { spec.has_service service ≡ true }
    ensures { Some result ≡ spec.call_by service first second }
{
    match service {
        Service::AdcInit => Call::Init,
        Service::AdcDeInit => Call::DeInit,
        Service::AdcSetupResultBuffer => { on(first, GroupCall::SetupResultBuffer(buffer(second))) }
        Service::AdcStartGroupConversion => on(first, GroupCall::StartGroupConversion),
        Service::AdcStopGroupConversion => on(first, GroupCall::StopGroupConversion),
        Service::AdcReadGroup => on(first, GroupCall::ReadGroup),
        Service::AdcEnableHardwareTrigger => on(first, GroupCall::EnableHardwareTrigger),
        Service::AdcDisableHardwareTrigger => on(first, GroupCall::DisableHardwareTrigger),
        Service::AdcEnableGroupNotification => on(first, GroupCall::Notification(true)),
        Service::AdcDisableGroupNotification => on(first, GroupCall::Notification(false)),
        Service::AdcGetGroupStatus => on(first, GroupCall::GetGroupStatus),
        Service::AdcGetStreamLastPointer => on(first, GroupCall::GetStreamLastPointer),
        _ => unreachable!(),
    }
}

/// What is asked of the group that the first argument names.
fn on(first: Option<Argument>, call: GroupCall) -> Call
    ensures { Some result ≡ spec.on_group (spec.number_of first) (Some call) }
{
    Call::Group(number(first), call)
}
