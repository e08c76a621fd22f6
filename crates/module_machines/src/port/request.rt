ghost use Rattle.std.specs.Prelude.{◌≡◌, true, Some, slice_get};
ghost use Rattle.module_machines.specs.port.Requests as spec;

use crate::port::call::{Call, PinCall};
use mcal_base::{Argument, ArgumentName, PortPinDirection, PortPinMode, Request, Service};

/// A number that is asked with, 0 where there is none.
fn number(argument: Option<Argument>) -> u32
    ensures { result ≡ spec.number_of argument }
{
    match argument {
        Some(Argument::Number(number)) => number,
        _ => 0,
    }
}

/// A direction that is asked for, in where it is none of the two.
fn direction(argument: Option<Argument>) -> PortPinDirection
    ensures { result ≡ spec.direction_of argument }
{
    match argument {
        Some(Argument::Name(ArgumentName::PortPinOut)) => PortPinDirection::Out,
        _ => PortPinDirection::In,
    }
}

/// A mode that is asked for, none where it is none of the five.
fn mode(argument: Option<Argument>) -> Option<PortPinMode>
    ensures { result ≡ spec.mode_of argument }
{
    match argument {
        Some(Argument::Name(ArgumentName::PortPinModeAdc)) => Some(PortPinMode::Adc),
        Some(Argument::Name(ArgumentName::PortPinModeDio)) => Some(PortPinMode::Dio),
        Some(Argument::Name(ArgumentName::PortPinModeIcu)) => Some(PortPinMode::Icu),
        Some(Argument::Name(ArgumentName::PortPinModePwm)) => Some(PortPinMode::Pwm),
        Some(Argument::Name(ArgumentName::PortPinModeSpi)) => Some(PortPinMode::Spi),
        _ => None,
    }
}

/// The call of a service of the module with its arguments.
fn call_by(service: Service, first: Option<Argument>, second: Option<Argument>) -> Call
    requires { spec.has_service service ≡ true }
    ensures { Some result ≡ spec.call_by service first second }
{
    match service {
        Service::PortInit => Call::Init,
        Service::PortSetPinDirection => Call::Pin(
            number(first),
            PinCall::SetPinDirection(direction(second)),
        ),
        Service::PortRefreshPortDirection => Call::RefreshPortDirection,
        Service::PortSetPinMode => Call::Pin(number(first), PinCall::SetPinMode(mode(second))),
        _ => unreachable!(),
    }
}

/// An argument of a request.
fn argument(request: &Request, at: usize) -> Option<Argument>
    ensures { result ≡ slice_get request.now.arguments at }
{
    request.arguments.as_slice().get(at).copied()
}

/// The call that a request asks for, which names a service of the module.
pub fn call_of(request: &Request) -> Call
    requires { spec.has_service request.now.service ≡ true }
    ensures { Some result ≡ spec.call_of request.now }
{
    call_by(request.service, argument(request, 0), argument(request, 1))
}
