ghost use Rattle.std.specs.Prelude.{◌≡◌, true, slice_get};
ghost use Rattle.module_machines.specs.dio.Requests as spec;

use crate::dio::call::Call;
use mcal_base::{Argument, ArgumentName, Request, Service};

/// A number that is asked with, 0 where there is none.
fn number(argument: Option<Argument>) -> u32
    ensures { result ≡ spec.number_of argument }
{
    match argument {
        Some(Argument::Number(number)) => number,
        _ => 0,
    }
}

/// Whether a level that is asked for is high.
fn is_high(argument: Option<Argument>) -> bool
    ensures { result ≡ spec.is_high argument }
{
    matches!(argument, Some(Argument::Name(ArgumentName::StdHigh)))
}

/// The call of a service of the module with its arguments.
fn call_by(service: Service, first: Option<Argument>, second: Option<Argument>) -> Call
    requires { spec.has_service service ≡ true }
    ensures { result ≡ spec.call_by service first second }
{
    match service {
        Service::DioReadChannel => Call::ReadChannel(number(first)),
        Service::DioWriteChannel => Call::WriteChannel(number(first), is_high(second)),
        Service::DioFlipChannel => Call::FlipChannel(number(first)),
        Service::DioReadPort => Call::ReadPort(number(first)),
        Service::DioWritePort => Call::WritePort(number(first), number(second)),
        Service::DioReadChannelGroup => Call::ReadChannelGroup(number(first)),
        Service::DioWriteChannelGroup => Call::WriteChannelGroup(number(first), number(second)),
        _ => unreachable!(),
    }
}

/// An argument of a request.
fn argument(request: &Request, at: usize) -> Option<Argument>
    ensures { result ≡ slice_get request.now.arguments at }
{
    request.arguments.as_slice().get(at).copied()
}

/// The call that a request asks for, which names a service of the module.
pub fn call_of(request: &Request) -> Call
    requires { spec.has_service request.now.service ≡ true }
    ensures { result ≡ spec.call_of request.now }
{
    call_by(request.service, argument(request, 0), argument(request, 1))
}
