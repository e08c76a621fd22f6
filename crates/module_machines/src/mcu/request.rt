ghost use Rattle.std.specs.Prelude.{◌≡◌, true, Some};
ghost use Rattle.module_machines.specs.mcu.Requests as spec;

use crate::mcu::call::{Call, ClockCall};
use mcal_base::{Argument, Request, Service};

/// A number that is asked with, 0 where there is none.
fn number(argument: Option<Argument>) -> u32
    ensures { result ≡ spec.number_of argument }
{
    match argument {
        Some(Argument::Number(number)) => number,
        _ => 0,
    }
}

/// The call of a service of the module with its argument.
fn call_by(service: Service, first: Option<Argument>) -> Call
    requires { spec.has_service service ≡ true }
    ensures { Some result ≡ spec.call_by service first }
{
    match service {
        Service::McuInit => Call::Init,
        Service::McuInitRamSection => Call::InitRamSection(number(first)),
        Service::McuInitClock => Call::Clock(ClockCall::InitClock(number(first))),
        Service::McuDistributePllClock => Call::Clock(ClockCall::DistributePllClock),
        Service::McuGetPllStatus => Call::GetPllStatus,
        Service::McuGetResetReason => Call::GetResetReason,
        Service::McuPerformReset => Call::PerformReset,
        Service::McuSetMode => Call::SetMode(number(first)),
        _ => unreachable!(),
    }
}

/// The call that a request asks for, which names a service of the module.
pub fn call_of(request: &Request) -> Call
    requires { spec.has_service request.now.service ≡ true }
    ensures { Some result ≡ spec.call_of request.now }
{
    call_by(
        request.service,
        request.arguments.as_slice().get(0).copied(),
    )
}
