ghost use Rattle.std.specs.Prelude.{◌≡◌, true};
ghost use Rattle.module_machines.specs.wdg.Requests as spec;

use crate::wdg::call::Call;
use mcal_base::{Argument, ArgumentName, Request, Service, WdgMode};

/// A number that is asked with, 0 where there is none.
fn number(argument: Option<Argument>) -> u32
    ensures { result ≡ spec.number_of argument }
{
    match argument {
        Some(Argument::Number(number)) => number,
        _ => 0,
    }
}

/// A mode that is asked for, none where it is none of the three.
fn mode(argument: Option<Argument>) -> Option<WdgMode>
    ensures { result ≡ spec.mode_of argument }
{
    match argument {
        Some(Argument::Name(ArgumentName::WdgifOffMode)) => Some(WdgMode::Off),
        Some(Argument::Name(ArgumentName::WdgifSlowMode)) => Some(WdgMode::Slow),
        Some(Argument::Name(ArgumentName::WdgifFastMode)) => Some(WdgMode::Fast),
        _ => None,
    }
}

/// The call of a service of the module with its argument.
fn call_by(service: Service, first: Option<Argument>) -> Call
    requires { spec.has_service service ≡ true }
    ensures { result ≡ spec.call_by service first }
{
    match service {
        Service::WdgInit => Call::Init,
        Service::WdgSetMode => Call::SetMode(mode(first)),
        Service::WdgSetTriggerCondition => Call::SetTriggerCondition(number(first)),
        _ => unreachable!(),
    }
}

/// The call that a request asks for, which names a service of the module.
pub fn call_of(request: &Request) -> Call
    requires { spec.has_service request.now.service ≡ true }
    ensures { result ≡ spec.call_of request.now }
{
    call_by(
        request.service,
        request.arguments.as_slice().get(0).copied(),
    )
}
