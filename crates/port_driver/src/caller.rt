use crate::driver::PortDriver;
use mcal_base::{ModuleName, Request, Service};
use module_machines::port::{Call, call_of};
use script_runner::Caller;

impl Caller for PortDriver {
    ghost use Rattle.module_machines.specs.port.Requests.{has_service, asked_for};
    ghost use Rattle.port_driver.specs.laws.Lawful.{slow_pins};

    ghost has_service = { λ _. has_service };

    ghost call_of = { λ _. asked_for };

    fn has(&self, service: Service) -> bool {
        matches!(service.module(), ModuleName::Port)
    }

    fn call(&self, request: &Request) -> Call {
        call_of(request)
    }

    fn call_steps(&self, call: &Call) -> u32 {
        self.steps_of(call)
    }

    fn line_steps(&self, line: u32) -> u32 {
        self.handler_steps(line)
    }

    ghost slow = { slow_pins };
}
