use crate::driver::McuDriver;
use mcal_base::{ModuleName, Request, Service};
use module_machines::mcu::{Call, call_of};
use script_runner::Caller;

/// The most steps of a handler's frame. The module has none.
const LINE_STEPS: u32 = 64;

impl Caller for McuDriver {
    ghost use Rattle.module_machines.specs.mcu.Requests.{has_service, asked_for};
    ghost use Rattle.mcu_driver.specs.laws.Lawful.{slow_clock};

    ghost has_service = { λ _. has_service };

    ghost call_of = { λ _. asked_for };

    fn has(&self, service: Service) -> bool {
        matches!(service.module(), ModuleName::Mcu)
    }

    fn call(&self, request: &Request) -> Call {
        call_of(request)
    }

    fn call_steps(&self, call: &Call) -> u32 {
        self.steps_of(*call)
    }

    fn line_steps(&self, _line: u32) -> u32 {
        LINE_STEPS
    }

    ghost slow = { slow_clock };
}
