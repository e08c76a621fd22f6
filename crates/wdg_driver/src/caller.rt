use crate::driver::WdgDriver;
use mcal_base::{ModuleName, Request, Service};
use module_machines::wdg::{Call, call_of};
use script_runner::Caller;

/// The most steps of a frame.
const MOST_STEPS: u32 = 64;

impl Caller for WdgDriver {
    ghost use Rattle.module_machines.specs.wdg.Requests.{call_of, has_service};
    ghost use Rattle.wdg_driver.specs.laws.Lawful.{slow_watchdog};

    ghost has_service = { λ _. has_service };

    ghost call_of = { λ _. call_of };

    fn has(&self, service: Service) -> bool {
        matches!(service.module(), ModuleName::Wdg)
    }

    fn call(&self, request: &Request) -> Call {
        call_of(request)
    }

    fn call_steps(&self, _call: &Call) -> u32 {
        MOST_STEPS
    }

    fn line_steps(&self, _line: u32) -> u32 {
        MOST_STEPS
    }

    ghost slow = { slow_watchdog };
}
