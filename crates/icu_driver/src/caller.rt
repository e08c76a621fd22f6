ghost use Rattle.std.specs.Prelude.{◌≡◌, ◌≤◌};
ghost use Rattle.module_machines.specs.icu.Bounds as bounds;

use crate::driver::IcuDriver;
use mcal_base::{ModuleName, Request, Service};
use module_machines::icu::{Call, call_of};
use script_runner::Caller;

/// The most steps of a call about a channel, and of a handler.
const MOST_STEPS: u32 = 64;

impl Caller for IcuDriver {
    ghost use Rattle.module_machines.specs.icu.Requests.{asked_for, has_service};
    ghost use Rattle.icu_driver.specs.laws.Lawful.{slow_captures};

    ghost has_service = { λ _. has_service };

    ghost call_of = { λ _. asked_for };

    fn has(&self, service: Service) -> bool {
        matches!(service.module(), ModuleName::Icu)
    }

    fn call(&self, request: &Request) -> Call {
        call_of(request)
    }

    fn call_steps(&self, call: &Call) -> u32 {
        match call {
            Call::Init | Call::DeInit => self.whole_steps(),
            Call::Channel(..) => MOST_STEPS,
        }
    }

    fn line_steps(&self, _line: u32) -> u32 {
        MOST_STEPS
    }

    ghost slow = { slow_captures };
}

impl IcuDriver {
    /// The most steps of a call about the whole module: 48 more for each configured channel.
    fn whole_steps(&self) -> u32
        ensures is { result ≡ bounds.whole_steps self.now }
        ensures few { result ≤ 448 }
    {
        let below = self.counted(0) + self.counted(1) + self.counted(2) + self.counted(3);
        let above = self.counted(4) + self.counted(5) + self.counted(6) + self.counted(7);
        MOST_STEPS + 48 * (below + above)
    }

    /// 1 where the channel is configured, and 0 where it isn't.
    fn counted(&self, number: u32) -> u32
        ensures is { result ≡ bounds.counted self.now number }
        ensures few { result ≤ 1 }
    {
        u32::from(self.channel(number).is_some())
    }
}
