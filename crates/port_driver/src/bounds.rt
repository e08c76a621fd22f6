//! The most steps of frames.

ghost use Rattle.std.specs.Prelude.{◌≡◌, ◌≤◌, sum_by};
ghost use Rattle.run_model.specs.Frame.{Called, Entered};
ghost use Rattle.module_machines.specs.port.Bounds as spec;

use crate::driver::PortDriver;
use module_machines::port::{Call, Pin};

/// The most steps of a call but `Port_Init`.
const MOST_STEPS: u32 = 64;

impl PortDriver {
    /// The most steps of a call's frame.
    pub(crate) fn steps_of(&self, call: &Call) -> u32
        ensures steps { result ≡ spec.steps_of self.now (Called call.now) }
        ensures few { result ≤ 10176 }
    {
        match call {
            Call::Init => MOST_STEPS + 48 * self.pin_count(),
            Call::RefreshPortDirection | Call::Pin(..) => MOST_STEPS,
        }
    }

    /// The most steps of a handler's frame. The module has none.
    pub(crate) fn handler_steps(&self, _line: u32) -> u32
        ensures steps { result ≡ spec.steps_of self.now (Entered _line) }
        ensures few { result ≤ 10176 }
    {
        MOST_STEPS
    }

    /// How many pins are configured.
    fn pin_count(&self) -> u32
        ensures count { result ≡ spec.pin_count self.now }
        ensures few { result ≤ 64 }
    {
        count_of(&self.pins)
    }
}

/// How many of these pins are configured.
fn count_of(pins: &[Option<Pin>; 64]) -> u32
    ensures count { result ≡ sum_by spec.counted pins.now }
    ensures few { result ≤ 64 }
{
    let mut count = 0;
    for pin in pins {
        count += counted(*pin);
    }
    count
}

/// 1 where the pin is configured, and 0 where it isn't.
fn counted(pin: Option<Pin>) -> u32
    ensures { result ≡ spec.counted pin }
{
    u32::from(pin.is_some())
}
