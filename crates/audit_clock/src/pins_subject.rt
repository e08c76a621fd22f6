ghost use Rattle.std.specs.Prelude.{◌≡◌, ◌≤◌, sum_by};
ghost use Rattle.run_model.specs.Frame.{Called};
ghost use Rattle.module_machines.specs.port.Bounds as spec;

use crate::latches::owed;
use crate::may::pins_may;
use crate::pins::Pins;
use audit_base::Outside;
use audit_frames::Counter;
use audit_subject::Subject;
use mcal_base::{ModuleName, Move, Unit};
use module_machines::port::{Call, Pin};
use run_model::Class;

/// The most steps of a frame but of `Port_Init`.
const MOST_STEPS: u32 = 64;

/// 1 where the pin is configured, and 0 where it isn't.
fn counted(pin: Option<Pin>) -> u32
    ensures { result ≡ spec.counted pin }
{
    u32::from(pin.is_some())
}

/// How many of these pins are configured.
fn count_of(pins: &[Option<Pin>; 64]) -> u32
    ensures count { result ≡ sum_by spec.counted pins.now }
    ensures few { result ≤ 64 }
{
    let mut count = 0;
    for pin in pins {
        count += counted(*pin);
    }
    count
}

/// Whether a call is `Port_Init`.
fn is_init(call: &Call) -> bool
    ensures { result ≡ spec.is_of_init (Called call.now) }
{
    matches!(call, Call::Init)
}

impl Subject for Pins {
    ghost use Rattle.std.proofs.Common.{refl};
    ghost use Rattle.module_machines.specs.port.Bounds.{port_setting};

    ghost setting = { port_setting };

    fn class(&self, call: &Call) -> Class {
        call.class()
    }

    fn level(&self, _line: u32) -> u32 {
        1
    }

    fn owner(&self, _line: u32) -> ModuleName {
        ModuleName::Port
    }

    fn call_steps(&self, call: &Call) -> u32 {
        match call {
            Call::Init => MOST_STEPS + 48 * count_of(&self.table().pins),
            Call::RefreshPortDirection | Call::Pin(..) => MOST_STEPS,
        }
    }

    fn line_steps(&self, _line: u32) -> u32 {
        MOST_STEPS
    }

    fn counter(&self, _call: &Call) -> Option<Counter> {
        None
    }

    fn polled(&self, _call: &Call) -> u64 {
        0
    }

    fn duties(&self, call: &Call) -> u64 {
        owed(self.table(), *call, None)
    }

    fn settles(&self, call: &Call, made: &Move) -> u64 {
        owed(self.table(), *call, Some(*made))
    }

    fn call_may(&self, call: &Call, made: &Move) -> bool {
        pins_may(is_init(call), made)
    }

    fn line_may(&self, _line: u32, made: &Move) -> bool {
        pins_may(false, made)
    }

    fn starts_uncalled(&self, _outside: &Outside, _unit: Unit) -> bool {
        false
    }

    fn fills(&self, _channel: u32) -> bool {
        false
    }

    fn in_use(&self, _channel: u32) -> bool {
        false
    }

    ghost member_is = { λ t. refl };

    ghost windows = { λ t o. refl };
}
