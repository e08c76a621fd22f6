use crate::may::watchdog_may;
use crate::watchdog::Watchdog;
use audit_base::Outside;
use audit_frames::Counter;
use audit_subject::Subject;
use mcal_base::{ModuleName, Move, Unit};
use module_machines::wdg::Call;
use run_model::Class;

/// The most steps of a frame.
const MOST_STEPS: u32 = 64;

impl Subject for Watchdog {
    ghost use Rattle.std.proofs.Common.{refl};
    ghost use Rattle.module_machines.specs.wdg.Bounds.{wdg_setting};

    ghost setting = { wdg_setting };

    fn class(&self, call: &Call) -> Class {
        call.class()
    }

    fn level(&self, _line: u32) -> u32 {
        1
    }

    fn owner(&self, _line: u32) -> ModuleName {
        ModuleName::Wdg
    }

    fn call_steps(&self, _call: &Call) -> u32 {
        MOST_STEPS
    }

    fn line_steps(&self, _line: u32) -> u32 {
        MOST_STEPS
    }

    fn counter(&self, _call: &Call) -> Option<Counter> {
        None
    }

    fn polled(&self, _call: &Call) -> u64 {
        0
    }

    fn duties(&self, _call: &Call) -> u64 {
        0
    }

    fn settles(&self, _call: &Call, _made: &Move) -> u64 {
        0
    }

    fn call_may(&self, _call: &Call, made: &Move) -> bool {
        watchdog_may(made)
    }

    fn line_may(&self, _line: u32, made: &Move) -> bool {
        watchdog_may(made)
    }

    fn starts_uncalled(&self, _outside: &Outside, _unit: Unit) -> bool {
        false
    }

    fn fills(&self, _channel: u32) -> bool {
        false
    }

    fn in_use(&self, _channel: u32) -> bool {
        false
    }

    ghost member_is = { λ t. refl };

    ghost windows = { λ t o. refl };
}
