use crate::converters::Converters;
use crate::may::may;
use crate::sizes::{call_steps, line_steps};
use adc_machine::Call;
use audit_base::Outside;
use audit_frames::Counter;
use audit_subject::Subject;
use mcal_base::{ModuleName, Move, Unit};
use run_model::Class;

impl Subject for Converters {
    ghost use Rattle.std.proofs.Common.{refl};
    ghost use Rattle.adc_machine.specs.Bounds.{adc_setting};

    ghost setting = { adc_setting };

    fn class(&self, call: &Call) -> Class {
        call.class()
    }

    fn level(&self, line: u32) -> u32 {
        self.table().level(line)
    }

    fn owner(&self, line: u32) -> ModuleName {
        self.table().owner(line)
    }

    fn call_steps(&self, call: &Call) -> u32 {
        call_steps(self.table(), *call)
    }

    fn line_steps(&self, line: u32) -> u32 {
        line_steps(self.table(), line)
    }

    fn counter(&self, _call: &Call) -> Option<Counter> {
        None
    }

    fn polled(&self, _call: &Call) -> u64 {
        0
    }

    fn duties(&self, _call: &Call) -> u64 {
        0
    }

    fn settles(&self, _call: &Call, _made: &Move) -> u64 {
        0
    }

    fn call_may(&self, _call: &Call, made: &Move) -> bool {
        may(self.table(), made)
    }

    fn line_may(&self, _line: u32, made: &Move) -> bool {
        may(self.table(), made)
    }

    fn starts_uncalled(&self, _outside: &Outside, unit: Unit) -> bool {
        self.starts(unit)
    }

    fn fills(&self, _channel: u32) -> bool {
        false
    }

    fn in_use(&self, _channel: u32) -> bool {
        false
    }

    ghost member_is = { λ t. refl };

    ghost windows = { λ t o. refl };
}
