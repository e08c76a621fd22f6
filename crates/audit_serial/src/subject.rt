ghost use Rattle.std.specs.Prelude.{◌≡◌};
ghost use Rattle.audit_serial.specs.Polled.{polled_lines};

use crate::may::{may, may_wait};
use crate::serials::Serials;
use audit_base::Outside;
use audit_frames::Counter;
use audit_subject::Subject;
use mcal_base::{ModuleName, Move, Unit};
use run_model::Class;
use spi_machine::{Call, SERIAL_STEPS};

/// The lines that a call may poll, as a mask.
fn lines_of(call: &Call) -> u64
    ensures { result ≡ polled_lines call.now }
{
    match call {
        Call::MainFunctionHandling => 0x0C00_0000,
        _ => 0,
    }
}

impl Subject for Serials {
    ghost use Rattle.std.proofs.Common.{refl};
    ghost use Rattle.spi_machine.specs.Bounds.{spi_setting};

    ghost setting = { spi_setting };

    fn class(&self, call: &Call) -> Class {
        call.class()
    }

    fn level(&self, line: u32) -> u32 {
        self.table().level(line)
    }

    fn owner(&self, line: u32) -> ModuleName {
        self.table().owner(line)
    }

    fn call_steps(&self, call: &Call) -> u32 {
        self.table().most_steps(*call)
    }

    fn line_steps(&self, _line: u32) -> u32 {
        SERIAL_STEPS
    }

    fn counter(&self, _call: &Call) -> Option<Counter> {
        None
    }

    fn polled(&self, call: &Call) -> u64 {
        lines_of(call)
    }

    fn duties(&self, _call: &Call) -> u64 {
        0
    }

    fn settles(&self, _call: &Call, _made: &Move) -> u64 {
        0
    }

    fn call_may(&self, call: &Call, made: &Move) -> bool {
        may_wait(self.table(), made, call) || may(self.table(), made)
    }

    fn line_may(&self, _line: u32, made: &Move) -> bool {
        may(self.table(), made)
    }

    fn starts_uncalled(&self, _outside: &Outside, unit: Unit) -> bool {
        self.starts_next(unit)
    }

    fn fills(&self, channel: u32) -> bool {
        Serials::fills(self, channel)
    }

    fn in_use(&self, channel: u32) -> bool {
        Serials::in_use(self, channel)
    }

    ghost member_is = { λ t. refl };

    ghost windows = { λ t o. refl };
}
