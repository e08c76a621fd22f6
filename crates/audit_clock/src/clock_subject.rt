ghost use Rattle.std.specs.Prelude.{◌≡◌, ◌≤◌};
ghost use Rattle.module_machines.specs.mcu.Bounds as spec;
ghost use Rattle.module_machines.specs.mcu.Table.{section_of};
ghost use Rattle.audit_clock.specs.Sections.{AreShort};

use crate::clock::Clock;
use crate::may::clock_may;
use audit_base::Outside;
use audit_frames::Counter;
use audit_subject::Subject;
use mcal_base::{ModuleName, Move, Unit};
use module_machines::mcu::{Call, McuTable};
use run_model::Class;

/// The most steps of a call's frame, but of `Mcu_Init` and of a section's.
const MOST_STEPS: u32 = 64;

/// How many clock settings, modes and RAM sections are configured with this number.
fn counted(table: &McuTable, number: u32) -> u32
    ensures count { result ≡ spec.counted table.now number }
    ensures few { result ≤ 3 }
{
    u32::from(table.multiplier(number).is_some())
        + u32::from(table.has_mode(number))
        + u32::from(table.section(number).is_some())
}

/// How many are configured.
fn object_count(table: &McuTable) -> u32
    ensures count { result ≡ spec.object_count table.now }
    ensures few { result ≤ 24 }
{
    counted(table, 0)
        + counted(table, 1)
        + counted(table, 2)
        + counted(table, 3)
        + counted(table, 4)
        + counted(table, 5)
        + counted(table, 6)
        + counted(table, 7)
}

/// The words of a section, none where it isn't configured.
fn size(table: &McuTable, number: u32) -> u32
    requires { AreShort table.now }
    ensures size { result ≡ spec.size_of (section_of table.now number) }
    ensures few { result ≤ 64 }
{
    match table.section(number) {
        Some(section) => section.size,
        None => 0,
    }
}

/// The most steps of a call's frame.
fn most_steps(table: &McuTable, call: Call) -> u32
    requires { AreShort table.now }
    ensures { result ≡ spec.call_steps table.now call }
{
    match call {
        Call::Init => MOST_STEPS + 48 * object_count(table),
        Call::InitRamSection(number) => 32 + 2 * size(table, number),
        Call::Clock(_)
        | Call::GetPllStatus
        | Call::GetResetReason
        | Call::PerformReset
        | Call::SetMode(_) => MOST_STEPS,
    }
}

impl Subject for Clock {
    ghost use Rattle.std.proofs.Common.{refl};
    ghost use Rattle.module_machines.specs.mcu.Bounds.{mcu_setting};

    ghost setting = { mcu_setting };

    fn class(&self, call: &Call) -> Class {
        call.class()
    }

    fn level(&self, _line: u32) -> u32 {
        1
    }

    fn owner(&self, _line: u32) -> ModuleName {
        ModuleName::Mcu
    }

    fn call_steps(&self, call: &Call) -> u32 {
        most_steps(self.table(), *call)
    }

    fn line_steps(&self, _line: u32) -> u32 {
        MOST_STEPS
    }

    fn counter(&self, _call: &Call) -> Option<Counter> {
        None
    }

    fn polled(&self, _call: &Call) -> u64 {
        0
    }

    fn duties(&self, _call: &Call) -> u64 {
        0
    }

    fn settles(&self, _call: &Call, _made: &Move) -> u64 {
        0
    }

    fn call_may(&self, _call: &Call, made: &Move) -> bool {
        clock_may(made)
    }

    fn line_may(&self, _line: u32, made: &Move) -> bool {
        clock_may(made)
    }

    fn starts_uncalled(&self, _outside: &Outside, _unit: Unit) -> bool {
        false
    }

    fn fills(&self, _channel: u32) -> bool {
        false
    }

    fn in_use(&self, _channel: u32) -> bool {
        false
    }

    ghost member_is = { λ t. refl };

    ghost windows = { λ t o. refl };
}
