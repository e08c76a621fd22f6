ghost use Rattle.std.specs.Prelude.{◌≡◌, ◌≤◌};
ghost use Rattle.module_machines.specs.pwm.Bounds as spec;

use crate::duties::owed;
use crate::may::may;
use crate::pulses::Pulses;
use audit_base::Outside;
use audit_frames::Counter;
use audit_subject::Subject;
use mcal_base::{ModuleName, Move, Unit};
use module_machines::pwm::{Call, PwmTable};
use run_model::Class;

/// The most steps of a call about a channel, and of a handler.
const MOST_STEPS: u32 = 64;

/// 1 where the channel is configured, and 0 where it isn't.
fn counted(table: &PwmTable, channel: u32) -> u32
    ensures is { result ≡ spec.counted table.now channel }
    ensures few { result ≤ 1 }
{
    u32::from(table.channel(channel).is_some())
}

/// The most steps of a call about all channels: 48 more for each configured channel.
fn whole_steps(table: &PwmTable) -> u32
    ensures { result ≡ spec.whole_steps table.now }
{
    let below = counted(table, 0) + counted(table, 1) + counted(table, 2) + counted(table, 3);
    let above = counted(table, 4) + counted(table, 5) + counted(table, 6) + counted(table, 7);
    MOST_STEPS + 48 * (below + above)
}

impl Subject for Pulses {
    ghost use Rattle.std.proofs.Common.{refl};
    ghost use Rattle.module_machines.specs.pwm.Bounds.{pwm_setting};

    ghost setting = { pwm_setting };

    fn class(&self, call: &Call) -> Class {
        call.class()
    }

    fn level(&self, line: u32) -> u32 {
        match self.table().channel_of_line(line) {
            Some(channel) => channel.level,
            None => 1,
        }
    }

    fn owner(&self, _line: u32) -> ModuleName {
        ModuleName::Pwm
    }

    fn call_steps(&self, call: &Call) -> u32 {
        match call {
            Call::Init | Call::DeInit => whole_steps(self.table()),
            Call::GetOutputState(_) | Call::Channel(..) => MOST_STEPS,
        }
    }

    fn line_steps(&self, _line: u32) -> u32 {
        MOST_STEPS
    }

    fn counter(&self, _call: &Call) -> Option<Counter> {
        None
    }

    fn polled(&self, _call: &Call) -> u64 {
        0
    }

    fn duties(&self, call: &Call) -> u64 {
        owed(self.table(), *call, None)
    }

    fn settles(&self, call: &Call, made: &Move) -> u64 {
        owed(self.table(), *call, Some(*made))
    }

    fn call_may(&self, _call: &Call, made: &Move) -> bool {
        may(made)
    }

    fn line_may(&self, _line: u32, made: &Move) -> bool {
        may(made)
    }

    fn starts_uncalled(&self, _outside: &Outside, _unit: Unit) -> bool {
        false
    }

    fn fills(&self, _channel: u32) -> bool {
        false
    }

    fn in_use(&self, _channel: u32) -> bool {
        false
    }

    ghost member_is = { λ t. refl };

    ghost windows = { λ t o. refl };
}
