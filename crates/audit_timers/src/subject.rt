ghost use Rattle.std.specs.Prelude.{◌≡◌, ◌≤◌};
ghost use Rattle.module_machines.specs.gpt.Bounds as spec;

use crate::may::may;
use crate::timers::Timers;
use audit_base::Outside;
use audit_frames::Counter;
use audit_subject::Subject;
use mcal_base::{ModuleName, Move, Unit};
use module_machines::gpt::{Call, ChannelCall, GptTable};
use run_model::Class;

/// The most steps of a call about a channel, and of a handler.
const MOST_STEPS: u32 = 64;

/// 1 where the channel is configured, and 0 where it isn't.
fn counted(table: &GptTable, channel: u32) -> u32
    ensures is { result ≡ spec.counted table.now channel }
    ensures few { result ≤ 1 }
{
    u32::from(table.channel(channel).is_some())
}

/// The most steps of a call about the whole module: 48 more for each configured channel.
fn whole_steps(table: &GptTable) -> u32
    ensures { result ≡ spec.whole_steps table.now }
{
    let below = counted(table, 0) + counted(table, 1) + counted(table, 2) + counted(table, 3);
    let above = counted(table, 4) + counted(table, 5) + counted(table, 6) + counted(table, 7);
    MOST_STEPS + 48 * (below + above)
}

impl Subject for Timers {
    ghost use Rattle.std.proofs.Common.{refl};
    ghost use Rattle.module_machines.specs.gpt.Bounds.{gpt_setting};

    ghost setting = { gpt_setting };

    fn class(&self, call: &Call) -> Class {
        call.class()
    }

    fn level(&self, line: u32) -> u32 {
        match self.table().channel(line) {
            Some(channel) => channel.level,
            None => 1,
        }
    }

    fn owner(&self, _line: u32) -> ModuleName {
        ModuleName::Gpt
    }

    fn call_steps(&self, call: &Call) -> u32 {
        match call {
            Call::Init | Call::DeInit => whole_steps(self.table()),
            Call::SetMode(_) | Call::Channel(..) => MOST_STEPS,
        }
    }

    fn line_steps(&self, _line: u32) -> u32 {
        MOST_STEPS
    }

    fn counter(&self, call: &Call) -> Option<Counter> {
        match *call {
            Call::Channel(channel, ChannelCall::GetTimeElapsed | ChannelCall::GetTimeRemaining) => {
                Some(Counter::Timer(channel))
            }
            _ => None,
        }
    }

    fn polled(&self, _call: &Call) -> u64 {
        0
    }

    fn duties(&self, _call: &Call) -> u64 {
        0
    }

    fn settles(&self, _call: &Call, _made: &Move) -> u64 {
        0
    }

    fn call_may(&self, _call: &Call, made: &Move) -> bool {
        may(made)
    }

    fn line_may(&self, _line: u32, made: &Move) -> bool {
        may(made)
    }

    fn starts_uncalled(&self, _outside: &Outside, _unit: Unit) -> bool {
        false
    }

    fn fills(&self, _channel: u32) -> bool {
        false
    }

    fn in_use(&self, _channel: u32) -> bool {
        false
    }

    ghost member_is = { λ t. refl };

    ghost windows = { λ t o. refl };
}
