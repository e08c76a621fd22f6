use crate::captures::Captures;
use crate::may::{channel_count, may};
use audit_base::Outside;
use audit_frames::Counter;
use audit_subject::Subject;
use mcal_base::{ModuleName, Move, Unit};
use module_machines::icu::{Call, ChannelCall};
use run_model::Class;

/// The most steps of a call about a channel, and of a handler.
const MOST_STEPS: u32 = 64;

impl Subject for Captures {
    ghost use Rattle.std.proofs.Common.{refl};
    ghost use Rattle.module_machines.specs.icu.Bounds.{icu_setting};

    ghost setting = { icu_setting };

    fn class(&self, call: &Call) -> Class {
        call.class()
    }

    fn level(&self, line: u32) -> u32 {
        match self.table().channel_of_line(line) {
            Some(channel) => channel.level,
            None => 1,
        }
    }

    fn owner(&self, _line: u32) -> ModuleName {
        ModuleName::Icu
    }

    fn call_steps(&self, call: &Call) -> u32 {
        match call {
            Call::Init | Call::DeInit => MOST_STEPS + 48 * channel_count(self.table()),
            Call::Channel(..) => MOST_STEPS,
        }
    }

    fn line_steps(&self, _line: u32) -> u32 {
        MOST_STEPS
    }

    fn counter(&self, call: &Call) -> Option<Counter> {
        match *call {
            Call::Channel(channel, ChannelCall::GetEdgeNumbers) => Some(Counter::Capture(channel)),
            _ => None,
        }
    }

    fn polled(&self, _call: &Call) -> u64 {
        0
    }

    fn duties(&self, _call: &Call) -> u64 {
        0
    }

    fn settles(&self, _call: &Call, _made: &Move) -> u64 {
        0
    }

    fn call_may(&self, _call: &Call, made: &Move) -> bool {
        may(self.table(), made)
    }

    fn line_may(&self, _line: u32, made: &Move) -> bool {
        may(self.table(), made)
    }

    fn starts_uncalled(&self, _outside: &Outside, _unit: Unit) -> bool {
        false
    }

    fn fills(&self, _channel: u32) -> bool {
        false
    }

    fn in_use(&self, _channel: u32) -> bool {
        false
    }

    ghost member_is = { λ t. refl };

    ghost windows = { λ t o. refl };
}
