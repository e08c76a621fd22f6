ghost use Rattle.std.specs.Prelude.{◌≡◌};
ghost use Rattle.gpt_driver.specs.laws.Mode as spec;

use crate::switches::unpacked;
use crate::words::{STATE, bit, switches_word};
use mcal_base::{Move, Reg};
use service_outline::{Body, BodyTaken, Epilogue, acts, acts_with, ends, goes, nothing};

/// `Gpt_SetMode`, from the load of the state word on.
#[derive(Clone, Copy)]
pub enum ModeBody {
    /// It acts, and the mode is normal.
    Wake,
    /// To sleep: it looks at the switches of a channel. The bits of those below it that may not wake are these.
    Gather(u8, u32),
    /// It acts, and these channels stop.
    Gate(u32),
    /// It clears their flags.
    Flags(u32),
    /// It keeps the mode.
    Sleep,
}

impl Body for ModeBody {
    ghost use Rattle.gpt_driver.specs.laws.Mode.{mode_work, mode_takes};

    ghost work_of = { mode_work };

    ghost takes = { mode_takes };

    fn next(&self) -> Move {
        match *self {
            ModeBody::Wake => Move::Store(STATE, 1),
            ModeBody::Gather(channel, _) => Move::Load(switches_word(channel)),
            ModeBody::Gate(bits) => Move::Write(Reg::TimerGateClear, bits),
            ModeBody::Flags(bits) => Move::Write(Reg::TimerFlags, bits),
            ModeBody::Sleep => Move::Store(STATE, 2),
        }
    }

    fn took(&mut self, value: u32) -> BodyTaken {
        let (after, taken) = match *self {
            ModeBody::Wake => (*self, acts_with(nothing(), Epilogue::Nothing)),
            ModeBody::Gather(channel, bits) if channel < 7 => {
                (
                    ModeBody::Gather(channel + 1, with(bits, channel, value)),
                    goes(),
                )
            }
            ModeBody::Gather(channel, bits) => {
                (ModeBody::Gate(with(bits, channel, value)), goes())
            }
            ModeBody::Gate(bits) => (ModeBody::Flags(bits), acts()),
            ModeBody::Flags(_) => (ModeBody::Sleep, goes()),
            ModeBody::Sleep => (*self, ends(None, nothing(), Epilogue::Nothing)),
        };
        *self = after;
        taken
    }
}

/// The bits, with that of the channel where its switches say that it may not wake.
fn with(bits: u32, channel: u8, word: u32) -> u32
    ensures { result ≡ spec.with_sleeper bits channel word }
{
    if unpacked(word).wakeup {
        bits
    } else {
        bits | bit(channel)
    }
}
