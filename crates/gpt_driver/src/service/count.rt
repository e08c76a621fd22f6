ghost use Rattle.std.specs.Prelude.{◌≡◌};
ghost use Rattle.gpt_driver.specs.laws.Count as spec;

use crate::words::target_word;
use mcal_base::{Move, Reg};
use service_outline::{Body, BodyTaken, Epilogue, acts, ends, goes, number};

/// `Gpt_GetTimeElapsed` and `Gpt_GetTimeRemaining`, from the load of the state word on. The counter is read in halves.
#[derive(Clone, Copy)]
pub enum CountBody {
    /// It acts, and reads the low half.
    ElapsedLow(u8),
    /// It reads the high half, after this low half.
    ElapsedHigh(u8, u32),
    /// It loads the target.
    RemainingTarget(u8),
    /// It acts, and reads the low half; the target is this.
    RemainingLow(u8, u32),
    /// It reads the high half, after this target and this low half.
    RemainingHigh(u8, u32, u32),
}

impl Body for CountBody {
    ghost use Rattle.gpt_driver.specs.laws.Count.{count_work, count_takes};

    ghost work_of = { count_work };

    ghost takes = { count_takes };

    fn next(&self) -> Move {
        match *self {
            CountBody::ElapsedLow(channel) | CountBody::RemainingLow(channel, _) => {
                Move::Read(Reg::TimerLow(u32::from(channel)))
            }
            CountBody::ElapsedHigh(channel, _) | CountBody::RemainingHigh(channel, ..) => {
                Move::Read(Reg::TimerHigh(u32::from(channel)))
            }
            CountBody::RemainingTarget(channel) => Move::Load(target_word(channel)),
        }
    }

    fn took(&mut self, value: u32) -> BodyTaken {
        let (after, taken) = match *self {
            CountBody::ElapsedLow(channel) => (CountBody::ElapsedHigh(channel, value), acts()),
            CountBody::ElapsedHigh(_, low) => (*self, answers(joined(low, value))),
            CountBody::RemainingTarget(channel) => {
                (CountBody::RemainingLow(channel, value), goes())
            }
            CountBody::RemainingLow(channel, target) => {
                (CountBody::RemainingHigh(channel, target, value), acts())
            }
            CountBody::RemainingHigh(_, target, low) => {
                (*self, answers(target.saturating_sub(joined(low, value))))
            }
        };
        *self = after;
        taken
    }
}

/// The counter, by its halves.
fn joined(low: u32, high: u32) -> u32
    ensures { result ≡ spec.joined low high }
{
    low % 65_536 + high % 65_536 * 65_536
}

fn answers(count: u32) -> BodyTaken
    ensures { result ≡ spec.ends_with count }
{
    ends(None, number(count), Epilogue::Nothing)
}
