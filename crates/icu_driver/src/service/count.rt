ghost use Rattle.std.specs.Prelude.{◌≡◌};
ghost use Rattle.icu_driver.specs.Words as spec;

use crate::words::bit;
use mcal_base::{Move, Reg};
use service_outline::{Body, BodyTaken, Epilogue, acts, acts_with, ends, nothing, number};

/// The services of an edge counter, from the load of the state word on. The count is read in halves.
#[derive(Clone, Copy)]
pub enum CountBody {
    /// It acts, and edges are counted.
    Open(u8),
    /// It acts, and edges aren't counted.
    Close(u8),
    /// It acts, and the count is 0.
    Zero(u8),
    /// It acts, and reads the low half.
    Low(u8),
    /// It reads the high half, after this low half.
    High(u8, u32),
}

impl Body for CountBody {
    ghost use Rattle.icu_driver.specs.laws.Count.{count_work, count_takes};

    ghost work_of = { count_work };

    ghost takes = { count_takes };

    fn next(&self) -> Move {
        match *self {
            CountBody::Open(channel) => Move::Write(Reg::CaptureGateSet, bit(channel)),
            CountBody::Close(channel) => Move::Write(Reg::CaptureGateClear, bit(channel)),
            CountBody::Zero(channel) => Move::Write(Reg::CaptureZero(u32::from(channel)), 0),
            CountBody::Low(channel) => Move::Read(Reg::CaptureCountLow(u32::from(channel))),
            CountBody::High(channel, _) => Move::Read(Reg::CaptureCountHigh(u32::from(channel))),
        }
    }

    fn took(&mut self, value: u32) -> BodyTaken {
        match *self {
            CountBody::Open(_) | CountBody::Close(_) | CountBody::Zero(_) => {
                acts_with(nothing(), Epilogue::Nothing)
            }
            CountBody::Low(channel) => {
                *self = CountBody::High(channel, value);
                acts()
            }
            CountBody::High(_, low) => {
                let count = joined(low, value);
                ends(None, number(count), Epilogue::Nothing)
            }
        }
    }
}

/// A number, by its halves.
pub(crate) fn joined(low: u32, high: u32) -> u32
    ensures { result ≡ spec.joined low high }
{
    low % 65_536 + high % 65_536 * 65_536
}
