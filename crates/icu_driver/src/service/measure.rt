use crate::words::{SIZES, SWITCHES, VALUES, bit, word};
use mcal_base::{Move, Reg};
use service_outline::{Body, BodyTaken, Epilogue, acts, ends, goes, nothing, number};

/// `Icu_StartSignalMeasurement` and `Icu_GetTimeElapsed`, from the load of the state word on.
#[derive(Clone, Copy)]
pub enum MeasureBody {
    /// It opens the gate.
    Open(u8),
    /// It acts, and no edge waits.
    Empty(u8),
    /// It keeps that no value waits,
    Unhand(u8),
    /// and that no edge was seen.
    Unsee(u8),
    /// It loads whether a value waits.
    Waits(u8),
    /// It acts, and loads the value, which counts where one waits.
    Value(u8, bool),
    /// It keeps that no value waits, after this one.
    Hand(u8, u32),
}

impl Body for MeasureBody {
    ghost use Rattle.icu_driver.specs.laws.Measure.{measure_work, measure_takes};

    ghost work_of = { measure_work };

    ghost takes = { measure_takes };

    fn next(&self) -> Move {
        match *self {
            MeasureBody::Open(channel) => Move::Write(Reg::CaptureGateSet, bit(channel)),
            MeasureBody::Empty(channel) => Move::Write(Reg::CaptureFlush(u32::from(channel)), 0),
            MeasureBody::Unhand(channel) | MeasureBody::Hand(channel, _) => {
                Move::Store(word(SWITCHES, channel), 0)
            }
            MeasureBody::Unsee(channel) => Move::Store(word(SIZES, channel), 0),
            MeasureBody::Waits(channel) => Move::Load(word(SWITCHES, channel)),
            MeasureBody::Value(channel, _) => Move::Load(word(VALUES, channel)),
        }
    }

    fn took(&mut self, value: u32) -> BodyTaken {
        let (after, taken) = match *self {
            MeasureBody::Open(channel) => (MeasureBody::Empty(channel), goes()),
            MeasureBody::Empty(channel) => (MeasureBody::Unhand(channel), acts()),
            MeasureBody::Unhand(channel) => (MeasureBody::Unsee(channel), goes()),
            MeasureBody::Unsee(_) => (*self, ends(None, nothing(), Epilogue::Nothing)),
            MeasureBody::Waits(channel) => (MeasureBody::Value(channel, value == 1), goes()),
            MeasureBody::Value(channel, waits) => {
                let handed = if waits { value } else { 0 };
                (MeasureBody::Hand(channel, handed), acts())
            }
            MeasureBody::Hand(_, handed) => (*self, ends(None, number(handed), Epilogue::Nothing)),
        };
        *self = after;
        taken
    }
}
