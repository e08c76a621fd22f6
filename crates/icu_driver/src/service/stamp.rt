use crate::words::{INTERVALS, MARKS, PLACES, SIZES, VALUES, bit, word};
use mcal_base::{Move, Reg};
use service_outline::{Body, BodyTaken, Epilogue, acts, acts_with, ends, goes, nothing, number};

/// A start of stamps.
#[derive(Clone, Copy)]
pub struct Stamping {
    /// The channel.
    pub channel: u8,
    /// How many stamps its buffer has.
    pub size: u32,
    /// After how many stamps each notice comes.
    pub interval: u32,
}

/// The services of timestamps, from the load of the state word on.
#[derive(Clone, Copy)]
pub enum StampBody {
    /// It opens the gate.
    Open(Stamping),
    /// It acts, and no edge waits.
    Empty(Stamping),
    /// It keeps that stamps are on,
    On(Stamping),
    /// the size,
    Size(Stamping),
    /// the interval,
    Interval(Stamping),
    /// the index, which is 0,
    Index(Stamping),
    /// and how many stamps are left until the first notice.
    Left(Stamping),
    /// It looks whether stamps are on. Where they aren't, it acts and owes this.
    Look(u8, Epilogue),
    /// It acts, and closes the gate.
    Close(u8),
    /// It drops what waits.
    Drop(u8),
    /// It keeps that stamps are stopped.
    Off(u8),
    /// It loads whether stamps were ever started.
    Started(u8),
    /// It acts, and loads the index, which counts where they were.
    Ask(u8, bool),
}

impl Body for StampBody {
    ghost use Rattle.icu_driver.specs.laws.Stamp.{stamp_work, stamp_takes};

    ghost work_of = { stamp_work };

    ghost takes = { stamp_takes };

    fn next(&self) -> Move {
        match *self {
            StampBody::Open(start) => Move::Write(Reg::CaptureGateSet, bit(start.channel)),
            StampBody::Empty(start) => Move::Write(Reg::CaptureFlush(u32::from(start.channel)), 0),
            StampBody::On(start) => Move::Store(word(MARKS, start.channel), 1),
            StampBody::Size(start) => Move::Store(word(SIZES, start.channel), start.size),
            StampBody::Interval(start) => {
                Move::Store(word(INTERVALS, start.channel), start.interval)
            }
            StampBody::Index(start) => Move::Store(word(PLACES, start.channel), 0),
            StampBody::Left(start) => Move::Store(word(VALUES, start.channel), start.interval),
            StampBody::Look(channel, _) | StampBody::Started(channel) => {
                Move::Load(word(MARKS, channel))
            }
            StampBody::Close(channel) => Move::Write(Reg::CaptureGateClear, bit(channel)),
            StampBody::Drop(channel) => Move::Write(Reg::CaptureFlush(u32::from(channel)), 0),
            StampBody::Off(channel) => Move::Store(word(MARKS, channel), 2),
            StampBody::Ask(channel, _) => Move::Load(word(PLACES, channel)),
        }
    }

    fn took(&mut self, value: u32) -> BodyTaken {
        let (after, taken) = match *self {
            StampBody::Open(start) => (StampBody::Empty(start), goes()),
            StampBody::Empty(start) => (StampBody::On(start), acts()),
            StampBody::On(start) => (StampBody::Size(start), goes()),
            StampBody::Size(start) => (StampBody::Interval(start), goes()),
            StampBody::Interval(start) => (StampBody::Index(start), goes()),
            StampBody::Index(start) => (StampBody::Left(start), goes()),
            StampBody::Left(_) | StampBody::Off(_) => (
                *self,
                ends(None, nothing(), Epilogue::Nothing),
            ),
            StampBody::Look(channel, _) if value == 1 => (StampBody::Close(channel), goes()),
            StampBody::Look(_, owed) => (*self, acts_with(nothing(), owed)),
            StampBody::Close(channel) => (StampBody::Drop(channel), acts()),
            StampBody::Drop(channel) => (StampBody::Off(channel), goes()),
            StampBody::Started(channel) => (StampBody::Ask(channel, value != 0), goes()),
            StampBody::Ask(_, started) => {
                let index = if started { value } else { 0 };
                (*self, acts_with(number(index), Epilogue::Nothing))
            }
        };
        *self = after;
        taken
    }
}
