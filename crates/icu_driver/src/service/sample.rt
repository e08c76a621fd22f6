ghost use Rattle.std.specs.Prelude.{◌≡◌};
ghost use Rattle.icu_driver.specs.laws.SampleSteps as spec;

use crate::service::count::joined;
use crate::words::{INTERVALS, MARKS, PLACES, SIZES, SWITCHES, TIMES, VALUES, line, word};
use mcal_base::{Event, Move, Reg};
use service_outline::{Body, BodyTaken, Epilogue, ends, goes, nothing};

/// What the handler of a measurement knows of its channel, of the oldest edge, and of what was seen before it.
#[derive(Clone, Copy)]
pub struct Sampled {
    /// The channel.
    pub channel: u8,
    /// A measure starts at a rising edge.
    pub first: bool,
    /// A measure ends at the next start edge, not at the opposite one.
    pub whole: bool,
    /// The active time is kept too.
    pub duty: bool,
    /// The edge rises.
    pub rising: bool,
    /// Edges were lost before it.
    pub gap: bool,
    /// The low half of its time, and then its time.
    pub time: u32,
    /// What was seen: nothing, a start edge, or an opposite one behind it.
    pub seen: u32,
    /// The time of the last start edge.
    pub start: u32,
    /// The time of the last opposite edge.
    pub opposite: u32,
}

/// The handler of a measurement, in its window.
#[derive(Clone, Copy)]
pub enum SampleBody {
    /// It looks whether an edge waits, and which.
    Look(Sampled),
    /// It reads the low half of the edge's time,
    Low(Sampled),
    /// and the high half.
    High(Sampled),
    /// It loads what was seen,
    Seen(Sampled),
    /// the time of the last start edge,
    Start(Sampled),
    /// and that of the last opposite edge.
    Opposite(Sampled),
    /// It serves: it takes the edge.
    Pop(Sampled),
    /// A value is complete: it keeps the value,
    Value(Sampled),
    /// the active time,
    Active(Sampled),
    /// that a value waits,
    Waits(Sampled),
    /// and the active mark.
    Mark(Sampled),
    /// It keeps what is seen now,
    Keep(Sampled),
    /// and the time of the edge.
    Last(Sampled),
}

impl Body for SampleBody {
    ghost use Rattle.icu_driver.specs.laws.SampleSteps.{sample_work, sample_takes};

    ghost work_of = { sample_work };

    ghost takes = { sample_takes };

    fn next(&self) -> Move {
        match *self {
            SampleBody::Look(r) => Move::Read(Reg::CaptureInfo(u32::from(r.channel))),
            SampleBody::Low(r) => Move::Read(Reg::CaptureTimeLow(u32::from(r.channel))),
            SampleBody::High(r) => Move::Read(Reg::CaptureTimeHigh(u32::from(r.channel))),
            SampleBody::Seen(r) => Move::Load(word(SIZES, r.channel)),
            SampleBody::Start(r) => Move::Load(word(INTERVALS, r.channel)),
            SampleBody::Opposite(r) => Move::Load(word(PLACES, r.channel)),
            SampleBody::Pop(r) => Move::Write(Reg::CapturePop(u32::from(r.channel)), 0),
            SampleBody::Value(r) => {
                Move::Store(word(VALUES, r.channel), r.time.wrapping_sub(r.start))
            }
            SampleBody::Active(r) => {
                Move::Store(word(TIMES, r.channel), r.opposite.wrapping_sub(r.start))
            }
            SampleBody::Waits(r) => Move::Store(word(SWITCHES, r.channel), 1),
            SampleBody::Mark(r) => Move::Store(word(MARKS, r.channel), 1),
            SampleBody::Keep(r) => Move::Store(word(SIZES, r.channel), r.seen_now()),
            SampleBody::Last(r) => Move::Store(word(r.row(), r.channel), r.time),
        }
    }

    fn took(&mut self, value: u32) -> BodyTaken {
        let (after, taken) = match *self {
            SampleBody::Look(_) if value / 4 == 0 => (
                *self,
                ends(None, nothing(), Epilogue::Nothing),
            ),
            SampleBody::Look(r) => (SampleBody::Low(r.looked(value)), goes()),
            SampleBody::Low(r) => (SampleBody::High(Sampled { time: value, ..r }), goes()),
            SampleBody::High(r) => {
                let time = joined(r.time, value);
                (SampleBody::Seen(Sampled { time, ..r }), goes())
            }
            SampleBody::Seen(r) => (SampleBody::Start(r.recalled(value)), goes()),
            SampleBody::Start(r) => (SampleBody::Opposite(Sampled { start: value, ..r }), goes()),
            SampleBody::Opposite(r) => (
                SampleBody::Pop(Sampled {
                    opposite: value,
                    ..r
                }),
                goes(),
            ),
            SampleBody::Pop(r) => {
                let event = Some(Event::Serve(line(r.channel)));
                (r.popped(), BodyTaken { event, done: None })
            }
            SampleBody::Value(r) if r.duty => (SampleBody::Active(r), goes()),
            SampleBody::Value(r) | SampleBody::Active(r) => (SampleBody::Waits(r), goes()),
            SampleBody::Waits(r) => (SampleBody::Mark(r), goes()),
            SampleBody::Mark(r) => (SampleBody::Keep(r), goes()),
            SampleBody::Keep(r) => (SampleBody::Last(r), goes()),
            SampleBody::Last(_) => (*self, ends(None, nothing(), Epilogue::Nothing)),
        };
        *self = after;
        taken
    }
}

impl Sampled {
    /// With the direction and the gap mark of the edge.
    fn looked(self, info: u32) -> Sampled
        ensures { result ≡ spec.looked self info }
    {
        Sampled {
            rising: info % 2 == 1,
            gap: info / 2 % 2 == 1,
            ..self
        }
    }

    /// With what was seen, which a gap makes nothing.
    fn recalled(self, seen: u32) -> Sampled
        ensures { result ≡ spec.recalled self seen }
    {
        let seen = if self.gap { 0 } else { seen };
        Sampled { seen, ..self }
    }

    /// Whether a measure starts at the edge.
    fn starts(self) -> bool
        ensures { result ≡ spec.starts self }
    {
        self.rising == self.first
    }

    /// Where it goes on after the serving: the edge completes a value or doesn't.
    fn popped(self) -> SampleBody
        ensures { result ≡ spec.sample_popped self }
    {
        let complete = if self.whole {
            self.starts() && self.seen == 2
        } else {
            !self.starts() && self.seen == 1
        };
        if complete {
            SampleBody::Value(self)
        } else {
            SampleBody::Keep(self)
        }
    }

    /// What is seen now.
    fn seen_now(self) -> u32
        ensures { result ≡ spec.seen_now self }
    {
        if self.starts() {
            1
        } else if self.seen == 1 {
            2
        } else {
            0
        }
    }

    /// The row of the word that keeps the edge's time.
    fn row(self) -> u32
        ensures { result ≡ spec.row_of self }
    {
        if self.starts() { INTERVALS } else { PLACES }
    }
}
