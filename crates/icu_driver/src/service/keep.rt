ghost use Rattle.std.specs.Prelude.{◌≡◌};
ghost use Rattle.icu_driver.specs.laws.KeepSteps as spec;

use crate::service::count::joined;
use crate::words::{
    INTERVALS, MARKS, PLACES, SIZES, SWITCHES, VALUES, bit, line, stamp_word, word,
};
use mcal_base::{Event, Move, Notice, NoticeKind, Reg};
use service_outline::{Body, BodyTaken, Epilogue, ends, goes, nothing};

/// What the handler of a timestamp channel knows of its channel and of the oldest edge.
#[derive(Clone, Copy)]
pub struct Kept {
    /// The channel.
    pub channel: u8,
    /// Its buffer is linear.
    pub linear: bool,
    /// The low half of the edge's time, and then its time.
    pub time: u32,
    /// The size of the buffer.
    pub size: u32,
    /// The index at which the time is stored.
    pub index: u32,
    /// How many stamps are left until the next notice, with this one.
    pub left: u32,
    /// After how many stamps each notice comes.
    pub interval: u32,
    /// The notification is on.
    pub notified: bool,
}

/// The handler of a timestamp channel, in its window.
#[derive(Clone, Copy)]
pub enum KeepBody {
    /// It looks whether an edge waits.
    Look(Kept),
    /// It reads the low half of its time,
    Low(Kept),
    /// and the high half.
    High(Kept),
    /// It loads the size,
    Size(Kept),
    /// the index,
    Index(Kept),
    /// and how many stamps are left until the next notice.
    Left(Kept),
    /// For the last one it loads the interval,
    Interval(Kept),
    /// and whether the notification is on.
    Switch(Kept),
    /// The buffer becomes full. It serves: it closes the gate.
    Close(Kept),
    /// It drops what waits,
    Drop(Kept),
    /// and keeps that stamps are stopped.
    Off(Kept),
    /// It serves: it takes the edge.
    Pop(Kept),
    /// It stores the stamp,
    Store(Kept),
    /// the next index,
    Next(Kept),
    /// and how many stamps are left now.
    Rest(Kept),
}

impl Body for KeepBody {
    ghost use Rattle.icu_driver.specs.laws.KeepSteps.{keep_work, keep_takes};

    ghost work_of = { keep_work };

    ghost takes = { keep_takes };

    fn next(&self) -> Move {
        match *self {
            KeepBody::Look(r) => Move::Read(Reg::CaptureInfo(u32::from(r.channel))),
            KeepBody::Low(r) => Move::Read(Reg::CaptureTimeLow(u32::from(r.channel))),
            KeepBody::High(r) => Move::Read(Reg::CaptureTimeHigh(u32::from(r.channel))),
            KeepBody::Size(r) => Move::Load(word(SIZES, r.channel)),
            KeepBody::Index(r) => Move::Load(word(PLACES, r.channel)),
            KeepBody::Left(r) => Move::Load(word(VALUES, r.channel)),
            KeepBody::Interval(r) => Move::Load(word(INTERVALS, r.channel)),
            KeepBody::Switch(r) => Move::Load(word(SWITCHES, r.channel)),
            KeepBody::Close(r) => Move::Write(Reg::CaptureGateClear, bit(r.channel)),
            KeepBody::Drop(r) => Move::Write(Reg::CaptureFlush(u32::from(r.channel)), 0),
            KeepBody::Off(r) => Move::Store(word(MARKS, r.channel), 2),
            KeepBody::Pop(r) => Move::Write(Reg::CapturePop(u32::from(r.channel)), 0),
            KeepBody::Store(r) => Move::Store(stamp_word(r.channel, r.index), r.time),
            KeepBody::Next(r) => Move::Store(word(PLACES, r.channel), r.next_index()),
            KeepBody::Rest(r) => Move::Store(word(VALUES, r.channel), r.left_now()),
        }
    }

    fn took(&mut self, value: u32) -> BodyTaken {
        let (after, taken) = match *self {
            KeepBody::Look(_) if value / 4 == 0 => (
                *self,
                ends(None, nothing(), Epilogue::Nothing),
            ),
            KeepBody::Look(r) => (KeepBody::Low(r), goes()),
            KeepBody::Low(r) => (KeepBody::High(Kept { time: value, ..r }), goes()),
            KeepBody::High(r) => {
                let time = joined(r.time, value);
                (KeepBody::Size(Kept { time, ..r }), goes())
            }
            KeepBody::Size(r) => (KeepBody::Index(Kept { size: value, ..r }), goes()),
            KeepBody::Index(r) => (KeepBody::Left(Kept { index: value, ..r }), goes()),
            KeepBody::Left(r) if value == 1 => (KeepBody::Interval(Kept { left: 1, ..r }), goes()),
            KeepBody::Left(r) => (Kept { left: value, ..r }.read(), goes()),
            KeepBody::Interval(r) => (
                KeepBody::Switch(Kept {
                    interval: value,
                    ..r
                }),
                goes(),
            ),
            KeepBody::Switch(r) => {
                let notified = value == 1;
                (Kept { notified, ..r }.read(), goes())
            }
            KeepBody::Close(r) => (KeepBody::Drop(r), serves(r.channel)),
            KeepBody::Drop(r) => (KeepBody::Off(r), goes()),
            KeepBody::Off(r) => (KeepBody::Store(r), goes()),
            KeepBody::Pop(r) => (KeepBody::Store(r), serves(r.channel)),
            KeepBody::Store(r) => (KeepBody::Next(r), goes()),
            KeepBody::Next(r) => (KeepBody::Rest(r), goes()),
            KeepBody::Rest(r) => (*self, ends(None, nothing(), r.owed())),
        };
        *self = after;
        taken
    }
}

/// The serving of a channel's line.
fn serves(channel: u8) -> BodyTaken
    ensures { result ≡ spec.serves channel }
{
    let event = Some(Event::Serve(line(channel)));
    BodyTaken { event, done: None }
}

impl Kept {
    /// Whether the buffer becomes full.
    fn fills(self) -> bool
        ensures { result ≡ spec.fills self }
    {
        self.linear && self.index.wrapping_add(1) == self.size
    }

    /// Where it goes on when it has read all.
    fn read(self) -> KeepBody
        ensures { result ≡ spec.keep_read self }
    {
        if self.fills() {
            KeepBody::Close(self)
        } else {
            KeepBody::Pop(self)
        }
    }

    /// The index after this stamp: a circular one begins anew at the size.
    fn next_index(self) -> u32
        ensures { result ≡ spec.next_index self }
    {
        let next = self.index.wrapping_add(1);
        if !self.linear && next == self.size {
            0
        } else {
            next
        }
    }

    /// How many stamps are left after this one.
    fn left_now(self) -> u32
        ensures { result ≡ spec.left_now self }
    {
        if self.left == 1 {
            self.interval
        } else {
            self.left.wrapping_sub(1)
        }
    }

    /// The notice, where it is due.
    fn owed(self) -> Epilogue
        ensures { result ≡ spec.keep_owed self }
    {
        if self.left == 1 && self.notified {
            let id = u32::from(self.channel);
            let kind = NoticeKind::IcuTimestampNotification;
            Epilogue::One(Notice { kind, id })
        } else {
            Epilogue::Nothing
        }
    }
}
