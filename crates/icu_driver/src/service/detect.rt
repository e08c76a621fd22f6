use crate::words::{MARKS, SWITCHES, line, word};
use mcal_base::{Event, Move, Notice, NoticeKind, Reg};
use service_outline::{Body, BodyTaken, Epilogue, ends, goes, nothing};

/// The handler of an edge detection, in its window.
#[derive(Clone, Copy)]
pub enum DetectBody {
    /// It looks whether an edge waits.
    Look(u8),
    /// It loads whether the notification is on.
    Switch(u8),
    /// It serves: it takes the oldest edge.
    Pop(u8, bool),
    /// It keeps the active mark.
    Mark(u8, bool),
}

impl Body for DetectBody {
    ghost use Rattle.icu_driver.specs.laws.DetectSteps.{detect_work, detect_takes};

    ghost work_of = { detect_work };

    ghost takes = { detect_takes };

    fn next(&self) -> Move {
        match *self {
            DetectBody::Look(channel) => Move::Read(Reg::CaptureInfo(u32::from(channel))),
            DetectBody::Switch(channel) => Move::Load(word(SWITCHES, channel)),
            DetectBody::Pop(channel, _) => Move::Write(Reg::CapturePop(u32::from(channel)), 0),
            DetectBody::Mark(channel, _) => Move::Store(word(MARKS, channel), 1),
        }
    }

    fn took(&mut self, value: u32) -> BodyTaken {
        let (after, taken) = match *self {
            DetectBody::Look(_) if value / 4 == 0 => (
                *self,
                ends(None, nothing(), Epilogue::Nothing),
            ),
            DetectBody::Look(channel) => (DetectBody::Switch(channel), goes()),
            DetectBody::Switch(channel) => (DetectBody::Pop(channel, value == 1), goes()),
            DetectBody::Pop(channel, on) => {
                let event = Some(Event::Serve(line(channel)));
                (
                    DetectBody::Mark(channel, on),
                    BodyTaken { event, done: None },
                )
            }
            DetectBody::Mark(channel, on) => {
                let owed = if on {
                    let id = u32::from(channel);
                    let kind = NoticeKind::IcuSignalNotification;
                    Epilogue::One(Notice { kind, id })
                } else {
                    Epilogue::Nothing
                };
                (*self, ends(None, nothing(), owed))
            }
        };
        *self = after;
        taken
    }
}
