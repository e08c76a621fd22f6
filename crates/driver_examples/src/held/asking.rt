ghost use Rattle.std.specs.Prelude.{◌≡◌};
ghost use Rattle.driver_examples.specs.held.Toy as spec;

use mcal_base::{Event, Move, Notice, NoticeKind, Reg, Unit};
use service_outline::{Body, BodyTaken, Epilogue, acts, ends, goes, nothing};

/// A request: the act, its notice, and the start that is possible.
#[derive(Clone, Copy)]
pub enum Asking {
    /// It marks that the unit waits, and acts.
    Want,
    /// It opens the mask.
    OpenOnce,
    /// It gives the notice.
    Tell,
    /// It closes the mask.
    ShutAgain,
    /// It looks whether the unit waits.
    Look,
    /// It starts the unit.
    Go,
    /// It marks that the unit waits no longer.
    Unmark,
}

impl Body for Asking {
    ghost use Rattle.driver_examples.specs.held.Toy.{ask_work, ask_takes};

    ghost work_of = { ask_work };

    ghost takes = { ask_takes };

    fn next(&self) -> Move {
        match *self {
            Asking::Want => Move::Store(32_808, 1),
            Asking::OpenOnce => Move::Unmask,
            Asking::Tell => Move::Note(Notice {
                kind: NoticeKind::AdcNotification,
                id: 0,
            }),
            Asking::ShutAgain => Move::Mask,
            Asking::Look => Move::Load(32_808),
            Asking::Go => Move::Write(Reg::ConverterGo(0), 1),
            Asking::Unmark => Move::Store(32_808, 0),
        }
    }

    fn took(&mut self, value: u32) -> BodyTaken {
        match *self {
            Asking::Want => {
                *self = Asking::OpenOnce;
                acts()
            }
            Asking::OpenOnce => {
                *self = Asking::Tell;
                goes()
            }
            Asking::Tell => {
                *self = Asking::ShutAgain;
                goes()
            }
            Asking::ShutAgain => {
                *self = Asking::Look;
                goes()
            }
            Asking::Look => {
                if value == 0 {
                    ends(None, nothing(), Epilogue::Nothing)
                } else {
                    *self = Asking::Go;
                    goes()
                }
            }
            Asking::Go => {
                *self = Asking::Unmark;
                starts()
            }
            Asking::Unmark => ends(None, nothing(), Epilogue::Nothing),
        }
    }
}

/// The start of the unit.
fn starts() -> BodyTaken
    ensures { result ≡ spec.starts }
{
    BodyTaken {
        event: Some(Event::Start(Unit::Adc0)),
        done: None,
    }
}
