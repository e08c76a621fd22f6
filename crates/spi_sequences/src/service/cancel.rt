ghost use Rattle.std.specs.Prelude.{◌≡◌};
ghost use Rattle.spi_sequences.specs.Words.{run_in};
ghost use Rattle.spi_sequences.specs.laws.services.CancelSteps as spec;

use crate::words::{
    CANCELLED, MARKS, PENDING, Running, cancelled_bit, running_word, search, sequence_word,
};
use mcal_base::{Move, Notice, NoticeKind, Routine};
use service_outline::{Body, BodyTaken, Epilogue, acts, acts_with, ends, goes, nothing};
use word_shapes::Dropped;

/// A sequence that is to be cancelled.
#[derive(Clone, Copy)]
pub struct Cancelled {
    /// Its number.
    pub sequence: u8,
    /// Its unit.
    pub unit: u8,
    /// Whether its end is told.
    pub notification: bool,
}

/// `Spi_Cancel`, from the load of the state word on.
#[derive(Clone, Copy)]
pub enum CancelBody {
    /// It loads the sequence's result, and acts there where the sequence isn't pending.
    Result(Cancelled),
    /// It loads what the unit runs.
    Running(Cancelled),
    /// The sequence runs a job: it loads the marks.
    Marks(Cancelled),
    /// It acts, and marks the sequence.
    Mark(u32),
    /// The sequence waits: it acts, and the sequence is cancelled.
    Store(Cancelled),
    /// The sequence leaves the order.
    Drop(Cancelled, Dropped),
}

impl Body for CancelBody {
    ghost use Rattle.spi_sequences.specs.laws.services.CancelSteps.{cancel_work, cancel_takes};

    ghost work_of = { cancel_work };

    ghost takes = { cancel_takes };

    fn next(&self) -> Move {
        match self {
            CancelBody::Result(cancelled) => Move::Load(sequence_word(cancelled.sequence)),
            CancelBody::Running(cancelled) => Move::Load(running_word(cancelled.unit)),
            CancelBody::Marks(_) => Move::Load(MARKS),
            CancelBody::Mark(marks) => Move::Store(MARKS, *marks),
            CancelBody::Store(cancelled) => {
                Move::Store(sequence_word(cancelled.sequence), CANCELLED)
            }
            CancelBody::Drop(_, dropped) => dropped.next(),
        }
    }

    fn took(&mut self, value: u32) -> BodyTaken {
        let (after, taken) = match self {
            CancelBody::Result(cancelled) => {
                if value != PENDING {
                    return acts_with(nothing(), Epilogue::Nothing);
                }
                (CancelBody::Running(*cancelled), goes())
            }
            CancelBody::Running(cancelled) => {
                if runs(value, cancelled.sequence) {
                    (CancelBody::Marks(*cancelled), goes())
                } else {
                    (CancelBody::Store(*cancelled), goes())
                }
            }
            CancelBody::Marks(cancelled) => {
                (
                    CancelBody::Mark(value | cancelled_bit(cancelled.sequence)),
                    goes(),
                )
            }
            CancelBody::Mark(_) => return acts_with(nothing(), Epilogue::Nothing),
            CancelBody::Store(cancelled) => {
                let entry = u32::from(cancelled.sequence);
                let dropped = Dropped::Look(search(cancelled.unit), entry);
                (CancelBody::Drop(*cancelled, dropped), acts())
            }
            CancelBody::Drop(cancelled, dropped) => {
                return if dropped.took(value).ended.is_some() {
                    ends(None, nothing(), cancelled.owed())
                } else {
                    goes()
                };
            }
        };
        *self = after;
        taken
    }
}

impl Cancelled {
    /// What is told of its end.
    fn owed(&self) -> Epilogue
        ensures { result ≡ spec.cancel_owed self.now }
    {
        if self.notification {
            Epilogue::One(Notice {
                kind: NoticeKind::SpiSeqEndNotification,
                id: u32::from(self.sequence),
            })
        } else {
            Epilogue::Nothing
        }
    }
}

/// Whether a unit that has this word runs a job of the sequence.
fn runs(word: u32, sequence: u8) -> bool
    ensures { result ≡ spec.is_running_sequence sequence (run_in word) }
{
    match Running::unpacked(word) {
        Some(running) => running.sequence == sequence,
        None => false,
    }
}
