ghost use Rattle.std.specs.Prelude.{◌≡◌};
ghost use Rattle.spi_sequences.specs.laws.services.UnitSteps as spec;

use crate::words::{MARKS, NEXTS, PENDING, SEQUENCES, order, sequence_word, unmarked, with_next};
use mcal_base::{Event, Move, Routine};
use spi_machine::SpiTable;
use word_shapes::Add;

/// A place of the request of a sequence, in the first window of `Spi_AsyncTransmit`.
#[derive(Clone, Copy)]
pub enum RequestPlace {
    /// It loads the result of this sequence, and acts there where it is pending and is the requested one or has a job
    /// in common with it.
    Look(u8),
    /// It acts: the sequence is pending.
    Accept,
    /// It loads the next jobs.
    Nexts,
    /// The first job is the next one.
    First(u32),
    /// It loads the marks.
    Marks,
    /// The sequence has not started and is not cancelled.
    Unmark(u32),
    /// The sequence is the last in the unit's order, and waits.
    Add(Add),
}

/// What a step of a request was.
#[derive(Clone, Copy)]
pub enum Requested {
    /// It goes on, with this event.
    Goes(Option<Event>),
    /// It acted, since a pending sequence is in the way.
    Held,
    /// It was the last one.
    Accepted,
}

impl RequestPlace {
    /// The next move, for a sequence.
    pub fn next(&self, sequence: u8) -> Move
        ensures { result ≡ spec.request_move sequence self.now }
    {
        match self {
            RequestPlace::Look(other) => Move::Load(sequence_word(*other)),
            RequestPlace::Accept => Move::Store(sequence_word(sequence), PENDING),
            RequestPlace::Nexts => Move::Load(NEXTS),
            RequestPlace::First(nexts) => Move::Store(NEXTS, *nexts),
            RequestPlace::Marks => Move::Load(MARKS),
            RequestPlace::Unmark(marks) => Move::Store(MARKS, *marks),
            RequestPlace::Add(add) => add.next(),
        }
    }

    /// Takes what the move gave.
    pub fn took(&mut self, table: &SpiTable, sequence: u8, value: u32) -> Requested
        ensures state { self.new ≡ (spec.request_takes table.now sequence self.old value).0 }
        ensures step { result ≡ (spec.request_takes table.now sequence self.old value).1 }
    {
        let (after, event) = match self {
            RequestPlace::Look(other) => {
                let other = *other;
                if value == PENDING && (other == sequence || table.shares_job(sequence, other)) {
                    return Requested::Held;
                }
                if other < SEQUENCES - 1 {
                    (RequestPlace::Look(other + 1), None)
                } else {
                    (RequestPlace::Accept, None)
                }
            }
            RequestPlace::Accept => (RequestPlace::Nexts, Some(Event::Act)),
            RequestPlace::Nexts => (RequestPlace::First(with_next(value, sequence, 0)), None),
            RequestPlace::First(_) => (RequestPlace::Marks, None),
            RequestPlace::Marks => (RequestPlace::Unmark(unmarked(value, sequence)), None),
            RequestPlace::Unmark(_) => {
                let words = order(table.unit_of(sequence));
                (
                    RequestPlace::Add(Add::Count(words, u32::from(sequence))),
                    None,
                )
            }
            RequestPlace::Add(add) => {
                return if add.took(value).ended.is_some() {
                    Requested::Accepted
                } else {
                    Requested::Goes(None)
                };
            }
        };
        *self = after;
        Requested::Goes(event)
    }
}
