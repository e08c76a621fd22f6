ghost use Rattle.std.specs.Prelude.{◌≡◌, ◌<◌};
ghost use Rattle.word_shapes.specs.PriorityQueue as spec;

use crate::packed::{Places, appended, count, tally_added};
use crate::part::{gives_nothing, goes};
use mcal_base::{Move, Routine, Taken};

/// An entry that is put in the last place, under way.
#[derive(Clone, Copy)]
pub enum Add {
    /// It loads the number of entries and the marks.
    Count(Places, u32),
    /// It loads the word of the entry's place.
    Find(Places, u32, u32),
    /// It stores a value in that word; then the third word becomes this.
    Place(Places, u32, u32, u32),
    /// It stores the number of entries and the marks.
    Tell(Places, u32),
}

/// The word of the place after so many.
fn word(at: Places, tally: u32) -> u32
    ensures { result ≡ spec.place_word at tally }
{
    if count(tally) < 8 { at.low } else { at.high }
}

impl Routine for Add {
    ghost use Rattle.word_shapes.specs.PriorityQueue.{add_move, add_left, add_gave};

    ghost move_of = { add_move };

    ghost left = { add_left };

    ghost gave = { add_gave };

    fn next(&self) -> Move {
        match *self {
            Add::Count(at, _) => Move::Load(at.tally),
            Add::Find(at, _, tally) => Move::Load(word(at, tally)),
            Add::Place(_, word, value, _) => Move::Store(word, value),
            Add::Tell(at, tally) => Move::Store(at.tally, tally),
        }
    }

    fn took(&mut self, value: u32) -> Taken {
        match *self {
            Add::Count(at, entry) => {
                *self = Add::Find(at, entry, value);
                goes()
            }
            Add::Find(at, entry, tally) => {
                let entry = entry % 16;
                *self = Add::Place(
                    at,
                    word(at, tally),
                    appended(value, count(tally) % 8, entry),
                    tally_added(tally, entry),
                );
                goes()
            }
            Add::Place(at, _, _, tally) => {
                *self = Add::Tell(at, tally);
                goes()
            }
            Add::Tell(_, _) => gives_nothing(),
        }
    }
}
