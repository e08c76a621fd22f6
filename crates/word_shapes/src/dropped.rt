ghost use Rattle.std.specs.Prelude.{◌≡◌, ◌/◌, ◌%◌, ◌^◌};
ghost use Rattle.word_shapes.specs.PriorityQueue as spec;

use crate::packed::{Packed, Places, SPAN, count, tally_less};
use crate::part::{gives_nothing, goes};
use crate::search::{Search, Sought};
use mcal_base::{Move, Routine, Taken};

/// An entry that is taken out, under way.
#[derive(Clone, Copy)]
pub enum Dropped {
    /// It looks at the order.
    Look(Search, u32),
    /// It stores the first eight places.
    Low(Places, Packed),
    /// It stores the other eight places.
    High(Places, Packed),
    /// It stores the number of entries.
    Tell(Places, u32),
}

/// What the three words are to be; the number of entries is still the old one.
fn left_of(packed: &Packed, entry: u32) -> Packed
    ensures { result ≡ spec.left_of packed.now entry }
{
    let order = packed.without(entry);
    Packed {
        low: (order % SPAN) as u32,
        high: (order / SPAN) as u32,
        tally: packed.tally,
    }
}

impl Routine for Dropped {
    ghost use Rattle.word_shapes.specs.PriorityQueue.{drop_move, drop_left, drop_gave};

    ghost move_of = { drop_move };

    ghost left = { drop_left };

    ghost gave = { drop_gave };

    fn next(&self) -> Move {
        match self {
            Dropped::Look(search, _) => search.next(),
            Dropped::Low(at, packed) => Move::Store(at.low, packed.low),
            Dropped::High(at, packed) => Move::Store(at.high, packed.high),
            Dropped::Tell(at, tally) => Move::Store(at.tally, *tally),
        }
    }

    fn took(&mut self, value: u32) -> Taken {
        match *self {
            Dropped::Look(search, entry) => match search.sought(value) {
                Sought::More(search) => {
                    *self = Dropped::Look(search, entry);
                    goes()
                }
                Sought::All(at, packed) => {
                    *self = Dropped::Low(at, left_of(&packed, entry));
                    goes()
                }
            },
            Dropped::Low(at, packed) => {
                if count(packed.tally) <= 8 {
                    *self = Dropped::Tell(at, tally_less(packed.tally));
                } else {
                    *self = Dropped::High(at, packed);
                }
                goes()
            }
            Dropped::High(at, packed) => {
                *self = Dropped::Tell(at, tally_less(packed.tally));
                goes()
            }
            Dropped::Tell(_, _) => gives_nothing(),
        }
    }
}
