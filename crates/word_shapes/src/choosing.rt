ghost use Rattle.std.specs.Prelude.{◌≡◌};

use crate::packed::{NONE, Places, tally_cleared};
use crate::part::{gives, goes};
use crate::search::{Search, Sought};
use mcal_base::{Move, Routine, Taken};

/// The choice of a waiting entry, under way.
#[derive(Clone, Copy)]
pub struct Front {
    /// What it looks at next.
    pub search: Search,
    /// The ranks of the entries.
    pub ranks: [u32; 16],
}

impl Routine for Front {
    ghost use Rattle.word_shapes.specs.PriorityQueue.{front_move, front_left, front_gave};

    ghost move_of = { front_move };

    ghost left = { front_left };

    ghost gave = { front_gave };

    fn next(&self) -> Move {
        self.search.next()
    }

    fn took(&mut self, value: u32) -> Taken {
        match self.search.sought(value) {
            Sought::More(search) => {
                self.search = search;
                goes()
            }
            Sought::All(_, packed) => gives(packed.choice(&self.ranks)),
        }
    }
}

/// The choice of a waiting entry, which then waits no longer, under way.
#[derive(Clone, Copy)]
pub enum Next {
    /// It looks at the order.
    Look(Search, [u32; 16]),
    /// It stores the marks.
    Tell(Places, u32, u32),
}

impl Routine for Next {
    ghost use Rattle.word_shapes.specs.PriorityQueue.{next_move, next_left, next_gave};

    ghost move_of = { next_move };

    ghost left = { next_left };

    ghost gave = { next_gave };

    fn next(&self) -> Move {
        match self {
            Next::Look(search, _) => search.next(),
            Next::Tell(at, tally, _) => Move::Store(at.tally, *tally),
        }
    }

    fn took(&mut self, value: u32) -> Taken {
        match *self {
            Next::Look(search, ranks) => match search.sought(value) {
                Sought::More(search) => {
                    *self = Next::Look(search, ranks);
                    goes()
                }
                Sought::All(at, packed) => {
                    let entry = packed.choice(&ranks);
                    if entry < NONE {
                        *self = Next::Tell(at, tally_cleared(packed.tally, entry), entry);
                        goes()
                    } else {
                        gives(entry)
                    }
                }
            },
            Next::Tell(_, _, entry) => gives(entry),
        }
    }
}
