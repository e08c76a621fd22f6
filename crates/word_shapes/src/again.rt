ghost use Rattle.std.specs.Prelude.{◌≡◌};

use crate::packed::{Places, tally_marked};
use crate::part::{gives_nothing, goes};
use mcal_base::{Move, Routine, Taken};

/// An entry that is made to wait in its place, under way.
#[derive(Clone, Copy)]
pub enum Again {
    /// It loads the marks.
    Look(Places, u32),
    /// It stores the marks.
    Tell(Places, u32),
}

impl Routine for Again {
    ghost use Rattle.word_shapes.specs.PriorityQueue.{again_move, again_left, again_gave};

    ghost move_of = { again_move };

    ghost left = { again_left };

    ghost gave = { again_gave };

    fn next(&self) -> Move {
        match *self {
            Again::Look(at, _) => Move::Load(at.tally),
            Again::Tell(at, tally) => Move::Store(at.tally, tally),
        }
    }

    fn took(&mut self, value: u32) -> Taken {
        match *self {
            Again::Look(at, entry) => {
                *self = Again::Tell(at, tally_marked(value, entry % 16));
                goes()
            }
            Again::Tell(_, _) => gives_nothing(),
        }
    }
}
