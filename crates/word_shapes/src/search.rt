ghost use Rattle.std.specs.Prelude.{◌≡◌};
ghost use Rattle.word_shapes.specs.PriorityQueue as spec;

use crate::packed::{Packed, Places, count};
use mcal_base::Move;

/// The loads that look at an order.
#[derive(Clone, Copy)]
pub enum Search {
    /// It loads the number of entries and the marks.
    Tally(Places),
    /// It loads the first eight places.
    Low(Places, u32),
    /// It loads the other eight places.
    High(Places, u32, u32),
}

/// What a load of a search makes of it.
#[derive(Clone, Copy)]
pub enum Sought {
    /// It goes on.
    More(Search),
    /// It has all that it looks for.
    All(Places, Packed),
}

impl Search {
    /// Its next move.
    pub fn next(&self) -> Move
        ensures { result ≡ spec.search_move self.now }
    {
        match *self {
            Search::Tally(at) => Move::Load(at.tally),
            Search::Low(at, _) => Move::Load(at.low),
            Search::High(at, _, _) => Move::Load(at.high),
        }
    }

    /// What a load that gave this value makes of it.
    pub fn sought(&self, value: u32) -> Sought
        ensures { result ≡ spec.sought self.now value }
    {
        match *self {
            Search::Tally(at) => Sought::More(Search::Low(at, value)),
            Search::Low(at, tally) => {
                if count(tally) <= 8 {
                    Sought::All(
                        at,
                        Packed {
                            low: value,
                            high: 0,
                            tally,
                        },
                    )
                } else {
                    Sought::More(Search::High(at, tally, value))
                }
            }
            Search::High(at, tally, low) => Sought::All(
                at,
                Packed {
                    low,
                    high: value,
                    tally,
                },
            ),
        }
    }
}
