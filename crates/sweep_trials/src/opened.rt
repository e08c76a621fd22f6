ghost use Rattle.std.specs.Prelude.{◌≡◌, vec_len};
ghost use Rattle.std.specs.List.{All};
ghost use Rattle.bench_sweep.specs.Places.{IsBy, places};

use crate::seen::StepSeen;
use bench_sweep::BlockPlace;
use mcal_base::Directive;

/// A block of a script that was run once, with nothing placed in it.
#[derive(Drop)]
pub struct Opened {
    /// What runs before the block.
    pub before: Vec<Directive>,
    /// The block.
    pub block: Vec<Directive>,
    /// How many steps each directive of the block makes.
    pub steps: Vec<u32>,
    /// The places in the block.
    pub all: Vec<BlockPlace>,
    /// The steps of the run.
    pub(crate) seen: Vec<StepSeen>,
    /// The moves of these steps.
    pub(crate) moves: Vec<String>,
    pub ghost same: { vec_len steps ≡ vec_len block },
    pub ghost each: { all.items ≡ places block.items steps.items },
    pub ghost by: { All (IsBy (vec_len block)) all.items },
}
