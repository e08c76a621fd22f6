ghost use Rattle.std.specs.Prelude.{◌≡◌};
ghost use Rattle.sweep_trials.specs.declared.stop.Stop.TheVariants as stops;

use std::alloc::{AllocError, AllocFailed};

/// Why a sweep comes to no end.
#[derive(Clone, Copy)]
pub enum Stop {
    /// A run would have more directives than the most.
    TooManyDirectives,
    /// A run would take one more step than the most.
    TooManySteps,
    /// All runs would take more steps than the most.
    TooManyInAll,
    /// A run has more notices than may be followed.
    TooManyNotices,
    /// The report of a run would be longer than it may be.
    TooLongReport,
    /// There are so many places, and none of the number that is asked for.
    NoPlace(usize),
    /// Memory was not found.
    NoMemory,
}

impl From<AllocError> for Stop {
    ghost from_gives = { λ _ stop. stop ≡ stops.NoMemory };

    fn from(_e: AllocError) -> Stop {
        Stop::NoMemory
    }
}

impl<T: Drop> From<AllocFailed<T>> for Stop {
    ghost from_gives = { λ _ stop. stop ≡ stops.NoMemory };

    fn from(_e: AllocFailed<T>) -> Stop {
        Stop::NoMemory
    }
}
