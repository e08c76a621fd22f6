ghost use Rattle.step_runner.specs.Union.{either, either_left, either_gave};

use mcal_base::{Answer, Event, Move, Routine, Taken};

/// One or the other.
#[derive(Drop)]
pub enum Either<L, R> {
    /// The one.
    Left(L),
    /// The other.
    Right(R),
}

impl<F: Routine, G: Routine> Routine for Either<F, G> {
    ghost move_of = { either F.move_of G.move_of };

    ghost left = { either_left F.left G.left };

    ghost gave = { either_gave F.gave G.gave };

    fn next(&self) -> Move {
        match self {
            Either::Left(frame) => frame.next(),
            Either::Right(frame) => frame.next(),
        }
    }

    fn took(&mut self, value: u32) -> Taken {
        match self {
            Either::Left(frame) => frame.took(value),
            Either::Right(frame) => frame.took(value),
        }
    }

    fn took_into(&mut self, value: u32, ended: &mut Option<Answer>) -> Option<Event> {
        match self {
            Either::Left(frame) => frame.took_into(value, ended),
            Either::Right(frame) => frame.took_into(value, ended),
        }
    }
}
