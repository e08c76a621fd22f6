ghost use Rattle.std.specs.Prelude.{◌≡◌, ◌+◌, ℕ};
ghost use Rattle.mcal_base.specs.declared.moves.Move.{Move};
ghost use Rattle.service_outline.specs.Sweep as spec;

use crate::body::Body;
use crate::done::{BodyTaken, goes};
use mcal_base::Move;

/// Objects with a move for each, and the body that follows them.
pub trait Objects: Drop {
    /// The body that follows, in a window.
    type After: Body + Drop;

    /// How many there are.
    ghost count_of: { Self → ℕ };

    /// The move of an object.
    ghost move_at: { Self → ℕ → Move };

    /// What follows.
    ghost after_of: { Self → Self.After };

    /// How many there are.
    fn count(&self) -> u16
        ensures { result ≡ count_of self.now };

    /// The move of an object.
    fn at(&self, object: u16) -> Move
        ensures { result ≡ move_at self.now object };

    /// What follows.
    fn after(&self) -> Self::After
        ensures { result ≡ after_of self.now };
}

/// A stage of a sweep.
#[derive(Drop)]
pub enum SweepStage<B> {
    /// It opens the mask.
    Opens,
    /// It makes the move of this object.
    At(u16),
    /// It closes the mask.
    Closes,
    /// It goes on with what follows.
    Follows(B),
}

/// A sweep: with the mask open the move of each object, in turn.
#[derive(Drop)]
pub struct Sweep<S, B> {
    /// The objects.
    pub objects: S,
    /// Where it stands.
    pub place: SweepStage<B>,
}

impl<S: Objects> Body for Sweep<S, S::After> {
    ghost use Rattle.service_outline.specs.Sweep.{sweep_work, sweep_takes};

    ghost work_of = { sweep_work S.move_at S.After.work_of };

    ghost takes = { sweep_takes S.count_of S.after_of S.After.takes };

    fn next(&self) -> Move {
        match &self.place {
            SweepStage::Opens => Move::Unmask,
            SweepStage::At(object) => self.objects.at(*object),
            SweepStage::Closes => Move::Mask,
            SweepStage::Follows(body) => body.next(),
        }
    }

    fn took(&mut self, value: u32) -> BodyTaken {
        match &mut self.place {
            SweepStage::Opens => {
                self.place = first(self.objects.count());
                goes()
            }
            SweepStage::At(object) => {
                let object = *object;
                self.place = next(self.objects.count(), object);
                goes()
            }
            SweepStage::Closes => {
                self.place = SweepStage::Follows(self.objects.after());
                goes()
            }
            SweepStage::Follows(body) => body.took(value),
        }
    }
}

/// The first place among so many objects.
fn first<B>(count: u16) -> SweepStage<B>
    ensures { result ≡ spec.place_of count 0 }
{
    if 0 < count {
        SweepStage::At(0)
    } else {
        SweepStage::Closes
    }
}

/// The place after an object.
fn next<B>(count: u16, object: u16) -> SweepStage<B>
    ensures { result ≡ spec.place_of count (object + 1) }
{
    if object < count && object + 1 < count {
        SweepStage::At(object + 1)
    } else {
        SweepStage::Closes
    }
}
