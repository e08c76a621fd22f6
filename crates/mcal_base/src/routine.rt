ghost use Rattle.std.specs.Prelude.{ℕ, ◌≡◌, None};
ghost use Rattle.mcal_base.specs.declared.moves.Move.{Move};
ghost use Rattle.mcal_base.specs.declared.routine.Taken.{Taken};

use crate::answer::Answer;
use crate::moves::{Event, Move};

/// What a step was, beside its move.
#[derive(Drop)]
pub struct Taken {
    /// The event that stands at the step.
    pub event: Option<Event>,
    /// The answer, where the routine ended with the step. A handler ends with the answer `Nothing`.
    pub ended: Option<Answer>,
}

/// A sequence of moves that depend on the values read: a call or a handler under way, or a part of one.
/// `took` is called only while the routine hasn't ended.
pub trait Routine {
    /// Its next move.
    ghost move_of: { Self → Move };

    /// What it is after a step that gave this value.
    ghost left: { Self → ℕ → Self };

    /// What stands at a step that gave this value.
    ghost gave: { Self → ℕ → Taken };

    /// Its next move.
    fn next(&self) -> Move
        ensures { result ≡ move_of self.now };

    /// Takes what the move gave: the value of a read or a load, and 0 for other moves.
    fn took(&mut self, value: u32) -> Taken
        ensures state { self.new ≡ left self.old value }
        ensures taken { result ≡ gave self.old value };

    /// Takes what the move gave, as `took` does, and tells the event. The answer is written to a place that holds none,
    /// where the routine ended; nothing is written where it goes on.
    fn took_into(&mut self, value: u32, ended: &mut Option<Answer>) -> Option<Event>
        requires free { ended.old ≡ None }
        ensures state { self.new ≡ left self.old value }
        ensures event { result ≡ (gave self.old value).event }
        ensures answer { ended.new ≡ (gave self.old value).ended }
    {
        let taken = self.took(value);
        *ended = taken.ended;
        taken.event
    }
}
