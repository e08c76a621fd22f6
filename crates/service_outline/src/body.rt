ghost use Rattle.std.specs.Prelude.{◌≡◌, ℕ, Option, None};
ghost use Rattle.mcal_base.specs.declared.answer.Answer.{Answer};
ghost use Rattle.mcal_base.specs.declared.moves.Move.{Move};
ghost use Rattle.service_outline.specs.declared.done.BodyTaken.{BodyTaken};
ghost use Rattle.service_outline.specs.declared.body.Looked.{Looked};

use crate::done::{BodyTaken, Done};
use mcal_base::{Answer, Move};

/// What a load of the state word decides for a call.
#[derive(Drop)]
pub enum Looked<B> {
    /// It acts at the load, and is done with.
    Refused(Done),
    /// It goes on with its body.
    Goes(B),
}

/// The moves of a frame between the closing of the mask and its last opening, and what they decide. A body may open
/// and close the mask itself, and give notices while it is open; it begins and ends with the mask closed.
pub trait Body: Drop {
    /// What it does next.
    ghost work_of: { Self → Move };

    /// What a step that gave a value makes of it, and what stands at that step.
    ghost takes: { Self → ℕ → Self × BodyTaken };

    /// What it does next.
    fn next(&self) -> Move
        ensures { result ≡ work_of self.now };

    /// Takes what the move gave.
    fn took(&mut self, value: u32) -> BodyTaken
        ensures state { self.new ≡ (takes self.old value).0 }
        ensures taken { result ≡ (takes self.old value).1 };
}

/// The calls of a driver whose services follow the outline.
pub trait Service: Drop {
    /// What its services do in their windows.
    type Body: Body + Drop;

    /// The number of the module's state word.
    ghost WORD: { ℕ };

    /// The number of the module's state word.
    const WORD: u32;

    /// What the state word and the arguments decide.
    ghost looked_of: { Self → ℕ → Looked Self.Body };

    /// The answer with which a body has ended its frame itself, at its last opening of the mask: where an answer is too
    /// long for a `Reply`, the body keeps its words.
    ghost ends_with: { Self.Body → Option Answer } = { λ k. None };

    /// What the state word and the arguments decide.
    fn look(&self, value: u32) -> Looked<Self::Body>
        ensures { result ≡ looked_of self.now value };

    /// Writes the answer of a body that has ended its frame itself, and nothing where it goes on. Each step of a body that
    /// isn't done with asks for it.
    fn finish(body: &Self::Body, ended: &mut Option<Answer>)
        requires free { ended.old ≡ None }
        ensures { ended.new ≡ ends_with body.now };
}

/// A body of either of two kinds.
#[derive(Drop)]
pub enum Or<A, B> {
    /// A body of the first kind.
    First(A),
    /// A body of the second kind.
    Second(B),
}

impl<A: Body, B: Body> Body for Or<A, B> {
    ghost use Rattle.service_outline.specs.Either.{either_work, either_takes};

    ghost work_of = { either_work A.work_of B.work_of };

    ghost takes = { either_takes A.takes B.takes };

    fn next(&self) -> Move {
        match self {
            Or::First(body) => body.next(),
            Or::Second(body) => body.next(),
        }
    }

    fn took(&mut self, value: u32) -> BodyTaken {
        match self {
            Or::First(body) => body.took(value),
            Or::Second(body) => body.took(value),
        }
    }
}
