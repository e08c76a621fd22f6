ghost use Rattle.std.specs.Prelude.{◌≡◌};
ghost use Rattle.step_runner.specs.Kept.{used_by};

use crate::{Either, Module};
use chip_model::Bus;
use mcal_base::ModuleName;
use run_model::Class;

/// Two modules as one.
#[derive(Drop)]
pub struct Union<A, B> {
    /// The first, which may set the rate.
    pub first: A,
    /// The second.
    pub second: B,
}

impl<A: Module, B: Module> Module for Union<A, B> {
    type Call = Either<A::Call, B::Call>;

    type Frame = Either<A::Frame, B::Frame>;

    type State = (A::State, B::State);

    ghost use Rattle.step_runner.specs.Union.{union_of};
    ghost use Rattle.step_runner.specs.UnionLaws.{union-lawful};

    ghost spec = { λ m. union_of (A.spec m.first) (B.spec m.second) };

    fn frame(&self, call: &Either<A::Call, B::Call>) -> Either<A::Frame, B::Frame> {
        match call {
            Either::Left(call) => Either::Left(self.first.frame(call)),
            Either::Right(call) => Either::Right(self.second.frame(call)),
        }
    }

    fn handler(&self, line: u32) -> Option<Either<A::Frame, B::Frame>> {
        match self.first.handler(line) {
            Some(frame) => Some(Either::Left(frame)),
            None => match self.second.handler(line) {
                Some(frame) => Some(Either::Right(frame)),
                None => None,
            },
        }
    }

    fn class(&self, call: &Either<A::Call, B::Call>) -> Class {
        match call {
            Either::Left(call) => self.first.class(call),
            Either::Right(call) => self.second.class(call),
        }
    }

    fn level(&self, line: u32) -> u32 {
        match self.first.handler(line) {
            Some(_) => self.first.level(line),
            None => self.second.level(line),
        }
    }

    fn owner(&self, line: u32) -> ModuleName {
        match self.first.handler(line) {
            Some(_) => self.first.owner(line),
            None => self.second.owner(line),
        }
    }

    fn source_use(&self, bus: &Bus, channel: u32) -> Option<bool> {
        let first = self.first.source_use(bus, channel);
        let second = self.second.source_use(bus, channel);
        either_use(first, second)
    }

    ghost laws = { λ m fits. union-lawful
        (A.spec m.first) (B.spec m.second)
        A.Frame.move_of A.Frame.left A.Frame.gave B.Frame.move_of B.Frame.left B.Frame.gave
        (A.laws m.first fits.0) (B.laws m.second fits.1) fits.2 };
}

/// Whether one of two modules uses an array, of those that have it.
fn either_use(first: Option<bool>, second: Option<bool>) -> Option<bool>
    ensures { result ≡ used_by first second }
{
    match (first, second) {
        (Some(first), Some(second)) => Some(first || second),
        (Some(first), None) => Some(first),
        (None, second) => second,
    }
}
