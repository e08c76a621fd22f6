//! The requests of a script to two drivers as one.

use crate::caller::Caller;
use mcal_base::{Request, Service};
use step_runner::{Either, Module, Union};

impl<A: Caller, B: Caller> Caller for Union<A, B> {
    ghost use Rattle.std.specs.Prelude.{◌||◌, cond};
    ghost use Rattle.step_runner.specs.declared.either.Either.TheVariants.{Left, Right};

    ghost has_service = { λ m service. A.has_service m.first service || B.has_service m.second service };

    ghost call_of = { λ m request. cond (A.has_service m.first request.service) (Left (A.call_of m.first request)) (Right (B.call_of m.second request)) };

    fn has(&self, service: Service) -> bool {
        self.first.has(service) || self.second.has(service)
    }

    fn call(&self, request: &Request) -> Either<A::Call, B::Call> {
        if self.first.has(request.service) {
            Either::Left(self.first.call(request))
        } else {
            Either::Right(self.second.call(request))
        }
    }

    fn call_steps(&self, call: &Either<A::Call, B::Call>) -> u32 {
        match call {
            Either::Left(call) => self.first.call_steps(call),
            Either::Right(call) => self.second.call_steps(call),
        }
    }

    fn line_steps(&self, line: u32) -> u32 {
        match self.first.handler(line) {
            Some(_) => self.first.line_steps(line),
            None => self.second.line_steps(line),
        }
    }

    ghost slow = { λ m chip w ps s fits h. A.slow m.first chip w h.firsts s.0 fits.0 h.first };
}
