ghost use Rattle.std.specs.Prelude.{◌≡◌, option_copied};
ghost use Rattle.audit_base.specs.Product as product;

use crate::done::Done;
use crate::either::Either;
use crate::outside::Outside;
use crate::part::{Part, Polled};
use mcal_base::{ErrorName, Order, Reason, Service, Unit};
use std::alloc::AllocError;

/// Two parts as one.
#[derive(Drop)]
pub struct Both<A, B> {
    /// The first, which sets the rate.
    pub first: A,
    /// The second.
    pub second: B,
}

/// The sooner one of two times that may run.
fn sooner(first: Option<u64>, second: Option<u64>) -> Option<u64>
    ensures { result ≡ product.sooner first second }
{
    match (first, second) {
        (Some(first), Some(second)) => Some(first.min(second)),
        (Some(first), None) => Some(first),
        (None, second) => second,
    }
}

/// A call of the first of two.
fn first_call<C, D>(call: Option<&Either<C, D>>) -> Option<&C>
    ensures { option_copied result ≡ product.first_call (option_copied call.entry) }
{
    match call {
        Some(Either::Left(call)) => Some(call),
        _ => None,
    }
}

/// A call of the second of two.
fn second_call<C, D>(call: Option<&Either<C, D>>) -> Option<&D>
    ensures { option_copied result ≡ product.second_call (option_copied call.entry) }
{
    match call {
        Some(Either::Right(call)) => Some(call),
        _ => None,
    }
}

impl<A: Part, B: Part> Part for Both<A, B> {
    type Call = Either<A::Call, B::Call>;

    type State = (A::State, B::State);

    type Table = (A::Table, B::Table);

    ghost use Rattle.audit_base.specs.Product.{both};

    ghost table = { λ m. (A.table m.first, B.table m.second) };

    ghost member = { λ t. both (A.member t.0) (B.member t.1) };

    ghost fits = { λ m o. A.fits m.first o × B.fits m.second o };

    ghost ticks = { λ m. A.ticks m.first };

    ghost stands = { λ m s. A.stands m.first s.0 × B.stands m.second s.1 };

    fn has_line(&self, line: u32) -> bool {
        self.first.has_line(line) || self.second.has_line(line)
    }

    fn act(
        &mut self,
        outside: &Outside,
        call: &Self::Call,
        times: [u64; 8],
    ) -> Result<Option<Done>, AllocError> {
        match call {
            Either::Left(call) => self.first.act(outside, call, times),
            Either::Right(call) => self.second.act(outside, call, times),
        }
    }

    fn serve(
        &mut self,
        outside: &Outside,
        line: u32,
        received: u32,
    ) -> Result<Option<Done>, AllocError> {
        if self.first.has_line(line) {
            self.first.serve(outside, line, received)
        } else {
            self.second.serve(outside, line, received)
        }
    }

    fn start(
        &mut self,
        outside: &Outside,
        unit: Unit,
        by: Option<&Self::Call>,
        received: u32,
    ) -> Result<Option<Done>, AllocError> {
        let found = self.first.start(outside, unit, first_call(by), received)?;
        match found {
            Some(done) => Ok(Some(done)),
            None => self.second.start(outside, unit, second_call(by), received),
        }
    }

    fn abort(&mut self, outside: &Outside, unit: Unit) -> Result<Option<Done>, AllocError> {
        let found = self.first.abort(outside, unit)?;
        match found {
            Some(done) => Ok(Some(done)),
            None => self.second.abort(outside, unit),
        }
    }

    fn moved(&mut self, outside: &Outside, order: &Order) -> Result<(), AllocError> {
        self.first.moved(outside, order)?;
        self.second.moved(outside, order)
    }

    fn reset(&mut self, outside: &Outside, reason: Reason) {
        self.first.reset(outside, reason);
        self.second.reset(outside, reason);
    }

    fn ready(&self, outside: &Outside, line: u32) -> bool {
        if self.first.has_line(line) {
            self.first.ready(outside, line)
        } else {
            self.second.ready(outside, line)
        }
    }

    fn due(&self, outside: &Outside, line: u32) -> bool {
        if self.first.has_line(line) {
            self.first.due(outside, line)
        } else {
            self.second.due(outside, line)
        }
    }

    fn line_waits(&self, outside: &Outside, line: u32) -> bool {
        if self.first.has_line(line) {
            self.first.line_waits(outside, line)
        } else {
            self.second.line_waits(outside, line)
        }
    }

    fn startable(&self, outside: &Outside, unit: Unit) -> bool {
        self.first.startable(outside, unit) || self.second.startable(outside, unit)
    }

    fn rate(&self) -> u32 {
        self.first.rate()
    }

    fn expires(&self, outside: &Outside) -> Option<u64> {
        sooner(self.first.expires(outside), self.second.expires(outside))
    }

    fn service(&self, call: &Self::Call) -> Service {
        match call {
            Either::Left(call) => self.first.service(call),
            Either::Right(call) => self.second.service(call),
        }
    }

    fn reported(&self, call: &Self::Call, error: ErrorName) -> Option<bool> {
        match call {
            Either::Left(call) => self.first.reported(call, error),
            Either::Right(call) => self.second.reported(call, error),
        }
    }

    fn polls(&self, call: &Self::Call) -> Polled {
        match call {
            Either::Left(call) => self.first.polls(call),
            Either::Right(call) => self.second.polls(call),
        }
    }

    ghost later = { λ m o p h a. (A.later m.first o p h.0 a, B.later m.second o p h.1 a) };
}
