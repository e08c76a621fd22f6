//! The services' bodies, and each of them as one of the driver's bodies.

pub mod clock;
pub mod fill;
pub mod query;
pub mod reset;
pub mod state;

ghost use Rattle.std.specs.Prelude.{◌≡◌};
ghost use Rattle.mcu_driver.specs.laws.Bodies as spec;

use clock::ClockBody;
use fill::{Fill, FilledBody};
use query::QueryBody;
use reset::ResetBody;
use service_outline::{Or, Sweep, SweepStage};
use state::StateBody;

/// The bodies of the calls that look at the chip or change a word or the clock.
pub type PlainBody = Or<StateBody, Or<QueryBody, ClockBody>>;

/// The body of a call that fills a section.
pub type FillBody = Sweep<Fill, FilledBody>;

/// A place in any body of the driver.
pub type McuBody = Or<PlainBody, Or<ResetBody, FillBody>>;

pub(crate) fn state_body(body: StateBody) -> McuBody
    ensures { result ≡ spec.state_body body }
{
    Or::First(Or::First(body))
}

pub(crate) fn query_body(body: QueryBody) -> McuBody
    ensures { result ≡ spec.query_body body }
{
    Or::First(Or::Second(Or::First(body)))
}

pub(crate) fn clock_body(body: ClockBody) -> McuBody
    ensures { result ≡ spec.clock_body body }
{
    Or::First(Or::Second(Or::Second(body)))
}

pub(crate) fn reset_body(body: ResetBody) -> McuBody
    ensures { result ≡ spec.reset_body body }
{
    Or::Second(Or::First(body))
}

pub(crate) fn fill_body(objects: Fill) -> McuBody
    ensures { result ≡ spec.fill_body objects }
{
    let place = SweepStage::Opens;
    Or::Second(Or::Second(Sweep { objects, place }))
}
