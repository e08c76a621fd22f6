//! The services' bodies, and each of them as one of the driver's bodies.

pub mod init;
pub mod pin;
pub mod refresh;

ghost use Rattle.std.specs.Prelude.{◌≡◌};
ghost use Rattle.port_driver.specs.laws.Bodies as spec;

use init::{InitDone, Setup};
use pin::PinBody;
use refresh::RefreshBody;
use service_outline::{Or, Sweep, SweepStage};

/// The body of `Port_Init`: a sweep over all its writes, and the act.
pub type InitBody = Sweep<Setup, InitDone>;

/// A place in any body of the driver.
pub type PortBody = Or<InitBody, Or<RefreshBody, PinBody>>;

pub(crate) fn init_body(objects: Setup) -> PortBody
    ensures { result ≡ spec.init_body objects }
{
    let place = SweepStage::Opens;
    Or::First(Sweep { objects, place })
}

pub(crate) fn refresh_body(body: RefreshBody) -> PortBody
    ensures { result ≡ spec.refresh_body body }
{
    Or::Second(Or::First(body))
}

pub(crate) fn pin_body(body: PinBody) -> PortBody
    ensures { result ≡ spec.pin_body body }
{
    Or::Second(Or::Second(body))
}
