//! The services' bodies, and each of them as one of the driver's bodies.

pub mod deinit;
pub mod init;
pub mod notify;
pub mod output;
pub mod rest;
pub mod serve;

ghost use Rattle.std.specs.Prelude.{◌≡◌};
ghost use Rattle.pwm_driver.specs.laws.Bodies as spec;

use deinit::DeInitBody;
use init::{InitBody, Setup};
use notify::NotifyBody;
use output::OutputBody;
use rest::RestBody;
use serve::ServeBody;
use service_outline::{Or, Sweep, SweepStage};

/// The bodies of the calls about the whole module.
pub type ModuleBody = Or<Sweep<Setup, InitBody>, DeInitBody>;

/// The bodies of the calls about a channel.
pub type ChannelBody = Or<OutputBody, Or<RestBody, NotifyBody>>;

/// A place in any body of the driver.
pub type PwmBody = Or<ModuleBody, Or<ChannelBody, ServeBody>>;

pub(crate) fn init_body(objects: Setup) -> PwmBody
    ensures { result ≡ spec.init_body objects }
{
    let place = SweepStage::Opens;
    Or::First(Or::First(Sweep { objects, place }))
}

pub(crate) fn deinit_body(body: DeInitBody) -> PwmBody
    ensures { result ≡ spec.deinit_body body }
{
    Or::First(Or::Second(body))
}

pub(crate) fn output_body(body: OutputBody) -> PwmBody
    ensures { result ≡ spec.output_body body }
{
    Or::Second(Or::First(Or::First(body)))
}

pub(crate) fn rest_body(body: RestBody) -> PwmBody
    ensures { result ≡ spec.rest_body body }
{
    Or::Second(Or::First(Or::Second(Or::First(body))))
}

pub(crate) fn notify_body(body: NotifyBody) -> PwmBody
    ensures { result ≡ spec.notify_body body }
{
    Or::Second(Or::First(Or::Second(Or::Second(body))))
}

pub(crate) fn serve_body(body: ServeBody) -> PwmBody
    ensures { result ≡ spec.serve_body body }
{
    Or::Second(Or::Second(body))
}
