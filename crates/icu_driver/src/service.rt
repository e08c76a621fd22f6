//! The services' bodies, and each of them as one of the driver's bodies.

pub mod change;
pub mod count;
pub mod deinit;
pub mod detect;
pub mod duty;
pub mod gate;
pub mod init;
pub mod keep;
pub mod measure;
pub mod sample;
pub mod stamp;

ghost use Rattle.std.specs.Prelude.{◌≡◌};
ghost use Rattle.icu_driver.specs.laws.Bodies as spec;

use change::ChangeBody;
use count::CountBody;
use deinit::DeInitBody;
use detect::DetectBody;
use duty::DutyBody;
use gate::GateBody;
use init::InitBody;
use keep::KeepBody;
use measure::MeasureBody;
use sample::SampleBody;
use service_outline::Or;
use stamp::StampBody;

/// The bodies of the calls about the whole module.
pub type ModuleBody = Or<InitBody, DeInitBody>;

/// The bodies of the calls that switch a channel or count its edges.
pub type SwitchBody = Or<ChangeBody, Or<CountBody, GateBody>>;

/// The bodies of the calls about stamps and measures.
pub type ValueBody = Or<StampBody, Or<MeasureBody, DutyBody>>;

/// The bodies of the handlers.
pub type ServeBody = Or<DetectBody, Or<KeepBody, SampleBody>>;

/// A place in any body of the driver.
pub type IcuBody = Or<Or<ModuleBody, ServeBody>, Or<SwitchBody, ValueBody>>;

pub(crate) fn init_body(body: InitBody) -> IcuBody
    ensures { result ≡ spec.init_body body }
{
    Or::First(Or::First(Or::First(body)))
}

pub(crate) fn deinit_body(body: DeInitBody) -> IcuBody
    ensures { result ≡ spec.deinit_body body }
{
    Or::First(Or::First(Or::Second(body)))
}

pub(crate) fn detect_body(body: DetectBody) -> IcuBody
    ensures { result ≡ spec.detect_body body }
{
    Or::First(Or::Second(Or::First(body)))
}

pub(crate) fn keep_body(body: KeepBody) -> IcuBody
    ensures { result ≡ spec.keep_body body }
{
    Or::First(Or::Second(Or::Second(Or::First(body))))
}

pub(crate) fn sample_body(body: SampleBody) -> IcuBody
    ensures { result ≡ spec.sample_body body }
{
    Or::First(Or::Second(Or::Second(Or::Second(body))))
}

pub(crate) fn change_body(body: ChangeBody) -> IcuBody
    ensures { result ≡ spec.change_body body }
{
    Or::Second(Or::First(Or::First(body)))
}

pub(crate) fn count_body(body: CountBody) -> IcuBody
    ensures { result ≡ spec.count_body body }
{
    Or::Second(Or::First(Or::Second(Or::First(body))))
}

pub(crate) fn gate_body(body: GateBody) -> IcuBody
    ensures { result ≡ spec.gate_body body }
{
    Or::Second(Or::First(Or::Second(Or::Second(body))))
}

pub(crate) fn stamp_body(body: StampBody) -> IcuBody
    ensures { result ≡ spec.stamp_body body }
{
    Or::Second(Or::Second(Or::First(body)))
}

pub(crate) fn measure_body(body: MeasureBody) -> IcuBody
    ensures { result ≡ spec.measure_body body }
{
    Or::Second(Or::Second(Or::Second(Or::First(body))))
}

pub(crate) fn duty_body(body: DutyBody) -> IcuBody
    ensures { result ≡ spec.duty_body body }
{
    Or::Second(Or::Second(Or::Second(Or::Second(body))))
}
