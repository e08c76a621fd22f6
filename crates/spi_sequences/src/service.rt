//! The services' bodies, and each of them as one of the driver's bodies.

pub mod cancel;
pub mod init;
mod job_end;
pub mod query;
pub mod read;
pub mod request;
pub mod serve;
pub mod set_up;
pub mod start;
pub mod sync;
pub mod unit;
pub mod whole;
pub mod write;

ghost use Rattle.std.specs.Prelude.{◌≡◌};
ghost use Rattle.spi_sequences.specs.laws.services.Bodies as spec;

use cancel::CancelBody;
use init::InitBody;
use query::QueryBody;
use read::ReadBody;
use service_outline::Or;
use set_up::SetUpBody;
use sync::SyncBody;
use unit::UnitBody;
use whole::WholeBody;
use write::WriteBody;

/// The bodies of the calls about the whole module.
pub type ModuleBody = Or<InitBody, WholeBody>;

/// The bodies of the calls about a channel.
pub type ChannelBody = Or<SetUpBody, Or<WriteBody, ReadBody>>;

/// The bodies that start and serve a unit, that of a cancel, and that of a sequence that is sent at once.
pub type SequenceBody = Or<UnitBody, Or<CancelBody, SyncBody>>;

/// A place in any body of the driver.
pub type SpiBody = Or<Or<ModuleBody, QueryBody>, Or<ChannelBody, SequenceBody>>;

pub(crate) fn init_body(body: InitBody) -> SpiBody
    ensures { result ≡ spec.init_body body }
{
    Or::First(Or::First(Or::First(body)))
}

pub(crate) fn whole_body(body: WholeBody) -> SpiBody
    ensures { result ≡ spec.whole_body body }
{
    Or::First(Or::First(Or::Second(body)))
}

pub(crate) fn query_body(body: QueryBody) -> SpiBody
    ensures { result ≡ spec.query_body body }
{
    Or::First(Or::Second(body))
}

pub(crate) fn set_up_body(body: SetUpBody) -> SpiBody
    ensures { result ≡ spec.set_up_body body }
{
    Or::Second(Or::First(Or::First(body)))
}

pub(crate) fn write_body(body: WriteBody) -> SpiBody
    ensures { result ≡ spec.write_body body }
{
    Or::Second(Or::First(Or::Second(Or::First(body))))
}

pub(crate) fn read_body(body: ReadBody) -> SpiBody
    ensures { result ≡ spec.read_body body }
{
    Or::Second(Or::First(Or::Second(Or::Second(body))))
}

pub fn unit_body(body: UnitBody) -> SpiBody
    ensures { result ≡ spec.unit_body body }
{
    Or::Second(Or::Second(Or::First(body)))
}

pub(crate) fn cancel_body(body: CancelBody) -> SpiBody
    ensures { result ≡ spec.cancel_body body }
{
    Or::Second(Or::Second(Or::Second(Or::First(body))))
}

pub(crate) fn sync_body(body: SyncBody) -> SpiBody
    ensures { result ≡ spec.sync_body body }
{
    Or::Second(Or::Second(Or::Second(Or::Second(body))))
}
