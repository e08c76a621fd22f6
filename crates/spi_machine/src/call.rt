ghost use Rattle.std.specs.Prelude.{◌≡◌};
ghost use Rattle.spi_machine.specs.Bounds as bounds;
ghost use Rattle.spi_machine.specs.Checks as spec;
ghost use Rattle.spi_machine.specs.Channels.{is_users};

use mcal_base::{ModuleName, Service};
use run_model::{Class, Key, KeyKind, Kind};

/// `Spi_AsyncModeType`.
#[derive(Clone, Copy)]
pub enum AsyncMode {
    /// `SPI_POLLING_MODE`
    Polling,
    /// `SPI_INTERRUPT_MODE`
    Interrupt,
}

/// A pointer to a buffer.
#[derive(Clone, Copy)]
pub enum Pointer {
    /// The user's array of the channel, its source or its destination.
    Users,
    /// No buffer.
    Null,
}

impl Pointer {
    /// Whether it is the user's array.
    pub fn is_users(self) -> bool
        ensures { result ≡ is_users self }
    {
        match self {
            Pointer::Users => true,
            Pointer::Null => false,
        }
    }
}

/// What is asked of a channel.
#[derive(Clone, Copy)]
pub enum ChannelCall {
    /// `Spi_WriteIB` with a source.
    WriteIb(Pointer),
    /// `Spi_ReadIB`
    ReadIb,
    /// `Spi_SetupEB` with a source, a destination and a length.
    SetupEb(Pointer, Pointer, u32),
}

/// What is asked of a sequence.
#[derive(Clone, Copy)]
pub enum SequenceCall {
    /// `Spi_AsyncTransmit`
    AsyncTransmit,
    /// `Spi_Cancel`
    Cancel,
    /// `Spi_SyncTransmit`
    SyncTransmit,
}

/// What is asked without changing anything.
#[derive(Clone, Copy)]
pub enum Query {
    /// `Spi_GetStatus`
    Status,
    /// `Spi_GetJobResult` of the job of this number.
    JobResult(u32),
    /// `Spi_GetSequenceResult` of the sequence of this number.
    SequenceResult(u32),
    /// `Spi_GetHWUnitStatus` of the unit of this number.
    HwUnitStatus(u32),
}

/// A call of the serial driver, with its arguments. Numbers of objects are any numbers.
#[derive(Clone, Copy)]
pub enum Call {
    /// `Spi_Init`
    Init,
    /// `Spi_DeInit`
    DeInit,
    /// `Spi_SetAsyncMode`
    SetAsyncMode(AsyncMode),
    /// `Spi_MainFunction_Handling`
    MainFunctionHandling,
    /// A call about the channel of this number.
    Channel(u32, ChannelCall),
    /// A call about the sequence of this number.
    Sequence(u32, SequenceCall),
    /// A query.
    Get(Query),
}

impl Call {
    /// The service that is called.
    pub fn service(self) -> Service
        ensures { result ≡ spec.service_of self }
    {
        match self {
            Call::Init => Service::SpiInit,
            Call::DeInit => Service::SpiDeInit,
            Call::SetAsyncMode(_) => Service::SpiSetAsyncMode,
            Call::MainFunctionHandling => Service::SpiMainFunctionHandling,
            Call::Channel(_, call) => call.service(),
            Call::Sequence(_, call) => call.service(),
            Call::Get(query) => query.service(),
        }
    }

    /// The class of the call: one about a channel or a sequence has that as its key, `Spi_WriteIB` as one that reads
    /// the user's source array, the main function has a key of its own, a query may begin over any frame, and any other
    /// call over no frame of the module.
    pub fn class(self) -> Class
        ensures { result ≡ bounds.class_of self }
    {
        match self {
            Call::Init | Call::DeInit | Call::SetAsyncMode(_) => class(Kind::Exclusive, None),
            Call::MainFunctionHandling => keyed(KeyKind::Main, 0),
            Call::Channel(number, ChannelCall::WriteIb(_)) => keyed(KeyKind::Source, number),
            Call::Channel(number, _) => keyed(KeyKind::Channel, number),
            Call::Sequence(number, _) => keyed(KeyKind::Sequence, number),
            Call::Get(_) => class(Kind::Query, None),
        }
    }
}

fn class(kind: Kind, key: Option<Key>) -> Class
    ensures { result ≡ bounds.class_with kind key }
{
    Class {
        kind,
        module: ModuleName::Spi,
        key,
    }
}

fn keyed(kind: KeyKind, number: u32) -> Class
    ensures { result ≡ bounds.keyed_by kind number }
{
    class(Kind::Keyed, Some(Key { kind, number }))
}

impl ChannelCall {
    fn service(self) -> Service
        ensures { result ≡ spec.channel_service self }
    {
        match self {
            ChannelCall::WriteIb(_) => Service::SpiWriteIb,
            ChannelCall::ReadIb => Service::SpiReadIb,
            ChannelCall::SetupEb(..) => Service::SpiSetupEb,
        }
    }
}

impl SequenceCall {
    fn service(self) -> Service
        ensures { result ≡ spec.sequence_service self }
    {
        match self {
            SequenceCall::AsyncTransmit => Service::SpiAsyncTransmit,
            SequenceCall::Cancel => Service::SpiCancel,
            SequenceCall::SyncTransmit => Service::SpiSyncTransmit,
        }
    }
}

impl Query {
    fn service(self) -> Service
        ensures { result ≡ spec.query_service self }
    {
        match self {
            Query::Status => Service::SpiGetStatus,
            Query::JobResult(_) => Service::SpiGetJobResult,
            Query::SequenceResult(_) => Service::SpiGetSequenceResult,
            Query::HwUnitStatus(_) => Service::SpiGetHwUnitStatus,
        }
    }
}
