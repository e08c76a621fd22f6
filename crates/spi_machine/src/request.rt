ghost use Rattle.std.specs.Prelude.{◌≡◌, true, Some, slice_get};
ghost use Rattle.spi_machine.specs.Requests as spec;

use crate::call::{AsyncMode, Call, ChannelCall, Pointer, Query, SequenceCall};
use mcal_base::{Argument, ArgumentName, Request, Service};

/// The call that a request of the serial driver asks for.
pub fn call_of(request: &Request) -> Call
    requires { spec.has_service request.now.service ≡ true }
    ensures { Some result ≡ spec.call_of request.now }
{
    let first = argument(request, 0);
    match request.service {
        Service::SpiInit => Call::Init,
        Service::SpiDeInit => Call::DeInit,
        Service::SpiWriteIb => on_channel(
            first,
            ChannelCall::WriteIb(pointer(argument(request, 1))),
        ),
        Service::SpiReadIb => on_channel(first, ChannelCall::ReadIb),
        Service::SpiSetupEb => on_channel(
            first,
            ChannelCall::SetupEb(
                pointer(argument(request, 1)),
                pointer(argument(request, 2)),
                number(argument(request, 3)),
            ),
        ),
        Service::SpiAsyncTransmit => on_sequence(first, SequenceCall::AsyncTransmit),
        Service::SpiCancel => on_sequence(first, SequenceCall::Cancel),
        Service::SpiSyncTransmit => on_sequence(first, SequenceCall::SyncTransmit),
        Service::SpiGetStatus => Call::Get(Query::Status),
        Service::SpiGetJobResult => Call::Get(Query::JobResult(number(first))),
        Service::SpiGetSequenceResult => Call::Get(Query::SequenceResult(number(first))),
        Service::SpiGetHwUnitStatus => Call::Get(Query::HwUnitStatus(number(first))),
        Service::SpiSetAsyncMode => Call::SetAsyncMode(mode(first)),
        Service::SpiMainFunctionHandling => Call::MainFunctionHandling,
        _ => unreachable!(),
    }
}

/// A number that is asked with, 0 where there is none.
fn number(argument: Option<Argument>) -> u32
    ensures { result ≡ spec.number_of argument }
{
    match argument {
        Some(Argument::Number(number)) => number,
        _ => 0,
    }
}

/// A buffer that is asked with: the user's array by its name, and else none.
fn pointer(argument: Option<Argument>) -> Pointer
    ensures { result ≡ spec.pointer_of argument }
{
    match argument {
        Some(Argument::Name(ArgumentName::Source | ArgumentName::Destination)) => Pointer::Users,
        _ => Pointer::Null,
    }
}

/// The mode that is asked for.
fn mode(argument: Option<Argument>) -> AsyncMode
    ensures { result ≡ spec.mode_of argument }
{
    match argument {
        Some(Argument::Name(ArgumentName::SpiInterruptMode)) => AsyncMode::Interrupt,
        _ => AsyncMode::Polling,
    }
}

/// An argument of a request.
fn argument(request: &Request, at: usize) -> Option<Argument>
    ensures { result ≡ slice_get request.now.arguments at }
{
    request.arguments.as_slice().get(at).copied()
}

fn on_channel(channel: Option<Argument>, call: ChannelCall) -> Call
    ensures { result ≡ spec.on_channel channel call }
{
    Call::Channel(number(channel), call)
}

fn on_sequence(sequence: Option<Argument>, call: SequenceCall) -> Call
    ensures { result ≡ spec.on_sequence sequence call }
{
    Call::Sequence(number(sequence), call)
}
