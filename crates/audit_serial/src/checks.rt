ghost use Rattle.std.specs.Prelude.{◌≡◌};
ghost use Rattle.spi_machine.specs.Checks as spec;
ghost use Rattle.spi_machine.specs.Table.{is_external_channel, is_internal_channel};

use crate::options::is_sent_at_once;
use audit_base::{named, nothing};
use mcal_base::det_errors::Facts;
use mcal_base::{Answer, AnswerName};
use spi_machine::{Call, ChannelCall, Query, SequenceCall, SpiTable};
use word_shapes::jobs::Channel;

/// Whether a channel is configured as an internal one.
fn is_internal(channel: Option<Channel>) -> bool
    ensures { result ≡ is_internal_channel channel }
{
    match channel {
        Some(channel) => channel.internal,
        None => false,
    }
}

/// Whether a channel is configured as an external one.
fn is_external(channel: Option<Channel>) -> bool
    ensures { result ≡ is_external_channel channel }
{
    match channel {
        Some(channel) => !channel.internal,
        None => false,
    }
}

/// Whether a length is 0 or above the channel's greatest one.
fn is_wrong_length(words: u32, channel: Option<Channel>) -> bool
    ensures { result ≡ spec.is_wrong_length words channel }
{
    match channel {
        Some(channel) => words == 0 || (channel.length as u32) < words,
        None => words == 0 || 0 < words,
    }
}

/// The errors of a call about a channel that hold, in their order.
fn channel_facts(channel: Option<Channel>, call: ChannelCall, uninitialised: bool) -> [bool; 6]
    ensures { result ≡ spec.channel_facts channel call uninitialised }
{
    match call {
        ChannelCall::WriteIb(_) | ChannelCall::ReadIb => {
            let other = !is_internal(channel);
            [uninitialised, other, false, false, false, false]
        }
        ChannelCall::SetupEb(_, _, words) => {
            let other = !is_external(channel);
            let wrong = is_wrong_length(words, channel);
            [uninitialised, other, wrong, false, false, false]
        }
    }
}

/// Whether a call can't be about a sequence: it isn't configured, or it is sent by the other kind of transmission.
fn is_wrong_sequence(table: &SpiTable, sequence: u32, call: SequenceCall) -> bool
    ensures { result ≡ spec.is_wrong_sequence table.now sequence call }
{
    let unknown = table.sequence(sequence).is_none();
    let at_once = is_sent_at_once(table, sequence);
    match call {
        SequenceCall::AsyncTransmit => unknown || at_once,
        SequenceCall::SyncTransmit => unknown || !at_once,
        SequenceCall::Cancel => unknown,
    }
}

/// The errors of a query that hold, in their order.
fn query_facts(table: &SpiTable, query: Query, uninitialised: bool) -> [bool; 6]
    ensures { result ≡ spec.query_facts table.now query uninitialised }
{
    match query {
        Query::Status => [false; 6],
        Query::JobResult(job) => {
            let unknown = table.job(job).is_none();
            [uninitialised, unknown, false, false, false, false]
        }
        Query::SequenceResult(sequence) => {
            let unknown = table.sequence(sequence).is_none();
            [uninitialised, unknown, false, false, false, false]
        }
        Query::HwUnitStatus(unit) => [uninitialised, 1 < unit, false, false, false, false],
    }
}

/// The errors of a call that hold, in their order.
pub(crate) fn facts(table: &SpiTable, call: Call, uninitialised: bool, held: bool) -> Facts
    ensures { result.holds ≡ spec.facts_by table.now call uninitialised held }
{
    let holds = match call {
        Call::Init => [!uninitialised, false, false, false, false, false],
        Call::DeInit | Call::SetAsyncMode(_) => {
            [uninitialised, false, false, false, false, false]
        }
        Call::MainFunctionHandling => [false; 6],
        Call::Channel(channel, call) => channel_facts(table.channel(channel), call, uninitialised),
        Call::Sequence(sequence, call) => {
            let wrong = is_wrong_sequence(table, sequence, call);
            [uninitialised, wrong, held, false, false, false]
        }
        Call::Get(query) => query_facts(table, query, uninitialised),
    };
    Facts { holds }
}

/// The answer of a call with an error.
pub(crate) fn refused(call: Call) -> Answer
    ensures { result ≡ spec.answer_refused call }
{
    match call {
        Call::Init | Call::MainFunctionHandling => nothing(),
        Call::Sequence(_, SequenceCall::Cancel) => nothing(),
        Call::Get(query) => query_refused(query),
        _ => named(AnswerName::ENotOk),
    }
}

/// The answer of a query with an error.
fn query_refused(query: Query) -> Answer
    ensures { result ≡ spec.query_refused query }
{
    match query {
        Query::Status => nothing(),
        Query::JobResult(_) => named(AnswerName::SpiJobFailed),
        Query::SequenceResult(_) => named(AnswerName::SpiSeqFailed),
        Query::HwUnitStatus(_) => named(AnswerName::SpiUninit),
    }
}
