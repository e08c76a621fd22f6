ghost use Rattle.std.specs.Prelude.{◌≡◌, ◌==◌, ◌&&◌, not, false};
ghost use Rattle.spi_machine.specs.Checks as checks;
ghost use Rattle.spi_machine.specs.Table as table;
ghost use Rattle.spi_machine.specs.Wiring as wiring;
ghost use Rattle.spi_sequences.specs.laws.services.Bodies as spec;

use crate::service::cancel::{CancelBody, Cancelled};
use crate::service::init::{InitBody, InitPlace};
use crate::service::query::{JobPlace, JobQuery, QueryBody};
use crate::service::read::{ReadBody, ReadPlace};
use crate::service::request::RequestPlace;
use crate::service::set_up::SetUpBody;
use crate::service::sync::SyncBody;
use crate::service::unit::{FrameRole, UnitBody, UnitPlace};
use crate::service::whole::{Whole, WholeBody};
use crate::service::write::{WriteBody, Written};
use crate::service::{self, SpiBody};
use crate::words::STATE;
use mcal_base::det_errors::{Facts, first_error};
use mcal_base::{Answer, AnswerName, ErrorName, Words};
use service_outline::{Done, Epilogue, Looked, Or, Reply, error, named, nothing};
use spi_machine::{Call, ChannelCall, Query, SequenceCall, SpiTable};
use word_shapes::jobs::{Channel, SetUp, Side, pin};

/// A call with the table that it is made of.
#[derive(Clone, Copy)]
pub struct Asked {
    /// The call.
    pub call: Call,
    /// The table.
    pub table: SpiTable,
}

impl service_outline::Service for Asked {
    type Body = SpiBody;

    ghost use Rattle.spi_sequences.specs.laws.services.Bodies.{spi_looked};
    ghost use Rattle.spi_sequences.specs.laws.services.Bodies.{spi_ends};
    ghost use Rattle.spi_sequences.specs.declared.words.TheConstants.{STATE};

    ghost WORD = { STATE };

    const WORD: u32 = STATE;

    ghost looked_of = { spi_looked };

    ghost ends_with = { spi_ends };

    fn look(&self, value: u32) -> Looked<SpiBody> {
        match first_error(self.call.service(), &self.facts(value)) {
            Some(error) => Looked::Refused(self.refusal(error)),
            None => self.begin(value),
        }
    }

    fn finish(body: &SpiBody, ended: &mut Option<Answer>) {
        if let Or::Second(Or::First(Or::Second(Or::Second(reading)))) = body {
            reading.finish(ended);
        }
    }
}

impl Asked {
    /// Which errors the state word and the arguments show, in the order of the service's errors.
    fn facts(&self, state: u32) -> Facts
        ensures { result.holds ≡ checks.facts_by self.now.table self.now.call (state == 0) false }
    {
        let uninit = state == 0;
        let (first, second, third) = match self.call {
            Call::Init => (!uninit, false, false),
            Call::DeInit | Call::SetAsyncMode(_) => (uninit, false, false),
            Call::MainFunctionHandling | Call::Get(Query::Status) => (false, false, false),
            Call::Channel(number, call) => {
                let channel = self.table.channel(number);
                match call {
                    ChannelCall::WriteIb(_) | ChannelCall::ReadIb => {
                        (uninit, !is_internal(channel), false)
                    }
                    ChannelCall::SetupEb(_, _, length) => (
                        uninit,
                        !is_external(channel),
                        is_wrong_length(length, channel),
                    ),
                }
            }
            Call::Sequence(number, call) => {
                (uninit, self.table.is_wrong_sequence(number, call), false)
            }
            Call::Get(Query::SequenceResult(number)) => {
                (uninit, self.table.sequence(number).is_none(), false)
            }
            Call::Get(Query::JobResult(number)) => {
                (uninit, self.table.job(number).is_none(), false)
            }
            Call::Get(Query::HwUnitStatus(number)) => (uninit, number > 1, false),
        };
        Facts {
            holds: [first, second, third, false, false, false],
        }
    }

    /// What a call with this error is done with.
    fn refusal(&self, name: ErrorName) -> Done
        ensures { result ≡ spec.refusal_of self.now name }
    {
        Done {
            answer: refused(self.call),
            owed: error(
                self.table.detect,
                self.table.classification,
                self.call.service(),
                name,
            ),
        }
    }

    /// What a call that nothing forbids goes on with.
    fn begin(&self, state: u32) -> Looked<SpiBody>
        ensures { result ≡ spec.begins self.now.table self.now.call state }
    {
        let table = self.table;
        match self.call {
            Call::Init => {
                let place = InitPlace::Opens;
                Looked::Goes(service::init_body(InitBody { table, place }))
            }
            Call::DeInit => looks(Whole::DeInit),
            Call::SetAsyncMode(mode) => looks(Whole::Mode(mode, table.served_lines())),
            Call::MainFunctionHandling => self.begin_main(state),
            Call::Channel(number, call) => self.begin_channel((number % 256) as u8, call),
            Call::Sequence(number, call) => self.begin_sequence((number % 256) as u8, call),
            Call::Get(query) => self.begin_query(state, query),
        }
    }

    /// The main function serves in polling mode alone, and begins with the second unit where the first one sends by
    /// `Spi_SyncTransmit`.
    fn begin_main(&self, state: u32) -> Looked<SpiBody>
        ensures { result ≡ spec.main_begun self.now.table (state == 1) }
    {
        if state == 1 {
            Looked::Goes(service::unit_body(UnitBody {
                table: self.table,
                errand: FrameRole::Main,
                unit: if self.table.is_sync(0) { 1 } else { 0 },
                place: UnitPlace::Act,
            }))
        } else {
            done_with(nothing())
        }
    }

    fn begin_channel(&self, number: u8, call: ChannelCall) -> Looked<SpiBody>
        ensures { result ≡ spec.channel_begun self.now.table number call }
    {
        let placed = self.table.placed(number);
        match call {
            ChannelCall::WriteIb(source) => Looked::Goes(service::write_body(WriteBody::Choose(
                Written { placed, source },
            ))),
            ChannelCall::ReadIb => Looked::Goes(service::read_body(ReadBody {
                placed,
                bank: 0,
                words: Words::new(),
                place: ReadPlace::Pin(pin(placed, Side::Received)),
            })),
            ChannelCall::SetupEb(source, destination, length) => {
                let set_up = SetUp {
                    source: source.is_users(),
                    destination: destination.is_users(),
                    length: (length % 256) as u8,
                };
                Looked::Goes(service::set_up_body(SetUpBody::Store(placed, set_up)))
            }
        }
    }

    fn begin_sequence(&self, sequence: u8, call: SequenceCall) -> Looked<SpiBody>
        ensures { result ≡ spec.sequence_begun self.now.table sequence call }
    {
        let unit = self.table.unit_of(sequence);
        match call {
            SequenceCall::AsyncTransmit => Looked::Goes(service::unit_body(UnitBody {
                table: self.table,
                errand: FrameRole::Transmit(sequence),
                unit,
                place: UnitPlace::Request(RequestPlace::Look(0)),
            })),
            SequenceCall::SyncTransmit => {
                Looked::Goes(service::sync_body(SyncBody::new(self.table, sequence, unit)))
            }
            // one that is sent at once isn't cancelled
            SequenceCall::Cancel if self.table.is_sync(unit) => done_with(nothing()),
            SequenceCall::Cancel => Looked::Goes(service::cancel_body(CancelBody::Result(
                Cancelled {
                    sequence,
                    unit,
                    notification: self.table.notifies_sequence(sequence),
                },
            ))),
        }
    }

    fn begin_query(&self, state: u32, query: Query) -> Looked<SpiBody>
        ensures { result ≡ spec.query_begun self.now.table state query }
    {
        match query {
            Query::Status if state == 0 => done_with(named(AnswerName::SpiUninit)),
            Query::Status => looks(Whole::Status),
            Query::JobResult(number) => Looked::Goes(service::query_body(QueryBody::Job(
                JobQuery {
                    table: self.table,
                    job: (number % 16) as u8,
                    unit: self.unit_of_job(number),
                    place: JobPlace::Running,
                },
            ))),
            Query::SequenceResult(number) => Looked::Goes(service::query_body(QueryBody::Sequence(
                (number % 256) as u8,
            ))),
            Query::HwUnitStatus(number) => {
                Looked::Goes(service::query_body(QueryBody::Unit((number % 256) as u8)))
            }
        }
    }

    fn unit_of_job(&self, number: u32) -> u8
        ensures { result ≡ wiring.unit_by (table.job_of self.now.table number) }
    {
        match self.table.job(number) {
            Some(job) => job.unit % 2,
            None => 0,
        }
    }
}

/// The results of all sequences are looked at.
fn looks(whole: Whole) -> Looked<SpiBody>
    ensures { result ≡ spec.looks whole }
{
    Looked::Goes(service::whole_body(WholeBody::Look(whole, 0)))
}

/// A call that acts at the load of the state word.
fn done_with(answer: Reply) -> Looked<SpiBody>
    ensures { result ≡ spec.done_with answer }
{
    Looked::Refused(Done {
        answer,
        owed: Epilogue::Nothing,
    })
}

/// The answer of a call with an error.
fn refused(call: Call) -> Reply
    ensures { result ≡ checks.answer_refused call }
{
    match call {
        Call::Init | Call::MainFunctionHandling | Call::Sequence(_, SequenceCall::Cancel) => {
            nothing()
        }
        Call::Get(Query::Status) => nothing(),
        Call::Get(Query::JobResult(_)) => named(AnswerName::SpiJobFailed),
        Call::Get(Query::SequenceResult(_)) => named(AnswerName::SpiSeqFailed),
        Call::Get(Query::HwUnitStatus(_)) => named(AnswerName::SpiUninit),
        Call::DeInit
        | Call::SetAsyncMode(_)
        | Call::Channel(..)
        | Call::Sequence(_, SequenceCall::AsyncTransmit | SequenceCall::SyncTransmit) => {
            named(AnswerName::ENotOk)
        }
    }
}

/// Whether a channel is an internal one, or an external one.
fn is_internal(channel: Option<Channel>) -> bool
    ensures { result ≡ table.is_internal_channel channel }
{
    match channel {
        Some(found) => found.internal,
        None => false,
    }
}

fn is_external(channel: Option<Channel>) -> bool
    ensures { result ≡ table.is_external_channel channel }
{
    match channel {
        Some(found) => !found.internal,
        None => false,
    }
}

/// Whether a length is 0 or above the channel's greatest one.
fn is_wrong_length(length: u32, channel: Option<Channel>) -> bool
    ensures { result ≡ checks.is_wrong_length length channel }
{
    let greatest = match channel {
        Some(found) => u32::from(found.length),
        None => 0,
    };
    length == 0 || greatest < length
}
