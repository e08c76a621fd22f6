ghost use Rattle.std.specs.Prelude.{◌≡◌, ◌≤◌, ◌*◌, count_by, sum_by, is_some, length};
ghost use Rattle.spi_machine.specs.Bounds as spec;
ghost use Rattle.spi_machine.specs.Table as rows;

use crate::call::{Call, ChannelCall, SequenceCall};
use crate::table::{Sequence, SpiTable};
use word_shapes::jobs::Channel;

/// The most steps of a handler, and of a request.
pub const SERIAL_STEPS: u32 = 144;

/// The most steps of a call about nothing that is long.
const SHORT_STEPS: u32 = 64;

impl SpiTable {
    /// The most steps of a call's frame.
    pub fn most_steps(&self, call: Call) -> u32
        ensures { result ≡ spec.call_steps self.now call }
    {
        match call {
            Call::Init | Call::DeInit => self.whole_steps(),
            Call::SetAsyncMode(_) | Call::Get(_) | Call::Channel(_, ChannelCall::SetupEb(..)) => {
                SHORT_STEPS
            }
            Call::MainFunctionHandling => 288,
            Call::Channel(number, ChannelCall::WriteIb(_) | ChannelCall::ReadIb) => {
                48 + 4 * length_by(self.channel(number))
            }
            Call::Sequence(_, SequenceCall::AsyncTransmit) => SERIAL_STEPS,
            Call::Sequence(_, SequenceCall::Cancel) => 96,
            Call::Sequence(number, SequenceCall::SyncTransmit) => {
                sent_steps(self, self.sequence(number))
            }
        }
    }

    /// Of a call about the whole module: 48 more for each configured object, and 8 for each word of an internal
    /// channel.
    fn whole_steps(&self) -> u32
        ensures { result ≡ spec.whole_steps self.now }
    {
        let objects = counted(&self.channels) + counted(&self.jobs) + counted(&self.sequences);
        64 + 48 * objects + 8 * internal_words(&self.channels)
    }
}

/// Of `Spi_SyncTransmit`: those of its jobs more.
fn sent_steps(table: &SpiTable, sequence: Option<Sequence>) -> u32
    ensures { result ≡ spec.sent_steps table.now sequence }
{
    match sequence {
        Some(Sequence { jobs, .. }) => 96 + jobs_steps(table, jobs.listed()),
        None => 96,
    }
}

/// Of jobs: 64 for each, and 16 for each word of their channels.
fn jobs_steps(table: &SpiTable, jobs: &[u8]) -> u32
    requires { length jobs.now ≤ 16 }
    ensures is { result ≡ sum_by (spec.job_steps table.now) jobs.now }
    ensures few { result ≤ 262144 }
{
    let mut steps = 0;
    for job in jobs {
        steps += 64 + 16 * words(table, table.channels_of(*job).listed());
    }
    steps
}

/// The words of channels.
fn words(table: &SpiTable, channels: &[u8]) -> u32
    requires { length channels.now ≤ 4 }
    ensures is { result ≡ sum_by (λ c. rows.length_by (rows.channel_of table.now c)) channels.now }
    ensures few { result ≤ 1020 }
{
    let mut words = 0;
    for channel in channels {
        words += length_by(table.channel(u32::from(*channel)));
    }
    words
}

/// How many of at most 16 objects are configured.
fn counted<T>(objects: &[Option<T>]) -> u32
    requires { length objects.now ≤ 16 }
    ensures is { result ≡ count_by is_some objects.now }
    ensures few { result ≤ 16 }
{
    let mut count = 0;
    for object in objects {
        if object.is_some() {
            count += 1;
        }
    }
    count
}

/// The words of all internal channels.
fn internal_words(channels: &[Option<Channel>; 16]) -> u32
    ensures is { result ≡ sum_by spec.internal_by channels.now }
    ensures few { result ≤ 4080 }
{
    let mut words = 0;
    for channel in channels {
        words += internal_by(*channel);
    }
    words
}

fn length_by(channel: Option<Channel>) -> u32
    ensures is { result ≡ rows.length_by channel }
    ensures few { result ≤ 255 }
{
    match channel {
        Some(channel) => u32::from(channel.length),
        None => 0,
    }
}

fn internal_by(channel: Option<Channel>) -> u32
    ensures is { result ≡ spec.internal_by channel }
    ensures few { result ≤ 255 }
{
    match channel {
        Some(channel) if channel.internal => u32::from(channel.length),
        _ => 0,
    }
}
