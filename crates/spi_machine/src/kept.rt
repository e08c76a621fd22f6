ghost use Rattle.std.specs.Prelude.{◌≡◌, ◌≤◌, ◌==◌, slice_index_or, slice_get};
ghost use Rattle.std.specs.List.{list_any};
ghost use Rattle.spi_machine.specs.Table as spec;

use crate::table::{ChannelList, Job, JobList, Sequence, SpiTable};
use mcal_base::{Config, Short, SpiChannel, SpiChannelType, SpiJob, SpiSequence};
use word_shapes::jobs::Channel;

impl SpiTable {
    /// What is kept of a configuration. It takes no memory.
    pub fn new(config: &Config) -> SpiTable
        ensures { result ≡ spec.table_of config.now.spi }
    {
        let channels = channels_by_number(config.spi.channels.as_slice());
        SpiTable {
            detect: config.spi.dev_error_detect,
            classification: config.spi.classification,
            levels: [
                level_at(&config.spi.levels, 0),
                level_at(&config.spi.levels, 1),
            ],
            sync: [
                is_sync(&config.spi.sync_units, 0),
                is_sync(&config.spi.sync_units, 1),
            ],
            channels,
            blocks: blocks_of(&channels),
            jobs: jobs_by_number(config.spi.jobs.as_slice()),
            sequences: sequences_by_number(config.spi.sequences.as_slice()),
        }
    }
}

/// A number as the driver keeps it.
fn byte(number: u32) -> u8
    ensures { result ≡ spec.byte number }
{
    (number % 256) as u8
}

/// The level at a place, 1 where there is none.
fn level_at(levels: &Short<u32, 2>, at: usize) -> u32
    ensures { result ≡ slice_index_or levels.now at 1 }
{
    match levels.as_slice().get(at) {
        Some(level) => *level,
        None => 1,
    }
}

/// Whether a unit is one of those that send by `Spi_SyncTransmit`.
fn is_sync(units: &Short<u32, 2>, number: u32) -> bool
    ensures { result ≡ list_any (λ n. n == number) units.now }
{
    is_listed(units.as_slice(), number)
}

/// Whether a number is among these.
fn is_listed(numbers: &[u32], number: u32) -> bool
    ensures { result ≡ list_any (λ n. n == number) numbers.now }
{
    for listed in numbers {
        if *listed == number {
            return true;
        }
    }
    false
}

/// How many driver words stand before those of each channel: 64 of the module's, and those of the channels before it.
fn blocks_of(channels: &[Option<Channel>; 16]) -> [u16; 16]
    ensures { result ≡ spec.blocks_of channels.now }
{
    let b1 = after(64, channels[0]);
    let b2 = after(b1, channels[1]);
    let b3 = after(b2, channels[2]);
    let b4 = after(b3, channels[3]);
    let b5 = after(b4, channels[4]);
    let b6 = after(b5, channels[5]);
    let b7 = after(b6, channels[6]);
    let b8 = after(b7, channels[7]);
    let b9 = after(b8, channels[8]);
    let b10 = after(b9, channels[9]);
    let b11 = after(b10, channels[10]);
    let b12 = after(b11, channels[11]);
    let b13 = after(b12, channels[12]);
    let b14 = after(b13, channels[13]);
    let b15 = after(b14, channels[14]);
    [
        64, b1, b2, b3, b4, b5, b6, b7, b8, b9, b10, b11, b12, b13, b14, b15,
    ]
}

/// The place after the driver words of a channel.
fn after(before: u16, channel: Option<Channel>) -> u16
    ensures { result ≡ spec.after before channel }
{
    match channel {
        Some(channel) => ((u32::from(before) + 4 + banked(channel)) % 65_536) as u16,
        None => before,
    }
}

/// The driver words of a channel's banks: six for each word of an internal one.
fn banked(channel: Channel) -> u32
    ensures is { result ≡ spec.banked channel }
    ensures few { result ≤ 1530 }
{
    if channel.internal {
        6 * u32::from(channel.length)
    } else {
        0
    }
}

fn channels_by_number(channels: &[SpiChannel]) -> [Option<Channel>; 16]
    ensures { result ≡ spec.channels_by_number channels.now }
{
    [
        find_channel(channels, 0),
        find_channel(channels, 1),
        find_channel(channels, 2),
        find_channel(channels, 3),
        find_channel(channels, 4),
        find_channel(channels, 5),
        find_channel(channels, 6),
        find_channel(channels, 7),
        find_channel(channels, 8),
        find_channel(channels, 9),
        find_channel(channels, 10),
        find_channel(channels, 11),
        find_channel(channels, 12),
        find_channel(channels, 13),
        find_channel(channels, 14),
        find_channel(channels, 15),
    ]
}

fn jobs_by_number(jobs: &[SpiJob]) -> [Option<Job>; 16]
    ensures { result ≡ spec.jobs_by_number jobs.now }
{
    [
        find_job(jobs, 0),
        find_job(jobs, 1),
        find_job(jobs, 2),
        find_job(jobs, 3),
        find_job(jobs, 4),
        find_job(jobs, 5),
        find_job(jobs, 6),
        find_job(jobs, 7),
        find_job(jobs, 8),
        find_job(jobs, 9),
        find_job(jobs, 10),
        find_job(jobs, 11),
        find_job(jobs, 12),
        find_job(jobs, 13),
        find_job(jobs, 14),
        find_job(jobs, 15),
    ]
}

fn sequences_by_number(sequences: &[SpiSequence]) -> [Option<Sequence>; 8]
    ensures { result ≡ spec.sequences_by_number sequences.now }
{
    [
        find_sequence(sequences, 0),
        find_sequence(sequences, 1),
        find_sequence(sequences, 2),
        find_sequence(sequences, 3),
        find_sequence(sequences, 4),
        find_sequence(sequences, 5),
        find_sequence(sequences, 6),
        find_sequence(sequences, 7),
    ]
}

/// The first channel with this number.
fn find_channel(channels: &[SpiChannel], number: u32) -> Option<Channel>
    ensures { result ≡ spec.channel_in channels.now number }
{
    for channel in channels {
        if channel.id == number {
            return Some(taken_channel(channel));
        }
    }
    None
}

/// The first job with this number.
fn find_job(jobs: &[SpiJob], number: u32) -> Option<Job>
    ensures { result ≡ spec.job_in jobs.now number }
{
    for job in jobs {
        if job.id == number {
            return Some(taken_job(job));
        }
    }
    None
}

/// The first sequence with this number.
fn find_sequence(sequences: &[SpiSequence], number: u32) -> Option<Sequence>
    ensures { result ≡ spec.sequence_in sequences.now number }
{
    for sequence in sequences {
        if sequence.id == number {
            return Some(taken_sequence(sequence));
        }
    }
    None
}

fn taken_channel(channel: &SpiChannel) -> Channel
    ensures { result ≡ spec.taken_channel channel.now }
{
    let (internal, length) = match channel.channel_type {
        SpiChannelType::Internal(length) => (true, length),
        SpiChannelType::External(length) => (false, length),
    };
    Channel {
        internal,
        length: byte(length),
        width: byte(channel.data_width),
        default_data: channel.default_data,
    }
}

fn taken_job(job: &SpiJob) -> Job
    ensures { result ≡ spec.taken_job job.now }
{
    Job {
        priority: byte(job.priority),
        notification: job.end_notification,
        channels: channel_list(&job.channel_list),
        unit: byte(job.unit),
        select: match job.select {
            Some(select) => Some(byte(select)),
            None => None,
        },
    }
}

fn taken_sequence(sequence: &SpiSequence) -> Sequence
    ensures { result ≡ spec.taken_sequence sequence.now }
{
    Sequence {
        interruptible: sequence.interruptible,
        jobs: job_list(&sequence.job_assignment),
        notification: sequence.end_notification,
    }
}

fn channel_list(numbers: &Short<u32, 4>) -> ChannelList
    ensures { result ≡ spec.channel_list numbers.now }
{
    let listed = numbers.as_slice();
    ChannelList {
        numbers: [
            byte_at(listed, 0),
            byte_at(listed, 1),
            byte_at(listed, 2),
            byte_at(listed, 3),
        ],
        count: listed.len() as u8,
    }
}

fn job_list(numbers: &Short<u32, 16>) -> JobList
    ensures { result ≡ spec.job_list numbers.now }
{
    let listed = numbers.as_slice();
    JobList {
        numbers: [
            byte_at(listed, 0),
            byte_at(listed, 1),
            byte_at(listed, 2),
            byte_at(listed, 3),
            byte_at(listed, 4),
            byte_at(listed, 5),
            byte_at(listed, 6),
            byte_at(listed, 7),
            byte_at(listed, 8),
            byte_at(listed, 9),
            byte_at(listed, 10),
            byte_at(listed, 11),
            byte_at(listed, 12),
            byte_at(listed, 13),
            byte_at(listed, 14),
            byte_at(listed, 15),
        ],
        count: listed.len() as u8,
    }
}

/// The number at a place as the driver keeps it, 0 where there is none.
fn byte_at(numbers: &[u32], place: usize) -> u8
    ensures { result ≡ spec.byte_at numbers.now place }
{
    match numbers.get(place) {
        Some(number) => byte(*number),
        None => 0,
    }
}
