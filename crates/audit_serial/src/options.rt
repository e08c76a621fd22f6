ghost use Rattle.std.specs.Prelude.{◌≡◌, ◌≤◌, ◌==◌, ◌++◌, [], ◌∷◌, length, take, option_to_list, slice_index_or, if◌then◌else◌};
ghost use Rattle.std.specs.List.{list_any};
ghost use Rattle.spi_machine.specs.Pending as pending;
ghost use Rattle.spi_machine.specs.State as state;
ghost use Rattle.spi_machine.specs.Table as spec;
ghost use Rattle.spi_machine.specs.Wiring as wiring;
ghost use Rattle.audit_base.specs.Tells.{listed};

use audit_base::Notices;
use mcal_base::{Notice, NoticeKind};
use spi_machine::{ChannelList, JobList, SpiTable};

/// No channels.
const NO_CHANNELS: ChannelList = ChannelList {
    numbers: [0; 4],
    count: 0,
};

/// No jobs.
const NO_JOBS: JobList = JobList {
    numbers: [0; 16],
    count: 0,
};

/// The channels of a job; one that isn't configured has none.
pub(crate) fn channel_list(table: &SpiTable, job: u32) -> ChannelList
    ensures { take result.count result.numbers ≡ spec.channels_of table.now job }
{
    match table.job(job) {
        Some(job) => job.channels,
        None => NO_CHANNELS,
    }
}

/// Their numbers.
pub(crate) fn channels_listed(list: &ChannelList) -> &[u8]
    ensures { result.now ≡ take list.now.count list.now.numbers }
{
    &list.numbers[..(list.count as usize).min(4)]
}

/// The jobs of a sequence; one that isn't configured has none.
pub(crate) fn job_list(table: &SpiTable, sequence: u32) -> JobList
    ensures { take result.count result.numbers ≡ spec.jobs_of table.now sequence }
{
    match table.sequence(sequence) {
        Some(sequence) => sequence.jobs,
        None => NO_JOBS,
    }
}

/// Their numbers.
pub(crate) fn jobs_listed(list: &JobList) -> &[u8]
    ensures is { result.now ≡ take list.now.count list.now.numbers }
    ensures few { length result.now ≤ 16 }
{
    &list.numbers[..(list.count as usize).min(16)]
}

/// The job at a place of a sequence, 0 where there is none.
pub(crate) fn job_at(table: &SpiTable, sequence: u32, place: u32) -> u32
    ensures { result ≡ slice_index_or (spec.jobs_of table.now sequence) place 0 }
{
    let list = job_list(table, sequence);
    let jobs = jobs_listed(&list);
    let place = place as usize;
    if place < jobs.len() {
        jobs[place] as u32
    } else {
        0
    }
}

/// How many jobs a sequence has, at most 16.
pub(crate) fn job_count(table: &SpiTable, sequence: u32) -> u32
    ensures is { result ≡ length (spec.jobs_of table.now sequence) }
    ensures few { result ≤ 16 }
{
    let list = job_list(table, sequence);
    jobs_listed(&list).len() as u32
}

/// The first job of a sequence, 0 where there is none.
fn first_job(table: &SpiTable, sequence: u32) -> u32
    ensures { result ≡ wiring.job_at_place table.now sequence 0 }
{
    match table.sequence(sequence) {
        Some(sequence) => match sequence.jobs.at(0) {
            Some(job) => job as u32,
            None => 0,
        },
        None => 0,
    }
}

/// The unit of a sequence.
pub(crate) fn unit_of(table: &SpiTable, sequence: u32) -> u32
    ensures { result ≡ wiring.unit_of_sequence table.now sequence }
{
    match table.job(first_job(table, sequence)) {
        Some(job) => job.unit as u32 % 2,
        None => 0,
    }
}

/// Whether a unit sends by `Spi_SyncTransmit` alone.
pub(crate) fn is_sync(table: &SpiTable, unit: u32) -> bool
    ensures { result ≡ spec.is_sync_unit table.now unit }
{
    if unit < 2 {
        table.sync[unit as usize]
    } else {
        false
    }
}

/// Whether a sequence is sent by `Spi_SyncTransmit`.
pub(crate) fn is_sent_at_once(table: &SpiTable, sequence: u32) -> bool
    ensures { result ≡ wiring.is_sync_sequence table.now sequence }
{
    is_sync(table, unit_of(table, sequence))
}

/// Whether a job is on a unit.
pub(crate) fn is_on(table: &SpiTable, unit: u32, job: u32) -> bool
    ensures { result ≡ spec.is_on_unit unit (spec.job_of table.now job) }
{
    match table.job(job) {
        Some(job) => job.unit as u32 == unit,
        None => false,
    }
}

/// The priority of a job, 0 where it isn't configured.
pub(crate) fn priority(table: &SpiTable, job: u32) -> u32
    ensures { result ≡ spec.priority_by (spec.job_of table.now job) }
{
    match table.job(job) {
        Some(job) => job.priority as u32,
        None => 0,
    }
}

/// The place of a job's device, where it has one.
pub(crate) fn select(table: &SpiTable, job: u32) -> Option<u8>
    ensures { result ≡ spec.select_by (spec.job_of table.now job) }
{
    match table.job(job) {
        Some(job) => job.select,
        None => None,
    }
}

/// Whether a sequence lets others start between its jobs.
pub(crate) fn is_interruptible(table: &SpiTable, sequence: u32) -> bool
    ensures { result ≡ spec.is_interruptible (spec.sequence_of table.now sequence) }
{
    match table.sequence(sequence) {
        Some(sequence) => sequence.interruptible,
        None => false,
    }
}

/// Whether one of some numbers is this one.
pub(crate) fn has(numbers: &[u8], number: u32) -> bool
    ensures { result ≡ list_any (λ k. k == number) numbers.now }
{
    for each in numbers {
        if *each as u32 == number {
            return true;
        }
    }
    false
}

/// Whether a sequence has a job.
fn has_job(table: &SpiTable, sequence: u32, job: u32) -> bool
    ensures { result ≡ pending.has_job table.now sequence job }
{
    let list = job_list(table, sequence);
    has(jobs_listed(&list), job)
}

/// Whether two sequences have a job in common.
pub(crate) fn shares_job(table: &SpiTable, sequence: u32, other: u32) -> bool
    ensures { result ≡ pending.shares_job table.now sequence other }
{
    let others = job_list(table, other);
    for job in jobs_listed(&others) {
        if has_job(table, sequence, *job as u32) {
            return true;
        }
    }
    false
}

/// Whether a job uses a channel.
fn uses_channel(table: &SpiTable, channel: u32, job: u32) -> bool
    ensures { result ≡ pending.uses_channel table.now channel job }
{
    let list = channel_list(table, job);
    has(channels_listed(&list), channel)
}

/// Whether a job of a sequence uses a channel.
pub(crate) fn sequence_uses(table: &SpiTable, channel: u32, sequence: u32) -> bool
    ensures { result ≡ list_any (pending.uses_channel table.now channel) (spec.jobs_of table.now sequence) }
{
    let list = job_list(table, sequence);
    for job in jobs_listed(&list) {
        if uses_channel(table, channel, *job as u32) {
            return true;
        }
    }
    false
}

/// The notice of a job's end, where it is configured.
pub(crate) fn job_notice(table: &SpiTable, job: u32) -> Option<Notice>
    ensures { option_to_list result ≡ state.job_notice table.now job }
{
    match table.job(job) {
        Some(found) => notice(found.notification, NoticeKind::SpiJobEndNotification, job),
        None => None,
    }
}

/// The notice of a sequence's end, where it is configured.
pub(crate) fn sequence_notice(table: &SpiTable, sequence: u32) -> Option<Notice>
    ensures { option_to_list result ≡ state.sequence_notice table.now sequence }
{
    match table.sequence(sequence) {
        Some(found) => notice(
            found.notification,
            NoticeKind::SpiSeqEndNotification,
            sequence,
        ),
        None => None,
    }
}

/// A notice, where it is configured.
fn notice(configured: bool, kind: NoticeKind, id: u32) -> Option<Notice>
    ensures { option_to_list result ≡ (if configured then (record { kind = kind; id = id }) ∷ [] else []) }
{
    if configured {
        Some(Notice { kind, id })
    } else {
        None
    }
}

/// At most two notices, in their order.
pub(crate) fn both_notices(first: Option<Notice>, second: Option<Notice>) -> Notices
    ensures { listed result ≡ option_to_list first ++ option_to_list second }
{
    match (first, second) {
        (Some(first), Some(second)) => Notices::Two(first, second),
        (Some(notice), None) => Notices::One(notice),
        (None, Some(notice)) => Notices::One(notice),
        (None, None) => Notices::None,
    }
}
