ghost use Rattle.std.specs.Prelude.{◌≡◌, ◌<◌, ℕ, Contains, None, flat_map, length, slice_index_or, take};
ghost use Rattle.chip_model.specs.Chip.{word_of};
ghost use Rattle.spi_machine.specs.Bounds.{HoldsArrays, channels_named};
ghost use Rattle.spi_machine.specs.Table as spec;
ghost use Rattle.audit_frames.specs.Decides.{Decides};
ghost use Rattle.audit_modules.specs.Agrees.{AllHold, HoldsDestination, HoldsSource};
ghost use Rattle.audit_serial.specs.Stands.{state_of};

use audit_serial::Serials;
use chip_model::Bus;
use mcal_base::{DESTINATIONS, Notice, NoticeKind, SOURCES};
use spi_machine::{ChannelList, JobList};
use word_shapes::jobs::Channel;

/// How many words an array of a channel has room for.
const ROOM: u32 = 64;

/// How many channels there may be.
fn channel_count(channels: &[Option<Channel>; 16]) -> u32
    ensures { result ≡ length channels.now }
{
    channels.len() as u32
}

/// The words of an array of a channel, none where it isn't configured.
fn length_of(channels: &[Option<Channel>; 16], number: u32) -> u32
    ensures is { result ≡ spec.length_by (slice_index_or channels.now number None) }
    ensures there { 0 < result → number < 16 }
{
    if number >= 16 {
        return 0;
    }
    match channels[number as usize] {
        Some(channel) => channel.length as u32,
        None => 0,
    }
}

/// Whether a place of the source array of a channel has the machine's word.
fn has_source(serials: &Serials, bus: &Bus, channel: u32, place: u32) -> bool
    requires channel { channel < 16 }
    requires place { place < 64 }
    ensures { Decides result (HoldsSource bus.now (state_of serials.now) channel place) }
{
    bus.word(SOURCES + ROOM * channel + place) == serials.source(channel, place)
}

/// Whether a place of the destination array of a channel has the machine's word.
fn has_destination(serials: &Serials, bus: &Bus, channel: u32, place: u32) -> bool
    requires channel { channel < 16 }
    requires place { place < 64 }
    ensures { Decides result (HoldsDestination bus.now (state_of serials.now) channel place) }
{
    bus.word(DESTINATIONS + ROOM * channel + place) == serials.destination(channel, place)
}

/// Whether a place of both arrays of a channel has the machine's words.
fn has_place(serials: &Serials, bus: &Bus, channel: u32, place: u32) -> bool
    requires channel { channel < 16 }
    requires place { place < 64 }
    ensures { Decides result (HoldsSource bus.now (state_of serials.now) channel place × HoldsDestination bus.now (state_of serials.now) channel place) }
{
    if !has_source(serials, bus, channel, place) {
        return false;
    }
    has_destination(serials, bus, channel, place)
}

/// Whether both arrays of a channel have the machine's words.
fn has_arrays(serials: &Serials, bus: &Bus, channel: u32) -> bool
    ensures { Decides result (HoldsArrays (word_of bus.now) serials.now.configured.table (state_of serials.now) channel) }
{
    for place in 0..length_of(&serials.table().channels, channel) {
        if !has_place(serials, bus, channel, place) {
            return false;
        }
    }
    true
}

/// Whether the arrays of all channels have the machine's words.
pub fn arrays_agree(serials: &Serials, bus: &Bus) -> bool
    ensures { Decides result ((c : ℕ) → HoldsArrays (word_of bus.now) serials.now.configured.table (state_of serials.now) c) }
{
    for channel in 0..channel_count(&serials.table().channels) {
        if !has_arrays(serials, bus, channel) {
            return false;
        }
    }
    true
}

/// Whether the arrays of these channels have the machine's words.
fn have_arrays(serials: &Serials, bus: &Bus, channels: &[u8]) -> bool
    ensures { Decides result (AllHold serials.now.configured.table bus.now (state_of serials.now) (Contains channels.now)) }
{
    for channel in channels {
        if !has_arrays(serials, bus, *channel as u32) {
            return false;
        }
    }
    true
}

/// The numbers of a list of channels.
fn channels_listed(list: &ChannelList) -> &[u8]
    ensures { result.now ≡ take list.now.count list.now.numbers }
{
    &list.numbers[..(list.count as usize).min(4)]
}

/// Whether the arrays of a job's channels have the machine's words.
fn job_has_arrays(serials: &Serials, bus: &Bus, job: u32) -> bool
    ensures { Decides result (AllHold serials.now.configured.table bus.now (state_of serials.now) (Contains (spec.channels_of serials.now.configured.table job))) }
{
    match serials.table().job(job) {
        Some(job) => have_arrays(serials, bus, channels_listed(&job.channels)),
        None => true,
    }
}

/// Whether the arrays of these jobs' channels have the machine's words.
fn jobs_have_arrays(serials: &Serials, bus: &Bus, jobs: &[u8]) -> bool
    ensures { Decides result (AllHold serials.now.configured.table bus.now (state_of serials.now) (Contains (flat_map (spec.channels_of serials.now.configured.table) jobs.now))) }
{
    for job in jobs {
        if !job_has_arrays(serials, bus, *job as u32) {
            return false;
        }
    }
    true
}

/// The numbers of a list of jobs.
fn jobs_listed(list: &JobList) -> &[u8]
    ensures { result.now ≡ take list.now.count list.now.numbers }
{
    &list.numbers[..(list.count as usize).min(16)]
}

/// Whether the arrays of the channels of a sequence's jobs have the machine's words.
fn sequence_has_arrays(serials: &Serials, bus: &Bus, sequence: u32) -> bool
    ensures { Decides result (AllHold serials.now.configured.table bus.now (state_of serials.now) (Contains (flat_map (spec.channels_of serials.now.configured.table) (spec.jobs_of serials.now.configured.table sequence)))) }
{
    match serials.table().sequence(sequence) {
        Some(sequence) => jobs_have_arrays(serials, bus, jobs_listed(&sequence.jobs)),
        None => true,
    }
}

/// Whether the arrays of the channels that a notice names, by its job or its sequence, have the machine's words.
pub(crate) fn named_have_arrays(serials: &Serials, bus: &Bus, notice: Notice) -> bool
    ensures { Decides result (AllHold serials.now.configured.table bus.now (state_of serials.now) (Contains (channels_named serials.now.configured.table notice))) }
{
    match notice.kind {
        NoticeKind::SpiJobEndNotification => job_has_arrays(serials, bus, notice.id),
        NoticeKind::SpiSeqEndNotification => sequence_has_arrays(serials, bus, notice.id),
        _ => true,
    }
}
