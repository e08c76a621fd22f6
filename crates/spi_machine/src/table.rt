ghost use Rattle.std.specs.Prelude.{◌≡◌, ◌≤◌, length, slice_index_or, slice_get, take};
ghost use Rattle.std.specs.List.{list_any};
ghost use Rattle.run_model.specs.Machine.{select_of};
ghost use Rattle.spi_machine.specs.Bounds as bounds;
ghost use Rattle.spi_machine.specs.Checks as checks;
ghost use Rattle.spi_machine.specs.Table as spec;
ghost use Rattle.spi_machine.specs.Wiring as wiring;

use crate::call::SequenceCall;
use mcal_base::ModuleName;
use word_shapes::jobs::{Channel, Placed};

/// The numbers of the channels of a job, in their order: so many of these.
#[derive(Clone, Copy)]
pub struct ChannelList {
    /// The numbers, and others.
    pub numbers: [u8; 4],
    /// How many they are.
    pub count: u8,
}

/// The numbers of the jobs of a sequence, in their order: so many of these.
#[derive(Clone, Copy)]
pub struct JobList {
    /// The numbers, and others.
    pub numbers: [u8; 16],
    /// How many they are.
    pub count: u8,
}

/// A configured job.
#[derive(Clone, Copy)]
pub struct Job {
    /// `SpiJobPriority`, 3 the highest.
    pub priority: u8,
    /// Whether `SpiJobEndNotification` is given.
    pub notification: bool,
    /// `SpiChannelList`.
    pub channels: ChannelList,
    /// `Unit`, 0 or 1.
    pub unit: u8,
    /// `Select`: the place of its device.
    pub select: Option<u8>,
}

/// A configured sequence.
#[derive(Clone, Copy)]
pub struct Sequence {
    /// `SpiInterruptibleSequence`.
    pub interruptible: bool,
    /// `SpiJobAssignment`.
    pub jobs: JobList,
    /// Whether `SpiSeqEndNotification` is given.
    pub notification: bool,
}

/// What the serial driver keeps of a configuration. Its numbers are below 256.
#[derive(Clone, Copy)]
pub struct SpiTable {
    /// `SpiDevErrorDetect`.
    pub detect: bool,
    /// `Classification` of state errors.
    pub classification: u32,
    /// `Levels`: those of the lines of the two units.
    pub levels: [u32; 2],
    /// `SyncUnits`: whether a unit sends by `Spi_SyncTransmit` alone, by number.
    pub sync: [bool; 2],
    /// The channels by number, where they are configured.
    pub channels: [Option<Channel>; 16],
    /// How many of the module's driver words stand before those of a channel, by number.
    pub blocks: [u16; 16],
    /// The jobs by number, where they are configured.
    pub jobs: [Option<Job>; 16],
    /// The sequences by number, where they are configured.
    pub sequences: [Option<Sequence>; 8],
}

impl ChannelList {
    /// The number at a place.
    pub fn at(&self, place: u8) -> Option<u8>
        ensures { result ≡ wiring.channel_number self.now place }
    {
        if place < self.count && place < 4 {
            Some(self.numbers[place as usize])
        } else {
            None
        }
    }

    /// The numbers.
    pub(crate) fn listed(&self) -> &[u8]
        ensures is { result.now ≡ take self.now.count self.now.numbers }
        ensures few { length result.now ≤ 4 }
    {
        &self.numbers[..usize::from(self.count.min(4))]
    }
}

impl JobList {
    /// The number at a place.
    pub fn at(&self, place: u8) -> Option<u8>
        ensures { result ≡ wiring.job_number self.now place }
    {
        if place < self.count && place < 16 {
            Some(self.numbers[place as usize])
        } else {
            None
        }
    }

    /// The numbers.
    pub(crate) fn listed(&self) -> &[u8]
        ensures is { result.now ≡ take self.now.count self.now.numbers }
        ensures few { length result.now ≤ 16 }
    {
        &self.numbers[..usize::from(self.count.min(16))]
    }

    /// The place of a job.
    pub fn place_of(&self, job: u8) -> Option<u8>
        ensures { result ≡ wiring.place_in self.now job }
    {
        place_before(&self.numbers, job, self.count)
    }
}

/// The last place of a job among the first ones.
fn place_before(numbers: &[u8; 16], job: u8, end: u8) -> Option<u8>
    ensures { result ≡ wiring.place_before numbers.now job end }
{
    if end == 0 {
        return None;
    }
    if number_at(numbers, end - 1) == job {
        Some(end - 1)
    } else {
        place_before(numbers, job, end - 1)
    }
}

/// The number at a place, 0 where there is none.
fn number_at(numbers: &[u8; 16], place: u8) -> u8
    ensures { result ≡ slice_index_or numbers.now place 0 }
{
    if place < 16 {
        numbers[place as usize]
    } else {
        0
    }
}

/// Whether one of the first jobs of a row is in a list.
fn shares_before(jobs: &JobList, others: &[u8; 16], end: u8) -> bool
    ensures { result ≡ wiring.shares_before jobs.now others.now end }
{
    if end == 0 {
        return false;
    }
    jobs.place_of(number_at(others, end - 1)).is_some() || shares_before(jobs, others, end - 1)
}

impl SpiTable {
    /// The channel of a number, where it is configured.
    pub fn channel(&self, number: u32) -> Option<Channel>
        ensures { result ≡ spec.channel_of self.now number }
    {
        if number < 16 {
            self.channels[number as usize]
        } else {
            None
        }
    }

    /// The job of a number, where it is configured.
    pub fn job(&self, number: u32) -> Option<Job>
        ensures { result ≡ spec.job_of self.now number }
    {
        if number < 16 {
            self.jobs[number as usize]
        } else {
            None
        }
    }

    /// The sequence of a number, where it is configured.
    pub fn sequence(&self, number: u32) -> Option<Sequence>
        ensures { result ≡ spec.sequence_of self.now number }
    {
        if number < 8 {
            self.sequences[number as usize]
        } else {
            None
        }
    }

    /// A channel with its place; one that isn't configured has no words.
    pub fn placed(&self, number: u8) -> Placed
        ensures { result ≡ wiring.placed_of self.now number }
    {
        let at = (number % 16) as usize;
        let channel = match self.channels[at] {
            Some(channel) => channel,
            None => NO_CHANNEL,
        };
        Placed {
            number,
            block: self.blocks[at],
            channel,
        }
    }

    /// The channels of a job; one that isn't configured has none.
    pub fn channels_of(&self, job: u8) -> ChannelList
        ensures { result ≡ wiring.list_of self.now job }
    {
        match self.job(u32::from(job)) {
            Some(job) => job.channels,
            None => NO_CHANNELS,
        }
    }

    /// The jobs of a sequence; one that isn't configured has none.
    pub fn jobs_of(&self, sequence: u8) -> JobList
        ensures { result ≡ wiring.jobs_list self.now sequence }
    {
        match self.sequence(u32::from(sequence)) {
            Some(sequence) => sequence.jobs,
            None => NO_JOBS,
        }
    }

    /// The channel at a place of a job.
    pub fn channel_at(&self, job: u8, place: u8) -> Placed
        ensures { result ≡ wiring.channel_at_place self.now job place }
    {
        match self.channels_of(job).at(place) {
            Some(number) => self.placed(number),
            None => NOWHERE,
        }
    }

    /// The job at a place of a sequence, 0 where there is none.
    pub fn job_at(&self, sequence: u8, place: u8) -> u8
        ensures { result ≡ wiring.job_at_place self.now sequence place }
    {
        match self.jobs_of(sequence).at(place) {
            Some(job) => job,
            None => 0,
        }
    }

    /// What selects the device of a job: its place plus 1, 0 where it has none.
    pub fn select(&self, job: u8) -> u32
        ensures { result ≡ select_of (spec.select_by (spec.job_of self.now job)) }
    {
        match self.job(u32::from(job)) {
            Some(job) => match job.select {
                Some(select) => u32::from(select) + 1,
                None => 0,
            },
            None => 0,
        }
    }

    /// The priority of a job.
    pub fn priority(&self, job: u8) -> u32
        ensures { result ≡ spec.priority_by (spec.job_of self.now job) }
    {
        match self.job(u32::from(job)) {
            Some(job) => u32::from(job.priority),
            None => 0,
        }
    }

    /// Whether a sequence lets others start between its jobs.
    pub fn is_interruptible(&self, sequence: u8) -> bool
        ensures { result ≡ spec.is_interruptible (spec.sequence_of self.now sequence) }
    {
        match self.sequence(u32::from(sequence)) {
            Some(sequence) => sequence.interruptible,
            None => false,
        }
    }

    /// Whether the end of a job is told.
    pub fn notifies_job(&self, job: u8) -> bool
        ensures { result ≡ spec.notifies_job (spec.job_of self.now job) }
    {
        match self.job(u32::from(job)) {
            Some(job) => job.notification,
            None => false,
        }
    }

    /// Whether the end of a sequence is told.
    pub fn notifies_sequence(&self, sequence: u8) -> bool
        ensures { result ≡ spec.notifies_sequence (spec.sequence_of self.now sequence) }
    {
        match self.sequence(u32::from(sequence)) {
            Some(sequence) => sequence.notification,
            None => false,
        }
    }

    /// Whether two sequences have a job in common.
    pub fn shares_job(&self, sequence: u8, other: u8) -> bool
        ensures { result ≡ wiring.shares self.now sequence other }
    {
        let others = self.jobs_of(other);
        shares_before(&self.jobs_of(sequence), &others.numbers, others.count)
    }

    /// The unit of a sequence, that of its first job.
    pub fn unit_of(&self, sequence: u8) -> u8
        ensures { result ≡ wiring.unit_of_sequence self.now sequence }
    {
        match self.job(u32::from(self.job_at(sequence, 0))) {
            Some(job) => job.unit % 2,
            None => 0,
        }
    }

    /// Whether a unit sends by `Spi_SyncTransmit` alone.
    pub fn is_sync(&self, unit: u8) -> bool
        ensures { result ≡ spec.is_sync_unit self.now unit }
    {
        if unit < 2 {
            self.sync[unit as usize]
        } else {
            false
        }
    }

    /// Whether a sequence is sent by `Spi_SyncTransmit`: its unit is one of these.
    fn is_sent_at_once(&self, sequence: u8) -> bool
        ensures { result ≡ wiring.is_sync_sequence self.now sequence }
    {
        self.is_sync(self.unit_of(sequence))
    }

    /// Whether a call can't be about a sequence: it isn't configured, or it is sent by the other kind of transmission.
    pub fn is_wrong_sequence(&self, number: u32, call: SequenceCall) -> bool
        ensures { result ≡ checks.is_wrong_sequence self.now number call }
    {
        if number >= 8 || self.sequences[number as usize].is_none() {
            return true;
        }
        let at_once = self.is_sent_at_once(number as u8);
        match call {
            SequenceCall::AsyncTransmit => at_once,
            SequenceCall::SyncTransmit => !at_once,
            SequenceCall::Cancel => false,
        }
    }

    /// The lines, as the bits of a mask, of the units that handlers or the main function serve.
    pub fn served_lines(&self) -> u32
        ensures { result ≡ wiring.served_lines self.now }
    {
        let first = if self.is_sync(0) { 0 } else { 1 << 26 };
        let second = if self.is_sync(1) { 0 } else { 1 << 27 };
        first + second
    }

    /// Whether a configured job uses the unit of a line, and a handler serves it.
    pub fn uses(&self, line: u32) -> bool
        ensures { result ≡ bounds.is_used self.now line }
    {
        match line {
            26 => self.has_handler(0),
            27 => self.has_handler(1),
            _ => false,
        }
    }

    /// The level of a line, 1 where no job uses its unit.
    pub fn level(&self, line: u32) -> u32
        ensures { result ≡ bounds.level_of self.now line }
    {
        match line {
            26 if self.uses_unit(0) => self.levels[0],
            27 if self.uses_unit(1) => self.levels[1],
            _ => 1,
        }
    }

    /// The module to which a line's handler belongs.
    pub fn owner(&self, _line: u32) -> ModuleName
        ensures { result ≡ bounds.owner_of _line }
    {
        ModuleName::Spi
    }

    /// Whether jobs use a unit, and a handler or the main function serves it.
    fn has_handler(&self, unit: u8) -> bool
        ensures { result ≡ bounds.has_handler self.now unit }
    {
        self.uses_unit(unit) && !self.is_sync(unit)
    }

    /// Whether jobs use a unit.
    fn uses_unit(&self, unit: u8) -> bool
        ensures { result ≡ bounds.uses_unit self.now unit }
    {
        is_any_on(&self.jobs, unit)
    }
}

/// A channel that isn't configured.
pub const NO_CHANNEL: Channel = Channel {
    internal: false,
    length: 0,
    width: 0,
    default_data: 0,
};

/// The same, with no words.
pub const NOWHERE: Placed = Placed {
    number: 0,
    block: 0,
    channel: NO_CHANNEL,
};

/// No channels.
pub const NO_CHANNELS: ChannelList = ChannelList {
    numbers: [0; 4],
    count: 0,
};

/// No jobs.
pub const NO_JOBS: JobList = JobList {
    numbers: [0; 16],
    count: 0,
};

fn is_any_on(jobs: &[Option<Job>], unit: u8) -> bool
    ensures { result ≡ list_any (spec.is_on_unit unit) jobs.now }
{
    for job in jobs {
        if is_on(job, unit) {
            return true;
        }
    }
    false
}

fn is_on(job: &Option<Job>, unit: u8) -> bool
    ensures { result ≡ spec.is_on_unit unit job.now }
{
    match job {
        Some(job) => job.unit == unit,
        None => false,
    }
}
