ghost use Rattle.std.specs.Prelude.{◌≡◌, ◌<◌, ◌^◌};
ghost use Rattle.mcal_base.specs.Bits.{has_bit, bit_of};
ghost use Rattle.adc_groups.specs.Stored as spec;

use adc_machine::AdcTable;
use word_shapes::PriorityQueue;
use word_shapes::streams::{FIRST, Rounds};

/// The module's first word, which tells whether it is initialised.
pub const STATE: u32 = FIRST;

/// The bits of all lines of the module: those of the two units and those of the four trigger inputs.
pub const LINES: u32 = 0xF300_0000;

/// A word of the driver, about the module, a unit or a group.
#[derive(Clone, Copy)]
pub enum Word {
    /// Whether the module is initialised.
    State,
    /// The group whose round the unit has, plus 1; 0 where it has none.
    Running(u8),
    /// Whether no frame but one may start or abort anything on the unit: 0 where there is none, 2 plus the group where that
    /// frame keeps what the group's aborted round has, and 1 otherwise.
    Claim(u8),
    /// What the group's status is, and whether it is under way.
    Phase(u8),
    /// The number of the group's chosen buffer, plus 1; 0 where it has none.
    Chosen(u8),
    /// Whether the group's notification is on.
    Notified(u8),
    /// Whether the group waits or has a round.
    Turn(u8),
    /// How many rounds of the group's stream the buffer holds.
    Count(u8),
    /// The place of the stream to which the next round goes.
    Place(u8),
    /// How many values of the group are kept.
    Kept(u8),
}

/// The phases of a group.
#[derive(Clone, Copy)]
pub enum Phase {
    /// It is idle.
    Idle,
    /// It is busy.
    Busy,
    /// It is completed.
    Completed,
    /// Its stream is completed, and it has a turn or an enabled trigger.
    Streaming,
    /// Its stream is completed, and it has neither.
    Ended,
}

impl Phase {
    /// The number by which a word has it.
    pub fn number(self) -> u32
        ensures { result ≡ spec.phase_number self }
    {
        match self {
            Phase::Idle => 0,
            Phase::Busy => 1,
            Phase::Completed => 2,
            Phase::Streaming => 3,
            Phase::Ended => 4,
        }
    }

    /// The phase that a word has.
    pub fn of(number: u32) -> Phase
        ensures { result ≡ spec.phase_in number }
    {
        if number == 0 {
            Phase::Idle
        } else if number == 1 {
            Phase::Busy
        } else if number == 2 {
            Phase::Completed
        } else if number == 3 {
            Phase::Streaming
        } else {
            Phase::Ended
        }
    }

    /// Whether the group is under way.
    pub fn is_under_way(self) -> bool
        ensures { result ≡ spec.is_under_way self }
    {
        match self {
            Phase::Busy | Phase::Completed | Phase::Streaming => true,
            Phase::Idle | Phase::Ended => false,
        }
    }

    /// The phase after the newest round was read.
    pub fn read(self) -> Phase
        ensures { result ≡ spec.phase_read self }
    {
        match self {
            Phase::Ended => Phase::Idle,
            _ => Phase::Busy,
        }
    }
}

/// A bit of a register.
pub fn bit(place: u8) -> u32
    ensures { result ≡ spec.bit place }
{
    if place < 32 { 1 << place } else { 0 }
}

/// Whether a bit of a register is set.
pub fn has(bits: u32, place: u8) -> bool
    ensures { result ≡ has_bit bits place }
{
    if place < 32 {
        (bits >> place) % 2 == 1
    } else {
        false
    }
}

/// A truth value, as a word has it.
pub fn flag(on: bool) -> u32
    ensures { result ≡ bit_of on }
{
    if on { 1 } else { 0 }
}

/// The number of a word.
pub fn word_number(table: &AdcTable, word: Word) -> u32
    ensures { result ≡ spec.word_number table.now word }
{
    match word {
        Word::State => STATE,
        Word::Running(unit) => STATE + 8 + 8 * u32::from(unit),
        Word::Claim(unit) => STATE + 9 + 8 * u32::from(unit),
        Word::Phase(group) => start_of(table, group),
        Word::Chosen(group) => start_of(table, group) + 1,
        Word::Notified(group) => start_of(table, group) + 2,
        Word::Turn(group) => start_of(table, group) + 3,
        Word::Count(group) => start_of(table, group) + 4,
        Word::Place(group) => start_of(table, group) + 5,
        Word::Kept(group) => start_of(table, group) + 6,
    }
}

/// The order of a unit's requests.
pub fn order_of(unit: u8) -> PriorityQueue
    ensures { result ≡ spec.order_of unit }
{
    PriorityQueue {
        at: STATE + 10 + 8 * u32::from(unit),
    }
}

/// Where the rounds of a group stand.
pub fn rounds_of(table: &AdcTable, group: u8) -> Rounds
    ensures { result ≡ spec.rounds_of table.now group }
{
    match table.at(group) {
        Some(found) => Rounds {
            start: found.start,
            inputs: found.inputs.len() as u8,
        },
        None => Rounds {
            start: 0,
            inputs: 0,
        },
    }
}

/// The first word of a group.
fn start_of(table: &AdcTable, group: u8) -> u32
    ensures is { result ≡ spec.group_word table.now group 0 }
    ensures few { result < 2 ^ 31 }
{
    STATE + u32::from(rounds_of(table, group).start)
}

/// A group as an entry of an order.
pub fn entry(group: u8) -> u32
    ensures is { result ≡ spec.entry group }
    ensures few { result < 16 }
{
    u32::from(group % 16)
}

/// The group whose number, plus 1, a word has.
pub fn group_in(value: u32) -> Option<u8>
    ensures { result ≡ spec.group_in value }
{
    if 0 < value && value <= 16 {
        Some((value - 1) as u8)
    } else {
        None
    }
}
