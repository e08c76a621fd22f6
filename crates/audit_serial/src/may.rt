//! What frames of the serial module may name, and which of them may wait.

ghost use Rattle.std.specs.Prelude.{◌≡◌, ◌≤◌, ◌&&◌, ◌||◌, count_by, is_some, length, not, slice_index_or, sum_by, None};
ghost use Rattle.std.specs.List.{enumerate_from, list_any};
ghost use Rattle.mcal_base.specs.Layout as layout;
ghost use Rattle.mcal_base.specs.declared.moves.Move.TheVariants as moves;
ghost use Rattle.mcal_base.specs.declared.register.Reg.TheVariants as registers;
ghost use Rattle.run_model.specs.Frame.{Called, is_wait};
ghost use Rattle.spi_machine.specs.Bounds as spec;
ghost use Rattle.spi_machine.specs.Table as rows;

use crate::options::unit_of;
use mcal_base::{DESTINATIONS, Move, Reg, SOURCES};
use spi_machine::{Call, SequenceCall, SpiTable};
use word_shapes::jobs::Channel;

/// The first of the module's own words.
const OWN: u32 = 49_152;

/// The words that a user's array has room for.
const ROOM: u32 = 64;

/// Whether a register is one of the serial units.
fn is_serial(register: Reg) -> bool
    ensures { result ≡ spec.is_serial register }
{
    matches!(
        register,
        Reg::SerialSelect(_)
            | Reg::SerialWidth(_)
            | Reg::SerialData(_)
            | Reg::SerialReceived(_)
            | Reg::SerialState(_)
            | Reg::SerialAck(_)
            | Reg::SerialWait(_)
    )
}

/// Whether a read of a register waits.
fn waits(register: Reg) -> bool
    ensures { result ≡ is_wait (moves.Read register) }
{
    matches!(register, Reg::SerialWait(_))
}

/// Whether each frame may read a register.
fn may_read(register: Reg) -> bool
    ensures { result ≡ (spec.is_serial register && not (is_wait (moves.Read register))) }
{
    is_serial(register) && !waits(register)
}

/// Whether a value has bits of lines 26 and 27, and of no other.
fn is_for_lines(value: u32) -> bool
    ensures { result ≡ spec.is_for_lines value }
{
    value != 0 && value % 0x0400_0000 == 0 && value < 0x1000_0000
}

/// Whether a value may be written to a register.
fn may_write(register: Reg, value: u32) -> bool
    ensures { result ≡ spec.may_write register value }
{
    match register {
        Reg::EnableSet | Reg::EnableClear => is_for_lines(value),
        _ => is_serial(register),
    }
}

/// How many of at most 16 objects are configured.
fn counted<T>(objects: &[Option<T>]) -> u32
    requires { length objects.now ≤ 16 }
    ensures is { result ≡ count_by is_some objects.now }
    ensures few { result ≤ 16 }
{
    let mut count = 0;
    for object in objects {
        if object.is_some() {
            count += 1;
        }
    }
    count
}

/// The configured channels, jobs and sequences.
fn objects(table: &SpiTable) -> u32
    ensures is { result ≡ spec.objects table.now }
    ensures few { result ≤ 48 }
{
    counted(&table.channels) + counted(&table.jobs) + counted(&table.sequences)
}

/// The words of a channel; one that isn't configured has none.
fn length_by(channel: Option<Channel>) -> u32
    ensures is { result ≡ rows.length_by channel }
    ensures few { result ≤ 255 }
{
    match channel {
        Some(channel) => channel.length as u32,
        None => 0,
    }
}

/// The words of an internal channel, and none of another one.
fn internal_by(channel: Option<Channel>) -> u32
    ensures is { result ≡ spec.internal_by channel }
    ensures few { result ≤ 255 }
{
    match channel {
        Some(channel) if channel.internal => channel.length as u32,
        _ => 0,
    }
}

/// The words of all internal channels.
fn internal_words(channels: &[Option<Channel>; 16]) -> u32
    ensures is { result ≡ sum_by spec.internal_by channels.now }
    ensures few { result ≤ 4080 }
{
    let mut words = 0;
    for channel in channels {
        words += internal_by(*channel);
    }
    words
}

/// How many driver words are the module's own.
fn own_words(table: &SpiTable) -> u32
    ensures is { result ≡ spec.own_words table.now }
    ensures few { result ≤ 26080 }
{
    64 + 32 * objects(table) + 6 * internal_words(&table.channels)
}

/// Whether a driver word is one of so many from the first one on.
fn is_within(first: u32, count: u32, word: u32) -> bool
    ensures { result ≡ layout.is_within first count word }
{
    word >= first && word - first < count
}

/// Whether a driver word is a place of a user's array of the channel of this number.
fn is_users_place(channels: &[Option<Channel>; 16], number: u32, word: u32) -> bool
    requires { number ≤ 15 }
    ensures { result ≡ spec.is_users_place word (number, slice_index_or channels.now number None) }
{
    let length = length_by(channels[number as usize]);
    is_within(SOURCES + ROOM * number, length, word)
        || is_within(DESTINATIONS + ROOM * number, length, word)
}

/// Whether a driver word is a place of a user's array.
fn is_users_word(channels: &[Option<Channel>; 16], word: u32) -> bool
    ensures { result ≡ list_any (spec.is_users_place word) (enumerate_from 0 channels.now) }
{
    for number in 0..16 {
        if is_users_place(channels, number, word) {
            return true;
        }
    }
    false
}

/// Whether frames of the module may load and store a driver word.
fn is_word(table: &SpiTable, word: u32) -> bool
    ensures { result ≡ spec.is_word_of table.now word }
{
    is_within(OWN, own_words(table), word) || is_users_word(&table.channels, word)
}

/// Whether a move names what is the module's, and doesn't wait.
fn may_name(table: &SpiTable, made: &Move) -> bool
    ensures { result ≡ spec.may_name table.now made.now }
{
    match *made {
        Move::Read(register) => may_read(register),
        Move::Write(register, value) => may_write(register, value),
        Move::Load(word) | Move::Store(word, _) => is_word(table, word),
        _ => false,
    }
}

/// Whether each frame of the module may make a move: it names what is the module's and is there.
pub(crate) fn may(table: &SpiTable, made: &Move) -> bool
    ensures { result ≡ spec.may table.now made.now }
{
    may_name(table, made) && made.is_there()
}

/// Whether a call's frame may wait for a unit: the call sends a sequence of that unit.
fn may_wait_for(table: &SpiTable, unit: u32, call: &Call) -> bool
    ensures { result ≡ spec.may_wait table.now (moves.Read (registers.SerialWait unit)) (Called call.now) }
{
    match *call {
        Call::Sequence(sequence, SequenceCall::SyncTransmit) => {
            unit_of(table, sequence) == unit && unit < 2
        }
        _ => false,
    }
}

/// Whether a move waits, and a call's frame may make it.
pub(crate) fn may_wait(table: &SpiTable, made: &Move, call: &Call) -> bool
    ensures { result ≡ spec.may_wait table.now made.now (Called call.now) }
{
    match *made {
        Move::Read(Reg::SerialWait(unit)) => may_wait_for(table, unit, call),
        _ => false,
    }
}
