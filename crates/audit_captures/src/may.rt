//! What frames of the capture module may name.

ghost use Rattle.std.specs.Prelude.{◌≡◌, ◌≤◌, ◌||◌};
ghost use Rattle.module_machines.specs.icu.Bounds as spec;

use mcal_base::{Move, Reg, STAMPS};
use module_machines::icu::IcuTable;

/// The first of the module's own words.
const OWN: u32 = 32_768;

/// The places of a channel's stamps.
const ROOM: u32 = 64;

/// Whether a register is one of the capture channels.
fn is_capture(register: Reg) -> bool
    ensures { result ≡ spec.is_capture register }
{
    matches!(
        register,
        Reg::CaptureCondition(_)
            | Reg::CaptureMode(_)
            | Reg::CaptureGateSet
            | Reg::CaptureGateClear
            | Reg::CaptureCountLow(_)
            | Reg::CaptureCountHigh(_)
            | Reg::CaptureZero(_)
            | Reg::CaptureTimeLow(_)
            | Reg::CaptureTimeHigh(_)
            | Reg::CaptureInfo(_)
            | Reg::CapturePop(_)
            | Reg::CaptureFlush(_)
    )
}

/// Whether a value has bits of lines 16 to 23, and of no other.
fn is_for_lines(value: u32) -> bool
    ensures { result ≡ spec.is_for_lines value }
{
    value != 0 && value % 65_536 == 0 && value < 16_777_216
}

/// Whether a value may be written to a register.
fn may_write(register: Reg, value: u32) -> bool
    ensures { result ≡ spec.may_write register value }
{
    match register {
        Reg::EnableSet | Reg::EnableClear => is_for_lines(value),
        _ => is_capture(register),
    }
}

/// 1 where the channel is configured, and 0 where it isn't.
fn counted(table: &IcuTable, channel: u32) -> u32
    ensures is { result ≡ spec.counted table.now channel }
    ensures few { result ≤ 1 }
{
    u32::from(table.channel(channel).is_some())
}

/// How many channels are configured.
pub(crate) fn channel_count(table: &IcuTable) -> u32
    ensures is { result ≡ spec.channel_count table.now }
    ensures few { result ≤ 8 }
{
    let below = counted(table, 0) + counted(table, 1) + counted(table, 2) + counted(table, 3);
    let above = counted(table, 4) + counted(table, 5) + counted(table, 6) + counted(table, 7);
    below + above
}

/// Whether a driver word is one of the module's own.
fn is_own_word(table: &IcuTable, word: u32) -> bool
    ensures { result ≡ spec.is_own_word table.now word }
{
    word >= OWN && word < OWN + (64 + 32 * channel_count(table))
}

/// Whether a driver word is a place of a configured channel's stamps.
fn is_stamp(table: &IcuTable, word: u32) -> bool
    ensures { result ≡ spec.is_stamp table.now word }
{
    word >= STAMPS && table.channel((word - STAMPS) / ROOM).is_some()
}

/// Whether frames of the module may load and store a driver word.
fn is_word(table: &IcuTable, word: u32) -> bool
    ensures { result ≡ (spec.is_own_word table.now word || spec.is_stamp table.now word) }
{
    is_own_word(table, word) || is_stamp(table, word)
}

/// Whether a move names what is the module's.
fn may_name(table: &IcuTable, made: &Move) -> bool
    ensures { result ≡ spec.may_name table.now made.now }
{
    match *made {
        Move::Read(register) => is_capture(register),
        Move::Write(register, value) => may_write(register, value),
        Move::Load(word) | Move::Store(word, _) => is_word(table, word),
        _ => false,
    }
}

/// Whether a frame of the module may make a move: it names what is the module's and is there.
pub(crate) fn may(table: &IcuTable, made: &Move) -> bool
    ensures { result ≡ spec.icu_may table.now made.now }
{
    may_name(table, made) && made.is_there()
}
