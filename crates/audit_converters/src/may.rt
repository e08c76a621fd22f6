//! What frames of the converter module may name.

ghost use Rattle.std.specs.Prelude.{◌≡◌, ◌≤◌, ◌||◌, length, not, sum_by, Option};
ghost use Rattle.mcal_base.specs.Bits.{has_bit};
ghost use Rattle.mcal_base.specs.Layout.{start_of};
ghost use Rattle.mcal_base.specs.declared.layout.Array.TheVariants.{Round};
ghost use Rattle.adc_machine.specs.Groups as machine;
ghost use Rattle.adc_machine.specs.Machine as lines;
ghost use Rattle.adc_machine.specs.Words as spec;
ghost use Rattle.adc_machine.specs.declared.call.ResultBuffer.TheVariants.{One, Zero};
ghost use Rattle.adc_machine.specs.declared.table.Group.{Group};

use crate::servings::{is_trigger_line, is_unit_line};
use crate::sizes::{inputs_in, object_count};
use adc_machine::{AdcTable, Group, ResultBuffer};
use audit_frames::has_bit;
use mcal_base::{Move, Reg, USERS};

/// The first of the module's own words.
const OWN: u32 = 40_960;

/// The places that a buffer has room for.
const ROOM: u32 = 2_048;

/// Whether a register is one of the converters.
fn is_converter(register: Reg) -> bool
    ensures { result ≡ spec.is_converter register }
{
    matches!(
        register,
        Reg::ConverterList(..)
            | Reg::ConverterGo(_)
            | Reg::ConverterState(_)
            | Reg::ConverterResult(..)
            | Reg::ConverterDone(_)
            | Reg::ConverterAbort(_)
            | Reg::ConverterAck(_)
            | Reg::TriggerSet
            | Reg::TriggerClear
            | Reg::TriggerFlags
    )
}

/// Whether a value has the bit of a line that isn't the module's.
fn is_foreign(value: u32, line: u32) -> bool
    ensures { not result ≡ (not (has_bit value line) || lines.is_unit_line line || lines.is_trigger_line line) }
{
    has_bit(value as u64, line) && !is_unit_line(line) && !is_trigger_line(line)
}

/// Whether a value has bits of lines of the module, and of no other.
fn is_for_lines(value: u32) -> bool
    ensures { result ≡ spec.is_for_lines value }
{
    if value == 0 {
        return false;
    }
    for line in 0..32 {
        if is_foreign(value, line) {
            return false;
        }
    }
    true
}

/// Whether a value may be written to a register.
fn may_write(register: Reg, value: u32) -> bool
    ensures { result ≡ spec.may_write register value }
{
    match register {
        Reg::EnableSet | Reg::EnableClear => is_for_lines(value),
        _ => is_converter(register),
    }
}

/// The inputs of all groups.
fn input_count(groups: &[Option<Group>; 16]) -> u32
    ensures is { result ≡ sum_by (λ (k : Option Group). length (machine.inputs_of k)) groups.now }
    ensures few { result ≤ 512 }
{
    let mut count = 0;
    for group in groups {
        count += inputs_in(group);
    }
    count
}

/// Whether a driver word is one of the module's own.
fn is_own_word(table: &AdcTable, word: u32) -> bool
    ensures { result ≡ spec.is_own_word table.now word }
{
    let count = 64 + 32 * object_count(table) + 6 * input_count(&table.groups);
    word >= OWN && word < OWN + count
}

/// How many places a group's buffer has: one for each input of each round that it holds.
fn place_count(table: &AdcTable, group: u32) -> u32
    ensures is { result ≡ spec.place_count table.now group }
    ensures few { result ≤ 8160 }
{
    match table.group(group) {
        Some(group) => group.inputs.len() as u32 * group.samples as u32,
        None => 0,
    }
}

/// The number of a buffer.
fn number_of(buffer: ResultBuffer) -> u32
    ensures is { result ≡ spec.buffer_number buffer }
    ensures few { result ≤ 1 }
{
    match buffer {
        ResultBuffer::Zero => 0,
        ResultBuffer::One => 1,
    }
}

/// The word of the first place of a buffer.
fn start(group: u32, buffer: ResultBuffer) -> u32
    requires { group ≤ 15 }
    ensures is { result ≡ start_of (Round group (spec.buffer_number buffer)) }
    ensures few { result ≤ 139264 }
{
    USERS + ROOM * (2 * group + number_of(buffer))
}

/// Whether a driver word is one of a group's buffer.
fn is_in_buffer(table: &AdcTable, word: u32, group: u32, buffer: ResultBuffer) -> bool
    requires { group ≤ 15 }
    ensures { result ≡ spec.is_in_buffer table.now word group buffer }
{
    let first = start(group, buffer);
    word >= first && word < first + place_count(table, group)
}

/// Whether a driver word is one of a group's buffers.
fn is_in_buffers(table: &AdcTable, word: u32, group: u32) -> bool
    requires { group ≤ 15 }
    ensures { result ≡ (spec.is_in_buffer table.now word group Zero || spec.is_in_buffer table.now word group One) }
{
    is_in_buffer(table, word, group, ResultBuffer::Zero)
        || is_in_buffer(table, word, group, ResultBuffer::One)
}

/// Whether a driver word is one of the results.
fn is_result_word(table: &AdcTable, word: u32) -> bool
    ensures { result ≡ spec.is_result_word table.now word }
{
    for group in 0..16 {
        if is_in_buffers(table, word, group) {
            return true;
        }
    }
    false
}

/// Whether frames of the module may load and store a driver word.
fn is_word(table: &AdcTable, word: u32) -> bool
    ensures { result ≡ spec.is_word table.now word }
{
    is_own_word(table, word) || is_result_word(table, word)
}

/// Whether a move names what is the module's.
fn may_name(table: &AdcTable, made: &Move) -> bool
    ensures { result ≡ spec.may_name table.now made.now }
{
    match *made {
        Move::Read(register) => is_converter(register),
        Move::Write(register, value) => may_write(register, value),
        Move::Load(word) | Move::Store(word, _) => is_word(table, word),
        _ => false,
    }
}

/// Whether a frame of the module may make a move: it names what is the module's and is there.
pub(crate) fn may(table: &AdcTable, made: &Move) -> bool
    ensures { result ≡ spec.may table.now made.now }
{
    may_name(table, made) && made.is_there()
}
