ghost use Rattle.std.specs.Prelude.{◌≡◌, ◌<◌, ◌≤◌, ℕ};
ghost use Rattle.adc_machine.specs.Machine.{place_value};
ghost use Rattle.adc_machine.specs.Turns.{AdcState};
ghost use Rattle.adc_machine.specs.Words as words;
ghost use Rattle.adc_machine.specs.Words.{HoldsResults, result_word};
ghost use Rattle.chip_model.specs.Chip.{word_of};
ghost use Rattle.audit_converters.specs.Stands.{StandsFor};
ghost use Rattle.audit_frames.specs.Decides.{Decides};
ghost use Rattle.audit_modules.specs.Agrees.{HasRoom, HoldsBuffer};

use adc_machine::{AdcTable, ResultBuffer};
use audit_converters::Converters;
use chip_model::Bus;
use mcal_base::USERS;

/// How many groups there may be.
const GROUPS: u32 = 16;

/// How many results a buffer of a group has room for.
const ROOM: u32 = 2_048;

/// How many results a buffer of a group has, none where it isn't configured.
fn place_count(table: &AdcTable, group: u32) -> u32
    ensures { result ≡ words.place_count table.now group }
{
    match table.group(group) {
        Some(group) => group.inputs.as_slice().len() as u32 * group.samples as u32,
        None => 0,
    }
}

/// The number of a buffer.
fn buffer_number(buffer: ResultBuffer) -> u32
    ensures is { result ≡ words.buffer_number buffer }
    ensures few { result ≤ 1 }
{
    match buffer {
        ResultBuffer::Zero => 0,
        ResultBuffer::One => 1,
    }
}

/// Whether a result in a buffer of a group is the machine's.
fn has_result(
    converters: &Converters,
    bus: &Bus,
    group: u32,
    buffer: ResultBuffer,
    place: u32,
) -> bool
    requires group { group < 16 }
    requires place { place < 2048 }
    ensures { (s : AdcState) → StandsFor converters.now s → Decides result (word_of bus.now (result_word group buffer place) ≡ place_value s group buffer place) }
{
    let word = USERS + ROOM * (2 * group + buffer_number(buffer)) + place;
    bus.word(word) == converters.result(group, buffer, place)
}

/// Whether so many results in a buffer of a group are the machine's.
fn has_buffer(
    converters: &Converters,
    bus: &Bus,
    group: u32,
    buffer: ResultBuffer,
    count: u32,
) -> bool
    requires group { group < 16 }
    requires count { count ≤ 2048 }
    ensures { (s : AdcState) → StandsFor converters.now s → Decides result (HoldsBuffer bus.now s group buffer count) }
{
    for place in 0..count {
        if !has_result(converters, bus, group, buffer, place) {
            return false;
        }
    }
    true
}

/// Whether the results of a group are the machine's, in both buffers.
pub(crate) fn results_stand(converters: &Converters, bus: &Bus, group: u32) -> bool
    requires { HasRoom converters.now.table }
    ensures { (s : AdcState) → StandsFor converters.now s → Decides result (HoldsResults (word_of bus.now) converters.now.table s group) }
{
    if group >= GROUPS {
        return true;
    }
    let count = place_count(converters.table(), group);
    if !has_buffer(converters, bus, group, ResultBuffer::Zero, count) {
        return false;
    }
    has_buffer(converters, bus, group, ResultBuffer::One, count)
}

/// Whether the results of all groups are the machine's.
pub fn results_agree(converters: &Converters, bus: &Bus) -> bool
    requires { HasRoom converters.now.table }
    ensures { (s : AdcState) → StandsFor converters.now s → Decides result ((g : ℕ) → HoldsResults (word_of bus.now) converters.now.table s g) }
{
    for group in 0..GROUPS {
        if !results_stand(converters, bus, group) {
            return false;
        }
    }
    true
}
