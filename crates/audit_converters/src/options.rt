ghost use Rattle.std.specs.Prelude.{◌≡◌};
ghost use Rattle.adc_machine.specs.Groups as spec;
ghost use Rattle.adc_machine.specs.Table.{group_of};
ghost use Rattle.adc_machine.specs.Turns as turns;

use adc_machine::AdcTable;

/// Whether a group is configured on a unit.
pub(crate) fn is_on(table: &AdcTable, unit: u32, group: u32) -> bool
    ensures { result ≡ turns.is_on unit (group_of table.now group) }
{
    match table.group(group) {
        Some(found) => found.unit as u32 == unit,
        None => false,
    }
}

/// The priority of a group, where priorities count; otherwise all are equal.
pub(crate) fn rank(table: &AdcTable, group: u32) -> u32
    ensures { result ≡ turns.rank_of table.now group }
{
    if !table.priorities {
        return 0;
    }
    match table.group(group) {
        Some(found) => found.priority as u32,
        None => 0,
    }
}

/// How many rounds the buffers of a group have places for.
pub(crate) fn samples_of(table: &AdcTable, group: u32) -> u32
    ensures { result ≡ spec.samples_of (group_of table.now group) }
{
    match table.group(group) {
        Some(found) => found.samples as u32,
        None => 1,
    }
}

/// The place of a stream that a round, from 0, goes to.
pub(crate) fn place_in(table: &AdcTable, group: u32, round: u32) -> u32
    ensures { result ≡ spec.place_in (group_of table.now group) round }
{
    let samples = samples_of(table, group);
    if samples == 0 { round } else { round % samples }
}

/// Whether a linear stream is full after so many rounds.
pub(crate) fn is_full(table: &AdcTable, group: u32, rounds: u32) -> bool
    ensures { result ≡ spec.is_full (group_of table.now group) rounds }
{
    match table.group(group) {
        Some(found) => found.linear && found.samples as u32 <= rounds,
        None => false,
    }
}

/// Whether a group waits again after each round.
pub(crate) fn is_continuous(table: &AdcTable, group: u32) -> bool
    ensures { result ≡ spec.is_continuous (group_of table.now group) }
{
    match table.group(group) {
        Some(found) => found.continuous,
        None => false,
    }
}

/// Whether a group is suspended, and so resumed later, where its round is aborted.
pub(crate) fn suspends(table: &AdcTable, group: u32) -> bool
    ensures { result ≡ spec.suspends (group_of table.now group) }
{
    match table.group(group) {
        Some(found) => found.suspends,
        None => false,
    }
}

/// Whether a group ends with its stream.
pub(crate) fn ends_with_stream(table: &AdcTable, group: u32) -> bool
    ensures { result ≡ spec.ends_with_stream (group_of table.now group) }
{
    match table.group(group) {
        Some(found) => found.linear || !found.continuous && found.trigger.is_none(),
        None => false,
    }
}

/// The trigger input of a group that is triggered by hardware.
pub(crate) fn trigger_of(table: &AdcTable, group: u32) -> Option<u8>
    ensures { result ≡ spec.trigger_input (group_of table.now group) }
{
    match table.group(group) {
        Some(found) => found.trigger,
        None => None,
    }
}
