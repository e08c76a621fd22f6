ghost use Rattle.std.specs.Prelude.{◌≡◌, ◌≤◌, ◌<◌, ◌+◌, ◌*◌, All, length};
ghost use Rattle.std.specs.Option.{option_map};
ghost use Rattle.adc_machine.specs.Table as spec;
ghost use Rattle.adc_machine.specs.Table.{AreSmall};

use crate::table::{AdcTable, Group};
use mcal_base::{
    AdcAccessMode, AdcConfig, AdcConversionMode, AdcGroup, AdcGroupReplacement, AdcHwUnit,
    AdcPriorityImplementation, AdcStreamBufferMode, AdcTriggerSource, Config, Short,
};

impl AdcTable {
    /// What is kept of a configuration. It takes no memory.
    pub fn new(config: &Config) -> AdcTable
        requires { AreSmall config.now.adc }
        ensures { result ≡ spec.table_of config.now.adc }
    {
        let units = config.adc.units.as_slice();
        AdcTable {
            detect: config.adc.dev_error_detect,
            classification: config.adc.classification,
            priorities: config.adc.priority_implementation == AdcPriorityImplementation::HwSw,
            queuing: config.adc.enable_queuing,
            units: [level_in(units, 0), level_in(units, 1)],
            groups: groups_of(&config.adc),
        }
    }
}

/// The groups by number.
fn groups_of(config: &AdcConfig) -> [Option<Group>; 16]
    requires { AreSmall config.now }
    ensures { result ≡ spec.groups_of config.now.groups }
{
    let groups = config.groups.as_slice();
    [
        group_in(groups, 0),
        group_in(groups, 1),
        group_in(groups, 2),
        group_in(groups, 3),
        group_in(groups, 4),
        group_in(groups, 5),
        group_in(groups, 6),
        group_in(groups, 7),
        group_in(groups, 8),
        group_in(groups, 9),
        group_in(groups, 10),
        group_in(groups, 11),
        group_in(groups, 12),
        group_in(groups, 13),
        group_in(groups, 14),
        group_in(groups, 15),
    ]
}

/// The level of the first unit with this number.
fn level_in(units: &[AdcHwUnit], number: u32) -> Option<u8>
    requires { All (λ u. u.level < 256) units.now }
    ensures { result ≡ spec.level_in units.now number }
{
    for unit in units {
        if unit.id == number {
            return Some(unit.level as u8);
        }
    }
    None
}

/// The first group with this number.
fn found_in(groups: &[AdcGroup], number: u32) -> Option<&AdcGroup>
    ensures { option_map (λ x. x.now) result ≡ spec.found_in groups.now number }
{
    for group in groups {
        if group.id == number {
            return Some(group);
        }
    }
    None
}

/// How many words the group with this number has of its own.
fn words_for(groups: &[AdcGroup], number: u32) -> u16
    ensures is { result ≡ spec.words_for (spec.found_in groups.now number) }
    ensures few { result ≤ 224 }
{
    match found_in(groups, number) {
        Some(group) => 32 + 6 * group.definition.len() as u16,
        None => 0,
    }
}

/// Where the words of a group start.
fn start_in(groups: &[AdcGroup], number: u32) -> u16
    requires { number ≤ 16 }
    ensures is { result ≡ spec.start_in groups.now number }
    ensures few { result ≤ 64 + 224 * number }
{
    if number == 0 {
        64
    } else {
        start_in(groups, number - 1) + words_for(groups, number - 1)
    }
}

/// What is kept of the group with this number.
fn group_in(groups: &[AdcGroup], number: u32) -> Option<Group>
    requires few { number ≤ 16 }
    requires small { All spec.IsSmall groups.now }
    ensures { result ≡ spec.group_in groups.now number }
{
    match found_in(groups, number) {
        Some(group) => Some(taken(start_in(groups, number), group)),
        None => None,
    }
}

fn taken(start: u16, group: &AdcGroup) -> Group
    requires { spec.IsSmall group.now }
    ensures { result ≡ spec.taken start group.now }
{
    Group {
        unit: group.unit as u8,
        inputs: narrowed(group.definition.as_slice()),
        continuous: group.conversion_mode == AdcConversionMode::Continuous,
        priority: group.priority as u8,
        suspends: group.replacement == AdcGroupReplacement::SuspendResume,
        linear: is_linear_stream(group),
        samples: group.streaming_num_samples as u8,
        notification: group.notification,
        trigger: configured_input(group),
        level: group.level as u8,
        start,
    }
}

fn is_linear_stream(group: &AdcGroup) -> bool
    ensures { result ≡ spec.has_linear_stream group.now }
{
    group.access_mode == AdcAccessMode::Streaming
        && group.streaming_buffer_mode == AdcStreamBufferMode::Linear
}

/// The trigger input, of a group that is triggered by hardware.
fn configured_input(group: &AdcGroup) -> Option<u8>
    requires { spec.IsSmall group.now }
    ensures { result ≡ spec.configured_input group.now }
{
    match group.trigger_source {
        AdcTriggerSource::Software => None,
        AdcTriggerSource::Hardware => match group.trigger_input {
            Some(input) => Some(input as u8),
            None => None,
        },
    }
}

/// The same numbers, which are small.
fn narrowed(numbers: &[u32]) -> Short<u8, 32>
    requires few { length numbers.now ≤ 32 }
    requires small { All (λ i. i < 256) numbers.now }
    ensures { result ≡ numbers.now }
{
    let mut copy = Short::new();
    for number in numbers {
        copy.push(*number as u8);
    }
    copy
}
