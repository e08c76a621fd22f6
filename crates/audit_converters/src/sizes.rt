//! How much is configured, and the most steps of frames that follow from it.

ghost use Rattle.std.specs.Prelude.{◌≡◌, ◌≤◌, count_by, is_some, length, option_map};
ghost use Rattle.adc_machine.specs.Bounds as bounds;
ghost use Rattle.adc_machine.specs.Groups as spec;
ghost use Rattle.adc_machine.specs.Table as configured;
ghost use Rattle.run_model.specs.Frame.{Called};

use adc_machine::{AdcTable, Call, Group, GroupCall};

/// How many of at most 16 objects are configured.
fn counted<T>(objects: &[Option<T>]) -> u32
    requires { length objects.now ≤ 16 }
    ensures is { result ≡ count_by is_some objects.now }
    ensures few { result ≤ 16 }
{
    let mut count = 0;
    for object in objects {
        if object.is_some() {
            count += 1;
        }
    }
    count
}

/// The configured units and groups.
pub(crate) fn object_count(table: &AdcTable) -> u32
    ensures is { result ≡ configured.object_count table.now }
    ensures few { result ≤ 32 }
{
    counted(&table.units) + counted(&table.groups)
}

/// How many inputs a group has; one that isn't configured has none.
pub(crate) fn inputs_of(group: Option<&Group>) -> u32
    ensures is { result ≡ length (spec.inputs_of (option_map (λ k. k.now) group.entry)) }
    ensures few { result ≤ 32 }
{
    match group {
        Some(group) => group.inputs.len() as u32,
        None => 0,
    }
}

/// The same of a group in its place.
pub(crate) fn inputs_in(group: &Option<Group>) -> u32
    ensures is { result ≡ length (spec.inputs_of group.now) }
    ensures few { result ≤ 32 }
{
    match group {
        Some(group) => group.inputs.len() as u32,
        None => 0,
    }
}

/// How many inputs a group has, where it is one of the unit.
fn inputs_on(unit: u8, group: &Option<Group>) -> u32
    ensures is { result ≡ bounds.inputs_on unit group.now }
    ensures few { result ≤ 32 }
{
    match group {
        Some(group) => {
            if group.unit == unit {
                group.inputs.len() as u32
            } else {
                0
            }
        }
        None => 0,
    }
}

/// How many inputs the largest of these groups has that are of a unit.
fn largest(groups: &[Option<Group>], unit: u8) -> u32
    ensures is { result ≡ bounds.most_inputs_in groups.now unit }
    ensures few { result ≤ 32 }
{
    let mut most = 0;
    for group in groups {
        let inputs = inputs_on(unit, group);
        if most < inputs {
            most = inputs;
        }
    }
    most
}

/// The most steps of a frame that makes a request of a group: it may copy what an aborted round of the same unit has.
fn request_steps(table: &AdcTable, group: Option<&Group>) -> u32
    ensures { result ≡ bounds.request_steps table.now (option_map (λ k. k.now) group.entry) }
{
    match group {
        Some(group) => 128 + 4 * largest(&table.groups, group.unit),
        None => 128,
    }
}

/// Of a call about a group.
fn group_steps(table: &AdcTable, call: GroupCall, group: Option<&Group>) -> u32
    ensures { result ≡ bounds.group_steps table.now call (option_map (λ k. k.now) group.entry) }
{
    match call {
        GroupCall::StartGroupConversion => request_steps(table, group),
        GroupCall::StopGroupConversion
        | GroupCall::EnableHardwareTrigger
        | GroupCall::DisableHardwareTrigger => 96,
        GroupCall::ReadGroup => 48 + 4 * inputs_of(group),
        GroupCall::SetupResultBuffer(_)
        | GroupCall::Notification(_)
        | GroupCall::GetGroupStatus
        | GroupCall::GetStreamLastPointer => 64,
    }
}

/// The most steps of a call's frame.
pub(crate) fn call_steps(table: &AdcTable, call: Call) -> u32
    ensures { result ≡ bounds.steps_of table.now (Called call) }
{
    match call {
        Call::Init | Call::DeInit => 64 + 48 * object_count(table),
        Call::Group(number, call) => group_steps(table, call, table.group(number)),
    }
}

/// The most steps of the frame of a line's handler.
pub(crate) fn line_steps(table: &AdcTable, line: u32) -> u32
    ensures { result ≡ bounds.line_steps table.now line }
{
    match line {
        24 => 128 + 8 * largest(&table.groups, 0),
        25 => 128 + 8 * largest(&table.groups, 1),
        28..=31 => request_steps(table, table.group_of_input(line - 28)),
        _ => 64,
    }
}
