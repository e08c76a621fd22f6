//! The most steps of frames, and what handlers begin with.

ghost use Rattle.std.specs.Prelude.{◌≡◌, ◌≤◌, count_by, is_some, length};
ghost use Rattle.std.specs.Option.{option_map};
ghost use Rattle.adc_machine.specs.Bounds as bounds;
ghost use Rattle.adc_machine.specs.Groups.{inputs_of};
ghost use Rattle.adc_machine.specs.Table.{object_count};
ghost use Rattle.adc_machine.specs.Triggers.{is_input};
ghost use Rattle.run_model.specs.Frame.{Called};
ghost use Rattle.adc_driver.specs.Handlers as spec;

use crate::driver::AdcDriver;
use adc_groups::Window;
use adc_machine::{Call, Group, GroupCall};

impl AdcDriver {
    /// The window with which the handler of a line begins.
    pub(crate) fn window(&self, line: u32) -> Window
        ensures { result ≡ spec.handled_window self.now.table line }
    {
        match line {
            24 => Window::Take(0),
            25 => Window::Take(1),
            28..=31 => Window::Trigger((line - 28) as u8, self.group_on(line - 28, 0)),
            _ => Window::Close,
        }
    }

    /// The first group from this one on that a trigger input triggers, 16 where there is none.
    fn group_on(&self, input: u32, from: u8) -> u8
        ensures { result ≡ spec.group_on self.now.table input from }
    {
        if from > 15 {
            return 16;
        }
        if is_number(self.table.trigger_of(from), input) {
            from
        } else {
            self.group_on(input, from + 1)
        }
    }

    /// The most steps of a call's frame.
    pub(crate) fn most_steps(&self, call: Call) -> u32
        ensures is { result ≡ bounds.steps_of self.now.table (Called call) }
        ensures few { result ≤ 1600 }
    {
        match call {
            Call::Init | Call::DeInit => 64 + 48 * self.objects(),
            Call::Group(number, call) => self.group_steps(call, self.table.group(number)),
        }
    }

    /// The most steps of a handler's frame.
    pub(crate) fn handler_steps(&self, line: u32) -> u32
        ensures is { result ≡ bounds.line_steps self.now.table line }
        ensures few { result ≤ 384 }
    {
        match line {
            24 => 128 + 8 * self.most_inputs(0),
            25 => 128 + 8 * self.most_inputs(1),
            28..=31 => self.request_steps(self.table.group_of_input(line - 28)),
            _ => 64,
        }
    }

    /// Of a call about a group.
    fn group_steps(&self, call: GroupCall, group: Option<&Group>) -> u32
        ensures is { result ≡ bounds.group_steps self.now.table call (option_map (λ k. k.now) group.entry) }
        ensures few { result ≤ 256 }
    {
        match call {
            GroupCall::StartGroupConversion => self.request_steps(group),
            GroupCall::StopGroupConversion
            | GroupCall::EnableHardwareTrigger
            | GroupCall::DisableHardwareTrigger => 96,
            GroupCall::ReadGroup => 48 + 4 * inputs_in(group),
            GroupCall::SetupResultBuffer(_)
            | GroupCall::Notification(_)
            | GroupCall::GetGroupStatus
            | GroupCall::GetStreamLastPointer => 64,
        }
    }

    /// Of a frame that makes a request of a group.
    fn request_steps(&self, group: Option<&Group>) -> u32
        ensures is { result ≡ bounds.request_steps self.now.table (option_map (λ k. k.now) group.entry) }
        ensures few { result ≤ 256 }
    {
        match group {
            Some(group) => 128 + 4 * self.most_inputs(group.unit),
            None => 128,
        }
    }

    /// How many inputs the largest group of a unit has.
    fn most_inputs(&self, unit: u8) -> u32
        ensures is { result ≡ bounds.most_inputs self.now.table unit }
        ensures few { result ≤ 32 }
    {
        largest(&self.table.groups, unit)
    }

    /// The configured units and groups.
    fn objects(&self) -> u32
        ensures is { result ≡ object_count self.now.table }
        ensures few { result ≤ 32 }
    {
        counted(&self.table.units) + counted(&self.table.groups)
    }
}

/// How many of at most 16 objects are configured.
fn counted<T>(objects: &[Option<T>]) -> u32
    requires { length objects.now ≤ 16 }
    ensures is { result ≡ count_by is_some objects.now }
    ensures few { result ≤ 16 }
{
    let mut count = 0;
    for object in objects {
        if object.is_some() {
            count += 1;
        }
    }
    count
}

/// How many inputs the largest of these groups has that are of a unit.
fn largest(groups: &[Option<Group>], unit: u8) -> u32
    ensures is { result ≡ bounds.most_inputs_in groups.now unit }
    ensures few { result ≤ 32 }
{
    let mut most = 0;
    for group in groups {
        let inputs = inputs_on(unit, group);
        if most < inputs {
            most = inputs;
        }
    }
    most
}

/// How many inputs a group has, where it is one of the unit.
fn inputs_on(unit: u8, group: &Option<Group>) -> u32
    ensures is { result ≡ bounds.inputs_on unit group.now }
    ensures few { result ≤ 32 }
{
    match group {
        Some(group) => {
            if group.unit == unit {
                group.inputs.len() as u32
            } else {
                0
            }
        }
        None => 0,
    }
}

/// How many inputs a group has.
fn inputs_in(group: Option<&Group>) -> u32
    ensures is { result ≡ length (inputs_of (option_map (λ k. k.now) group.entry)) }
    ensures few { result ≤ 32 }
{
    match group {
        Some(group) => group.inputs.len() as u32,
        None => 0,
    }
}

/// Whether a trigger input is this one.
fn is_number(trigger: Option<u8>, input: u32) -> bool
    ensures { result ≡ is_input input trigger }
{
    match trigger {
        Some(number) => u32::from(number) == input,
        None => false,
    }
}
