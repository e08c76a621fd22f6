ghost use Rattle.std.specs.Prelude.{◌≡◌, ◌≤◌, length};
ghost use Rattle.std.specs.Option.{option_map};
ghost use Rattle.adc_machine.specs.Bounds as bounds;
ghost use Rattle.adc_machine.specs.Table as spec;
ghost use Rattle.adc_machine.specs.Triggers as triggers;

use mcal_base::{ModuleName, Short};

/// A configured group.
#[derive(Drop)]
pub struct Group {
    /// `Unit`: the number of its unit.
    pub unit: u8,
    /// `AdcGroupDefinition`: the numbers of its inputs, in their order.
    pub inputs: Short<u8, 32>,
    /// `AdcGroupConversionMode` is continuous.
    pub continuous: bool,
    /// `AdcGroupPriority`
    pub priority: u8,
    /// `AdcGroupReplacement` is suspend and resume.
    pub suspends: bool,
    /// It has streaming access and a linear buffer.
    pub linear: bool,
    /// `AdcStreamingNumSamples`
    pub samples: u8,
    /// Whether `AdcNotification` is given.
    pub notification: bool,
    /// `TriggerInput` of a group that is triggered by hardware.
    pub trigger: Option<u8>,
    /// `Level` of its trigger line.
    pub level: u8,
    /// The first of its driver words, counted from the module's first one.
    pub start: u16,
}

/// What the converter driver keeps of a configuration.
#[derive(Drop)]
pub struct AdcTable {
    /// `AdcDevErrorDetect`
    pub detect: bool,
    /// `Classification` of state errors.
    pub classification: u32,
    /// `AdcPriorityImplementation`: whether priorities count.
    pub priorities: bool,
    /// `AdcEnableQueuing`
    pub queuing: bool,
    /// `Level` of the lines of the units by number, where they are configured.
    pub units: [Option<u8>; 2],
    /// The groups by number, where they are configured.
    pub groups: [Option<Group>; 16],
}

impl AdcTable {
    /// The same table.
    pub fn copied(&self) -> AdcTable
        ensures { result ≡ self.now }
    {
        let [a, b, c, d, e, f, g, h, i, j, k, l, m, n, o, p] = &self.groups;
        AdcTable {
            detect: self.detect,
            classification: self.classification,
            priorities: self.priorities,
            queuing: self.queuing,
            units: self.units,
            groups: [
                same(a),
                same(b),
                same(c),
                same(d),
                same(e),
                same(f),
                same(g),
                same(h),
                same(i),
                same(j),
                same(k),
                same(l),
                same(m),
                same(n),
                same(o),
                same(p),
            ],
        }
    }

    /// The group of a number, where it is configured.
    pub fn group(&self, number: u32) -> Option<&Group>
        ensures { option_map (λ k. k.now) result ≡ spec.group_of self.now number }
    {
        if number < 16 {
            self.groups[number as usize].as_ref()
        } else {
            None
        }
    }

    /// The level of a line, 1 where nothing uses it.
    pub fn level(&self, line: u32) -> u32
        ensures { result ≡ bounds.level_of self.now line }
    {
        match line {
            24 => level_or(self.units[0]),
            25 => level_or(self.units[1]),
            28..=31 => self.trigger_level(line - 28),
            _ => 1,
        }
    }

    /// The module of the handler of a line.
    pub fn owner(&self, _line: u32) -> ModuleName
        ensures { result ≡ bounds.owner_of _line }
    {
        ModuleName::Adc
    }

    /// Whether a configured object uses a line.
    pub fn uses(&self, line: u32) -> bool
        ensures { result ≡ bounds.is_used self.now line }
    {
        match line {
            24 => self.units[0].is_some(),
            25 => self.units[1].is_some(),
            28..=31 => self.group_of_input(line - 28).is_some(),
            _ => false,
        }
    }

    /// The group that a trigger input triggers.
    pub fn group_of_input(&self, input: u32) -> Option<&Group>
        ensures { option_map (λ k. k.now) result ≡ bounds.group_of_input self.now input }
    {
        first_on_input(&self.groups, input)
    }

    fn trigger_level(&self, input: u32) -> u32
        ensures { result ≡ bounds.group_level (bounds.group_of_input self.now input) }
    {
        match self.group_of_input(input) {
            Some(group) => u32::from(group.level),
            None => 1,
        }
    }
}

/// The level that is configured, or 1.
fn level_or(level: Option<u8>) -> u32
    ensures { result ≡ bounds.level_or level }
{
    match level {
        Some(level) => u32::from(level),
        None => 1,
    }
}

/// The first of these groups that this input triggers.
fn first_on_input(groups: &[Option<Group>], input: u32) -> Option<&Group>
    ensures { option_map (λ k. k.now) result ≡ bounds.first_on_input groups.now input }
{
    for group in groups {
        if has_input(group, input) {
            return group.as_ref();
        }
    }
    None
}

/// The trigger input of a group is this one.
fn has_input(group: &Option<Group>, input: u32) -> bool
    ensures { result ≡ triggers.has_input input group.now }
{
    match group {
        Some(group) => match group.trigger {
            Some(number) => u32::from(number) == input,
            None => false,
        },
        None => false,
    }
}

/// The same group, where there is one.
fn same(group: &Option<Group>) -> Option<Group>
    ensures { result ≡ group.now }
{
    match group {
        Some(group) => Some(Group {
            unit: group.unit,
            inputs: copied(group.inputs.as_slice()),
            continuous: group.continuous,
            priority: group.priority,
            suspends: group.suspends,
            linear: group.linear,
            samples: group.samples,
            notification: group.notification,
            trigger: group.trigger,
            level: group.level,
            start: group.start,
        }),
        None => None,
    }
}

/// The same numbers.
fn copied(numbers: &[u8]) -> Short<u8, 32>
    requires { length numbers.now ≤ 32 }
    ensures { result ≡ numbers.now }
{
    let mut copy = Short::new();
    for number in numbers {
        copy.push(*number);
    }
    copy
}
