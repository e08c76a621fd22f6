ghost use Rattle.std.specs.Prelude.{◌≡◌, ◌+◌, ◌<◌, ◌≤◌, length};
ghost use Rattle.std.specs.Option.{option_map};
ghost use Rattle.adc_machine.specs.Configured as spec;
ghost use Rattle.adc_machine.specs.Groups.{inputs_of, samples_of, trigger_input, is_continuous, suspends, is_full};
ghost use Rattle.adc_machine.specs.Machine.{takes_one};
ghost use Rattle.adc_machine.specs.Table.{group_of};
ghost use Rattle.adc_machine.specs.Turns.{is_on, rank_of};

use crate::table::{AdcTable, Group};

impl AdcTable {
    /// The group of a number, where it is configured.
    pub fn at(&self, group: u8) -> Option<&Group>
        ensures { option_map (λ k. k.now) result ≡ group_of self.now group }
    {
        self.group(u32::from(group))
    }

    /// The unit of a group.
    pub fn unit_of(&self, group: u8) -> u8
        ensures { result ≡ spec.unit_of (group_of self.now group) }
    {
        match self.at(group) {
            Some(found) => found.unit,
            None => 0,
        }
    }

    /// Whether a group is one of a unit.
    pub fn is_on(&self, unit: u8, group: u8) -> bool
        ensures { result ≡ is_on unit (group_of self.now group) }
    {
        match self.at(group) {
            Some(found) => found.unit == unit,
            None => false,
        }
    }

    /// How many inputs a group has.
    pub fn input_count(&self, group: u8) -> u8
        ensures is { result ≡ length (inputs_of (group_of self.now group)) }
        ensures few { result ≤ 32 }
    {
        match self.at(group) {
            Some(found) => found.inputs.len() as u8,
            None => 0,
        }
    }

    /// How many rounds the buffers of a group hold.
    pub fn samples_of(&self, group: u8) -> u8
        ensures { result ≡ samples_of (group_of self.now group) }
    {
        match self.at(group) {
            Some(found) => found.samples,
            None => 1,
        }
    }

    /// The trigger input of a group that is triggered by hardware.
    pub fn trigger_of(&self, group: u8) -> Option<u8>
        ensures { result ≡ trigger_input (group_of self.now group) }
    {
        match self.at(group) {
            Some(found) => found.trigger,
            None => None,
        }
    }

    /// Whether a group waits again after each round.
    pub fn is_continuous(&self, group: u8) -> bool
        ensures { result ≡ is_continuous (group_of self.now group) }
    {
        match self.at(group) {
            Some(found) => found.continuous,
            None => false,
        }
    }

    /// Whether a group's aborted round is suspended, and so resumed later.
    pub fn suspends(&self, group: u8) -> bool
        ensures { result ≡ suspends (group_of self.now group) }
    {
        match self.at(group) {
            Some(found) => found.suspends,
            None => false,
        }
    }

    /// Whether a linear stream of the group is full after so many rounds.
    pub fn is_full(&self, group: u8, count: u32) -> bool
        ensures { result ≡ is_full (group_of self.now group) count }
    {
        match self.at(group) {
            Some(found) => found.linear && u32::from(found.samples) <= count,
            None => false,
        }
    }

    /// The rank of a group among those of its unit.
    pub fn rank(&self, group: u8) -> u32
        ensures { result ≡ rank_of self.now group }
    {
        match self.at(group) {
            Some(found) if self.priorities => u32::from(found.priority),
            _ => 0,
        }
    }

    /// The ranks of all groups.
    pub fn ranks(&self) -> [u32; 16]
        ensures { result ≡ spec.ranks_of self.now }
    {
        [
            self.rank(0),
            self.rank(1),
            self.rank(2),
            self.rank(3),
            self.rank(4),
            self.rank(5),
            self.rank(6),
            self.rank(7),
            self.rank(8),
            self.rank(9),
            self.rank(10),
            self.rank(11),
            self.rank(12),
            self.rank(13),
            self.rank(14),
            self.rank(15),
        ]
    }

    /// Whether a unit takes one group at a time.
    pub fn takes_one(&self) -> bool
        ensures { result ≡ takes_one self.now }
    {
        !self.priorities && !self.queuing
    }

    /// Four inputs of a group from this one on, as the register of a list has them: the lowest byte first.
    pub fn listed(&self, group: u8, at: u8) -> u32
        ensures { result ≡ spec.four_from (inputs_of (group_of self.now group)) at }
    {
        match self.at(group) {
            Some(found) => {
                input(found, at, 0)
                    + 256 * input(found, at, 1)
                    + 65_536 * input(found, at, 2)
                    + 16_777_216 * input(found, at, 3)
            }
            None => 0,
        }
    }
}

/// The input of a group that comes so many after this place, 0 after the last one.
fn input(group: &Group, at: u8, further: u8) -> u32
    requires { further < 4 }
    ensures is { result ≡ spec.input_at group.now.inputs (at + further) }
    ensures small { result < 256 }
{
    match group
        .inputs
        .as_slice()
        .get(usize::from(at) + usize::from(further))
    {
        Some(number) => u32::from(*number),
        None => 0,
    }
}

impl AdcTable {
    /// The next configured group from this number on, of a unit where one is given.
    pub fn next_of(&self, unit: Option<u8>, from: u8) -> Option<u8>
        ensures { result ≡ spec.next_of self.now unit from }
    {
        if from > 15 {
            return None;
        }
        let is_one = match unit {
            Some(unit) => self.is_on(unit, from),
            None => self.at(from).is_some(),
        };
        if is_one {
            Some(from)
        } else {
            self.next_of(unit, from + 1)
        }
    }
}
