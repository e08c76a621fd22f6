ghost use Rattle.std.specs.Prelude.{◌≡◌, ◌<◌, ◌≤◌, ◌+◌, ◌^◌};
ghost use Rattle.adc_machine.specs.Table.{group_of};
ghost use Rattle.adc_machine.specs.Triggers as spec;
ghost use Rattle.adc_machine.specs.Turns.{AdcState};
ghost use Rattle.audit_converters.specs.Stands.{Stands};

use crate::group::Group;
use crate::groups::Groups;
use crate::options::trigger_of;
use crate::truths::both;
use adc_machine::AdcTable;

/// Whether a group's trigger input is this one.
fn has_input(table: &AdcTable, input: u32, group: u32) -> bool
    ensures { result ≡ spec.has_input input (group_of table.now group) }
{
    match trigger_of(table, group) {
        Some(number) => number as u32 == input,
        None => false,
    }
}

impl Groups {
    /// Whether an input triggers a group, and its trigger is enabled.
    fn listens(&self, table: &AdcTable, input: u32, group: u32) -> bool
        ensures { (s : AdcState) → Stands self.now s → result ≡ spec.listens table.now s input group }
    {
        let triggers = has_input(table, input, group);
        let found = self.at(group);
        both(triggers, found.trigger)
    }

    /// The group that listens to an input.
    fn listener(&self, table: &AdcTable, input: u32) -> Option<u32>
        ensures { (s : AdcState) → Stands self.now s → result ≡ spec.listener table.now s input }
    {
        for group in 0..16 {
            if self.listens(table, input, group) {
                return Some(group);
            }
        }
        None
    }

    /// A pulse comes on an input.
    pub(crate) fn pulse(&mut self, table: &AdcTable, input: u32)
        ensures is { (s : AdcState) → Stands self.old s → Stands self.new (spec.pulsed table.now s input) }
        ensures events { self.new.events ≡ self.old.events }
    {
        if self.listener(table, input).is_some() {
            self.set_mark(input, true);
        }
    }

    /// An input's mark is dropped, where there is an input.
    fn drop_mark(&mut self, input: Option<u8>)
        ensures is { (s : AdcState) → Stands self.old s → Stands self.new (spec.without_mark s input) }
        ensures events { self.new.events ≡ self.old.events }
    {
        if let Some(input) = input {
            self.set_mark(input as u32, false);
        }
    }

    /// A group's trigger is switched off, and its input's mark is dropped.
    pub(crate) fn switch_off(&mut self, table: &AdcTable, group: u32)
        ensures is { (s : AdcState) → Stands self.old s → Stands self.new (spec.with_trigger_off table.now s group) }
        ensures events { self.new.events ≡ self.old.events }
    {
        let found = self.at(group);
        self.set(
            group,
            Group {
                trigger: false,
                ..found
            },
        );
        self.drop_mark(trigger_of(table, group));
    }

    /// A group makes a request, unless it has a turn.
    fn request_unless_turn(&mut self, group: Option<u32>)
        requires { self.old.events + 1 < 2 ^ 32 }
        ensures is { (s : AdcState) → Stands self.old s → Stands self.new (spec.requested_unless_turn s group) }
        ensures events { self.new.events ≤ self.old.events + 1 }
    {
        if let Some(group) = group {
            if !self.has_turn(group) {
                self.request(group);
            }
        }
    }

    /// A trigger's line is served: the mark is dropped, and the group that listens makes a request unless it has a turn.
    pub(crate) fn serve_trigger(&mut self, table: &AdcTable, input: u32)
        requires { self.old.events + 1 < 2 ^ 32 }
        ensures is { (s : AdcState) → Stands self.old s → Stands self.new (spec.served_trigger table.now s input) }
        ensures events { self.new.events ≤ self.old.events + 1 }
    {
        let listener = self.listener(table, input);
        self.set_mark(input, false);
        self.request_unless_turn(listener);
    }
}
