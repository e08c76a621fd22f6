ghost use Rattle.std.specs.Prelude.{◌≡◌, ◌<◌, ◌≤◌, ◌+◌, ◌^◌, ◌∷◌, [], option_map};
ghost use Rattle.adc_machine.specs.Groups.{GroupState};
ghost use Rattle.adc_machine.specs.Groups as machine;
ghost use Rattle.adc_machine.specs.Machine as spec;
ghost use Rattle.adc_machine.specs.Triggers.{mark_at, with_mark};
ghost use Rattle.adc_machine.specs.Turns.{AdcState, first_state, group_at, round_at, with_group, with_round, with_waiting, unless_of};
ghost use Rattle.audit_converters.specs.Stands.{Stands, group_as, kept_of, request_as, round_as};

use crate::group::{BLANK, Group, Request, Round, unless_of};
use std::marker::Model;

/// The groups, the rounds of the units and the marks of the trigger inputs. They are written by their numbers here alone.
#[derive(Drop)]
pub struct Groups {
    events: u32,
    initialised: bool,
    groups: [Group; 16],
    units: [Option<Round>; 2],
    marks: [bool; 4],
    requests: u32,
}

impl Model for Groups {
    ghost use Rattle.std.specs.Prelude.{◌≡◌, ◌≤◌, length};
    ghost use Rattle.std.specs.List.{AllByRecursion};
    ghost use Rattle.audit_converters.specs.Stands.{Kept, IsWithin};

    ghost Value = { Kept };

    ghost view = { λ t. record { events = t.events; initialised = t.initialised; groups = t.groups; units = t.units; marks = t.marks; requests = t.requests } };

    ghost invariant = { λ t. (length t.groups ≡ 16) × (length t.units ≡ 2) × (length t.marks ≡ 4) × (t.requests ≤ t.events) × AllByRecursion (IsWithin t.events) t.groups };
}

impl Groups {
    /// After power on.
    pub(crate) fn new() -> Groups
        ensures is { Stands result first_state }
        ensures events { result.events ≡ 0 }
    {
        Groups {
            events: 0,
            initialised: false,
            groups: [BLANK; 16],
            units: [None; 2],
            marks: [false; 4],
            requests: 0,
        }
    }

    /// How many requests were made and rounds served.
    pub(crate) fn events(&self) -> u32
        ensures { result ≡ self.now.events }
    {
        self.events
    }

    /// Whether the module is initialised.
    pub(crate) fn is_initialised(&self) -> bool
        ensures { (s : AdcState) → Stands self.now s → result ≡ s.initialised }
    {
        self.initialised
    }

    /// A group.
    pub(crate) fn at(&self, number: u32) -> Group
        ensures is { (s : AdcState) → Stands self.now s → group_as result ≡ kept_of (group_at s number) }
        ensures within { result.count ≤ self.now.events }
    {
        if number < 16 {
            self.groups[number as usize]
        } else {
            BLANK
        }
    }

    /// A group becomes so.
    pub(crate) fn set(&mut self, number: u32, group: Group)
        requires { group.count ≤ self.old.events }
        ensures is { (s : AdcState) (x : GroupState) → Stands self.old s → group_as group ≡ kept_of x → Stands self.new (with_group s number x) }
        ensures events { self.new.events ≡ self.old.events }
    {
        if number < 16 {
            self.groups[number as usize] = group;
        }
    }

    /// The round of a unit.
    pub(crate) fn round(&self, unit: u32) -> Option<Round>
        ensures { (s : AdcState) → Stands self.now s → option_map round_as result ≡ round_at s unit }
    {
        if unit < 2 {
            self.units[unit as usize]
        } else {
            None
        }
    }

    /// A unit gets a round, or becomes free.
    pub(crate) fn set_round(&mut self, unit: u32, round: Option<Round>)
        ensures is { (s : AdcState) → Stands self.old s → Stands self.new (with_round s unit (option_map round_as round)) }
        ensures events { self.new.events ≡ self.old.events }
    {
        if unit < 2 {
            self.units[unit as usize] = round;
        }
    }

    /// The units lose the rounds of a group.
    pub(crate) fn drop_rounds(&mut self, group: u32)
        ensures is { (s : AdcState) → Stands self.old s → Stands self.new (record s { units = unless_of group (round_at s 0) ∷ unless_of group (round_at s 1) ∷ [] }) }
        ensures events { self.new.events ≡ self.old.events }
    {
        let first = unless_of(group, self.round(0));
        let second = unless_of(group, self.round(1));
        self.units = [first, second];
    }

    /// The mark of a trigger input.
    pub(crate) fn mark(&self, input: u32) -> bool
        ensures { (s : AdcState) → Stands self.now s → result ≡ mark_at s input }
    {
        if input < 4 {
            self.marks[input as usize]
        } else {
            false
        }
    }

    /// The mark of a trigger input is set or not.
    pub(crate) fn set_mark(&mut self, input: u32, mark: bool)
        ensures is { (s : AdcState) → Stands self.old s → Stands self.new (with_mark s input mark) }
        ensures events { self.new.events ≡ self.old.events }
    {
        if input < 4 {
            self.marks[input as usize] = mark;
        }
    }

    /// A request gets its number, greater by one than all before.
    pub(crate) fn next_number(&mut self) -> u32
        requires { self.old.events + 1 < 2 ^ 32 }
        ensures number { (s : AdcState) → Stands self.old s → result ≡ s.requests + 1 }
        ensures is { (s : AdcState) → Stands self.old s → Stands self.new (record s { requests = s.requests + 1 }) }
        ensures events { self.new.events ≡ self.old.events + 1 }
    {
        self.events += 1;
        self.requests += 1;
        self.requests
    }

    /// One more round was served.
    pub(crate) fn count(&mut self)
        requires { self.old.events + 1 < 2 ^ 32 }
        ensures is { (s : AdcState) → Stands self.old s → Stands self.new s }
        ensures events { self.new.events ≡ self.old.events + 1 }
    {
        self.events += 1;
    }

    /// The module becomes initialised, with every group untouched.
    pub(crate) fn open(&mut self)
        ensures is { (s : AdcState) → Stands self.old s → Stands self.new (spec.fresh s) }
        ensures events { self.new.events ≡ self.old.events }
    {
        self.initialised = true;
        self.groups = [BLANK; 16];
        self.units = [None; 2];
        self.marks = [false; 4];
    }

    /// A group that has nothing but the buffer that it has chosen.
    fn closed(&self, number: u32) -> Group
        ensures is { (s : AdcState) → Stands self.now s → group_as result ≡ kept_of (record machine.untouched { chosen = (group_at s number).chosen }) }
        ensures within { result.count ≤ self.now.events }
    {
        let found = self.at(number);
        Group {
            chosen: found.chosen,
            ..BLANK
        }
    }

    /// The module becomes uninitialised, and the groups keep their choices of buffers alone.
    pub(crate) fn close(&mut self)
        ensures is { (s : AdcState) → Stands self.old s → Stands self.new (spec.closed s) }
        ensures events { self.new.events ≡ self.old.events }
    {
        self.groups = [
            self.closed(0),
            self.closed(1),
            self.closed(2),
            self.closed(3),
            self.closed(4),
            self.closed(5),
            self.closed(6),
            self.closed(7),
            self.closed(8),
            self.closed(9),
            self.closed(10),
            self.closed(11),
            self.closed(12),
            self.closed(13),
            self.closed(14),
            self.closed(15),
        ];
        self.initialised = false;
        self.units = [None; 2];
        self.marks = [false; 4];
    }

    /// The chip is reset.
    pub(crate) fn reset(&mut self)
        ensures is { Stands self.new first_state }
        ensures events { self.new.events ≡ self.old.events }
    {
        self.initialised = false;
        self.groups = [BLANK; 16];
        self.units = [None; 2];
        self.marks = [false; 4];
        self.requests = 0;
    }

    /// A group waits with a request, or with none.
    pub(crate) fn set_waiting(&mut self, number: u32, waiting: Option<Request>)
        ensures is { (s : AdcState) → Stands self.old s → Stands self.new (with_waiting s number (option_map request_as waiting)) }
        ensures events { self.new.events ≡ self.old.events }
    {
        let group = self.at(number);
        self.set(number, Group { waiting, ..group });
    }
}
