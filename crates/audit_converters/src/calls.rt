ghost use Rattle.std.specs.Prelude.{◌≡◌, ◌<◌, ◌≤◌, ◌+◌, ◌^◌, ◌&&◌, not};
ghost use Rattle.adc_machine.specs.Checks as checks;
ghost use Rattle.adc_machine.specs.Groups.{is_idle, untouched};
ghost use Rattle.adc_machine.specs.Machine as spec;
ghost use Rattle.std.specs.List.{list_any};
ghost use Rattle.adc_machine.specs.Table.{group_of, all_groups};
ghost use Rattle.adc_machine.specs.Turns as turns;
ghost use Rattle.adc_machine.specs.Turns.{AdcState, group_at, with_group};
ghost use Rattle.audit_base.specs.Comes.{Gives};
ghost use Rattle.audit_converters.specs.Stands.{Stands, circumstances_as, is_taken};

use crate::checks::{Circumstances, facts, no_pointer, refused, sets_up, values_answer};
use crate::group::{Group, Status};
use crate::groups::Groups;
use crate::options::{ends_with_stream, is_on, place_in, samples_of};
use crate::truths::{both, either};
use crate::values::NO_VALUES;
use adc_machine::{AdcTable, Call, GroupCall, ResultBuffer};
use audit_base::{Told, named, numbers};
use mcal_base::det_errors::first_error;
use mcal_base::{AnswerName, ErrorName};

/// Whether a unit takes one group at a time.
fn takes_one(table: &AdcTable) -> bool
    ensures { result ≡ spec.takes_one table.now }
{
    !table.priorities && !table.queuing
}

impl Groups {
    /// Whether a group is under way.
    fn is_under_way(&self, group: u32) -> bool
        ensures { (s : AdcState) → Stands self.now s → result ≡ spec.is_under_way s group }
    {
        let found = self.at(group);
        let turn = self.has_turn(group);
        found.status.is_under_way(turn, found.trigger)
    }

    /// Whether any group is under way.
    fn is_any_under_way(&self) -> bool
        ensures { (s : AdcState) → Stands self.now s → result ≡ list_any (spec.is_under_way s) all_groups }
    {
        for group in 0..16 {
            if self.is_under_way(group) {
                return true;
            }
        }
        false
    }

    /// Whether a group of a unit is under way.
    fn is_taken(&self, table: &AdcTable, unit: u32) -> bool
        ensures { (s : AdcState) → Stands self.now s → result ≡ is_taken table.now s unit }
    {
        for group in 0..16 {
            if self.takes(table, unit, group) {
                return true;
            }
        }
        false
    }

    /// Whether a group is configured on a unit and under way.
    fn takes(&self, table: &AdcTable, unit: u32, group: u32) -> bool
        ensures { (s : AdcState) → Stands self.now s → result ≡ turns.is_on unit (group_of table.now group) && spec.is_under_way s group }
    {
        let on = is_on(table, unit, group);
        let under_way = self.is_under_way(group);
        both(on, under_way)
    }

    /// Whether a group of the same unit is under way.
    fn is_unit_taken(&self, table: &AdcTable, group: u32) -> bool
        ensures { (s : AdcState) → Stands self.now s → result ≡ spec.is_unit_taken table.now s (group_of table.now group) }
    {
        match table.group(group) {
            Some(found) => self.is_taken(table, found.unit as u32),
            None => false,
        }
    }

    /// Whether a group can't be started: it is under way, or its unit takes one group at a time and one is under way.
    fn is_start_busy(&self, table: &AdcTable, group: u32) -> bool
        ensures { (s : AdcState) → Stands self.now s → result ≡ spec.is_start_busy table.now s group }
    {
        let under_way = self.is_under_way(group);
        let taken = self.is_unit_taken(table, group);
        let full = both(takes_one(table), taken);
        either(under_way, full)
    }

    /// Whether a group isn't idle.
    fn is_working(&self, group: u32) -> bool
        ensures { (s : AdcState) → Stands self.now s → result ≡ not (is_idle (group_at s group).status) }
    {
        !self.at(group).status.is_idle()
    }

    /// Whether a group is too busy for a call about it.
    fn is_group_busy(&self, table: &AdcTable, group: u32, call: GroupCall) -> bool
        ensures { (s : AdcState) → Stands self.now s → result ≡ spec.is_group_busy table.now s group call }
    {
        if sets_up(call) {
            self.is_working(group)
        } else {
            self.is_start_busy(table, group)
        }
    }

    /// What a call about a group finds.
    fn group_circumstances(&self, table: &AdcTable, group: u32, call: GroupCall) -> Circumstances
        ensures { (s : AdcState) → Stands self.now s → circumstances_as result ≡ spec.circumstances table.now s (Call.Group group call) }
    {
        let initialised = self.is_initialised();
        let busy = self.is_group_busy(table, group, call);
        let found = self.at(group);
        Circumstances {
            uninitialised: !initialised,
            unbuffered: found.is_unbuffered(),
            idle: found.status.is_idle(),
            busy,
        }
    }

    /// What a call about the whole module finds.
    fn whole_circumstances(&self) -> Circumstances
        ensures { (s : AdcState) → Stands self.now s → circumstances_as result ≡ spec.circumstances_of untouched (not s.initialised) (list_any (spec.is_under_way s) all_groups) }
    {
        let initialised = self.is_initialised();
        Circumstances {
            uninitialised: !initialised,
            unbuffered: true,
            idle: true,
            busy: self.is_any_under_way(),
        }
    }

    /// What a call finds.
    fn circumstances(&self, table: &AdcTable, call: Call) -> Circumstances
        ensures { (s : AdcState) → Stands self.now s → circumstances_as result ≡ spec.circumstances table.now s call }
    {
        match call {
            Call::Group(group, call) => self.group_circumstances(table, group, call),
            Call::Init => self.whole_circumstances(),
            Call::DeInit => self.whole_circumstances(),
        }
    }

    /// The first error of a call that holds.
    fn error(&self, table: &AdcTable, call: Call) -> Option<ErrorName>
        ensures { (s : AdcState) → Stands self.now s → result ≡ checks.error_by table.now call (spec.circumstances table.now s call) }
    {
        let facts = facts(table, call, self.circumstances(table, call));
        first_error(call.service(), &facts)
    }

    /// A group begins a stream.
    fn begin_stream(&mut self, group: u32, trigger: bool)
        ensures is { (s : AdcState) → Stands self.old s → Stands self.new (spec.begun_stream s group trigger) }
        ensures events { self.new.events ≡ self.old.events }
    {
        let found = self.at(group);
        self.set(
            group,
            Group {
                status: Status::Busy,
                trigger,
                count: 0,
                newest: NO_VALUES,
                ..found
            },
        );
    }

    /// A group is idle, without a turn or a notification, and its trigger is off.
    fn stop(&mut self, table: &AdcTable, group: u32)
        ensures is { (s : AdcState) → Stands self.old s → Stands self.new (spec.stopped table.now s group) }
        ensures events { self.new.events ≡ self.old.events }
    {
        let found = self.at(group);
        self.set(
            group,
            Group {
                status: Status::Idle,
                notification: false,
                ..found
            },
        );
        self.drop_turn(group);
        self.switch_off(table, group);
    }

    /// The newest round of a group was read.
    fn read_from(&mut self, table: &AdcTable, group: u32)
        ensures is { (s : AdcState) → Stands self.old s → Stands self.new (spec.read_from table.now s group) }
        ensures events { self.new.events ≡ self.old.events }
    {
        let found = self.at(group);
        let status = found.status.read(ends_with_stream(table, group));
        self.set(group, Group { status, ..found });
    }

    /// A group's newest round is read, unless the group is busy.
    fn read(&mut self, table: &AdcTable, group: u32) -> Told
        ensures is { (s : AdcState) → Stands self.old s → Gives (Stands self.new) result (spec.reads table.now s group (group_at s group).status) }
        ensures events { self.new.events ≡ self.old.events }
    {
        let found = self.at(group);
        if found.status.is_busy() {
            Told::with_answer(named(AnswerName::ENotOk))
        } else {
            self.read_from(table, group);
            Told::with_answer(values_answer(found.newest.words()))
        }
    }

    /// A group tells how many rounds its buffer holds, and the place of the newest one, unless it is busy.
    fn point(&mut self, table: &AdcTable, group: u32) -> Told
        ensures is { (s : AdcState) → Stands self.old s → Gives (Stands self.new) result (spec.points table.now s group (group_at s group).status) }
        ensures events { self.new.events ≡ self.old.events }
    {
        let found = self.at(group);
        if found.status.is_busy() {
            Told::with_answer(no_pointer())
        } else {
            self.read_from(table, group);
            let rounds = found.count.min(samples_of(table, group));
            let place = place_in(table, group, found.count.saturating_sub(1));
            Told::with_answer(numbers(rounds, place))
        }
    }

    /// A group's result buffer is chosen.
    fn choose(&mut self, group: u32, buffer: Option<ResultBuffer>)
        ensures is { (s : AdcState) → Stands self.old s → Stands self.new (with_group s group (record (group_at s group) { chosen = buffer })) }
        ensures events { self.new.events ≡ self.old.events }
    {
        let found = self.at(group);
        self.set(
            group,
            Group {
                chosen: buffer,
                ..found
            },
        );
    }

    /// A group's notification is switched on or off.
    fn notify(&mut self, group: u32, notification: bool)
        ensures is { (s : AdcState) → Stands self.old s → Stands self.new (with_group s group (record (group_at s group) { notification = notification })) }
        ensures events { self.new.events ≡ self.old.events }
    {
        let found = self.at(group);
        self.set(
            group,
            Group {
                notification,
                ..found
            },
        );
    }

    /// What a call about a group without an error does.
    fn work_on(&mut self, table: &AdcTable, group: u32, call: GroupCall) -> Told
        requires { self.old.events + 1 < 2 ^ 32 }
        ensures is { (s : AdcState) → Stands self.old s → Gives (Stands self.new) result (spec.group_work table.now s group call) }
        ensures events { self.new.events ≤ self.old.events + 1 }
    {
        match call {
            GroupCall::SetupResultBuffer(buffer) => {
                self.choose(group, buffer);
                Told::with_answer(named(AnswerName::EOk))
            }
            GroupCall::StartGroupConversion => {
                self.begin_stream(group, false);
                self.request(group);
                Told::nothing()
            }
            GroupCall::EnableHardwareTrigger => {
                self.begin_stream(group, true);
                Told::nothing()
            }
            GroupCall::StopGroupConversion => {
                self.stop(table, group);
                Told::nothing()
            }
            GroupCall::DisableHardwareTrigger => {
                self.stop(table, group);
                Told::nothing()
            }
            GroupCall::ReadGroup => self.read(table, group),
            GroupCall::Notification(on) => {
                self.notify(group, on);
                Told::nothing()
            }
            GroupCall::GetGroupStatus => { Told::with_answer(named(self.at(group).status.name())) }
            GroupCall::GetStreamLastPointer => self.point(table, group),
        }
    }

    /// What a call without an error does.
    fn work(&mut self, table: &AdcTable, call: Call) -> Told
        requires { self.old.events + 1 < 2 ^ 32 }
        ensures is { (s : AdcState) → Stands self.old s → Gives (Stands self.new) result (spec.work table.now s call) }
        ensures events { self.new.events ≤ self.old.events + 1 }
    {
        match call {
            Call::Init => {
                self.open();
                Told::nothing()
            }
            Call::DeInit => {
                self.close();
                Told::nothing()
            }
            Call::Group(group, call) => self.work_on(table, group, call),
        }
    }

    /// A call acts.
    pub(crate) fn act(&mut self, table: &AdcTable, call: Call) -> Told
        requires { self.old.events + 1 < 2 ^ 32 }
        ensures is { (s : AdcState) → Stands self.old s → Gives (Stands self.new) result (spec.acts table.now s call) }
        ensures events { self.new.events ≤ self.old.events + 1 }
    {
        match self.error(table, call) {
            Some(error) => Told::with_error(refused(call), error),
            None => self.work(table, call),
        }
    }
}
