ghost use Rattle.std.specs.Prelude.{◌≡◌, ◌<◌, ◌+◌, ◌-◌, ◌^◌, ◌&&◌, cond};
ghost use Rattle.adc_machine.specs.Groups as machine;
ghost use Rattle.adc_machine.specs.Machine as spec;
ghost use Rattle.adc_machine.specs.Table.{group_of};
ghost use Rattle.adc_machine.specs.Triggers.{mark_at};
ghost use Rattle.adc_machine.specs.Turns.{AdcState, group_at, round_at, with_group};
ghost use Rattle.run_model.specs.World.{World};
ghost use Rattle.audit_converters.specs.Listed.{listed};
ghost use Rattle.audit_converters.specs.Stands.{Stands, round_as};

use crate::group::{Group, Request, Round};
use crate::groups::Groups;
use crate::options::{is_continuous, is_full, place_in, samples_of};
use crate::rounds::is_finished;
use crate::truths::both;
use crate::values::{NO_VALUES, Values};
use adc_machine::AdcTable;

/// Whether a line is a unit's.
pub(crate) fn is_unit_line(line: u32) -> bool
    ensures { result ≡ spec.is_unit_line line }
{
    line == 24 || line == 25
}

/// Whether a line is a trigger input's.
pub(crate) fn is_trigger_line(line: u32) -> bool
    ensures { result ≡ spec.is_trigger_line line }
{
    line >= 28 && line < 32
}

impl Groups {
    /// Whether the round of a unit is finished.
    fn is_done(&self, table: &AdcTable, unit: u32, now: u64) -> bool
        ensures { (w : World) (s : AdcState) → w.now ≡ now → Stands self.now s → result ≡ spec.is_done table.now w (round_at s unit) }
    {
        match self.round(unit) {
            Some(round) => is_finished(table, round, now),
            None => false,
        }
    }

    /// Whether a unit's line has its finished round, or a trigger's line its mark.
    fn waits(&self, table: &AdcTable, line: u32, now: u64) -> bool
        ensures { (w : World) (s : AdcState) → w.now ≡ now → Stands self.now s →
            result ≡ cond (spec.is_unit_line line) (spec.is_done table.now w (round_at s (line - 24))) (spec.is_trigger_line line && mark_at s (line - 28)) }
    {
        if is_unit_line(line) {
            self.is_done(table, line.saturating_sub(24), now)
        } else {
            let marked = self.mark(line.saturating_sub(28));
            both(is_trigger_line(line), marked)
        }
    }

    /// Whether a line may be served: the module is initialised, and the line waits.
    pub(crate) fn ready(&self, table: &AdcTable, line: u32, now: u64) -> bool
        ensures { (w : World) (s : AdcState) → w.now ≡ now → Stands self.now s → result ≡ spec.ready table.now w s line }
    {
        let initialised = self.is_initialised();
        let waits = self.waits(table, line, now);
        both(initialised, waits)
    }

    /// A group has one more round.
    fn end_round(&mut self, table: &AdcTable, group: u32, values: Values)
        requires { self.old.events + 1 < 2 ^ 32 }
        ensures is { (s : AdcState) → Stands self.old s → Stands self.new (with_group s group (spec.with_values (group_of table.now group) (group_at s group) (listed values))) }
        ensures events { self.new.events ≡ self.old.events + 1 }
    {
        let found = self.at(group);
        let place = place_in(table, group, found.count);
        let samples = samples_of(table, group);
        let last = place as u64 + 1 == samples as u64;
        self.count();
        self.set(
            group,
            Group {
                status: found.status.after_round(last),
                count: found.count + 1,
                newest: values,
                ..found
            },
        );
    }

    /// What comes of a group's turn after a round: a full linear stream has its trigger off, a continuous group waits again
    /// with its number, and any other group has none.
    fn after_round(&mut self, table: &AdcTable, group: u32, number: u32, full: bool)
        ensures is { (s : AdcState) → Stands self.old s → Stands self.new (spec.after_round table.now s group number full (machine.is_continuous (group_of table.now group))) }
        ensures events { self.new.events ≡ self.old.events }
    {
        if full {
            self.switch_off(table, group);
        } else if is_continuous(table, group) {
            self.set_waiting(
                group,
                Some(Request {
                    number,
                    kept: NO_VALUES,
                }),
            );
        }
    }

    /// A unit is free, and the group of its round has the round's values.
    pub(crate) fn serve_round(&mut self, table: &AdcTable, unit: u32, round: Round, values: Values)
        requires { self.old.events + 1 < 2 ^ 32 }
        ensures is { (s : AdcState) → Stands self.old s → Stands self.new (spec.served_values table.now s unit (round_as round) (listed values)) }
        ensures events { self.new.events ≡ self.old.events + 1 }
    {
        let found = self.at(round.group);
        self.set_round(unit, None);
        self.end_round(table, round.group, values);
        let full = is_full(table, round.group, found.count + 1);
        self.after_round(table, round.group, round.request.number, full);
    }
}
