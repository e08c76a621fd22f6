ghost use Rattle.std.specs.Prelude.{◌≡◌, ◌<◌, ◌+◌, ◌^◌, ◌&&◌, cond, nat_lt, not, option_map, Some, None};
ghost use Rattle.adc_machine.specs.Groups.{is_finished};
ghost use Rattle.adc_machine.specs.Table.{group_of};
ghost use Rattle.adc_machine.specs.Machine.{aborts_on, startable_on, starts_on};
ghost use Rattle.audit_base.specs.Comes.{ComesIf};
ghost use Rattle.adc_machine.specs.Turns as spec;
ghost use Rattle.adc_machine.specs.Turns.{AdcState};
ghost use Rattle.run_model.specs.World.{World};
ghost use Rattle.audit_base.specs.Inputs.{Took};
ghost use Rattle.audit_converters.specs.Stands.{Stands, round_as};

use crate::group::{Request, Round, begun, is_round_of, number_in, precedes};
use crate::groups::Groups;
use crate::options::{is_on, rank};
use crate::rounds::{is_finished, kept_values};
use crate::truths::{both, either};
use crate::values::NO_VALUES;
use adc_machine::AdcTable;
use audit_base::{Samples, Told};

impl Groups {
    /// A group makes a request.
    pub(crate) fn request(&mut self, group: u32)
        requires { self.old.events + 1 < 2 ^ 32 }
        ensures is { (s : AdcState) → Stands self.old s → Stands self.new (spec.requested s group) }
        ensures events { self.new.events ≡ self.old.events + 1 }
    {
        let number = self.next_number();
        self.set_waiting(
            group,
            Some(Request {
                number,
                kept: NO_VALUES,
            }),
        );
    }

    /// Whether a group has a turn: it waits, or a unit has a round of it.
    pub(crate) fn has_turn(&self, group: u32) -> bool
        ensures { (s : AdcState) → Stands self.now s → result ≡ spec.has_turn s group }
    {
        let waits = self.at(group).waits();
        let first = is_round_of(group, self.round(0));
        let second = is_round_of(group, self.round(1));
        let earlier = either(waits, first);
        either(earlier, second)
    }

    /// A group loses its turn.
    pub(crate) fn drop_turn(&mut self, group: u32)
        ensures is { (s : AdcState) → Stands self.old s → Stands self.new (spec.without_turn s group) }
        ensures events { self.new.events ≡ self.old.events }
    {
        self.set_waiting(group, None);
        self.drop_rounds(group);
    }

    /// Whether a group waits for a unit.
    fn waits_for(&self, table: &AdcTable, unit: u32, group: u32) -> bool
        ensures { (s : AdcState) → Stands self.now s → result ≡ spec.waits_for table.now s unit group }
    {
        let on = is_on(table, unit, group);
        let waits = self.at(group).waits();
        both(on, waits)
    }

    /// Whether a waiting group comes before another one.
    fn comes_before(&self, table: &AdcTable, group: u32, other: u32) -> bool
        ensures { (s : AdcState) → Stands self.now s → result ≡ spec.comes_before table.now s group other }
    {
        let number = number_in(self.at(group).waiting);
        let other_number = number_in(self.at(other).waiting);
        precedes(rank(table, group), rank(table, other), number, other_number)
    }

    /// Of two groups the one that comes before the other.
    fn first_of(&self, table: &AdcTable, group: u32, other: Option<u32>) -> u32
        ensures { (s : AdcState) → Stands self.now s → result ≡ spec.first_of table.now s group other }
    {
        match other {
            Some(other) => {
                if self.comes_before(table, other, group) {
                    other
                } else {
                    group
                }
            }
            None => group,
        }
    }

    /// Of a group and the first one of those behind it the one that waits for a unit and comes first.
    fn next_of(&self, table: &AdcTable, unit: u32, group: u32, behind: Option<u32>) -> Option<u32>
        ensures { (s : AdcState) → Stands self.now s →
            result ≡ cond (spec.waits_for table.now s unit group) (Some (spec.first_of table.now s group behind)) behind }
    {
        if self.waits_for(table, unit, group) {
            Some(self.first_of(table, group, behind))
        } else {
            behind
        }
    }

    /// The group whose request comes next on a unit.
    fn next_group(&self, table: &AdcTable, unit: u32) -> Option<u32>
        ensures { (s : AdcState) → Stands self.now s → result ≡ spec.next_group table.now s unit }
    {
        let mut next = None;
        for place in 0..16 {
            next = self.next_of(table, unit, 15 - place, next);
        }
        next
    }

    /// The group that a unit may start: the one whose request comes next, where the unit is free.
    pub(crate) fn starts(&self, table: &AdcTable, unit: u32) -> Option<u32>
        ensures { (s : AdcState) → Stands self.now s → result ≡ spec.starts table.now s unit }
    {
        match self.round(unit) {
            Some(_) => None,
            None => self.next_group(table, unit),
        }
    }

    /// A unit starts a group's round, with what its request has kept.
    pub(crate) fn start_round(&mut self, unit: u32, group: u32, now: u64)
        ensures is { (w : World) (s : AdcState) → w.now ≡ now → Stands self.old s → Stands self.new (spec.started w s unit group) }
        ensures events { self.new.events ≡ self.old.events }
    {
        let found = self.at(group);
        self.set_waiting(group, None);
        self.set_round(unit, begun(group, found.waiting, now));
    }

    /// Whether another group waits for a unit, with a strictly higher priority than a group's.
    fn outranks(&self, table: &AdcTable, unit: u32, group: u32, other: u32) -> bool
        ensures { (s : AdcState) → Stands self.now s → result ≡ spec.waits_for table.now s unit other && nat_lt (spec.rank_of table.now group) (spec.rank_of table.now other) }
    {
        let waits = self.waits_for(table, unit, other);
        let own = rank(table, group);
        let its = rank(table, other);
        both(waits, own < its)
    }

    /// Whether a request of strictly higher priority than a group's waits for a unit.
    fn is_outranked(&self, table: &AdcTable, unit: u32, group: u32) -> bool
        ensures { (s : AdcState) → Stands self.now s → result ≡ spec.is_outranked table.now s unit group }
    {
        for other in 0..16 {
            if self.outranks(table, unit, group, other) {
                return true;
            }
        }
        false
    }

    /// Whether a round of a unit isn't finished, and a waiting request outranks it.
    fn is_abortable(&self, table: &AdcTable, unit: u32, round: Round, now: u64) -> bool
        ensures { (w : World) (s : AdcState) → w.now ≡ now → Stands self.now s →
            result ≡ not (is_finished w (group_of table.now round.group) (round_as round)) && spec.is_outranked table.now s unit round.group }
    {
        let finished = is_finished(table, round, now);
        let outranked = self.is_outranked(table, unit, round.group);
        both(!finished, outranked)
    }

    /// The round that a unit may abort: one that isn't finished, and that a waiting request outranks.
    pub(crate) fn aborts(&self, table: &AdcTable, unit: u32, now: u64) -> Option<Round>
        ensures { (w : World) (s : AdcState) → w.now ≡ now → Stands self.now s → option_map round_as result ≡ spec.aborts table.now w s unit }
    {
        match self.round(unit) {
            Some(round) => {
                if self.is_abortable(table, unit, round, now) {
                    Some(round)
                } else {
                    None
                }
            }
            None => None,
        }
    }

    /// A unit is free, and the group of its aborted round waits again.
    pub(crate) fn abort_round(
        &mut self,
        table: &AdcTable,
        samples: &Samples,
        unit: u32,
        round: Round,
        now: u64,
    )
        ensures is { (w : World) (s : AdcState) → w.now ≡ now → Took samples.now w.samples → Stands self.old s → Stands self.new (spec.aborted table.now w s unit (round_as round)) }
        ensures events { self.new.events ≡ self.old.events }
    {
        let request = Request {
            number: round.request.number,
            kept: kept_values(table, samples, round, now),
        };
        self.set_waiting(round.group, Some(request));
        self.set_round(unit, None);
    }

    /// Whether a unit may start or abort.
    pub(crate) fn is_startable(&self, table: &AdcTable, unit: u32, now: u64) -> bool
        ensures { (w : World) (s : AdcState) → w.now ≡ now → Stands self.now s → result ≡ startable_on table.now w s (Some unit) }
    {
        let starts = self.starts(table, unit).is_some();
        let aborts = self.aborts(table, unit, now).is_some();
        either(starts, aborts)
    }

    /// A unit starts its next round, where it may.
    pub(crate) fn start(&mut self, table: &AdcTable, unit: u32, now: u64) -> Option<Told>
        ensures is { (w : World) (s : AdcState) → w.now ≡ now → Stands self.old s → ComesIf (Stands self.new) result (starts_on table.now w s (Some unit)) }
        ensures unchanged { result ≡ None → self.new ≡ self.old }
        ensures events { self.new.events ≡ self.old.events }
    {
        match self.starts(table, unit) {
            Some(group) => {
                self.start_round(unit, group, now);
                Some(Told::nothing())
            }
            None => None,
        }
    }

    /// The round of a unit is aborted, where it may be.
    pub(crate) fn abort(
        &mut self,
        table: &AdcTable,
        samples: &Samples,
        unit: u32,
        now: u64,
    ) -> Option<Told>
        ensures is { (w : World) (s : AdcState) → w.now ≡ now → Took samples.now w.samples → Stands self.old s → ComesIf (Stands self.new) result (aborts_on table.now w s (Some unit)) }
        ensures unchanged { result ≡ None → self.new ≡ self.old }
        ensures events { self.new.events ≡ self.old.events }
    {
        match self.aborts(table, unit, now) {
            Some(round) => {
                self.abort_round(table, samples, unit, round, now);
                Some(Told::nothing())
            }
            None => None,
        }
    }
}
