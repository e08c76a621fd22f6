ghost use Rattle.std.specs.Prelude.{◌≡◌, ◌<◌, ◌≤◌, ◌+◌, ◌^◌, None, Some, IfOk, ℕ, Option, is_some, nat_le, true};
ghost use Rattle.adc_machine.specs.Bounds.{is_used};
ghost use Rattle.adc_machine.specs.Machine as spec;
ghost use Rattle.adc_machine.specs.Table.{group_of};
ghost use Rattle.adc_machine.specs.Groups.{finish_of};
ghost use Rattle.adc_machine.specs.Triggers.{served_trigger};
ghost use Rattle.adc_machine.specs.Turns as turns;
ghost use Rattle.adc_machine.specs.Turns.{AdcState, first_state};
ghost use Rattle.adc_machine.specs.declared.call.Call as call;
ghost use Rattle.mcal_base.specs.det_errors.Reports as errors;
ghost use Rattle.mcal_base.specs.declared.directive.Order.TheVariants.{Trigger};
ghost use Rattle.mcal_base.specs.declared.directive.Reason.{Reason};
ghost use Rattle.run_model.specs.Machine.{Aborts, Acts, Moves, Restarts, Serves, Starts, outcome, tells_nothing};
ghost use Rattle.run_model.specs.World.{World};
ghost use Rattle.audit_base.specs.Comes.{Comes, ComesIf, Gives};
ghost use Rattle.audit_base.specs.Tells.{gives};
ghost use Rattle.audit_base.specs.Inputs.{Took};
ghost use Rattle.audit_converters.specs.Stands.{StandsFor, round_as, served_if};

use crate::group::Round;
use crate::groups::Groups;
use crate::results::Results;
use crate::rounds::{is_finished, values_of};
use crate::servings::is_unit_line;
use crate::truths::both;
use adc_machine::{AdcTable, Call, ResultBuffer};
use audit_base::{Notices, Samples, Told};
use mcal_base::{ErrorName, Notice, NoticeKind, Unit};
use std::alloc::{AllocError, Global};
use std::marker::Model;

/// The machine of the converter groups under a configuration. Times are in peripheral ticks.
#[derive(Drop)]
pub struct Converters {
    table: AdcTable,
    groups: Groups,
    results: Results,
}

impl Model for Converters {
    ghost use Rattle.audit_converters.specs.Stands.{ConvertersKept};

    ghost Value = { ConvertersKept };

    ghost view = { λ t. record { table = t.table; groups = t.groups; results = t.results } };
}

/// The notice of a group, where it is on.
fn notes(on: bool, group: u32) -> Told
    ensures { result ≡ gives (spec.notes on group) }
{
    if on {
        Told::with_notices(Notices::One(Notice {
            kind: NoticeKind::AdcNotification,
            id: group,
        }))
    } else {
        Told::nothing()
    }
}

/// The number of a converter unit.
fn number_of(unit: Unit) -> Option<u32>
    ensures { result ≡ turns.number_of unit }
{
    match unit {
        Unit::Adc0 => Some(0),
        Unit::Adc1 => Some(1),
        Unit::Spi0 | Unit::Spi1 => None,
    }
}

impl Converters {
    /// After power on.
    pub fn new(alloc: Global, table: AdcTable) -> Result<Converters, AllocError>
        ensures is { IfOk result (λ made. StandsFor made first_state) }
        ensures table { IfOk result (λ made. made.table ≡ table) }
        ensures events { IfOk result (λ made. made.groups.events ≡ 0) }
    {
        let results = Results::new(alloc)?;
        Ok(Converters {
            table,
            groups: Groups::new(),
            results,
        })
    }

    /// What is configured.
    pub fn table(&self) -> &AdcTable
        ensures { result.now ≡ self.now.table }
    {
        &self.table
    }

    /// How many requests were made and rounds served.
    pub fn events(&self) -> u32
        ensures { result ≡ self.now.groups.events }
    {
        self.groups.events()
    }

    /// A call acts.
    pub fn act(&mut self, call: Call) -> Told
        requires { self.old.groups.events + 1 < 2 ^ 32 }
        ensures is { (w : World) (s : AdcState) (committed : ℕ → ℕ) → StandsFor self.old s →
            Comes (StandsFor self.new) result (spec.happens self.old.table w s (Acts call committed)) }
        ensures table { self.new.table ≡ self.old.table }
        ensures events { self.new.groups.events ≤ self.old.groups.events + 1 }
    {
        self.groups.act(&self.table, call)
    }

    /// Whether a configured unit or group uses a line.
    pub fn has_line(&self, line: u32) -> bool
        ensures { result ≡ is_used self.now.table line }
    {
        self.table.uses(line)
    }

    /// Whether a line may be served: a unit's for its finished round, a trigger's for its mark. It is due then too.
    pub fn ready(&self, line: u32, now: u64) -> bool
        ensures { (w : World) (s : AdcState) → w.now ≡ now → StandsFor self.now s → result ≡ spec.ready self.now.table w s line }
    {
        self.groups.ready(&self.table, line, now)
    }

    /// A line is served, where it may be.
    pub fn serve(&mut self, samples: &Samples, line: u32, now: u64) -> Option<Told>
        requires { self.old.groups.events + 1 < 2 ^ 32 }
        ensures is { (w : World) (s : AdcState) (received : ℕ) → w.now ≡ now → Took samples.now w.samples → StandsFor self.old s →
            ComesIf (StandsFor self.new) result (spec.happens self.old.table w s (Serves line received)) }
        ensures unchanged { result ≡ None → self.new ≡ self.old }
        ensures table { self.new.table ≡ self.old.table }
        ensures events { self.new.groups.events ≤ self.old.groups.events + 1 }
    {
        if self.ready(line, now) {
            self.serve_ready(samples, line, now)
        } else {
            None
        }
    }

    /// A line that is ready is served.
    fn serve_ready(&mut self, samples: &Samples, line: u32, now: u64) -> Option<Told>
        requires { self.old.groups.events + 1 < 2 ^ 32 }
        ensures is { (w : World) (s : AdcState) → w.now ≡ now → Took samples.now w.samples → StandsFor self.old s → spec.ready self.old.table w s line ≡ true →
            ComesIf (StandsFor self.new) result (Some (spec.served self.old.table w s line)) }
        ensures unchanged { result ≡ None → self.new ≡ self.old }
        ensures table { self.new.table ≡ self.old.table }
        ensures events { self.new.groups.events ≤ self.old.groups.events + 1 }
    {
        if is_unit_line(line) {
            self.serve_unit(samples, line.saturating_sub(24), now)
        } else {
            Some(self.serve_trigger(line.saturating_sub(28)))
        }
    }

    /// A trigger's line is served.
    fn serve_trigger(&mut self, input: u32) -> Told
        requires { self.old.groups.events + 1 < 2 ^ 32 }
        ensures is { (s : AdcState) → StandsFor self.old s → Gives (StandsFor self.new) result (outcome (served_trigger self.old.table s input) tells_nothing) }
        ensures table { self.new.table ≡ self.old.table }
        ensures events { self.new.groups.events ≤ self.old.groups.events + 1 }
    {
        self.groups.serve_trigger(&self.table, input);
        Told::nothing()
    }

    /// The round of a unit is served, where it is finished.
    fn serve_unit(&mut self, samples: &Samples, unit: u32, now: u64) -> Option<Told>
        requires { self.old.groups.events + 1 < 2 ^ 32 }
        ensures is { (w : World) (s : AdcState) → w.now ≡ now → Took samples.now w.samples → StandsFor self.old s →
            ComesIf (StandsFor self.new) result (served_if self.old.table w s unit) }
        ensures unchanged { result ≡ None → self.new ≡ self.old }
        ensures table { self.new.table ≡ self.old.table }
        ensures events { self.new.groups.events ≤ self.old.groups.events + 1 }
    {
        match self.groups.round(unit) {
            Some(round) => {
                if is_finished(&self.table, round, now) {
                    Some(self.serve_round(samples, unit, round, now))
                } else {
                    None
                }
            }
            None => None,
        }
    }

    /// The finished round of a unit is served.
    fn serve_round(&mut self, samples: &Samples, unit: u32, round: Round, now: u64) -> Told
        requires room { self.old.groups.events + 1 < 2 ^ 32 }
        requires finished { nat_le (finish_of (group_of self.old.table round.group) (round_as round)) now ≡ true }
        ensures is { (w : World) (s : AdcState) → Took samples.now w.samples → StandsFor self.old s →
            Gives (StandsFor self.new) result (spec.served_round self.old.table w s unit (Some (round_as round))) }
        ensures table { self.new.table ≡ self.old.table }
        ensures events { self.new.groups.events ≤ self.old.groups.events + 1 }
    {
        let values = values_of(&self.table, samples, round, now);
        let found = self.groups.at(round.group);
        self.results.keep(&self.table, round.group, found, values);
        self.groups.serve_round(&self.table, unit, round, values);
        notes(found.notification, round.group)
    }

    /// Whether a unit may start or abort.
    pub fn startable(&self, unit: Unit, now: u64) -> bool
        ensures { (w : World) (s : AdcState) → w.now ≡ now → StandsFor self.now s → result ≡ spec.startable_on self.now.table w s (turns.number_of unit) }
    {
        match number_of(unit) {
            Some(unit) => self.groups.is_startable(&self.table, unit, now),
            None => false,
        }
    }

    /// Whether a unit may start its next round.
    pub fn starts(&self, unit: Unit) -> bool
        ensures { (w : World) (s : AdcState) → StandsFor self.now s → result ≡ is_some (spec.starts_on self.now.table w s (turns.number_of unit)) }
    {
        match number_of(unit) {
            Some(unit) => self.groups.starts(&self.table, unit).is_some(),
            None => false,
        }
    }

    /// Whether a line is a unit's that may start or abort.
    pub fn line_waits(&self, line: u32, now: u64) -> bool
        ensures { (w : World) (s : AdcState) → w.now ≡ now → StandsFor self.now s → result ≡ spec.line_waits self.now.table w s line }
    {
        let units = is_unit_line(line);
        let waits = self
            .groups
            .is_startable(&self.table, line.saturating_sub(24), now);
        both(units, waits)
    }

    /// A unit starts its next round, where it may.
    pub fn start(&mut self, unit: Unit, now: u64) -> Option<Told>
        ensures is { (w : World) (s : AdcState) (by : Option call.Call) (received : ℕ) → w.now ≡ now → StandsFor self.old s →
            ComesIf (StandsFor self.new) result (spec.happens self.old.table w s (Starts unit by received)) }
        ensures unchanged { result ≡ None → self.new ≡ self.old }
        ensures table { self.new.table ≡ self.old.table }
        ensures events { self.new.groups.events ≡ self.old.groups.events }
    {
        match number_of(unit) {
            Some(unit) => self.groups.start(&self.table, unit, now),
            None => None,
        }
    }

    /// The round of a unit is aborted, where it may be.
    pub fn abort(&mut self, samples: &Samples, unit: Unit, now: u64) -> Option<Told>
        ensures is { (w : World) (s : AdcState) → w.now ≡ now → Took samples.now w.samples → StandsFor self.old s →
            ComesIf (StandsFor self.new) result (spec.happens self.old.table w s (Aborts unit)) }
        ensures unchanged { result ≡ None → self.new ≡ self.old }
        ensures table { self.new.table ≡ self.old.table }
        ensures events { self.new.groups.events ≡ self.old.groups.events }
    {
        match number_of(unit) {
            Some(unit) => self.groups.abort(&self.table, samples, unit, now),
            None => None,
        }
    }

    /// A pulse comes on a trigger input.
    pub fn pulse(&mut self, input: u32)
        ensures is { (w : World) (s : AdcState) → StandsFor self.old s →
            Comes (StandsFor self.new) tells_nothing (spec.happens self.old.table w s (Moves (Trigger input))) }
        ensures table { self.new.table ≡ self.old.table }
        ensures events { self.new.groups.events ≡ self.old.groups.events }
    {
        self.groups.pulse(&self.table, input);
    }

    /// Whether an error that a call finds is reported: as a runtime error, or as a development error.
    pub fn report(&self, error: ErrorName) -> Option<bool>
        ensures { result ≡ errors.reported (spec.reporting self.now.table) error }
    {
        mcal_base::det_errors::reported(self.table.detect, self.table.classification, error)
    }

    /// The chip is reset.
    pub fn reset(&mut self)
        ensures is { (w : World) (s : AdcState) (reason : Reason) → Comes (StandsFor self.new) tells_nothing (spec.happens self.old.table w s (Restarts reason)) }
        ensures table { self.new.table ≡ self.old.table }
        ensures events { self.new.groups.events ≡ self.old.groups.events }
    {
        self.groups.reset();
        self.results.clear();
    }

    /// The buffer of a group that is shown: the one that was set up last.
    pub fn chosen(&self, group: u32) -> Option<ResultBuffer>
        ensures { (s : AdcState) → StandsFor self.now s → result ≡ spec.chosen_buffer s group }
    {
        self.groups.at(group).chosen
    }

    /// What a place, of 2,048, of a buffer of a group, of 16, holds.
    pub fn result(&self, group: u32, buffer: ResultBuffer, place: u32) -> u32
        requires group { group < 16 }
        requires place { place < 2048 }
        ensures { (s : AdcState) → StandsFor self.now s → result ≡ spec.place_value s group buffer place }
    {
        self.results.at(group, buffer, place)
    }
}
