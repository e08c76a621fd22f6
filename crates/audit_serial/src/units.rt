ghost use Rattle.std.specs.Prelude.{◌≡◌, [], None, Some, IfOk, is_some, length, option_copied, option_map, slice_index_or, slice_get, true};
ghost use Rattle.std.specs.List.{list_any};
ghost use Rattle.spi_machine.specs.Machine as machine;
ghost use Rattle.spi_machine.specs.Numbered.{with_item};
ghost use Rattle.spi_machine.specs.State as spec;
ghost use Rattle.spi_machine.specs.Transfers as transfers;
ghost use Rattle.audit_serial.specs.Carried.{shown_on};
ghost use Rattle.audit_serial.specs.Words.{pending_as, word_as};

use crate::carrying::Carrying;
use crate::numbered::{Blank, grow, put};
use crate::pending::Pending;
use crate::run::Run;
use crate::wire::Wire;
use crate::words::JobWord;
use spi_machine::SpiTable;
use std::alloc::{AllocError, Global};
use std::marker::Model;
use std::mem;

/// The units: what each runs, what each carries out for a call, and its wire.
#[derive(Drop)]
pub struct Units {
    runs: Vec<Option<Run>>,
    carried: Vec<Option<Carrying>>,
    wires: Vec<Wire>,
}

impl Model for Units {
    ghost use Rattle.audit_serial.specs.Carried.{UnitsKept};

    ghost Value = { UnitsKept };

    ghost view = { λ t. record { runs = t.runs.items; carried = t.carried.items; wires = t.wires.items } };
}

impl Blank for Option<Run> {
    ghost blank = { None };

    fn blank(_alloc: Global) -> Option<Run> {
        None
    }
}

impl Blank for Option<Carrying> {
    ghost blank = { None };

    fn blank(_alloc: Global) -> Option<Carrying> {
        None
    }
}

/// Whether one of them runs a job of a sequence.
fn any_runs(runs: &[Option<Run>], sequence: u32) -> bool
    ensures { result ≡ list_any (spec.runs_sequence sequence) runs.now }
{
    for run in runs {
        if runs_sequence(run, sequence) {
            return true;
        }
    }
    false
}

/// Whether a job of a sequence runs.
fn runs_sequence(run: &Option<Run>, sequence: u32) -> bool
    ensures { result ≡ spec.runs_sequence sequence run.now }
{
    match run {
        Some(run) => run.sequence() == sequence,
        None => false,
    }
}

/// Whether one of them is there.
fn any_carried(carried: &[Option<Carrying>]) -> bool
    ensures { result ≡ list_any is_some carried.now }
{
    for each in carried {
        if each.is_some() {
            return true;
        }
    }
    false
}

/// Whether one of them uses a channel.
fn any_uses(carried: &[Option<Carrying>], table: &SpiTable, channel: u32) -> bool
    ensures { result ≡ list_any (spec.carries_channel table.now channel) carried.now }
{
    for each in carried {
        if carries_channel(each, table, channel) {
            return true;
        }
    }
    false
}

/// Whether what is carried out uses a channel.
fn carries_channel(carried: &Option<Carrying>, table: &SpiTable, channel: u32) -> bool
    ensures { result ≡ spec.carries_channel table.now channel carried.now }
{
    match carried {
        Some(carrying) => carrying.uses(table, channel),
        None => false,
    }
}

/// A fault meets the word that a unit runs.
fn fault_run(run: &mut Option<Run>, now: u64)
    ensures { run.new ≡ machine.faulted_run now run.old }
{
    if let Some(run) = run {
        run.fault(now);
    }
}

/// A fault meets the word that a unit carries out.
fn fault_carried(carried: &mut Option<Carrying>, now: u64)
    ensures { carried.new ≡ machine.faulted_carrying now carried.old }
{
    if let Some(carrying) = carried {
        carrying.fault(now);
    }
}

/// What stands at a place is taken out.
fn take_at<T: Drop>(items: &mut Vec<Option<T>>, place: usize) -> Option<T>
    ensures was { result ≡ slice_index_or items.old.items place None }
    ensures is { is_some result ≡ true → items.new.items ≡ with_item None items.old.items place None }
    ensures none { result ≡ None → items.new.items ≡ items.old.items }
{
    if place < items.len() {
        mem::replace(&mut items[place], None)
    } else {
        None
    }
}

impl Units {
    /// After power on.
    pub(crate) fn new(alloc: Global) -> Units
        ensures { result ≡ record { runs = []; carried = []; wires = [] } }
    {
        Units {
            runs: Vec::new(alloc),
            carried: Vec::new(alloc),
            wires: Vec::new(alloc),
        }
    }

    /// All units are free.
    pub(crate) fn clear(&mut self)
        ensures { self.new ≡ record self.old { runs = []; carried = [] } }
    {
        self.runs.clear();
        self.carried.clear();
    }

    /// The chip is reset.
    pub(crate) fn reset(&mut self)
        ensures { self.new ≡ record { runs = []; carried = []; wires = [] } }
    {
        self.runs.clear();
        self.carried.clear();
        self.wires.clear();
    }

    /// What a unit runs.
    pub(crate) fn run(&self, unit: u32) -> Option<&Run>
        ensures { option_copied result ≡ slice_index_or self.now.runs unit None }
    {
        let place = unit as usize;
        if place < self.runs.len() {
            self.runs[place].as_ref()
        } else {
            None
        }
    }

    /// What a unit carries out for a call.
    pub(crate) fn carrying(&self, unit: u32) -> Option<&Carrying>
        ensures { option_copied result ≡ slice_index_or self.now.carried unit None }
    {
        let place = unit as usize;
        if place < self.carried.len() {
            self.carried[place].as_ref()
        } else {
            None
        }
    }

    /// The sequence of the job that a unit runs.
    pub(crate) fn sequence(&self, unit: u32) -> Option<u32>
        ensures { result ≡ option_map (λ r. r.sequence) (slice_index_or self.now.runs unit None) }
    {
        match self.run(unit) {
            Some(run) => Some(run.sequence()),
            None => None,
        }
    }

    /// The sequence that a unit carries out for a call.
    pub(crate) fn entry(&self, unit: u32) -> Option<Pending>
        ensures { option_map pending_as result ≡ option_map (λ x. x.entry) (slice_index_or self.now.carried unit None) }
    {
        match self.carrying(unit) {
            Some(carrying) => Some(carrying.entry()),
            None => None,
        }
    }

    /// Whether a unit runs a job.
    pub(crate) fn runs(&self, unit: u32) -> bool
        ensures { result ≡ is_some (slice_index_or self.now.runs unit None) }
    {
        self.run(unit).is_some()
    }

    /// Whether a unit carries out a sequence for a call.
    pub(crate) fn carries(&self, unit: u32) -> bool
        ensures { result ≡ is_some (slice_index_or self.now.carried unit None) }
    {
        self.carrying(unit).is_some()
    }

    /// Whether the word in transfer of the job that a unit runs is done.
    pub(crate) fn has_done(&self, unit: u32, now: u64) -> bool
        ensures { result ≡ machine.has_done now (slice_index_or self.now.runs unit None) }
    {
        match self.run(unit) {
            Some(run) => run.is_done(now),
            None => false,
        }
    }

    /// What a unit runs is taken from it.
    pub(crate) fn take_run(&mut self, unit: u32) -> Option<Run>
        ensures was { result ≡ slice_index_or self.old.runs unit None }
        ensures is { is_some result ≡ true → self.new ≡ record self.old { runs = with_item None self.old.runs unit None } }
        ensures none { result ≡ None → self.new ≡ self.old }
    {
        take_at(&mut self.runs, unit as usize)
    }

    /// What a unit carries out is taken from it.
    pub(crate) fn take_carried(&mut self, unit: u32) -> Option<Carrying>
        ensures was { result ≡ slice_index_or self.old.carried unit None }
        ensures is { is_some result ≡ true → self.new ≡ record self.old { carried = with_item None self.old.carried unit None } }
        ensures none { result ≡ None → self.new ≡ self.old }
    {
        take_at(&mut self.carried, unit as usize)
    }

    /// A word of a run begins on a unit, which its wire shows.
    pub(crate) fn put_run(
        &mut self,
        alloc: Global,
        unit: u32,
        received: u32,
        run: Run,
    ) -> Result<(), AllocError>
        ensures { IfOk result (λ _. self.new ≡ record self.old { runs = with_item None self.old.runs unit (Some run); wires = shown_on self.old.wires unit received (transfers.word_of run) }) }
    {
        self.show(alloc, unit, received, run.word())?;
        put(alloc, &mut self.runs, unit as usize, Some(run))
    }

    /// A word begins that a unit carries out for a call, which its wire shows.
    pub(crate) fn put_carried(
        &mut self,
        alloc: Global,
        unit: u32,
        received: u32,
        carrying: Carrying,
    ) -> Result<(), AllocError>
        ensures { IfOk result (λ _. self.new ≡ record self.old { carried = with_item None self.old.carried unit (Some carrying); wires = shown_on self.old.wires unit received (transfers.word_of carrying.run) }) }
    {
        self.show(alloc, unit, received, carrying.word())?;
        put(alloc, &mut self.carried, unit as usize, Some(carrying))
    }

    /// The wire of a unit shows a word.
    fn show(
        &mut self,
        alloc: Global,
        unit: u32,
        received: u32,
        word: JobWord,
    ) -> Result<(), AllocError>
        ensures { IfOk result (λ _. self.new ≡ record self.old { wires = shown_on self.old.wires unit received (word_as word) }) }
    {
        let place = unit as usize;
        grow(alloc, &mut self.wires, place)?;
        self.wires[place].push(word.sent, word.shown(received))
    }

    /// Whether a unit runs a job of a sequence.
    pub(crate) fn is_running(&self, sequence: u32) -> bool
        ensures { result ≡ list_any (spec.runs_sequence sequence) self.now.runs }
    {
        any_runs(&self.runs, sequence)
    }

    /// Whether a unit carries out a sequence for a call.
    pub(crate) fn is_any_carried(&self) -> bool
        ensures { result ≡ list_any is_some self.now.carried }
    {
        any_carried(&self.carried)
    }

    /// Whether a unit carries out a sequence that uses a channel.
    pub(crate) fn uses(&self, table: &SpiTable, channel: u32) -> bool
        ensures { result ≡ list_any (spec.carries_channel table.now channel) self.now.carried }
    {
        any_uses(&self.carried, table, channel)
    }

    /// A fault comes on the wire of a unit.
    pub(crate) fn fault(&mut self, alloc: Global, unit: u32, now: u64) -> Result<(), AllocError>
        ensures { IfOk result (λ _. self.new ≡ record self.old {
          runs = with_item None self.old.runs unit (machine.faulted_run now (slice_index_or self.old.runs unit None));
          carried = with_item None self.old.carried unit (machine.faulted_carrying now (slice_index_or self.old.carried unit None));
        }) }
    {
        let place = unit as usize;
        grow(alloc, &mut self.runs, place)?;
        fault_run(&mut self.runs[place], now);
        grow(alloc, &mut self.carried, place)?;
        fault_carried(&mut self.carried[place], now);
        Ok(())
    }

    /// How many words were begun on a unit.
    pub(crate) fn wire_len(&self, unit: u32) -> usize
        ensures { result ≡ length (slice_index_or self.now.wires unit []) }
    {
        let place = unit as usize;
        if place < self.wires.len() {
            self.wires[place].len()
        } else {
            0
        }
    }

    /// A word that was begun on a unit: what was sent, and what came in.
    pub(crate) fn wire(&self, unit: u32, word: usize) -> Option<(u32, u32)>
        ensures { result ≡ slice_get (slice_index_or self.now.wires unit []) word }
    {
        let place = unit as usize;
        if place < self.wires.len() {
            self.wires[place].at(word)
        } else {
            None
        }
    }
}
