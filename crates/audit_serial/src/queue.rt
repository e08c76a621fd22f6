ghost use Rattle.std.specs.Prelude.{◌≡◌, ◌≤◌, ◌<◌, ◌+◌, ◌^◌, ◌++◌, ◌∷◌, [], IfOk, map, find, length, nat_eq, option_map, slice_index_or};
ghost use Rattle.std.specs.List.{AllByRecursion};
ghost use Rattle.spi_machine.specs.Pending as spec;
ghost use Rattle.audit_serial.specs.Queued.{IsWithin, change_as, changed_by};
ghost use Rattle.audit_serial.specs.Words.{pending_as};

use crate::options::{sequence_uses, shares_job};
use crate::pending::Pending;
use mcal_base::AnswerName;
use spi_machine::SpiTable;
use std::alloc::{AllocError, Global};
use std::marker::Model;

/// What happens to a pending sequence.
#[derive(Clone, Copy)]
pub enum Change {
    /// A job of it starts.
    Starts,
    /// It is cancelled.
    Cancels,
    /// Its next job comes.
    GoesOn,
}

/// The pending sequences, in the order of their requests; how many requests there were; and how many times it changed.
#[derive(Drop)]
pub struct Queue {
    entries: Vec<Pending>,
    requests: u32,
    events: u32,
}

impl Model for Queue {
    ghost use Rattle.std.specs.Prelude.{◌≤◌, map};
    ghost use Rattle.std.specs.List.{AllByRecursion};
    ghost use Rattle.audit_serial.specs.Queued.{QueueKept, IsWithin};
    ghost use Rattle.audit_serial.specs.Words.{pending_as};

    ghost Value = { QueueKept };

    ghost view = { λ t. record { entries = map pending_as t.entries.items; requests = t.requests; events = t.events } };

    ghost invariant = { λ t. (t.requests ≤ t.events) × AllByRecursion (IsWithin t.events) (map pending_as t.entries.items) };
}

impl Pending {
    /// After something happened to a sequence.
    fn changed(self, sequence: u32, change: Change) -> Pending
        requires { self.next + 1 < 2 ^ 32 }
        ensures { pending_as result ≡ changed_by sequence change (pending_as self) }
    {
        if self.sequence != sequence {
            return self;
        }
        match change {
            Change::Starts => Pending {
                started: true,
                ..self
            },
            Change::Cancels => Pending {
                cancelled: true,
                ..self
            },
            Change::GoesOn => Pending {
                next: self.next + 1,
                ..self
            },
        }
    }
}

/// Something happens to a sequence.
fn change_all(entries: &mut Vec<Pending>, sequence: u32, change: Change, events: u32)
    requires within { AllByRecursion (IsWithin events) (map pending_as entries.old.items) }
    requires room { events + 1 < 2 ^ 32 }
    ensures { map pending_as entries.new.items ≡ spec.changed sequence (change_as change) (map pending_as entries.old.items) }
{
    for place in 0..entries.len() {
        entries[place] = entries[place].changed(sequence, change);
    }
}

/// Whether the entry at a place is of a sequence.
fn is_of_at(entries: &[Pending], place: usize, sequence: u32) -> bool
    requires { place < length entries.now }
    ensures { (d : spec.Pending) → result ≡ spec.is_of sequence (slice_index_or (map pending_as entries.now) place d) }
{
    entries[place].is_of(sequence)
}

/// A sequence is pending no more.
fn remove_all(entries: &mut Vec<Pending>, sequence: u32)
    ensures { map pending_as entries.new.items ≡ spec.without sequence (map pending_as entries.old.items) }
{
    let mut place = 0;
    while place < entries.len() {
        if is_of_at(entries, place, sequence) {
            entries.remove(place);
        } else {
            place += 1;
        }
    }
}

/// The first entry of a sequence.
fn find_in(entries: &[Pending], sequence: u32) -> Option<Pending>
    ensures { option_map pending_as result ≡ find (spec.is_of sequence) (map pending_as entries.now) }
{
    for entry in entries {
        if entry.is_of(sequence) {
            return Some(*entry);
        }
    }
    None
}

/// The best of those whose next job runs on a unit.
fn best_on(entries: &[Pending], table: &SpiTable, unit: u32) -> Option<Pending>
    ensures { option_map pending_as result ≡ spec.next_on table.now unit (map pending_as entries.now) }
{
    let mut best = None;
    let mut place = entries.len();
    while place > 0 {
        place -= 1;
        let entry = entries[place];
        if entry.is_for(table, unit) {
            best = Some(entry.better(table, best));
        }
    }
    best
}

impl Queue {
    /// After power on.
    pub(crate) fn new(alloc: Global) -> Queue
        ensures { result ≡ record { entries = []; requests = 0; events = 0 } }
    {
        Queue {
            entries: Vec::new(alloc),
            requests: 0,
            events: 0,
        }
    }

    /// No sequence is pending.
    pub(crate) fn clear(&mut self)
        ensures { self.new ≡ record self.old { entries = [] } }
    {
        self.entries.clear();
    }

    /// The chip is reset.
    pub(crate) fn reset(&mut self)
        ensures { self.new ≡ record self.old { entries = []; requests = 0 } }
    {
        self.entries.clear();
        self.requests = 0;
    }

    /// How many times it changed.
    pub(crate) fn events(&self) -> u32
        ensures { result ≡ self.now.events }
    {
        self.events
    }

    /// Whether no sequence is pending.
    pub(crate) fn is_empty(&self) -> bool
        ensures { result ≡ nat_eq (length self.now.entries) 0 }
    {
        self.entries.len() == 0
    }

    /// A sequence is requested, with these jobs and their results.
    pub(crate) fn request(
        &mut self,
        sequence: u32,
        jobs: &[u8],
        results: &[AnswerName],
    ) -> Result<(), AllocError>
        requires room { self.old.events + 1 < 2 ^ 32 }
        requires few { length jobs.now ≤ 16 }
        ensures { IfOk result (λ _. self.new ≡ record {
          entries = self.old.entries ++ spec.requested sequence (self.old.requests + 1) (map (spec.job_result results.now) jobs.now) ∷ [];
          requests = self.old.requests + 1;
          events = self.old.events + 1;
        }) }
    {
        let entry = Pending::requested(sequence, self.requests + 1, jobs, results);
        self.entries.push(entry)?;
        self.requests += 1;
        self.events += 1;
        Ok(())
    }

    /// Something happens to a sequence.
    pub(crate) fn change(&mut self, sequence: u32, change: Change)
        requires { self.old.events + 1 < 2 ^ 32 }
        ensures { self.new ≡ record self.old { entries = spec.changed sequence (change_as change) self.old.entries; events = self.old.events + 1 } }
    {
        change_all(&mut self.entries, sequence, change, self.events);
        self.events += 1;
    }

    /// A sequence is pending no more.
    pub(crate) fn remove(&mut self, sequence: u32)
        ensures { self.new ≡ record self.old { entries = spec.without sequence self.old.entries } }
    {
        remove_all(&mut self.entries, sequence);
    }

    /// The entry of a sequence.
    pub(crate) fn find(&self, sequence: u32) -> Option<Pending>
        ensures { option_map pending_as result ≡ find (spec.is_of sequence) self.now.entries }
    {
        find_in(&self.entries, sequence)
    }

    /// The sequence whose next job a free unit runs.
    pub(crate) fn next_on(&self, table: &SpiTable, unit: u32) -> Option<Pending>
        ensures { option_map pending_as result ≡ spec.next_on table.now unit self.now.entries }
    {
        best_on(&self.entries, table, unit)
    }

    /// Whether a sequence, or one that has a job in common with it, is pending.
    pub(crate) fn is_held(&self, table: &SpiTable, sequence: u32) -> bool
        ensures { result ≡ spec.is_held table.now sequence self.now.entries }
    {
        holds(&self.entries, table, sequence)
    }

    /// Whether a pending sequence uses a channel.
    pub(crate) fn uses(&self, table: &SpiTable, channel: u32) -> bool
        ensures { result ≡ spec.is_in_use table.now channel self.now.entries }
    {
        any_uses(&self.entries, table, channel)
    }
}

/// Whether one of them is a sequence, or has a job in common with it.
fn holds(entries: &[Pending], table: &SpiTable, sequence: u32) -> bool
    ensures { result ≡ spec.is_held table.now sequence (map pending_as entries.now) }
{
    for entry in entries {
        if entry.is_of(sequence) || shares_job(table, sequence, entry.sequence) {
            return true;
        }
    }
    false
}

/// Whether one of them uses a channel.
fn any_uses(entries: &[Pending], table: &SpiTable, channel: u32) -> bool
    ensures { result ≡ spec.is_in_use table.now channel (map pending_as entries.now) }
{
    for entry in entries {
        if sequence_uses(table, channel, entry.sequence) {
            return true;
        }
    }
    false
}
