ghost use Rattle.std.specs.Prelude.{◌≡◌, OnOk, IfOk, bytes_eq};
ghost use Rattle.trace_waves.specs.Board as spec;
ghost use Rattle.trace_waves.specs.Values.{value_text};

use crate::signal::Signal;
use crate::value::{Value, first_at};
use std::alloc::{AllocError, Global};
use std::marker::Model;

/// A signal has this value from a time on.
#[derive(Clone, Copy)]
pub struct Change {
    /// The time.
    pub at: u64,
    /// The signal.
    pub signal: Signal,
    /// The value.
    pub value: Value,
}

/// Whether two values are written alike, as their texts tell.
fn same_text(alloc: Global, value: Value, other: Value) -> Result<bool, AllocError>
    ensures { IfOk result (λ b. b ≡ bytes_eq (value_text value) (value_text other)) }
{
    let value = format!(in alloc; "{value}")?;
    let other = format!(in alloc; "{other}")?;
    Ok(value.as_bytes() == other.as_bytes())
}

/// Whether two values are written alike. Of levels, and of no words, no text is made: most of what a step sets is of these.
fn same(alloc: Global, value: Value, other: Value) -> Result<bool, AllocError>
    ensures { IfOk result (λ b. b ≡ bytes_eq (value_text value) (value_text other)) }
{
    match (value, other) {
        (Value::Bit(true), Value::Bit(true)) => Ok(true),
        (Value::Bit(false), Value::Bit(false)) => Ok(true),
        (Value::Nothing, Value::Nothing) => Ok(true),
        _ => same_text(alloc, value, other),
    }
}

/// The changes so far, the value that each signal has where it changed, and the signals that did, in the order of their
/// first changes.
#[derive(Drop)]
pub(crate) struct Board {
    values: [Option<Value>; 270],
    changes: Vec<Change>,
    signals: Vec<Signal>,
}

impl Model for Board {
    ghost use Rattle.trace_waves.specs.Board as spec;

    ghost Value = { spec.Board };

    ghost view = { λ b. record { values = b.values; changes = b.changes.items; signals = b.signals.items } };
}

impl Board {
    /// Nothing has changed yet.
    pub(crate) fn empty(alloc: Global) -> Board
        ensures { result ≡ spec.empty }
    {
        Board {
            values: [None; 270],
            changes: Vec::new(alloc),
            signals: Vec::new(alloc),
        }
    }

    /// The changes.
    pub(crate) fn changes(&self) -> &[Change]
        ensures { result.now ≡ self.now.changes }
    {
        self.changes.as_slice()
    }

    /// The signals that changed.
    pub(crate) fn signals(&self) -> &[Signal]
        ensures { result.now ≡ self.now.signals }
    {
        self.signals.as_slice()
    }

    /// The value of a signal.
    fn value(&self, signal: Signal) -> Value
        ensures { result ≡ spec.value_in self.now.values signal }
    {
        let slot = signal.slot();
        match self.values[slot] {
            Some(value) => value,
            None => first_at(slot),
        }
    }

    /// Adds the signal of a change, if it is its first.
    fn add_signal(&mut self, signal: Signal) -> Result<(), AllocError>
        ensures { OnOk result (self.new ≡ spec.with_signal self.old signal) }
    {
        match self.values[signal.slot()] {
            Some(_) => Ok(()),
            None => {
                self.signals.push(signal)?;
                Ok(())
            }
        }
    }

    /// Adds a change.
    fn add(&mut self, change: Change) -> Result<(), AllocError>
        ensures { OnOk result (self.new ≡ spec.added self.old change) }
    {
        self.add_signal(change.signal)?;
        self.values[change.signal.slot()] = Some(change.value);
        self.changes.push(change)?;
        Ok(())
    }

    /// A signal is to have a value from a time on: a change, where it hasn't.
    #[tactic(auto, unfolding(crate::specs::Board::put))]
    pub(crate) fn set(
        &mut self,
        alloc: Global,
        at: u64,
        signal: Signal,
        value: Value,
    ) -> Result<(), AllocError>
        ensures { OnOk result (self.new ≡ spec.put self.old (record { at = at; signal = signal; value = value })) }
    {
        if same(alloc, self.value(signal), value)? {
            Ok(())
        } else {
            self.add(Change { at, signal, value })
        }
    }
}
