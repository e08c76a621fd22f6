ghost use Rattle.std.specs.Prelude.{ℕ, ◌≡◌, ◌<◌, ◌≤◌, ◌+◌, ◌++◌, [], true, false, min, IfOk, IsErr, Some, length, take, drop};
ghost use Rattle.std.specs.Bool.{OnTrue, OnFalse};
ghost use Rattle.std.specs.Io.KnownBytes.{ReadConsumes, WriteAppends};
ghost use Rattle.mcal_base.specs.Causes.{Rises, HasCause};
ghost use Rattle.mcal_base.specs.Faults.{failing_calls, faults_of, last, next_call, fails_at, source_faults, read_fails, given, after_read, sink_faults, write_fails, accepted, after_write};

use crate::ends::{Failed, NoMemory, Sink, Source};
use std::alloc::Global;
use std::marker::Model;

/// Counts one more call, and tells whether it is one that fails.
fn counts_as_failing(calls: &mut u64, failing: &[u64]) -> bool
    ensures number { calls.new ≡ next_call calls.old }
    ensures which { result ≡ fails_at failing.now calls.new }
    ensures within { (full : ℕ) → failing_calls failing.now calls.old + full ≤ calls.old → failing_calls failing.now calls.new + full ≤ calls.new }
    ensures fails { OnTrue result ((full : ℕ) → failing_calls failing.now calls.old + full ≤ calls.old → Rises (faults_of failing.now calls.old full) (faults_of failing.now calls.new full)) }
    ensures goes { OnFalse result ((calls.new ≡ calls.old + 1) × (calls.new < last) × (failing_calls failing.now calls.new ≡ failing_calls failing.now calls.old)) }
{
    *calls = calls.saturating_add(1);
    if *calls == u64::MAX {
        return true;
    }
    failing.contains(calls)
}

/// Copies the front of the bytes, at most so many, to the front of the buffer.
fn copy_front(buf: &mut [u8], bytes: &[u8], most: usize) -> usize
    requires { 0 < most }
    ensures count { result ≡ min (min most (length buf.old)) (length bytes.now) }
    ensures room { result ≤ length buf.new }
    ensures within { result ≤ length bytes.now }
    ensures front { bytes.now ≡ take result buf.new ++ drop result bytes.now }
    ensures none { result ≡ 0 → 0 < length buf.new → bytes.now ≡ [] }
{
    let count = most.min(buf.len()).min(bytes.len());
    buf[..count].copy_from_slice(&bytes[..count]);
    count
}

/// A source in memory.
#[derive(Drop)]
pub struct ListSource {
    bytes: Vec<u8>,
    at: usize,
    most: usize,
    failing: Vec<u64>,
    calls: u64,
}

impl Model for ListSource {
    ghost use Rattle.std.specs.Prelude.{◌<◌, ◌≤◌, ◌^◌, vec_len, drop};
    ghost use Rattle.mcal_base.specs.Faults.{Listing};

    ghost Value = { Listing };

    ghost view = { λ s. record { left = drop s.at s.bytes.items; most = s.most; failing = s.failing.items; calls = s.calls } };

    ghost invariant = { λ s. (s.at ≤ vec_len s.bytes) × (0 < s.most) };
}

impl ListSource {
    /// A source of these bytes, which gives at most so many a call; the calls with these numbers, from 1, fail.
    pub fn new(bytes: Vec<u8>, most: usize, failing: Vec<u64>) -> ListSource
        requires { 0 < most }
        ensures { result ≡ record { left = bytes.items; most = most; failing = failing.items; calls = 0 } }
    {
        ListSource {
            bytes,
            at: 0,
            most,
            failing,
            calls: 0,
        }
    }
}

impl Source for ListSource {
    ghost left = { λ s. Some s.left };

    ghost faults = { source_faults };

    fn read(&mut self, buf: &mut [u8]) -> Result<usize, Failed>
        ensures bound { IfOk result (λ n. n ≤ length buf.new) }
        ensures bytes { ReadConsumes (Some self.old.left) (Some self.new.left) result buf.new }
        ensures cause { HasCause (source_faults self.old) (source_faults self.new) result }
        ensures fault { read_fails self.old ≡ true → IsErr result }
        ensures gives { read_fails self.old ≡ false → result ≡ Ok (given self.old (length buf.old)) }
        ensures after { self.new ≡ after_read self.old (length buf.old) }
    {
        if counts_as_failing(&mut self.calls, &self.failing) {
            return Err(Failed);
        }
        let count = copy_front(buf, &self.bytes[self.at..], self.most);
        self.at += count;
        Ok(count)
    }
}

/// A sink in memory, with room for a number of bytes.
#[derive(Drop)]
pub struct ListSink {
    bytes: Vec<u8>,
    most: usize,
    room: usize,
    failing: Vec<u64>,
    calls: u64,
    full: u64,
}

impl Model for ListSink {
    ghost use Rattle.std.specs.Prelude.{◌≡◌, ◌+◌, ◌<◌, ◌≤◌, ◌^◌, vec_len, vec_capacity};
    ghost use Rattle.mcal_base.specs.Faults.{Filling, failing_calls};

    ghost Value = { Filling };

    ghost view = { λ s. record { taken = s.bytes.items; most = s.most; room = s.room; failing = s.failing.items; calls = s.calls; full = s.full } };

    ghost invariant = { λ s. (vec_len s.bytes ≤ s.room) × (s.room ≤ vec_capacity s.bytes) × (0 < s.most) × (failing_calls s.failing.items s.calls + s.full ≤ s.calls) × (vec_len s.bytes < s.room → s.full ≡ 0) };
}

impl ListSink {
    /// A sink with this room, which takes at most so many bytes a call; the calls with these numbers, from 1, fail.
    pub fn new(
        alloc: Global,
        most: usize,
        room: usize,
        failing: Vec<u64>,
    ) -> Result<ListSink, NoMemory>
        requires { 0 < most }
        ensures { IfOk result (λ s. s ≡ record { taken = []; most = most; room = room; failing = failing.items; calls = 0; full = 0 }) }
    {
        let Ok(bytes) = Vec::with_capacity(alloc, room) else {
            return Err(NoMemory);
        };
        Ok(ListSink {
            bytes,
            most,
            room,
            failing,
            calls: 0,
            full: 0,
        })
    }
}

impl ListSink {
    /// The bytes that it has taken.
    pub fn bytes(&self) -> &[u8]
        ensures { result.now ≡ self.now.taken }
    {
        self.bytes.as_slice()
    }
}

impl Sink for ListSink {
    ghost taken = { λ s. Some s.taken };

    ghost faults = { sink_faults };

    fn write(&mut self, piece: &[u8]) -> Result<usize, Failed>
        ensures bound { IfOk result (λ n. n ≤ length piece.now) }
        ensures some { IfOk result (λ n. 0 < length piece.now → 0 < n) }
        ensures bytes { WriteAppends (Some self.old.taken) (Some self.new.taken) result piece.now }
        ensures cause { HasCause (sink_faults self.old) (sink_faults self.new) result }
        ensures fault { write_fails self.old ≡ true → IsErr result }
        ensures takes { write_fails self.old ≡ false → result ≡ Ok (accepted self.old (length piece.now)) }
        ensures after { self.new ≡ after_write self.old piece.now }
        ensures room_left { length self.new.taken < self.new.room → self.new.full ≡ 0 }
    {
        if counts_as_failing(&mut self.calls, &self.failing) {
            return Err(Failed);
        }
        let free = self.room - self.bytes.len();
        if free == 0 {
            self.full += 1;
            return Err(Failed);
        }
        let count = self.most.min(piece.len()).min(free);
        self.bytes.extend_from_slice(&piece[..count]).unwrap();
        Ok(count)
    }
}
