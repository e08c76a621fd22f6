ghost use Rattle.std.specs.Prelude.{◌≡◌, ◌≤◌, ◌<◌};
ghost use Rattle.chip_blocks.specs.converter.Rounds.{opened, no_round, ended as ended_of, is_idle, is_finished, is_running, state as state_of, input_of, over};

use std::marker::Model;

/// How many peripheral ticks an input takes.
const CONVERSION: u64 = 4;

/// A round of at most 32 inputs, which are converted one after the other: when it began, how many inputs it
/// has, the list registers as they stood there, and when it was aborted, or acknowledged once it was finished.
#[derive(Clone, Copy)]
pub struct Round {
    start: u64,
    count: u32,
    list: [u32; 8],
    closed: Option<u64>,
}

impl Model for Round {
    ghost use Rattle.std.specs.Prelude.{◌≡◌, ◌≤◌, length};
    ghost use Rattle.chip_blocks.specs.converter.Rounds as spec;

    ghost Value = { spec.Round };

    ghost view = { λ r. record { start = r.start; count = r.count; list = r.list; closed = r.closed } };

    ghost invariant = { λ r. (r.count ≤ 32) × (length r.list ≡ 8) };

    ghost inverse = { λ r. record { start = r.start; count = r.count; list = r.list; closed = r.closed } };
}

impl Round {
    /// A round that begins now.
    pub fn new(start: u64, count: u32, list: [u32; 8]) -> Round
        requires { count ≤ 32 }
        ensures { result ≡ opened start count list }
    {
        Round {
            start,
            count,
            list,
            closed: None,
        }
    }

    /// What stands before the first round: one without inputs, which is over.
    pub fn none() -> Round
        ensures { result ≡ no_round }
    {
        Round {
            start: 0,
            count: 0,
            list: [0; 8],
            closed: Some(0),
        }
    }

    /// The number of its inputs that have ended.
    pub fn ended(&self, now: u64) -> u32
        ensures value { result ≡ ended_of self.now now }
        ensures within { result ≤ 32 }
    {
        let until = match self.closed {
            Some(closed) => now.min(closed),
            None => now,
        };
        let ended = until.saturating_sub(self.start) / CONVERSION;
        ended.min(u64::from(self.count)) as u32
    }

    /// Whether it was aborted or acknowledged.
    pub fn idle(&self) -> bool
        ensures { result ≡ is_idle self.now }
    {
        self.closed.is_some()
    }

    /// Whether it is finished and not yet acknowledged.
    pub fn finished(&self, now: u64) -> bool
        ensures { result ≡ is_finished self.now now }
    {
        !self.idle() && self.ended(now) == self.count
    }

    /// Whether it is under way.
    pub fn running(&self, now: u64) -> bool
        ensures { result ≡ is_running self.now now }
    {
        !self.idle() && self.ended(now) != self.count
    }

    /// `A<u>.STATE`
    pub fn state(&self, now: u64) -> u32
        ensures { result ≡ state_of self.now now }
    {
        if self.idle() {
            0
        } else if self.ended(now) == self.count {
            2
        } else {
            1
        }
    }

    /// The number of the input at a place, from 0.
    pub fn input(&self, place: u32) -> u32
        requires { place < 32 }
        ensures { result ≡ input_of self.now place }
    {
        (self.list[(place / 4) as usize] >> (8 * (place % 4))) % 256
    }

    /// Ends it now.
    pub fn close(&mut self, now: u64)
        ensures { self.new ≡ over now self.old }
    {
        self.closed = Some(now);
    }
}
