ghost use Rattle.std.specs.Prelude.{◌≡◌, ◌≤◌, ◌-◌, ◌++◌, [], IfOk, length, drop, slice_index_or};

use std::alloc::{AllocError, Global};
use std::marker::Model;

/// The word that comes in where none waits.
const ALL_ONES: u32 = 65_535;

/// The words that wait to come in on a serial unit, with room that was taken beforehand.
#[derive(Drop)]
pub struct Incoming {
    words: Vec<u32>,
    next: usize,
    room: usize,
}

impl Model for Incoming {
    ghost use Rattle.std.specs.Prelude.{◌-◌, ◌≤◌, drop, vec_len, vec_capacity};
    ghost use Rattle.chip_model.specs.Waiting.{Waiting};

    ghost Value = { Waiting };

    ghost view = { λ i. record { waiting = drop i.next i.words.items; room = i.room - vec_len i.words } };

    ghost invariant = { λ i. (i.next ≤ vec_len i.words) × (vec_len i.words ≤ i.room) × (i.room ≤ vec_capacity i.words) };
}

impl Incoming {
    /// No words, and room for so many.
    pub fn with_room(alloc: Global, room: usize) -> Result<Incoming, AllocError>
        ensures { IfOk result (λ i. i ≡ record { waiting = []; room = room }) }
    {
        Ok(Incoming {
            words: Vec::with_capacity(alloc, room)?,
            next: 0,
            room,
        })
    }

    /// More words are given to come in. It takes no memory.
    pub fn give(&mut self, words: &[u32])
        requires { length words.now ≤ self.old.room }
        ensures { self.new ≡ record { waiting = self.old.waiting ++ words.now; room = self.old.room - length words.now } }
    {
        self.words.extend_from_slice(words).unwrap();
    }

    /// The word that comes in next; all ones where none waits.
    pub fn first(&self) -> u32
        ensures { result ≡ slice_index_or self.now.waiting 0 65535 }
    {
        match self.words.get(self.next) {
            Some(word) => *word,
            None => ALL_ONES,
        }
    }

    /// The word that comes in next, which waits no longer; all ones where none waits.
    pub fn take(&mut self) -> u32
        ensures word { result ≡ slice_index_or self.old.waiting 0 65535 }
        ensures rest { self.new ≡ record self.old { waiting = drop 1 self.old.waiting } }
    {
        match self.words.get(self.next) {
            Some(word) => {
                self.next += 1;
                *word
            }
            None => ALL_ONES,
        }
    }
}
