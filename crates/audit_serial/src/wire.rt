ghost use Rattle.std.specs.Prelude.{◌≡◌, ◌++◌, ◌∷◌, [], IfOk, length, slice_get};

use crate::numbered::Blank;
use std::alloc::{AllocError, Global};
use std::marker::Model;

/// The words that were begun on a unit: what was sent, and what came in.
#[derive(Drop)]
pub struct Wire {
    words: Vec<(u32, u32)>,
}

impl Model for Wire {
    ghost use Rattle.std.specs.Prelude.{ℕ, List};

    ghost Value = { List (ℕ × ℕ) };

    ghost view = { λ t. t.words.items };
}

impl Blank for Wire {
    ghost blank = { [] };

    fn blank(alloc: Global) -> Wire {
        Wire {
            words: Vec::new(alloc),
        }
    }
}

impl Wire {
    /// One more word.
    pub(crate) fn push(&mut self, sent: u32, received: u32) -> Result<(), AllocError>
        ensures { IfOk result (λ _. self.new ≡ self.old ++ (sent, received) ∷ []) }
    {
        self.words.push((sent, received))?;
        Ok(())
    }

    /// How many words they are.
    pub(crate) fn len(&self) -> usize
        ensures { result ≡ length self.now }
    {
        self.words.len()
    }

    /// A word by its place.
    pub(crate) fn at(&self, place: usize) -> Option<(u32, u32)>
        ensures { result ≡ slice_get self.now place }
    {
        if place < self.words.len() {
            Some(self.words[place])
        } else {
            None
        }
    }
}
