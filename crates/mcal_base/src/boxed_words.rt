ghost use Rattle.std.specs.Prelude.{◌≡◌, ◌≤◌, IfOk, length};

use crate::answer::Words;
use std::alloc::{AllocError, Global};
use std::marker::Model;

/// At most 64 words in a box of their own, so that what holds them stays small. Contracts see them as a list.
#[derive(Debug, Drop)]
pub struct BoxedWords {
    words: Box<Words>,
}

impl Model for BoxedWords {
    ghost use Rattle.std.specs.Prelude.{List, ℕ};
    ghost use Rattle.std.specs.Coded.{coded_list, coded_ℕ};

    ghost Value = { List ℕ };

    ghost coded = { coded_list coded_ℕ };

    ghost view = { λ b. b.words.value };
}

impl BoxedWords {
    /// The words, put into a box.
    pub fn new(alloc: Global, words: Words) -> Result<BoxedWords, AllocError>
        ensures { IfOk result (λ boxed. boxed ≡ words) }
    {
        Ok(BoxedWords {
            words: Box::new(alloc, words)?,
        })
    }

    /// Puts words in the place of those in the box.
    pub fn set(&mut self, words: Words)
        ensures { self.new ≡ words }
    {
        *self.words = words;
    }

    /// The number of words.
    pub fn len(&self) -> usize
        ensures count { result ≡ length self.now }
        ensures within { result ≤ 64 }
    {
        self.words.len()
    }

    /// The words.
    pub fn as_slice(&self) -> &[u32]
        ensures items { result.now ≡ self.now }
        ensures within { length result.now ≤ 64 }
    {
        self.words.as_slice()
    }
}
