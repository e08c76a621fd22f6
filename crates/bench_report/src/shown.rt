ghost use Rattle.std.specs.Prelude.{List, ℕ, ◌≡◌, ◌∷◌, ◌++◌, [], OnOk, Some, None, true, false, MatchOption, map, string_bytes};
ghost use Rattle.bench_report.specs.Shown.{kept, push};

use crate::limit::MOST_BYTES;
use std::alloc::{AllocError, Global};
use std::marker::Model;

/// What the `show` directives of a run printed: the lines of each, in order. It keeps no more than a report may have;
/// once that is passed it is full, and keeps nothing.
#[derive(Drop)]
pub struct ShownTexts {
    texts: Vec<String>,
    bytes: usize,
}

impl Model for ShownTexts {
    ghost use Rattle.std.specs.Prelude.{ℕ, List, Option, Some, None, ◌≡◌, ◌≤◌, length, map, string_bytes, nat_lt, if◌then◌else◌};
    ghost use Rattle.bench_report.specs.Limit.{most_bytes};
    ghost use Rattle.bench_report.specs.Shown.{joined};

    ghost Value = { Option (List (List ℕ)) };

    ghost view = { λ s. if nat_lt most_bytes s.bytes then None else Some (map string_bytes s.texts.items) };

    ghost invariant = { λ s. s.bytes ≤ most_bytes → s.bytes ≡ length (joined (map string_bytes s.texts.items)) };
}

impl ShownTexts {
    /// Nothing was shown yet.
    pub fn new(alloc: Global) -> ShownTexts
        ensures { result ≡ kept [] }
    {
        ShownTexts {
            texts: Vec::new(alloc),
            bytes: 0,
        }
    }

    /// Whether more was shown than a report may have.
    pub fn is_full(&self) -> bool
        ensures { MatchOption self.now (result ≡ true) (λ texts. result ≡ false) }
    {
        self.bytes > MOST_BYTES
    }

    /// Keeps the lines of one more show.
    #[tactic(auto, using(crate::proofs::Fitting::push_kept))]
    pub fn push(&mut self, text: String) -> Result<(), AllocError>
        ensures put { OnOk result (self.new ≡ push self.old (string_bytes text)) }
        ensures kept { (texts : List (List ℕ)) → self.old ≡ kept texts → OnOk result (self.new ≡ kept (texts ++ string_bytes text ∷ [])) }
    {
        if self.is_full() {
            return Ok(());
        }
        let bytes = self.bytes + text.len();
        if bytes > MOST_BYTES {
            self.texts.clear();
        } else {
            self.texts.push(text)?;
        }
        self.bytes = bytes;
        Ok(())
    }

    /// The lines of each show, where they aren't more than a report may have.
    pub(crate) fn texts(&self) -> Option<&[String]>
        ensures { MatchOption result (self.now ≡ None) (λ texts. self.now ≡ Some (map string_bytes texts.now)) }
    {
        if self.is_full() {
            return None;
        }
        Some(self.texts.as_slice())
    }
}
