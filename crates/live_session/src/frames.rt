ghost use Rattle.std.specs.Prelude.{◌≡◌, ◌++◌, [], OnOk, drop, option_to_list, slice_get};

use bench_report::Purpose;
use std::alloc::{AllocError, Global};
use std::marker::Model;

/// What a frame was begun for, and its level.
#[derive(Clone, Copy)]
pub(crate) struct Begun {
    /// What it was begun for.
    pub(crate) purpose: Purpose,
    /// Its level.
    pub(crate) level: u32,
}

/// The frames under way. Clauses see what they were begun for, the topmost first.
#[derive(Drop)]
pub(crate) struct Frames {
    begun: Vec<Begun>,
}

impl Model for Frames {
    ghost use Rattle.std.specs.Prelude.{List, map, reverse};
    ghost use Rattle.bench_report.specs.declared.frames.Purpose.{Purpose};

    ghost Value = { List Purpose };

    ghost view = { λ f. map (λ b. b.purpose) (reverse f.begun.items) };
}

impl Frames {
    /// No frames.
    pub(crate) fn new(alloc: Global) -> Frames
        ensures { result ≡ [] }
    {
        Frames {
            begun: Vec::new(alloc),
        }
    }

    /// One more frame, where it is known for what.
    pub(crate) fn begin(&mut self, purpose: Option<Purpose>, level: u32) -> Result<(), AllocError>
        ensures { OnOk result (self.new ≡ option_to_list purpose ++ self.old) }
    {
        if let Some(purpose) = purpose {
            self.begun.push(Begun { purpose, level })?;
        }
        Ok(())
    }

    /// Takes the topmost frame off.
    pub(crate) fn end(&mut self) -> Option<Purpose>
        ensures top { result ≡ slice_get self.old 0 }
        ensures rest { self.new ≡ drop 1 self.old }
    {
        match self.begun.pop() {
            Some(begun) => Some(begun.purpose),
            None => None,
        }
    }

    /// Takes all frames off.
    pub(crate) fn clear(&mut self)
        ensures { self.new ≡ [] }
    {
        self.begun.clear();
    }

    /// The level of the topmost frame.
    pub(crate) fn top_level(&self) -> Option<u32> {
        match self.begun.last() {
            Some(begun) => Some(begun.level),
            None => None,
        }
    }
}
