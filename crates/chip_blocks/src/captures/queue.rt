ghost use Rattle.std.specs.Prelude.{◌≡◌, ◌<◌, ◌++◌, [], ◌∷◌, drop, length, not, nat_lt};
ghost use Rattle.chip_blocks.specs.captures.Captures as spec;

use crate::captures::capture::Edge;
use arrayvec::ArrayVec;
use std::marker::Model;

/// At most four edges, the oldest first, which contracts see as a list.
#[derive(Drop)]
pub struct Queue {
    edges: ArrayVec<Edge, 4>,
}

impl Model for Queue {
    ghost use Rattle.std.specs.Prelude.{List};
    ghost use Rattle.chip_blocks.specs.declared.captures.capture.Edge.{Edge};

    ghost Value = { List Edge };

    ghost view = { λ q. q.edges.items };

    ghost inverse = { λ xs. record { edges = record { items = xs } } };
}

impl Queue {
    /// No edges.
    pub fn new() -> Queue
        ensures { result ≡ [] }
    {
        Queue {
            edges: ArrayVec::new(),
        }
    }

    /// Whether there is no room for one more.
    pub fn is_full(&self) -> bool
        ensures { result ≡ not (nat_lt (length self.now) 4) }
    {
        self.edges.len() == 4
    }

    /// Whether an edge waits.
    pub fn is_waiting(&self) -> bool
        ensures { result ≡ nat_lt 0 (length self.now) }
    {
        self.edges.len() > 0
    }

    /// One more edge, the newest.
    pub fn push(&mut self, edge: Edge)
        requires { length self.old < 4 }
        ensures { self.new ≡ self.old ++ edge ∷ [] }
    {
        self.edges.push(edge);
    }

    /// Drops the oldest edge, if one waits.
    pub fn pop(&mut self)
        ensures { self.new ≡ drop 1 self.old }
    {
        if self.edges.len() > 0 {
            self.edges.remove(0);
        }
    }

    /// The time of the oldest edge, and 0 where none waits.
    pub fn oldest_time(&self) -> u32
        ensures { result ≡ spec.oldest_time self.now }
    {
        match self.edges.as_slice().first() {
            Some(edge) => edge.time,
            None => 0,
        }
    }

    /// `C<c>.INFO`
    pub fn info(&self) -> u32
        ensures { result ≡ spec.info_of self.now }
    {
        match self.edges.as_slice().first() {
            Some(edge) => {
                u32::from(edge.rising) + u32::from(edge.gap) * 2 + self.edges.len() as u32 * 4
            }
            None => 0,
        }
    }
}
