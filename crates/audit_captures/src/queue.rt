ghost use Rattle.std.specs.Prelude.{◌≡◌, ◌++◌, [], ◌∷◌, Some, None, length, nat_lt, option_map, if◌then◌else◌};
ghost use Rattle.module_machines.specs.icu.Machine as spec;
ghost use Rattle.audit_captures.specs.Stands.{edge_of, edges_of, split_of, split};

/// An edge that was kept.
#[derive(Clone, Copy)]
pub struct Edge {
    /// Its time in peripheral ticks, modulo 2^32.
    pub time: u32,
    /// Whether it rises.
    pub rising: bool,
    /// Whether others were lost since the one kept before it.
    pub after_gap: bool,
}

/// At most four edges that wait, the oldest first.
#[derive(Clone, Copy)]
pub enum Queue {
    /// None waits.
    Empty,
    /// One.
    One(Edge),
    /// Two.
    Two(Edge, Edge),
    /// Three.
    Three(Edge, Edge, Edge),
    /// Four.
    Four(Edge, Edge, Edge, Edge),
}

impl Queue {
    /// With one more edge, where there is room.
    pub(crate) fn pushed(self, edge: Edge) -> Option<Queue>
        ensures { option_map edges_of result ≡ if nat_lt (length (edges_of self)) 4 then Some (edges_of self ++ edge_of edge ∷ []) else None }
    {
        match self {
            Queue::Empty => Some(Queue::One(edge)),
            Queue::One(a) => Some(Queue::Two(a, edge)),
            Queue::Two(a, b) => Some(Queue::Three(a, b, edge)),
            Queue::Three(a, b, c) => Some(Queue::Four(a, b, c, edge)),
            Queue::Four(..) => None,
        }
    }

    /// Whether an edge waits.
    pub(crate) fn waits(self) -> bool
        ensures { result ≡ spec.waits (edges_of self) }
    {
        !matches!(self, Queue::Empty)
    }

    /// The oldest edge, and those behind it.
    pub(crate) fn split(self) -> Option<(Edge, Queue)>
        ensures { option_map split_of result ≡ split (edges_of self) }
    {
        match self {
            Queue::Empty => None,
            Queue::One(a) => Some((a, Queue::Empty)),
            Queue::Two(a, b) => Some((a, Queue::One(b))),
            Queue::Three(a, b, c) => Some((a, Queue::Two(b, c))),
            Queue::Four(a, b, c, d) => Some((a, Queue::Three(b, c, d))),
        }
    }
}
