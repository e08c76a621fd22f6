ghost use Rattle.std.specs.Prelude.{◌≡◌, ◌<◌};
ghost use Rattle.chip_blocks.specs.captures.Captures as spec;

use crate::captures::queue::Queue;

/// An edge that was caught.
#[derive(Clone, Copy, Default)]
pub struct Edge {
    /// When it came: the low 32 bits of the peripheral time.
    pub time: u32,
    /// Whether the level rose.
    pub rising: bool,
    /// Whether an edge was lost before it.
    pub gap: bool,
}

/// `C<c>.COND`: which edges are chosen.
#[derive(Clone, Copy)]
pub enum Condition {
    /// None.
    Neither,
    /// Rising edges.
    Rising,
    /// Falling edges.
    Falling,
    /// Both kinds.
    Both,
}

/// `C<c>.MODE`: what a chosen edge does.
#[derive(Clone, Copy)]
pub enum Mode {
    /// It is kept in the queue.
    Keeps,
    /// It is counted.
    Counts,
}

/// What a one at a channel's bit does to the channel.
#[derive(Clone, Copy)]
pub enum Act {
    /// `C.GATESET`
    Open,
    /// `C.GATECLR`
    Close,
    /// An edge of its pin, and whether it rises.
    Catch(bool),
}

/// A channel.
#[derive(Drop)]
pub struct Capture {
    /// Whether edges are caught.
    pub gate: bool,
    /// Which edges are chosen.
    pub condition: Condition,
    /// What a chosen edge does.
    pub mode: Mode,
    /// The edges that wait, the oldest first.
    pub queue: Queue,
    /// Whether an edge was lost since the last one kept, or since all were dropped.
    pub lost: bool,
    /// The count of edges, modulo 2^32.
    pub count: u32,
}

impl Condition {
    fn chooses(&self, rising: bool) -> bool
        ensures { result ≡ spec.chooses self.now rising }
    {
        match self {
            Condition::Neither => false,
            Condition::Rising => rising,
            Condition::Falling => !rising,
            Condition::Both => true,
        }
    }
}

impl Capture {
    /// A channel as after a reset.
    pub fn new() -> Capture
        ensures { result ≡ spec.closed }
    {
        Capture {
            gate: false,
            condition: Condition::Neither,
            mode: Mode::Keeps,
            queue: Queue::new(),
            lost: false,
            count: 0,
        }
    }

    /// What a one at its bit does.
    pub fn act(&mut self, act: Act, now: u64)
        ensures { self.new ≡ spec.acting act now self.old }
    {
        match act {
            Act::Open => self.gate = true,
            Act::Close => self.gate = false,
            Act::Catch(rising) => {
                if self.gate && self.condition.chooses(rising) {
                    self.take(rising, now);
                }
            }
        }
    }

    /// Counts a chosen edge, keeps it, or loses it.
    fn take(&mut self, rising: bool, now: u64)
        ensures { self.new ≡ spec.take_edge self.old.mode now rising self.old }
    {
        match self.mode {
            Mode::Counts => self.count = self.count.wrapping_add(1),
            Mode::Keeps => {
                if self.queue.is_full() {
                    self.lost = true;
                } else {
                    let time = (now % (1 << 32)) as u32;
                    self.queue.push(Edge {
                        time,
                        rising,
                        gap: self.lost,
                    });
                    self.lost = false;
                }
            }
        }
    }

    /// `C<c>.COND`. A value above 3 is ignored.
    pub fn set_condition(&mut self, value: u32)
        ensures { self.new ≡ spec.with_condition value self.old }
    {
        match value {
            0 => self.condition = Condition::Neither,
            1 => self.condition = Condition::Rising,
            2 => self.condition = Condition::Falling,
            3 => self.condition = Condition::Both,
            _ => {}
        }
    }

    /// `C<c>.MODE`. A value above 1 is ignored.
    pub fn set_mode(&mut self, value: u32)
        ensures { self.new ≡ spec.with_mode value self.old }
    {
        match value {
            0 => self.mode = Mode::Keeps,
            1 => self.mode = Mode::Counts,
            _ => {}
        }
    }

    /// Drops the oldest edge. The gap mark stays.
    pub fn pop(&mut self)
        ensures { self.new ≡ spec.popped self.old }
    {
        self.queue.pop();
    }

    /// Drops all edges and the gap mark.
    pub fn flush(&mut self)
        ensures { self.new ≡ spec.flushed self.old }
    {
        self.queue = Queue::new();
        self.lost = false;
    }
}
