use irq_control::Held;
use mcal_base::{DevError, Head, Move, Notice, Reason, Service};

/// What is marked at a step.
#[derive(Clone, Copy)]
pub enum Mark {
    /// The call acts.
    Act,
    /// The handler, or a call that polls, serves this line.
    Serve(u32),
    /// A unit's round is aborted.
    Abort,
    /// A unit is started.
    Start,
}

/// A step of the topmost frame.
#[derive(Clone, Copy)]
pub struct Step {
    /// How many frames were there.
    pub depth: u32,
    /// Its move.
    pub made: Move,
    /// What a read or a load gave; 0 at other moves.
    pub value: u32,
    /// The word that came in at a write that begins a serial word; 0 at other moves.
    pub received: u32,
    /// What is marked there.
    pub mark: Option<Mark>,
}

/// What a call answered: what its answer begins with, the first of its numbers, and whether there are more.
#[derive(Clone, Copy)]
pub struct Reply {
    /// What it begins with, as it is printed: `Nothing` where it is numbers alone.
    pub head: Head,
    /// The first of its numbers, if it has one.
    pub first: Option<u32>,
    /// Whether there are more.
    pub more: bool,
}

/// What a line of a report tells, behind the number of its script line.
#[derive(Clone, Copy)]
pub enum Told {
    /// The directive was held.
    Held(Held),
    /// A step was made.
    Step(Step),
    /// The next step waited for a word in transfer so many ticks.
    Waited(u32),
    /// A callback was called.
    Noted(Notice),
    /// An error was reported.
    Erred(DevError),
    /// A call of the service returned, with this answer.
    Returned(Service, Reply),
    /// The handler of the line ended.
    Left(u32),
    /// The chip was reset, and so many frames were dropped.
    Reset(Reason, u32),
    /// Something is shown.
    Shown,
    /// Nothing else is told.
    Done,
}

/// A line of a report.
#[derive(Clone, Copy)]
pub struct TraceLine {
    /// The number of its script line.
    pub number: u32,
    /// What it tells.
    pub told: Told,
}
