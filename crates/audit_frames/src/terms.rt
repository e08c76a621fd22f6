use mcal_base::{Event, Move, Service};
use run_model::Tag;

/// A counter that a call reads in halves, by its channel.
#[derive(Clone, Copy)]
pub enum Counter {
    /// A timer's.
    Timer(u32),
    /// That of a capture input's edges.
    Capture(u32),
}

/// The call of a frame, as far as its frame is judged by it.
#[derive(Clone, Copy)]
pub struct Caller {
    /// Its service.
    pub service: Service,
    /// The counter that it reads, where it reads one.
    pub counter: Option<Counter>,
    /// A bit for each kind of write that it owes where it finds no error.
    pub duties: u64,
}

/// What a frame was begun for.
#[derive(Clone, Copy)]
pub enum Task {
    /// A call.
    Call(Caller),
    /// The handler of a line.
    Line(u32),
}

/// What a frame is judged by from its beginning on.
#[derive(Clone, Copy)]
pub struct Terms {
    /// What it was begun for.
    pub task: Task,
    /// Its level, its module and the class of a call.
    pub tag: Tag,
    /// The most steps that it may make.
    pub steps: u32,
    /// The most moves of a window.
    pub window: u32,
    /// The lines of which it matters whether they were ready: a handler's own, and those that a call may poll.
    pub asked: u64,
}

/// A step, as its line tells it, and whether the frame ends with it.
#[derive(Clone, Copy)]
pub struct Step {
    /// The move.
    pub made: Move,
    /// What a read or a load gave, and 0 for other moves.
    pub value: u32,
    /// The event that stands at it.
    pub event: Option<Event>,
    /// Whether the frame ends.
    pub ends: bool,
}

/// What machine and module say of a step, beside what its event tells.
#[derive(Clone, Copy)]
pub struct Around {
    /// The peripheral time, in ticks.
    pub time: u64,
    /// Of the lines that are asked for, those that aren't ready before it.
    pub unready: u64,
    /// Of these lines, those of which no unit may start or abort after it.
    pub calm: u64,
    /// The kinds of write that the call owes and that its move is of.
    pub settles: u64,
    /// How the module reports the error that the call's act finds, where it does: whether as a runtime error.
    pub reported: Option<bool>,
}
