ghost use Rattle.std.specs.Prelude.{◌≡◌, None};

use irq_control::Held;
use mcal_base::{Answer, Event, Head, Move, Reason, Shown};

/// A stretch of a journal's words.
#[derive(Clone, Copy)]
pub struct Span {
    /// Where it begins.
    pub at: u32,
    /// How many words it has.
    pub count: u32,
}

/// A step: its move, what that gave, and what stood there.
#[derive(Drop)]
pub struct Stepped {
    /// The move.
    pub made: Move,
    /// What a read or a load gave, and 0 for other moves.
    pub value: u32,
    /// The incoming word of a write that begins a serial word, and 0 for other moves.
    pub received: u32,
    /// The event that stood at the step.
    pub event: Option<Event>,
    /// The answer, where the frame ended with the step.
    pub ended: Option<Answer>,
}

impl Stepped {
    /// A place for a step, with no answer.
    pub fn blank() -> Stepped
        ensures { result.ended ≡ None }
    {
        Stepped {
            made: Move::Mask,
            value: 0,
            received: 0,
            event: None,
            ended: None,
        }
    }
}

/// An answer whose words stand among the journal's.
#[derive(Clone, Copy)]
pub struct LoggedAnswer {
    /// What it begins with.
    pub head: Head,
    /// Where its words stand.
    pub words: Span,
}

/// A step whose lists of words stand among the journal's.
#[derive(Clone, Copy)]
pub struct Logged {
    /// The move.
    pub made: Move,
    /// What a read or a load gave, and 0 for other moves.
    pub value: u32,
    /// The incoming word of a write that begins a serial word, and 0 for other moves.
    pub received: u32,
    /// The event that stood at the step.
    pub event: Option<Event>,
    /// The answer, where the frame ended with the step.
    pub ended: Option<LoggedAnswer>,
}

/// What happened to the hardware, or was shown, with lists of words among the journal's.
#[derive(Clone, Copy)]
pub enum Hardware {
    /// Ticks of the oscillator.
    Tick(u32),
    /// The outside level of a pin.
    Level(u32, bool),
    /// The value of an analog input.
    Analog(u32, u32),
    /// A pulse on a trigger input.
    Trigger(u32),
    /// Words that come in next on a serial unit.
    Miso(u32, Span),
    /// The word in transfer on a serial unit will end as failed.
    SpiFault(u32),
    /// The last device was dropped.
    Detach,
    /// The first places of a channel's source array.
    Fill(u32, Span),
    /// Something was shown.
    Show(Shown),
}

/// What an item of a journal says.
#[derive(Clone, Copy)]
pub enum What {
    /// The hardware moved, or something was shown.
    Happened(Hardware),
    /// A call or a handler began.
    Begun,
    /// A directive was held, with its first cause.
    Held(Held),
    /// The top frame made a step.
    Stepped(Logged),
    /// The chip was reset, and so many frames were dropped.
    Reset(Reason, u32),
}

/// An item of a journal.
#[derive(Clone, Copy)]
pub struct Item {
    /// The script line of its directive.
    pub line: u32,
    /// The number of frames before it.
    pub depth: u32,
    /// What it says.
    pub what: What,
}
