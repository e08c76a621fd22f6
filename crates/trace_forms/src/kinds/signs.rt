use bench_report::Purpose;
use irq_control::Held;
use mcal_base::{DevError, Notice, Reason, Shown, Stop};
use trace_reader::{Reply, Step};

/// What a directive asks for.
#[derive(Clone, Copy)]
pub enum Asked {
    /// A frame, with the level of its call, 0 for the handler of a line; and whether it is run to its end.
    Frame(Purpose, u32, bool),
    /// At most so many steps.
    Run(u32),
    /// Steps until there is one that stops.
    Upto(Stop),
    /// Steps until the frame ends.
    Finish,
    /// So many ticks.
    Tick(u32),
    /// The outside level of a pin.
    Pin(u32, bool),
    /// The value of an analog input.
    Analog(u32, u32),
    /// A pulse on a trigger input.
    Trigger(u32),
    /// Words that come in on a serial unit.
    Miso(u32),
    /// The word in transfer on a serial unit fails.
    SpiFault(u32),
    /// A device goes away.
    Detach,
    /// Words in the source of a channel.
    Fill(u32),
    /// The chip is reset.
    Reset(Reason),
    /// Something is shown.
    Show(Shown),
    /// Nothing: it isn't the first line of a directive.
    Nothing,
}

/// A frame: what it was begun for, at which level and by which script line, how many frames there were with it, and how
/// many steps came before it.
#[derive(Clone, Copy)]
pub struct Frame {
    /// What it was begun for.
    pub purpose: Purpose,
    /// The level of its call; 0 for the handler of a line.
    pub level: u32,
    /// The number of the script line that began it.
    pub number: u32,
    /// How many frames there were, with it.
    pub depth: usize,
    /// How many steps came before it.
    pub from: usize,
}

/// How a frame went.
#[derive(Clone, Copy)]
pub enum Ending {
    /// A call returned, with this answer.
    Returned(Reply),
    /// A handler ended.
    Left,
    /// A reset dropped it.
    Dropped,
    /// It was under way where the trace ends.
    Open,
}

/// What a sign stands for.
#[derive(Clone, Copy)]
pub enum What {
    /// A directive of the script, which asks for this.
    Turn(Asked),
    /// It asks for ticks: so many, and then so many passed in all.
    Ticked(u32, u64),
    /// The next step waited so many ticks, and then so many passed in all.
    Waited(u32, u64),
    /// It begins a frame.
    Begins(Frame),
    /// A step, and whether a directive was held or the chip reset since the step before.
    Stepped(Step, bool),
    /// A directive was held.
    Held(Held),
    /// A callback was called.
    Noted(Notice),
    /// An error was reported.
    Erred(DevError),
    /// A frame is gone.
    Gone(Frame, Ending),
    /// The mask was closed since this step, and is open behind the steps that were made.
    Window(usize),
    /// The chip was reset, and so many frames were dropped.
    Reset(Reason, u32),
    /// A row is shown.
    Shown,
    /// Nothing else is told of a directive.
    Done,
}

/// A sign of a trace.
#[derive(Clone, Copy)]
pub struct Sign {
    /// How many steps came before it.
    pub step: usize,
    /// The number of its script line; 0 behind the last line.
    pub number: u32,
    /// How many frames are there.
    pub depth: usize,
    /// Whether the mask is closed.
    pub closed: bool,
    /// What it stands for.
    pub what: What,
}
