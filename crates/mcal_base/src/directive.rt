use crate::argument_name::ArgumentName;
use crate::boxed_words::BoxedWords;
use crate::service::Service;
use crate::short::Short;

/// Why the chip was reset.
#[derive(Clone, Copy, Debug)]
pub enum Reason {
    /// Power came on.
    PowerOn,
    /// The watchdog ended.
    Watchdog,
    /// `Mcu_PerformReset` asked for it.
    Software,
}

/// An argument of a service.
#[derive(Clone, Copy, Debug)]
pub enum Argument {
    /// A number.
    Number(u32),
    /// A name of the standard, or a word of the bench language.
    Name(ArgumentName),
}

impl Default for Argument {
    fn default() -> Argument {
        Argument::Number(0)
    }
}

/// A service with its arguments, in the order of its table.
#[derive(Debug, Drop)]
pub struct Request {
    /// The service.
    pub service: Service,
    /// Its arguments, at most four.
    pub arguments: Short<Argument, 4>,
}

/// Where `upto` stops, beside the end of the frame.
#[derive(Clone, Copy, Debug)]
pub enum Stop {
    /// A step that carries an act.
    Act,
    /// A move that closes the mask.
    Mask,
    /// A move that opens the mask.
    Unmask,
    /// A notice.
    Note,
}

/// What `show` prints.
#[derive(Clone, Copy, Debug)]
pub enum Shown {
    /// The levels of the configured pins.
    Pins,
    /// The words sent and received.
    Wire,
    /// The users' arrays and the words of internal channels.
    Buffers,
    /// The RAM sections.
    Ram,
}

/// What a line of a script asks for.
#[derive(Debug, Drop)]
pub enum Order {
    /// Begins a call at a level, 0 to 7.
    Call(u32, Request),
    /// The same, and runs it to its end.
    Do(u32, Request),
    /// Begins the handler of a line, 0 to 31.
    Enter(u32),
    /// The same, and runs it to its end.
    Serve(u32),
    /// At most so many steps of the top frame.
    Run(u32),
    /// Steps of the top frame until one is such a step.
    Upto(Stop),
    /// Steps of the top frame until it ends.
    Finish,
    /// So many ticks of the oscillator, at most 1,000,000.
    Tick(u32),
    /// The outside level of a pin, 0 to 63.
    Level(u32, bool),
    /// The value of an analog input, 0 to 31.
    Analog(u32, u32),
    /// A pulse on a trigger input, 0 to 3.
    Trigger(u32),
    /// Words that come in next on a serial unit.
    Miso(u32, BoxedWords),
    /// The word in transfer on a serial unit will end as failed.
    SpiFault(u32),
    /// Drops the last device of the rack.
    Detach,
    /// The first places of a channel's source array.
    Fill(u32, BoxedWords),
    /// Resets the chip.
    Reset(Reason),
    /// Prints.
    Show(Shown),
}

/// A line of a script that asks for something.
#[derive(Debug, Drop)]
pub struct Directive {
    /// The number of the line in the script, from 1.
    pub line: u32,
    /// What it asks for.
    pub order: Order,
}
