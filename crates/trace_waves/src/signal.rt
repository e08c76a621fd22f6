ghost use Rattle.std.specs.Prelude.{◌≡◌, ◌<◌, Some};
ghost use Rattle.trace_waves.specs.Signals as spec;

use std::fmt;

/// Where a frame runs.
#[derive(Clone, Copy)]
pub enum Context {
    /// As a call at this level.
    Level(u32),
    /// As the handler of this line.
    Line(u32),
}

impl fmt::Display for Context {
    ghost output = { λ c. Some (spec.context_name c) };

    fn fmt<W: fmt::Write>(&self, f: &mut fmt::Formatter<W>) -> fmt::Result {
        match *self {
            Context::Level(level) => write!(f, "level{level}"),
            Context::Line(line) => write!(f, "line{line}"),
        }
    }
}

/// A signal.
#[derive(Clone, Copy)]
pub enum Signal {
    /// The script line that is obeyed.
    ScriptLine,
    /// The ticks so far.
    Ticks,
    /// Whether the mask is closed.
    Masked,
    /// Whether the step acts.
    Act,
    /// Whether the step serves a line.
    Serve,
    /// The event of the step.
    Event,
    /// The callback of the step.
    Notice,
    /// The error of the step.
    Error,
    /// Why the directive before the step was held.
    Held,
    /// Why the chip was reset before the step.
    Reset,
    /// The service of the call that is under way at this level.
    Call(u32),
    /// Whether a frame is under way there.
    Runs(Context),
    /// Whether a frame was asked for there, and is held.
    Waits(Context),
    /// The outside level of a pin.
    Pin(u32),
    /// The polarity that was written for a pulse output.
    Polarity(u32),
    /// The level that was read from a pulse output.
    Output(u32),
    /// The value of an analog input.
    Analog(u32),
    /// The period that was written for a pulse output.
    Period(u32),
    /// The duty that was written for a pulse output.
    Duty(u32),
}

impl fmt::Display for Signal {
    ghost output = { λ s. Some (spec.name s) };

    fn fmt<W: fmt::Write>(&self, f: &mut fmt::Formatter<W>) -> fmt::Result {
        match *self {
            Signal::ScriptLine => f.write_str("script_line"),
            Signal::Ticks => f.write_str("ticks"),
            Signal::Masked => f.write_str("masked"),
            Signal::Act => f.write_str("act"),
            Signal::Serve => f.write_str("serve"),
            Signal::Event => f.write_str("event"),
            Signal::Notice => f.write_str("notice"),
            Signal::Error => f.write_str("error"),
            Signal::Held => f.write_str("held"),
            Signal::Reset => f.write_str("chip_reset"),
            Signal::Call(level) => write!(f, "level{level}_call"),
            Signal::Runs(context) => write!(f, "{context}"),
            Signal::Waits(context) => write!(f, "{context}_waits"),
            Signal::Pin(pin) => write!(f, "pin{pin}"),
            Signal::Polarity(output) => write!(f, "pulse{output}_polarity"),
            Signal::Output(output) => write!(f, "pulse{output}_out"),
            Signal::Analog(input) => write!(f, "analog{input}"),
            Signal::Period(output) => write!(f, "pulse{output}_period"),
            Signal::Duty(output) => write!(f, "pulse{output}_duty"),
        }
    }
}

/// The number of a signal of a frame.
fn context_slot(level_slot: usize, line_slot: usize, context: Context) -> usize
    requires few { line_slot < 1000 }
    requires less { level_slot < 1000 }
    ensures { result ≡ spec.context_slot level_slot line_slot context }
{
    match context {
        Context::Level(level) => level_slot + level.min(7) as usize,
        Context::Line(line) => line_slot + line.min(31) as usize,
    }
}

impl Signal {
    /// Its number among the signals: of a script, which has 8 levels, 32 lines, 64 pins, 32 analog inputs and 8 pulse
    /// outputs, no two signals have the same.
    pub(crate) fn slot(self) -> usize
        ensures slot { result ≡ spec.slot self }
        ensures within { result < 270 }
    {
        match self {
            Signal::ScriptLine => 0,
            Signal::Ticks => 1,
            Signal::Masked => 2,
            Signal::Act => 3,
            Signal::Serve => 4,
            Signal::Event => 5,
            Signal::Notice => 6,
            Signal::Error => 7,
            Signal::Held => 8,
            Signal::Reset => 9,
            Signal::Call(level) => 10 + level.min(7) as usize,
            Signal::Runs(context) => context_slot(20, 30, context),
            Signal::Waits(context) => context_slot(70, 80, context),
            Signal::Pin(pin) => 120 + pin.min(63) as usize,
            Signal::Polarity(output) => 190 + output.min(7) as usize,
            Signal::Output(output) => 200 + output.min(7) as usize,
            Signal::Analog(input) => 210 + input.min(31) as usize,
            Signal::Period(output) => 250 + output.min(7) as usize,
            Signal::Duty(output) => 260 + output.min(7) as usize,
        }
    }
}
