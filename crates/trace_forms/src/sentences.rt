ghost use Rattle.std.specs.Prelude.{◌≡◌, Some};
ghost use Rattle.bench_report.specs.Lines as lines;
ghost use Rattle.trace_forms.specs.Sentences as spec;

use crate::kinds::{Asked, Ending, What};
use bench_report::{Line, Purpose};
use mcal_base::{Event, Head, Reason, Shown, Stop, Unit};
use std::fmt;
use trace_reader::{Mark, Reply};

/// A frame by its service or its line.
#[derive(Clone, Copy)]
pub struct Named(pub Purpose);

impl fmt::Display for Named {
    ghost output = { λ n. Some (spec.purpose_text n.0) };

    fn fmt<W: fmt::Write>(&self, f: &mut fmt::Formatter<W>) -> fmt::Result {
        match self.0 {
            Purpose::Call(service) => {
                let name = service.text();
                write!(f, "{name}")
            }
            Purpose::Handler(line) => write!(f, "line{line}"),
        }
    }
}

/// An event of a step.
fn event_of(mark: Mark) -> Event
    ensures { result ≡ spec.event_of mark }
{
    match mark {
        Mark::Act => Event::Act,
        Mark::Serve(line) => Event::Serve(line),
        Mark::Abort => Event::Abort(Unit::Adc0),
        Mark::Start => Event::Start(Unit::Adc0),
    }
}

/// The event of a step, if it has one.
fn event_there(mark: Option<Mark>) -> Option<Event>
    ensures { result ≡ spec.event_there mark }
{
    match mark {
        None => None,
        Some(mark) => Some(event_of(mark)),
    }
}

/// What an answer begins with, with a space before it.
#[derive(Clone, Copy)]
struct Headed(Head);

impl fmt::Display for Headed {
    ghost output = { λ h. Some (lines.head_text h.0) };

    fn fmt<W: fmt::Write>(&self, f: &mut fmt::Formatter<W>) -> fmt::Result {
        match self.0 {
            Head::Nothing | Head::Numbers => f.write_str(""),
            Head::Name(name) => {
                let name = name.text();
                write!(f, " {name}")
            }
            Head::ZeroNull => f.write_str(" 0 null"),
        }
    }
}

/// The first number of an answer, with a space before it, if there is one.
#[derive(Clone, Copy)]
struct First(Option<u32>);

impl fmt::Display for First {
    ghost output = { λ n. Some (spec.first_text n.0) };

    fn fmt<W: fmt::Write>(&self, f: &mut fmt::Formatter<W>) -> fmt::Result {
        match self.0 {
            None => f.write_str(""),
            Some(word) => write!(f, " {word}"),
        }
    }
}

/// That there are more numbers, with a space before it.
fn more_text(more: bool) -> &'static str
    ensures { result.now ≡ spec.more_text more }
{
    if more { " .." } else { "" }
}

/// An answer, with a space before each of its parts: its numbers behind the first are two dots.
#[derive(Clone, Copy)]
pub struct Answered(pub Reply);

impl fmt::Display for Answered {
    ghost output = { λ a. Some (spec.reply_text a.0) };

    fn fmt<W: fmt::Write>(&self, f: &mut fmt::Formatter<W>) -> fmt::Result {
        let head = Headed(self.0.head);
        let first = First(self.0.first);
        let more = more_text(self.0.more);
        write!(f, "{head}{first}{more}")
    }
}

/// How a frame went, in words.
#[derive(Clone, Copy)]
struct Went(Ending);

impl fmt::Display for Went {
    ghost output = { λ w. Some (spec.ending_text w.0) };

    fn fmt<W: fmt::Write>(&self, f: &mut fmt::Formatter<W>) -> fmt::Result {
        match self.0 {
            Ending::Returned(reply) => {
                let answer = Answered(reply);
                write!(f, " returns{answer}")
            }
            Ending::Left => f.write_str(" ends"),
            Ending::Dropped => f.write_str(" is dropped"),
            Ending::Open => f.write_str(" is under way at the end"),
        }
    }
}

/// A level as a digit.
fn digit(level: bool) -> &'static str
    ensures { result.now ≡ spec.digit level }
{
    if level { "1" } else { "0" }
}

/// The word of a directive that begins a frame.
fn begin_word(purpose: Purpose, whole: bool) -> &'static str
    ensures { result.now ≡ spec.begin_word purpose whole }
{
    match (purpose, whole) {
        (Purpose::Call(_), true) => "do",
        (Purpose::Call(_), false) => "call",
        (Purpose::Handler(_), true) => "serve",
        (Purpose::Handler(_), false) => "enter",
    }
}

/// Where steps stop, as a word.
fn stop_word(stop: Stop) -> &'static str
    ensures { result.now ≡ spec.stop_word stop }
{
    match stop {
        Stop::Act => "act",
        Stop::Mask => "mask",
        Stop::Unmask => "unmask",
        Stop::Note => "note",
    }
}

/// Why a script resets the chip, as a word.
fn reset_word(reason: Reason) -> &'static str
    ensures { result.now ≡ spec.reset_word reason }
{
    match reason {
        Reason::PowerOn => "power",
        Reason::Watchdog => "watchdog",
        Reason::Software => "software",
    }
}

/// What is shown, as a word.
fn shown_word(shown: Shown) -> &'static str
    ensures { result.now ≡ spec.shown_word shown }
{
    match shown {
        Shown::Pins => "pins",
        Shown::Wire => "wire",
        Shown::Buffers => "buffers",
        Shown::Ram => "ram",
    }
}

/// What the line of a directive is put together from, with a space between each two.
#[derive(Clone, Copy)]
enum Parts {
    /// A word.
    Word(&'static str),
    /// Two words.
    Words(&'static str, &'static str),
    /// A word and a number.
    Number(&'static str, u32),
    /// A word and two numbers.
    Numbers(&'static str, u32, u32),
    /// A number between two words.
    Between(&'static str, u32, &'static str),
}

/// The parts of the line of a directive.
fn parts_of(asked: Asked) -> Parts
    ensures { spec.parts_text result ≡ spec.asked_text asked }
{
    match asked {
        Asked::Frame(Purpose::Call(service), level, whole) => Parts::Between(
            begin_word(Purpose::Call(service), whole),
            level,
            service.text(),
        ),
        Asked::Frame(Purpose::Handler(line), _, whole) => {
            Parts::Number(begin_word(Purpose::Handler(line), whole), line)
        }
        Asked::Run(steps) => Parts::Number("run", steps),
        Asked::Upto(stop) => Parts::Words("upto", stop_word(stop)),
        Asked::Finish => Parts::Word("finish"),
        Asked::Tick(ticks) => Parts::Number("tick", ticks),
        Asked::Pin(pin, level) => Parts::Between("level", pin, digit(level)),
        Asked::Analog(input, value) => Parts::Numbers("analog", input, value),
        Asked::Trigger(input) => Parts::Number("trigger", input),
        Asked::Miso(unit) => Parts::Number("miso", unit),
        Asked::SpiFault(unit) => Parts::Number("spifault", unit),
        Asked::Detach => Parts::Word("detach"),
        Asked::Fill(channel) => Parts::Number("fill", channel),
        Asked::Reset(reason) => Parts::Words("reset", reset_word(reason)),
        Asked::Show(shown) => Parts::Words("show", shown_word(shown)),
        Asked::Nothing => Parts::Word("nothing"),
    }
}

/// What a directive asks for, as its line of a script says it, but for the arguments of a service and lists of words.
#[derive(Clone, Copy)]
pub struct Request(pub Asked);

impl fmt::Display for Request {
    ghost output = { λ r. Some (spec.asked_text r.0) };

    fn fmt<W: fmt::Write>(&self, f: &mut fmt::Formatter<W>) -> fmt::Result {
        match parts_of(self.0) {
            Parts::Word(word) => f.write_str(word),
            Parts::Words(word, other) => write!(f, "{word} {other}"),
            Parts::Number(word, number) => write!(f, "{word} {number}"),
            Parts::Numbers(word, number, other) => write!(f, "{word} {number} {other}"),
            Parts::Between(word, number, other) => write!(f, "{word} {number} {other}"),
        }
    }
}

/// What a sign says in words.
#[derive(Clone, Copy)]
pub struct Sentence(pub What);

impl fmt::Display for Sentence {
    ghost output = { λ s. Some (spec.sentence s.0) };

    fn fmt<W: fmt::Write>(&self, f: &mut fmt::Formatter<W>) -> fmt::Result {
        match self.0 {
            What::Turn(asked) => {
                let asked = Request(asked);
                write!(f, "{asked}")
            }
            What::Ticked(ticks, all) => write!(f, "{ticks} ticks, {all} in all"),
            What::Waited(ticks, all) => {
                let line = Line::Waits(ticks);
                write!(f, "{line} ticks, {all} in all")
            }
            What::Begins(frame) => {
                let name = Named(frame.purpose);
                write!(f, "{name} begins")
            }
            What::Stepped(step, _) => {
                let line = Line::Makes(
                    step.depth,
                    step.made,
                    step.value,
                    step.received,
                    event_there(step.mark),
                );
                write!(f, "{line}")
            }
            What::Held(cause) => {
                let line = Line::Holds(cause);
                write!(f, "{line}")
            }
            What::Noted(notice) => {
                let line = Line::Notes(notice);
                write!(f, "{line}")
            }
            What::Erred(error) => {
                let line = Line::Errs(error);
                write!(f, "{line}")
            }
            What::Gone(frame, ending) => {
                let name = Named(frame.purpose);
                let ending = Went(ending);
                let from = frame.from;
                let number = frame.number;
                write!(
                    f,
                    "{name}{ending}, begun at step {from} by script line {number}"
                )
            }
            What::Window(step) => write!(f, "the mask was closed since step {step}"),
            What::Reset(reason, dropped) => {
                let line = Line::Restarts(reason, dropped);
                write!(f, "{line}")
            }
            What::Shown => f.write_str("a row is shown"),
            What::Done => {
                let line = Line::Done;
                write!(f, "{line}")
            }
        }
    }
}
