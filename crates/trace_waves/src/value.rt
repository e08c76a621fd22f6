ghost use Rattle.std.specs.Prelude.{◌≡◌, Some};
ghost use Rattle.trace_waves.specs.Values as spec;

use crate::spelled::Spelled;
use bench_report::reason_text;
use irq_control::Held;
use mcal_base::{DevError, Notice, Reason, Service};
use std::fmt;
use trace_reader::Mark;

/// A value of a signal.
#[derive(Clone, Copy)]
pub enum Value {
    /// A number.
    Number(u64),
    /// A level.
    Bit(bool),
    /// A number that wasn't told yet.
    NumberUntold,
    /// A level that wasn't told yet.
    BitUntold,
    /// No word.
    Nothing,
    /// The word of a service.
    Call(Service),
    /// The word of an event.
    Event(Mark),
    /// The word of a callback.
    Notice(Notice),
    /// The word of an error.
    Error(DevError),
    /// The word of why a directive was held.
    Held(Held),
    /// The word of why the chip was reset.
    Reset(Reason),
}

/// An event as a word.
#[derive(Clone, Copy)]
struct EventWord(Mark);

impl fmt::Display for EventWord {
    ghost output = { λ e. Some (spec.event_word e.0) };

    fn fmt<W: fmt::Write>(&self, f: &mut fmt::Formatter<W>) -> fmt::Result {
        match self.0 {
            Mark::Act => f.write_str("act"),
            Mark::Serve(line) => write!(f, "serve{line}"),
            Mark::Abort => f.write_str("abort"),
            Mark::Start => f.write_str("start"),
        }
    }
}

/// A callback as a word.
#[derive(Clone, Copy)]
struct NoticeWord(Notice);

impl fmt::Display for NoticeWord {
    ghost output = { λ n. Some (spec.notice_word n.0) };

    fn fmt<W: fmt::Write>(&self, f: &mut fmt::Formatter<W>) -> fmt::Result {
        let kind = Spelled(self.0.kind.text());
        let id = self.0.id;
        write!(f, "{kind}:{id}")
    }
}

/// An error as a word.
#[derive(Clone, Copy)]
struct ErrorWord(DevError);

impl fmt::Display for ErrorWord {
    ghost output = { λ e. Some (spec.error_word e.0) };

    fn fmt<W: fmt::Write>(&self, f: &mut fmt::Formatter<W>) -> fmt::Result {
        let service = Spelled(self.0.service.text());
        let name = Spelled(mcal_base::det_errors::text(self.0.error));
        write!(f, "{service}:{name}")
    }
}

/// A value as it stands before the name of its signal.
impl fmt::Display for Value {
    ghost output = { λ v. Some (spec.value_text v) };

    fn fmt<W: fmt::Write>(&self, f: &mut fmt::Formatter<W>) -> fmt::Result {
        match *self {
            Value::Number(number) => write!(f, "r{number} "),
            Value::Bit(true) => f.write_str("1"),
            Value::Bit(false) => f.write_str("0"),
            Value::NumberUntold => f.write_str("rnan "),
            Value::BitUntold => f.write_str("x"),
            Value::Nothing => f.write_str("s- "),
            Value::Call(service) => {
                let word = Spelled(service.text());
                write!(f, "s{word} ")
            }
            Value::Event(mark) => {
                let word = EventWord(mark);
                write!(f, "s{word} ")
            }
            Value::Notice(notice) => {
                let word = NoticeWord(notice);
                write!(f, "s{word} ")
            }
            Value::Error(error) => {
                let word = ErrorWord(error);
                write!(f, "s{word} ")
            }
            Value::Held(cause) => {
                let word = Spelled(cause.text());
                write!(f, "s{word} ")
            }
            Value::Reset(reason) => {
                let word = Spelled(reason_text(reason));
                write!(f, "s{word} ")
            }
        }
    }
}

/// What a signal of this number is before it changes.
pub(crate) fn first_at(slot: usize) -> Value
    ensures { result ≡ spec.first_at slot }
{
    if slot < 2 {
        Value::Number(0)
    } else if slot < 5 {
        Value::Bit(false)
    } else if slot < 20 {
        Value::Nothing
    } else if slot < 120 {
        Value::Bit(false)
    } else if slot < 210 {
        Value::BitUntold
    } else {
        Value::NumberUntold
    }
}
