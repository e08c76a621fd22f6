ghost use Rattle.std.specs.Prelude.{◌≡◌, ◌++◌, Some};
ghost use Rattle.bench_report.specs.Lines as spec;

use crate::registers::RegisterName;
use mcal_base::{DevError, Event, Head, Move, Notice, Reason, Reg};
use std::fmt;

/// How the reason of a reset is spelled.
pub fn reason_text(reason: Reason) -> &'static str
    ensures { result.now ≡ spec.reason_text reason }
{
    match reason {
        Reason::PowerOn => "MCU_POWER_ON_RESET",
        Reason::Watchdog => "MCU_WATCHDOG_RESET",
        Reason::Software => "MCU_SW_RESET",
    }
}

/// The event of a step, with a space before it.
#[derive(Clone, Copy)]
pub(crate) struct EventThere(pub(crate) Option<Event>);

impl fmt::Display for EventThere {
    ghost output = { λ e. Some (spec.event_text e.0) };

    fn fmt<W: fmt::Write>(&self, f: &mut fmt::Formatter<W>) -> fmt::Result {
        match self.0 {
            None => f.write_str(""),
            Some(Event::Act) => f.write_str(" act"),
            Some(Event::Serve(line)) => write!(f, " serve {line}"),
            Some(Event::Abort(_)) => f.write_str(" abort"),
            Some(Event::Start(_)) => f.write_str(" start"),
        }
    }
}

/// A callback with the number of its object.
#[derive(Clone, Copy)]
pub(crate) struct Noticed(pub(crate) Notice);

impl fmt::Display for Noticed {
    ghost output = { λ n. Some (spec.note_text n.0) };

    fn fmt<W: fmt::Write>(&self, f: &mut fmt::Formatter<W>) -> fmt::Result {
        let kind = self.0.kind.text();
        let id = self.0.id;
        write!(f, "{kind} {id}")
    }
}

/// A reported error with its service, behind the word for what it is.
#[derive(Clone, Copy)]
pub(crate) struct Found {
    /// The word for a development error; a runtime error has its own.
    pub(crate) development: &'static str,
    /// The error.
    pub(crate) error: DevError,
}

impl fmt::Display for Found {
    ghost output = { λ e. Some (spec.report_text e.development.now e.error) };

    fn fmt<W: fmt::Write>(&self, f: &mut fmt::Formatter<W>) -> fmt::Result {
        let word = if self.error.runtime {
            "runtime"
        } else {
            self.development
        };
        let service = self.error.service.text();
        let error = mcal_base::det_errors::text(self.error.error);
        write!(f, "{word} {service} {error}")
    }
}

/// A move with the value that it gave.
#[derive(Clone, Copy)]
pub struct MoveMade {
    /// The move.
    pub made: Move,
    /// What a read or a load gave.
    pub value: u32,
}

impl fmt::Display for MoveMade {
    ghost output = { λ m. Some (spec.move_text m.made m.value) };

    fn fmt<W: fmt::Write>(&self, f: &mut fmt::Formatter<W>) -> fmt::Result {
        let value = self.value;
        match self.made {
            Move::Read(reg) => {
                let reg = RegisterName(reg);
                write!(f, "read {reg} {value}")
            }
            Move::Write(reg, written) => {
                let reg = RegisterName(reg);
                write!(f, "write {reg} {written}")
            }
            Move::Load(word) => write!(f, "load w{word} {value}"),
            Move::Store(word, stored) => write!(f, "store w{word} {stored}"),
            Move::Mask => f.write_str("mask"),
            Move::Unmask => f.write_str("unmask"),
            Move::Note(notice) => {
                let noticed = Noticed(notice);
                write!(f, "note {noticed}")
            }
            Move::Report(found) => {
                let found = Found {
                    development: "report",
                    error: found,
                };
                write!(f, "{found}")
            }
        }
    }
}

/// The word that came in at a move, where this is a write that begins a serial word, with a space before it.
#[derive(Clone, Copy)]
pub(crate) struct Incoming {
    /// The move.
    pub(crate) made: Move,
    /// The word that came in.
    pub(crate) received: u32,
}

impl fmt::Display for Incoming {
    ghost output = { λ i. Some (spec.incoming_text i.made i.received) };

    fn fmt<W: fmt::Write>(&self, f: &mut fmt::Formatter<W>) -> fmt::Result {
        let received = self.received;
        match self.made {
            Move::Write(Reg::SerialData(_), _) => write!(f, " got {received}"),
            _ => f.write_str(""),
        }
    }
}

/// What an answer begins with, with a space before it.
#[derive(Clone, Copy)]
struct Headed(Head);

impl fmt::Display for Headed {
    ghost output = { λ h. Some (spec.head_text h.0) };

    fn fmt<W: fmt::Write>(&self, f: &mut fmt::Formatter<W>) -> fmt::Result {
        match self.0 {
            Head::Nothing | Head::Numbers => f.write_str(""),
            Head::Name(name) => {
                let name = name.text();
                write!(f, " {name}")
            }
            Head::ZeroNull => f.write_str(" 0 null"),
        }
    }
}

/// Numbers, each with a space before it.
#[derive(Clone, Copy)]
struct Listed<'a>(&'a [u32]);

impl fmt::Display for Listed<'_> {
    ghost output = { λ l. Some (spec.words_text l.0.now) };

    fn fmt<W: fmt::Write>(&self, f: &mut fmt::Formatter<W>) -> fmt::Result {
        for word in self.0 {
            write!(f, " {word}")?;
        }
        Ok(())
    }
}

/// An answer, with a space before each of its parts.
#[derive(Clone, Copy)]
pub(crate) struct Answered<'a> {
    /// What it begins with.
    pub(crate) head: Head,
    /// The numbers that follow.
    pub(crate) words: &'a [u32],
}

impl fmt::Display for Answered<'_> {
    ghost output = { λ a. Some (spec.head_text a.head ++ spec.words_text a.words.now) };

    fn fmt<W: fmt::Write>(&self, f: &mut fmt::Formatter<W>) -> fmt::Result {
        let head = Headed(self.head);
        let words = Listed(self.words);
        write!(f, "{head}{words}")
    }
}
