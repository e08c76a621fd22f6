ghost use Rattle.std.specs.Prelude.{Some};
ghost use Rattle.bench_report.specs.Lines as spec;

use crate::texts::{Answered, EventThere, Found, Incoming, MoveMade, Noticed, reason_text};
use irq_control::Held;
use mcal_base::{DevError, Event, Head, Move, Notice, Reason, Service};
use std::fmt;

/// What a line of a report says, behind the number of its script line.
#[derive(Clone, Copy)]
pub enum Line<'a> {
    /// A directive was held.
    Holds(Held),
    /// A step: the frames there, its move, the value that this gave, the word that came in, and its event.
    Makes(u32, Move, u32, u32, Option<Event>),
    /// The next step waited for a word in transfer so many ticks.
    Waits(u32),
    /// A callback was called.
    Notes(Notice),
    /// An error was reported.
    Errs(DevError),
    /// A call returned, with a head and numbers.
    Returns(Service, Head, &'a [u32]),
    /// The handler of a line ended.
    Leaves(u32),
    /// The chip was reset, and so many frames were dropped.
    Restarts(Reason, u32),
    /// Nothing else is printed.
    Done,
}

impl fmt::Display for Line<'_> {
    ghost output = { λ l. Some (spec.line_text (spec.line_of l)) };

    fn fmt<W: fmt::Write>(&self, f: &mut fmt::Formatter<W>) -> fmt::Result {
        match *self {
            Line::Holds(cause) => {
                let cause = cause.text();
                write!(f, "held {cause}")
            }
            Line::Makes(depth, made, value, received, event) => {
                let moved = MoveMade { made, value };
                let event = EventThere(event);
                let incoming = Incoming { made, received };
                write!(f, "step {depth} {moved}{event}{incoming}")
            }
            Line::Waits(ticks) => write!(f, "stall {ticks}"),
            Line::Notes(notice) => {
                let noticed = Noticed(notice);
                write!(f, "note {noticed}")
            }
            Line::Errs(found) => {
                let found = Found {
                    development: "error",
                    error: found,
                };
                write!(f, "{found}")
            }
            Line::Returns(service, head, words) => {
                let service = service.text();
                let answered = Answered { head, words };
                write!(f, "return {service}{answered}")
            }
            Line::Leaves(line) => write!(f, "left {line}"),
            Line::Restarts(reason, dropped) => {
                let reason = reason_text(reason);
                write!(f, "reset {reason} {dropped}")
            }
            Line::Done => f.write_str("ok"),
        }
    }
}
