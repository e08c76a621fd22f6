//! Plays tables on the crates below the drivers. Standard input has the tables, one after another; standard output says
//! of each how many lines hold, or which is the first that doesn't.
//!
//! A table begins with a line `>>> KIND TITLE`. The lines up to the next one are its own: an access as a report prints
//! it, with what it gives, or a word with numbers. A line that is empty or begins with `#` is none. The kinds:
//!
//! - `timed`: timers, pulses and captures: `tick`, `edge PIN LEVEL`, `flags` of all lines, `reset`
//! - `units`: converters and serial units: `tick`, `analog INPUT LEVEL`, `trigger`, `word UNIT WRITTEN INCOMING SENT`,
//!   `fault UNIT`, `flags`, `reset`
//! - `others`: clock, pins, RAM words, and what is selected on serial units: `tick`, `rate`, `flip PIN`,
//!   `pin PIN OUTSIDE PULSE LEVEL` (2 for no pulse output), `ram WORD VALUE`, `selected UNIT DEVICE`, `reset REASON`
//! - `chip`: the whole chip: `level PIN LEVEL`, `trigger`, `pin PIN LEVEL`, `pending LINE FLAG`, `ram`, `word`,
//!   `replay` before an access, `reset REASON`, `device NUMBER ..` (one more, which inverts words and refuses the exchanges of
//!   these numbers); `rack` is the same with two devices, of which the first inverts a word and the second gives the one
//!   before
//! - `orders`: orders and banks that drivers keep in words
//! - `enables`: the interrupt controller
//! - `errors`: a service, the conditions that hold, the last one first, and the first error
//! - `bells`: a small module's call and its handler of line 3: `call LEVEL OUTCOME` and `serve OUTCOME` (`begun`, or what
//!   holds it), `step MOVE` (`closes`, `opens`, `notes`, or what holds it), `frames COUNT`, `reset COUNT`
//! - `pair`: two such modules as one: `first LEVEL OUTCOME`, `second LEVEL OUTCOME`, `serve LINE OUTCOME`, `level LINE LEVEL`,
//!   `frames COUNT`, `clear COUNT`
//! - `cells`: the three cells of `driver_examples` (`three`): `put CELL WORD`, `get CELL WORD`
//! - `house`: the two cells of its module `guest` with their visitor: `put`, `get`, `leave WORD`, `look WORD`, `stray`,
//!   `frames COUNT`
//! - `limit`: two calls of `Gpt_Init` within so many steps: `limit STEPS ITEMS STOPPED`
#![tactic(auto)]

ghost use Rattle.std.specs.Prelude.{length, ◌≤◌};

mod bells;
mod cells;
mod chip;
mod enables;
mod errors;
mod limit;
mod line;
mod modules;
mod orders;
mod others;
mod timed;
mod units;
mod visits;

use line::Line;
use std::alloc::{AllocError, Global};
use std::io::{self, Read};
use std::str;

/// What the first line of a table begins with.
const MARK: &str = ">>> ";

/// The most lines of a table.
const MOST_LINES: usize = 1_000_000;

fn main(rt: HostRuntime) -> io::Result<()> {
    let mut text = Vec::new(rt.alloc());
    rt.stdin().read_to_end(&mut text)?;
    let Ok(text) = str::from_utf8(text.as_slice()) else {
        return println!(rt; "no text");
    };
    for table in text.split(MARK) {
        if let Some((title, lines)) = table.split_once('\n') {
            play(&rt, title, lines)?;
        }
    }
    Ok(())
}

/// The lines of a table.
fn lines_of(alloc: Global, text: &str) -> Result<Vec<Line<'_>>, AllocError> {
    let mut lines = Vec::new(alloc);
    for line in text.lines() {
        if !line.is_empty() && !line.starts_with('#') {
            lines.push(line::read(alloc, line)?)?;
        }
    }
    Ok(lines)
}

/// Plays a table and prints how that ended.
fn play(rt: &HostRuntime, title: &str, text: &str) -> io::Result<()> {
    let Some((kind, _)) = title.split_once(' ') else {
        return println!(rt; "{title}: no kind");
    };
    let lines = lines_of(rt.alloc(), text)?;
    let count = lines.len();
    if count > MOST_LINES {
        return println!(rt; "{title}: too long");
    }
    match first_wrong(rt.alloc(), kind, lines.as_slice())? {
        Some(0) => println!(rt; "{title}: {count} lines hold"),
        Some(place) => println!(rt; "{title}: line {place} doesn't hold"),
        None => println!(rt; "{title}: no kind"),
    }
}

/// The number of the first line of a table that doesn't hold, from 1, and 0 where all hold; none where no table is of
/// this kind.
fn first_wrong(alloc: Global, kind: &str, lines: &[Line<'_>]) -> Result<Option<usize>, AllocError>
    requires { length lines.now ≤ 1000000 }
{
    let place = match kind {
        "timed" => timed::first_wrong(lines),
        "units" => units::first_wrong(lines),
        "others" => others::first_wrong(lines),
        "chip" => chip::first_wrong(alloc, false, lines)?,
        "rack" => chip::first_wrong(alloc, true, lines)?,
        "orders" => orders::first_wrong(lines),
        "enables" => enables::first_wrong(lines),
        "errors" => errors::first_wrong(lines),
        "bells" => modules::first_wrong(alloc, lines)?,
        "pair" => modules::first_wrong_of_two(alloc, lines)?,
        "cells" => cells::first_wrong(alloc, lines)?,
        "house" => visits::first_wrong(alloc, lines)?,
        "limit" => limit::first_wrong(alloc, lines)?,
        _ => return Ok(None),
    };
    Ok(Some(place))
}
