use crate::tallied::{FrameName, FrameTally, Tallies};
use crate::waits::Wait;
use std::alloc::{AllocError, Global};

/// The most moves that a window may have.
const MOST_MOVES: usize = 32;

/// How a frame is called.
fn name_text(alloc: Global, name: FrameName) -> Result<String, AllocError> {
    match name {
        FrameName::Call(service) => String::from_str(alloc, service.text()),
        FrameName::Handler(line) => format!(in alloc; "handler of line {line}"),
    }
}

/// Writes what the frames of a name did.
fn put_frame(alloc: Global, text: &mut String, tally: &FrameTally) -> Result<(), AllocError> {
    let name = name_text(alloc, tally.name)?;
    let ended = tally.ended;
    let fewest = if ended == 0 { 0 } else { tally.fewest };
    let most = tally.most;
    let bound = tally.bound;
    let windows = tally.windows;
    let longest = tally.longest;
    write!(
        text,
        "{name:<28} {ended:>6} {fewest:>7} {most:>6} {bound:>6} {windows:>8} {longest:>8} {MOST_MOVES:>4}\n"
    )
}

/// Writes a wait.
fn put_wait(text: &mut String, wait: &Wait) -> Result<(), AllocError> {
    let Wait {
        line,
        asked,
        began,
        steps,
        ticks,
    } = *wait;
    write!(text, "line {line}: asked for in script line {asked}, ")?;
    match began {
        Some(began) => write!(text, "began in {began}")?,
        None => text.push_str("did not begin")?,
    }
    write!(text, ", {steps} steps and {ticks} ticks later\n")
}

/// Writes how often directives were held, those apart that no time helps.
fn put_held(text: &mut String, held: &[(String, usize)]) -> Result<(), AllocError> {
    for (cause, count) in held {
        let cause = cause.as_str();
        let why = match cause {
            "masked" | "level" | "full" => "waits: it may begin later",
            "reentry" => "refused by its class while a frame of its module is there",
            "idle" => "nothing to serve",
            _ => "can't be done",
        };
        write!(text, "held {cause:<8} {count:>6}  {why}\n")?;
    }
    Ok(())
}

/// The page of a run's counts.
pub fn stats_page(alloc: Global, tallies: &Tallies, waits: &[Wait]) -> Result<String, AllocError> {
    let mut text = String::from_str(
        alloc,
        "frame                         ended  fewest   most     of  windows  longest   of\n",
    )?;
    for tally in &tallies.frames {
        put_frame(alloc, &mut text, tally)?;
    }
    let steps = tallies.steps;
    write!(text, "steps {steps}\n")?;
    put_held(&mut text, &tallies.held)?;
    for wait in waits {
        put_wait(&mut text, wait)?;
    }
    Ok(text)
}
