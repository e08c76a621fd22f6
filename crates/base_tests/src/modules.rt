ghost use Rattle.std.specs.Prelude.{length, ◌^◌, ◌<◌};

use crate::bells::{Bells, NOTICE};
use crate::chip::Rack;
use crate::line::{Line, number};
use chip_model::Bus;
use irq_control::Held;
use mcal_base::{Config, Move, Notice, NoticeKind, Reason};
use std::alloc::{AllocError, Global};
use step_runner::{Either, Module, Stack, Union, begin, enter, reset, step};

/// What a beginning came to: `begun`, or what held it.
fn begun(outcome: Result<(), Held>) -> &'static str {
    match outcome {
        Ok(()) => "begun",
        Err(held) => held.text(),
    }
}

/// What a step does: it closes the mask, opens it, or gives the notice.
fn told(made: &Move) -> &'static str {
    match made {
        Move::Mask => "closes",
        Move::Unmask => "opens",
        Move::Note(notice) => noted(notice),
        _ => "another move",
    }
}

/// Whether a notice is the module's.
fn noted(notice: &Notice) -> &'static str {
    if notice.id == NOTICE.id && matches!(notice.kind, NoticeKind::GptNotification) {
        "notes"
    } else {
        "another notice"
    }
}

/// Makes a step, and tells its move.
fn go(stack: &mut Stack<Bells>, bus: &mut Bus, rack: &mut Rack) -> &'static str {
    if stack.steps() > 1000 {
        return "too many";
    }
    match step(stack, bus, rack) {
        Ok(stepped) => told(&stepped.made),
        Err(held) => held.text(),
    }
}

/// Whether the module does as a line says: a step is made, the handler of line 3 and the call at a level begin or are held,
/// and so many frames are there, or are dropped with a reset.
fn follows(
    stack: &mut Stack<Bells>,
    bus: &mut Bus,
    rack: &mut Rack,
    word: &str,
    behind: &str,
) -> bool {
    match (word, behind.split_once(' ')) {
        ("step", _) => go(stack, bus, rack) == behind,
        ("serve", _) => begun(enter(stack, &Bells, bus, 3)) == behind,
        ("frames", _) => Some(stack.depth()) == number(behind),
        ("reset", _) => Some(reset(stack, bus, Reason::Software)) == number(behind),
        ("call", Some((level, wanted))) => {
            let level = number(level).unwrap_or(0);
            begun(begin(stack, &Bells, bus, (), level)) == wanted
        }
        _ => false,
    }
}

/// The number of the first line that the module doesn't follow, from 1, and 0 where it follows all.
pub fn first_wrong(alloc: Global, lines: &[Line<'_>]) -> Result<usize, AllocError>
    requires { length lines.now < 2 ^ 20 }
{
    let (Ok(mut bus), Ok(mut stack)) = (
        Bus::new(alloc, &Config::default(), 0),
        Stack::<Bells>::new(alloc),
    ) else {
        return Err(AllocError);
    };
    let mut rack = Vec::new(alloc);
    for (place, line) in lines.iter().enumerate() {
        match line {
            Line::Word(word, behind) if follows(&mut stack, &mut bus, &mut rack, word, behind) => {}
            _ => return Ok(place + 1),
        }
    }
    Ok(0)
}

/// Two modules as one.
type Pair = Union<Bells, Bells>;

/// Begins the call of one of the two at a level, and tells what that came to.
fn called(
    stack: &mut Stack<Pair>,
    pair: &Pair,
    bus: &Bus,
    call: Either<(), ()>,
    level: u32,
) -> &'static str {
    begun(begin(stack, pair, bus, call, level))
}

/// Whether the two modules do as a line says: the call of one of them at a level, or the handler of a line, begins or is
/// held, a line has a level, and so many frames are there, or are dropped.
fn pair_follows(stack: &mut Stack<Pair>, pair: &Pair, bus: &Bus, word: &str, behind: &str) -> bool {
    let Some((first, wanted)) = behind.split_once(' ') else {
        return match word {
            "frames" => Some(stack.depth()) == number(behind),
            "clear" => Some(stack.clear()) == number(behind),
            _ => false,
        };
    };
    let first = number(first).unwrap_or(0);
    match word {
        "first" => called(stack, pair, bus, Either::Left(()), first) == wanted,
        "second" => called(stack, pair, bus, Either::Right(()), first) == wanted,
        "serve" => begun(enter(stack, pair, bus, first)) == wanted,
        "level" => Some(pair.level(first)) == number(wanted),
        _ => false,
    }
}

/// The number of the first line that the two modules don't follow, from 1, and 0 where they follow all.
pub fn first_wrong_of_two(alloc: Global, lines: &[Line<'_>]) -> Result<usize, AllocError>
    requires { length lines.now < 2 ^ 20 }
{
    let (Ok(bus), Ok(mut stack)) = (
        Bus::new(alloc, &Config::default(), 0),
        Stack::<Pair>::new(alloc),
    ) else {
        return Err(AllocError);
    };
    let pair = Union {
        first: Bells,
        second: Bells,
    };
    for (place, line) in lines.iter().enumerate() {
        match line {
            Line::Word(word, behind) if pair_follows(&mut stack, &pair, &bus, word, behind) => {}
            _ => return Ok(place + 1),
        }
    }
    Ok(0)
}
