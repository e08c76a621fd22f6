ghost use Rattle.std.specs.Prelude.{length, ◌^◌, ◌<◌};

use crate::chip::Rack;
use crate::line::{Line, numbers};
use chip_model::Bus;
use driver_examples::three::{CellCall, Three, three};
use mcal_base::{Answer, Config};
use std::alloc::{AllocError, Global};
use step_runner::{Either, Stack, begin, step};

/// The number that was answered; none where it wasn't one.
pub fn number_of(answer: &Option<Answer>) -> Option<u32> {
    match answer {
        Some(answer) => match answer.words.as_slice() {
            [number] => Some(*number),
            _ => None,
        },
        None => None,
    }
}

/// Makes the first step of a call of one of three cells, and tells the number that it answered.
fn told(
    stack: &mut Stack<Three>,
    bus: &mut Bus,
    rack: &mut Rack,
    call: Either<CellCall, Either<CellCall, CellCall>>,
) -> Option<u32> {
    if stack.steps() > 1000 {
        return None;
    }
    match begin(stack, &three(), bus, call, 0) {
        Ok(()) => match step(stack, bus, rack) {
            Ok(stepped) => number_of(&stepped.ended),
            Err(_) => None,
        },
        Err(_) => None,
    }
}

/// The call of the cell of a number.
fn of_cell(cell: u32, call: CellCall) -> Either<CellCall, Either<CellCall, CellCall>> {
    match cell {
        0 => Either::Left(call),
        1 => Either::Right(Either::Left(call)),
        _ => Either::Right(Either::Right(call)),
    }
}

/// Whether the cells do as a word with its numbers says: the cell of a number takes a word, or has it.
fn follows(
    stack: &mut Stack<Three>,
    bus: &mut Bus,
    rack: &mut Rack,
    word: &str,
    numbers: [u32; 4],
) -> bool {
    let [cell, value, ..] = numbers;
    let (call, wanted) = match word {
        "put" => (of_cell(cell, CellCall::Put(value)), None),
        "get" => (of_cell(cell, CellCall::Get), Some(value)),
        _ => return false,
    };
    told(stack, bus, rack, call) == wanted
}

/// The number of the first line that the cells don't follow, from 1, and 0 where they follow all.
pub fn first_wrong(alloc: Global, lines: &[Line<'_>]) -> Result<usize, AllocError>
    requires { length lines.now < 2 ^ 20 }
{
    let (Ok(mut bus), Ok(mut stack)) = (
        Bus::new(alloc, &Config::default(), 0),
        Stack::<Three>::new(alloc),
    ) else {
        return Err(AllocError);
    };
    let mut rack = Vec::new(alloc);
    for (place, line) in lines.iter().enumerate() {
        match line {
            Line::Word(word, behind)
                if follows(&mut stack, &mut bus, &mut rack, word, numbers(behind)) => {}
            _ => return Ok(place + 1),
        }
    }
    Ok(0)
}
