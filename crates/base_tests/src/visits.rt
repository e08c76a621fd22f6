ghost use Rattle.std.specs.Prelude.{length, ◌^◌, ◌<◌};

use crate::cells::number_of;
use crate::chip::Rack;
use crate::line::{Line, numbers};
use chip_model::Bus;
use driver_examples::guest::{House, VisitorCall, house};
use driver_examples::three::CellCall;
use mcal_base::Config;
use std::alloc::{AllocError, Global};
use step_runner::{Either, Stack, begin, step};

/// Makes the first step of a call, and tells the number that it answered.
fn told(
    stack: &mut Stack<House>,
    bus: &mut Bus,
    rack: &mut Rack,
    call: Either<Either<CellCall, CellCall>, VisitorCall>,
) -> Option<u32> {
    if stack.steps() > 1000 {
        return None;
    }
    match begin(stack, &house(), bus, call, 0) {
        Ok(()) => match step(stack, bus, rack) {
            Ok(stepped) => number_of(&stepped.ended),
            Err(_) => None,
        },
        Err(_) => None,
    }
}

/// The call of the cell of a number.
fn of_cell(cell: u32, call: CellCall) -> Either<Either<CellCall, CellCall>, VisitorCall> {
    match cell {
        0 => Either::Left(Either::Left(call)),
        _ => Either::Left(Either::Right(call)),
    }
}

/// Whether the house does as a word with its numbers says: the cell of a number takes a word, or has it, the visitor leaves
/// a word in its cell, sees it there, or strays, and so many frames are there.
fn follows(
    stack: &mut Stack<House>,
    bus: &mut Bus,
    rack: &mut Rack,
    word: &str,
    numbers: [u32; 4],
) -> bool {
    let [first, second, ..] = numbers;
    let (call, wanted) = match word {
        "put" => (of_cell(first, CellCall::Put(second)), None),
        "get" => (of_cell(first, CellCall::Get), Some(second)),
        "leave" => (Either::Right(VisitorCall::Leave(first)), None),
        "look" => (Either::Right(VisitorCall::Look), Some(first)),
        "stray" => (Either::Right(VisitorCall::Stray), None),
        "frames" => return stack.depth() == first,
        _ => return false,
    };
    told(stack, bus, rack, call) == wanted
}

/// The number of the first line that the house doesn't follow, from 1, and 0 where it follows all.
pub fn first_wrong(alloc: Global, lines: &[Line<'_>]) -> Result<usize, AllocError>
    requires { length lines.now < 2 ^ 20 }
{
    let (Ok(mut bus), Ok(mut stack)) = (
        Bus::new(alloc, &Config::default(), 0),
        Stack::<House>::new(alloc),
    ) else {
        return Err(AllocError);
    };
    let mut rack = Vec::new(alloc);
    for (place, line) in lines.iter().enumerate() {
        match line {
            Line::Word(word, behind)
                if follows(&mut stack, &mut bus, &mut rack, word, numbers(behind)) => {}
            _ => return Ok(place + 1),
        }
    }
    Ok(0)
}
