use mcal_base::Reason;
use std::alloc::{AllocError, Global};
use trace_reader::{Step, Told, read_line};

/// A line of a table.
#[derive(Clone, Copy)]
pub enum Line<'a> {
    /// An access, and what it gives.
    Step(Step),
    /// Another word, and what is behind it.
    Word(&'a str, &'a str),
}

/// A number: of digits, of digits of base 16 behind `0x`, or of base 2 behind `0b`.
pub fn number(word: &str) -> Option<u32> {
    if let Some(digits) = word.strip_prefix("0x") {
        return u32::from_str_radix(digits, 16).ok();
    }
    match word.strip_prefix("0b") {
        Some(digits) => u32::from_str_radix(digits, 2).ok(),
        None => u32::from_str_radix(word, 10).ok(),
    }
}

/// The numbers of a text, at most four; 0 for one that isn't there or isn't a number.
pub fn numbers(text: &str) -> [u32; 4] {
    let mut numbers = [0; 4];
    for (place, word) in text.split_ascii_whitespace().enumerate() {
        if place < 4 {
            numbers[place] = number(word).unwrap_or(0);
        }
    }
    numbers
}

/// The reason of a reset by its number, as the chip keeps it.
pub fn reason(number: u32) -> Reason {
    match number {
        0 => Reason::PowerOn,
        1 => Reason::Watchdog,
        _ => Reason::Software,
    }
}

/// An access by its words, the value in any base.
pub fn step(alloc: Global, text: &str) -> Result<Option<Step>, AllocError> {
    let Some((word, behind)) = text.split_once(' ') else {
        return Ok(None);
    };
    let Some((name, behind)) = behind.split_once(' ') else {
        return Ok(None);
    };
    let (digits, gap, rest) = match behind.split_once(' ') {
        Some((digits, rest)) => (digits, " ", rest),
        None => (behind, "", ""),
    };
    let Some(value) = number(digits) else {
        return Ok(None);
    };
    let printed = format!(in alloc; "1 step 1 {word} {name} {value}{gap}{rest}")?;
    match read_line(alloc, printed.as_bytes())? {
        Some(line) => Ok(step_of(line.told)),
        None => Ok(None),
    }
}

/// The step that a line of a report tells.
fn step_of(told: Told) -> Option<Step> {
    match told {
        Told::Step(step) => Some(step),
        _ => None,
    }
}

/// A line by its text.
pub fn read<'a>(alloc: Global, text: &'a str) -> Result<Line<'a>, AllocError> {
    if let Some(step) = step(alloc, text)? {
        return Ok(Line::Step(step));
    }
    match text.split_once(' ') {
        Some((word, rest)) => Ok(Line::Word(word, rest)),
        None => Ok(Line::Word(text, "")),
    }
}
