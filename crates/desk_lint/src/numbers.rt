use bench_script::read_script;
use mcal_base::{Directive, Order};
use std::alloc::{AllocError, Global};

/// The number that a word is to the reader of scripts, if it is one.
pub(crate) fn number_of(alloc: Global, word: &str) -> Result<Option<u32>, AllocError> {
    let line = format!(in alloc; "run {word}")?;
    if line.len() > 1_000_000 {
        return Ok(None);
    }
    match read_script(alloc, line.as_bytes()) {
        Ok(directives) => Ok(run_by(&directives)),
        Err(_) => Ok(None),
    }
}

/// The number of the last directive, if it is a run.
fn run_by(directives: &[Directive]) -> Option<u32> {
    match &directives.last()?.order {
        Order::Run(number) => Some(*number),
        _ => None,
    }
}

/// Whether a word is written as a number, however large.
pub(crate) fn is_written_as_number(word: &str) -> bool {
    let (digits, is_hexadecimal) = match word.as_bytes() {
        [b'0', b'x', digits @ ..] => (digits, true),
        digits => (digits, false),
    };
    for byte in digits {
        let is_digit = if is_hexadecimal {
            byte.is_ascii_hexdigit()
        } else {
            byte.is_ascii_digit()
        };
        if !is_digit {
            return false;
        }
    }
    !digits.is_empty()
}
