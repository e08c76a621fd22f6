ghost use Rattle.std.specs.Prelude.{◌≡◌, ◌≤◌, ◌<◌, IfSome, option_map};
ghost use Rattle.bench_script.specs.Numbers as spec;

use crate::fault::LineFault;

/// What numbers of a script stay below.
const LIMIT: u64 = 1 << 32;

/// The value of a digit in a base.
fn digit(base: u64, byte: u8) -> Option<u64>
    ensures value { result ≡ spec.digit base byte }
    ensures small { IfSome result (λ d. d < 16) }
{
    match byte {
        b'0'..=b'9' => Some((byte - b'0') as u64),
        b'a'..=b'f' if base > 10 => Some((byte - b'a') as u64 + 10),
        b'A'..=b'F' if base > 10 => Some((byte - b'A') as u64 + 10),
        _ => None,
    }
}

/// The number that digits are, or the limit where that is less.
fn digits(base: u64, word: &[u8]) -> Option<u64>
    requires some { 0 < base }
    requires few { base ≤ 16 }
    ensures { result ≡ option_map spec.capped (spec.digits base word.now) }
{
    if word.is_empty() {
        return None;
    }
    let mut number = 0;
    for byte in word {
        number = (number * base + digit(base, *byte)?).min(LIMIT);
    }
    Some(number)
}

/// The number that a numeral is, or the limit where that is less.
pub(crate) fn numeral(word: &[u8]) -> Option<u64>
    ensures { result ≡ option_map spec.capped (spec.numeral word.now) }
{
    match word {
        [b'0', b'x', rest @ ..] => digits(16, rest),
        _ => digits(10, word),
    }
}

/// The number that a word is, if it is at most so much.
pub(crate) fn number_up_to(most: u32, word: &[u8]) -> Result<u32, LineFault>
    ensures { result ≡ spec.number_up_to most word.now }
{
    match numeral(word) {
        Some(n) if n <= most as u64 => Ok(n as u32),
        _ => Err(LineFault::Number),
    }
}
