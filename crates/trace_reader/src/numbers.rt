ghost use Rattle.std.specs.Prelude.{◌≡◌, ◌==◌, ◌≤◌, ◌<◌, IfSome, length};
ghost use Rattle.std.specs.List.{position, position_or_len};
ghost use Rattle.std.specs.Char.{is_ascii_digit};
ghost use Rattle.trace_reader.specs.Numbers as spec;

/// What numbers stay below.
const LIMIT: u64 = 1 << 32;

/// The number that digits are, where it is below 2 to the 32; 0 where there are no digits.
#[tactic(auto, using(crate::proofs::Steps::number_step, crate::proofs::Steps::number_stop))]
pub(crate) fn number(word: &[u8]) -> Option<u32>
    ensures { result ≡ spec.number word.now }
{
    let mut number: u64 = 0;
    for byte in word {
        if !byte.is_ascii_digit() {
            return None;
        }
        number = (number * 10 + (*byte - b'0') as u64).min(LIMIT);
    }
    if number < LIMIT {
        Some(number as u32)
    } else {
        None
    }
}

/// The place of the first such byte.
pub(crate) fn place_of(byte: u8, text: &[u8]) -> Option<usize>
    ensures place { result ≡ position (λ b. b == byte) text.now }
    ensures within { IfSome result (λ n. n < length text.now) }
{
    text.iter().position(|b| *b == byte)
}

/// Where the first digit of a word stands, or the word's end.
fn digit_place(word: &[u8]) -> usize
    ensures place { result ≡ position_or_len is_ascii_digit word.now }
    ensures within { result ≤ length word.now }
{
    for place in 0..word.len() {
        if word[place].is_ascii_digit() {
            return place;
        }
    }
    word.len()
}

/// Where the first byte of a word stands that is no digit, or the word's end.
fn letter_place(word: &[u8]) -> usize
    ensures place { result ≡ position_or_len spec.is_letter word.now }
    ensures within { result ≤ length word.now }
{
    for place in 0..word.len() {
        if !word[place].is_ascii_digit() {
            return place;
        }
    }
    word.len()
}

/// A word up to its first digit, and the rest.
pub(crate) fn before_digit(word: &[u8]) -> (&[u8], &[u8])
    ensures front { result.0.now ≡ spec.front is_ascii_digit word.now }
    ensures rest { result.1.now ≡ spec.rest is_ascii_digit word.now }
{
    let place = digit_place(word);
    (&word[..place], &word[place..])
}

/// A word up to its first byte that is no digit, and the rest.
pub(crate) fn before_letter(word: &[u8]) -> (&[u8], &[u8])
    ensures front { result.0.now ≡ spec.front spec.is_letter word.now }
    ensures rest { result.1.now ≡ spec.rest spec.is_letter word.now }
{
    let place = letter_place(word);
    (&word[..place], &word[place..])
}
