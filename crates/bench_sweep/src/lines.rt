ghost use Rattle.std.specs.Prelude.{◌≡◌, ◌==◌, ◌≤◌, ◌<◌, ◌∷◌, IfSome, length};
ghost use Rattle.std.specs.List.{position};
ghost use Rattle.std.specs.Str.Lines.{strip_carriage_return};
ghost use Rattle.bench_sweep.specs.Lines as spec;

use memchr::memchr;

/// The place of the first such byte.
pub(crate) fn place_of(byte: u8, text: &[u8]) -> Option<usize>
    ensures place { result ≡ position (λ b. b == byte) text.now }
    ensures within { IfSome result (λ n. n < length text.now) }
{
    memchr(byte, text)
}

/// The length of the part of a text before the first such byte, or of all of it where none is there.
fn length_before(byte: u8, text: &[u8]) -> usize
    ensures is { result ≡ spec.length_before byte text.now }
    ensures within { result ≤ length text.now }
{
    match place_of(byte, text) {
        Some(place) => place,
        None => text.len(),
    }
}

/// The first line of a text that is not empty, without its line feed, and what stands behind that.
#[tactic(auto, using(crate::proofs::Lining::last_line))]
pub(crate) fn split_line(text: &[u8]) -> (&[u8], &[u8])
    ensures lines { 0 < length text.now → spec.lines_in text.now ≡ result.0.now ∷ spec.lines_in result.1.now }
    ensures shorter { 0 < length text.now → length result.1.now < length text.now }
    ensures within { length result.0.now ≤ length text.now }
{
    match place_of(b'\n', text) {
        Some(feed) => (&text[..feed], &text[feed + 1..]),
        None => (text, &[]),
    }
}

/// A line without the carriage return at its end.
fn without_return(line: &[u8]) -> &[u8]
    ensures { result.now ≡ strip_carriage_return line.now }
{
    match line {
        [front @ .., b'\r'] => front,
        _ => line,
    }
}

/// What stands before a comment.
fn before_comment(line: &[u8]) -> &[u8]
    ensures { result.now ≡ spec.before_comment line.now }
{
    &line[..length_before(b'#', line)]
}

/// A text from its first word on.
fn from_first_word(text: &[u8]) -> &[u8]
    ensures { result.now ≡ spec.from_first_word text.now }
{
    let mut rest = text;
    while let [b' ' | b'\t', behind @ ..] = rest {
        rest = behind;
    }
    rest
}

/// A text up to the end of its last word.
fn up_to_last_word(text: &[u8]) -> &[u8]
    ensures { result.now ≡ spec.up_to_last_word text.now }
{
    let mut front = text;
    while let [before @ .., b' ' | b'\t'] = front {
        front = before;
    }
    front
}

/// What a line asks for: its text before a comment, without the blanks around it.
#[tactic(auto, using(crate::proofs::Lining::asked_shorter))]
pub(crate) fn asked(line: &[u8]) -> &[u8]
    ensures is { result.now ≡ spec.asked line.now }
    ensures within { length result.now ≤ length line.now }
{
    up_to_last_word(from_first_word(before_comment(without_return(line))))
}

/// Whether a byte stands around what a line asks for.
fn is_blank(byte: u8) -> bool
    ensures { result ≡ spec.is_blank byte }
{
    byte == b' ' || byte == b'\t'
}

/// The place of the first blank.
fn place_of_blank(text: &[u8]) -> Option<usize>
    ensures place { result ≡ position (λ b. spec.is_blank b) text.now }
    ensures within { IfSome result (λ n. n < length text.now) }
{
    text.iter().position(|b| is_blank(*b))
}

/// The length of the first word of a text that begins with it.
fn word_length(text: &[u8]) -> usize
    ensures is { result ≡ spec.word_length text.now }
    ensures within { result ≤ length text.now }
{
    match place_of_blank(text) {
        Some(place) => place,
        None => text.len(),
    }
}

/// The first word of a text that begins with it, and what stands behind that, from the next word on.
pub(crate) fn split_word(text: &[u8]) -> (&[u8], &[u8])
    ensures word { result.0.now ≡ spec.first_word text.now }
    ensures behind { result.1.now ≡ spec.behind_word text.now }
    ensures within { length result.1.now ≤ length text.now }
{
    let length = word_length(text);
    (&text[..length], from_first_word(&text[length..]))
}

/// What the line of a number asks for, by its number from 1. A line that is not there asks for nothing.
#[tactic(auto, using(crate::proofs::Lining::line_here, crate::proofs::Lining::line_on))]
pub fn line_text(text: &[u8], number: u32) -> &[u8]
    ensures { result.now ≡ spec.asked_at number text.now }
{
    let mut rest = text;
    let mut line = 1;
    while line < number && !rest.is_empty() {
        let (_, behind) = split_line(rest);
        rest = behind;
        line += 1;
    }
    if rest.is_empty() {
        return asked(rest);
    }
    let (first, _) = split_line(rest);
    asked(first)
}
