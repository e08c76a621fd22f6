ghost use Rattle.std.specs.Prelude.{◌≡◌, ◌+◌, ◌==◌, ◌<◌, ◌≤◌, [], ◌∷◌, ◌++◌, ℕ, List, Option, true, false, Some, None, MatchOption, IfSome, IfOk, OnOk, length, map, option_map};
ghost use Rattle.std.specs.List.{position};
ghost use Rattle.std.specs.Str.Lines.{strip_carriage_return};
ghost use Rattle.bench_script.specs.Lines as spec;
ghost use Rattle.bench_script.specs.Scanned as scanned;

use memchr::memchr;
use std::alloc::{AllocError, Global};

/// The line that ends the configuration.
const SEPARATOR: &[u8] = b"---";

/// The place of the first such byte.
fn place_of(byte: u8, text: &[u8]) -> Option<usize>
    ensures place { result ≡ position (λ b. b == byte) text.now }
    ensures within { IfSome result (λ n. n < length text.now) }
{
    memchr(byte, text)
}

/// A line without the carriage return at its end.
fn without_return(line: &[u8]) -> &[u8]
    ensures { result.now ≡ strip_carriage_return line.now }
{
    match line {
        [front @ .., b'\r'] => front,
        _ => line,
    }
}

/// What stands before the first line that is the mark, and what stands after that line.
pub fn split_at<'a>(text: &'a [u8], mark: &[u8]) -> Option<(&'a [u8], &'a [u8])>
    ensures parts { option_map (λ p. (p.0.now, p.1.now)) result ≡ spec.split_at mark.now text.now }
    ensures shorter { IfSome result (λ p. length p.0.now + length p.1.now ≤ length text.now) }
{
    let mut start = 0;
    while let Some(feed) = place_of(b'\n', &text[start..]) {
        let end = start + feed;
        if without_return(&text[start..end]) == mark {
            return Some((&text[..start], &text[end + 1..]));
        }
        start = end + 1;
    }
    if &text[start..] == mark {
        Some((&text[..start], &[]))
    } else {
        None
    }
}

/// The configuration and the script of a bench file. The first line that is `---` stands between them.
pub fn split_file(text: &[u8]) -> Option<(&[u8], &[u8])>
    ensures parts { option_map (λ p. (p.0.now, p.1.now)) result ≡ spec.file text.now }
    ensures shorter { IfSome result (λ p. length p.1.now ≤ length text.now) }
{
    split_at(text, SEPARATOR)
}

/// What comes after the line feed of a line of which the rest is a comment. Not inlined, so that the loop over a line
/// counts no more than its place.
#[inline(never)]
fn after_comment(text: &[u8]) -> &[u8]
    ensures { result.now ≡ scanned.after_line text.now }
{
    match place_of(b'\n', text) {
        Some(feed) => &text[feed + 1..],
        None => &[],
    }
}

/// What comes after a line feed at the front of a text. Not inlined, for the same reason.
#[inline(never)]
fn after_feed(text: &[u8]) -> Option<&[u8]>
    ensures { MatchOption result (scanned.begins (λ b. b == 10) text.now ≡ false) (λ after. text.now ≡ 10 ∷ after.now) }
{
    match text {
        [b'\n', after @ ..] => Some(after),
        _ => None,
    }
}

/// What comes after a line that ends at a byte, or goes on there with a comment; none where that byte is no text.
fn after_end(byte: u8, rest: &[u8]) -> Option<&[u8]>
    requires blank { spec.is_blank byte ≡ false }
    requires letter { scanned.is_letter byte ≡ false }
    ensures { MatchOption result (scanned.line_words (byte ∷ rest.now) ≡ None) (λ after. (scanned.line_words (byte ∷ rest.now) ≡ Some []) × (after.now ≡ scanned.after_line (byte ∷ rest.now))) }
{
    match byte {
        b'\n' => Some(rest),
        b'\r' => after_feed(rest),
        b'#' => Some(after_comment(rest)),
        _ => None,
    }
}

/// Whether a byte stands between words.
fn is_blank(byte: u8) -> bool
    ensures { result ≡ spec.is_blank byte }
{
    byte == b' ' || byte == b'\t'
}

/// Which bytes stand in words.
const LETTERS: [bool; 256] = [
    false, false, false, false, false, false, false, false, false, false, false, false, false,
    false, false, false, false, false, false, false, false, false, false, false, false, false,
    false, false, false, false, false, false, false, true, true, false, true, true, true, true,
    true, true, true, true, true, true, true, true, true, true, true, true, true, true, true, true,
    true, true, true, true, true, true, true, true, true, true, true, true, true, true, true, true,
    true, true, true, true, true, true, true, true, true, true, true, true, true, true, true, true,
    true, true, true, true, true, true, true, true, true, true, true, true, true, true, true, true,
    true, true, true, true, true, true, true, true, true, true, true, true, true, true, true, true,
    true, true, true, true, true, true, true, false, false, false, false, false, false, false,
    false, false, false, false, false, false, false, false, false, false, false, false, false,
    false, false, false, false, false, false, false, false, false, false, false, false, false,
    false, false, false, false, false, false, false, false, false, false, false, false, false,
    false, false, false, false, false, false, false, false, false, false, false, false, false,
    false, false, false, false, false, false, false, false, false, false, false, false, false,
    false, false, false, false, false, false, false, false, false, false, false, false, false,
    false, false, false, false, false, false, false, false, false, false, false, false, false,
    false, false, false, false, false, false, false, false, false, false, false, false, false,
    false, false, false, false, false, false, false, false, false, false, false, false, false,
    false, false, false, false, false,
];

/// Which bytes stand in words.
fn letters() -> &'static [bool]
    ensures table { scanned.is_table scanned.is_letter 0 result.now ≡ true }
    ensures size { length result.now ≡ 256 }
{
    &LETTERS
}

/// Whether a byte stands in words.
fn is_letter(byte: u8) -> bool
    ensures { result ≡ scanned.is_letter byte }
{
    letters()[byte as usize]
}

/// Keeps a word behind others, unless it is empty.
fn keep_word<'a>(words: &mut Vec<&'a [u8]>, word: &'a [u8]) -> Result<(), AllocError>
    ensures { OnOk result ((o : Option (List (List ℕ))) → option_map (λ ws. map (λ w. w.now) words.old.items ++ ws) (scanned.with_word word.now o) ≡ option_map (λ ws. map (λ w. w.now) words.new.items ++ ws) o) }
{
    if !word.is_empty() {
        words.reserve(1)?;
        words.push_reserved(word);
    }
    Ok(())
}

/// Puts the words of the first line of a text in the place of others, and gives what comes after the line; none where a
/// byte before its comment is no text. Each byte before the comment is looked at once.
pub(crate) fn line_words<'a>(
    words: &mut Vec<&'a [u8]>,
    text: &'a [u8],
) -> Result<Option<&'a [u8]>, AllocError>
    ensures { IfOk result (λ r. MatchOption r (scanned.line_words text.now ≡ None) (λ after. (scanned.line_words text.now ≡ Some (map (λ w. w.now) words.new.items)) × (after.now ≡ scanned.after_line text.now))) }
{
    words.clear();
    let mut start = 0;
    let mut place = 0;
    while place < text.len() {
        let byte = text[place];
        if !is_letter(byte) {
            keep_word(words, &text[start..place])?;
            if !is_blank(byte) {
                return Ok(after_end(byte, &text[place + 1..]));
            }
            start = place + 1;
        }
        place += 1;
    }
    keep_word(words, &text[start..])?;
    Ok(Some(&[]))
}
