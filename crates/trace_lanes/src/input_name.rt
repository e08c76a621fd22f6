ghost use Rattle.std.specs.Prelude.{◌≡◌, ◌≤◌, Some, length};
ghost use Rattle.trace_lanes.specs.InputNames as spec;

use std::fmt;

/// The most letters that a title has of a name.
const MOST_LETTERS: usize = 60;

/// How many letters stand before the two dots of a name that is cut.
const LETTERS_BEFORE_DOTS: usize = 58;

/// The name of an input, as a title has it: at most 60 letters.
#[derive(Clone, Copy)]
pub struct InputName {
    letters: [u8; MOST_LETTERS],
    count: usize,
}

/// How many bytes of a name are kept.
fn kept(text: &[u8]) -> usize
    ensures kept { result ≡ spec.kept text.now }
    ensures within { result ≤ length text.now }
    ensures few { result ≤ 60 }
{
    if text.len() <= MOST_LETTERS {
        text.len()
    } else {
        LETTERS_BEFORE_DOTS
    }
}

impl InputName {
    /// This name; of one that has more than 60 bytes the first 58, and two dots.
    pub fn of(text: &str) -> InputName
        ensures { result ≡ spec.name_of text.now }
    {
        let bytes = text.as_bytes();
        let kept = kept(bytes);
        let mut letters = [b'.'; MOST_LETTERS];
        letters[..kept].copy_from_slice(&bytes[..kept]);
        InputName {
            letters,
            count: bytes.len().min(MOST_LETTERS),
        }
    }
}

/// Whether a byte is one of the printed letters of ASCII.
fn is_printed(byte: u8) -> bool
    ensures { result ≡ spec.is_printed byte }
{
    byte >= b' ' && byte <= b'~'
}

/// A letter of a name: a question mark stands for a byte that is not printed.
#[derive(Clone, Copy)]
struct Letter(u8);

impl fmt::Display for Letter {
    ghost output = { λ l. Some (spec.letter l.0) };

    fn fmt<W: fmt::Write>(&self, f: &mut fmt::Formatter<W>) -> fmt::Result {
        let byte = self.0;
        if is_printed(byte) {
            f.write_char(byte as char)
        } else {
            f.write_str("?")
        }
    }
}

impl fmt::Display for InputName {
    ghost output = { λ n. Some (spec.name_text n) };

    fn fmt<W: fmt::Write>(&self, f: &mut fmt::Formatter<W>) -> fmt::Result {
        for byte in &self.letters[..self.count.min(MOST_LETTERS)] {
            let letter = Letter(*byte);
            write!(f, "{letter}")?;
        }
        Ok(())
    }
}
