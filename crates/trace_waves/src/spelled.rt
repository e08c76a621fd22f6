ghost use Rattle.std.specs.Prelude.{◌≡◌, Some};
ghost use Rattle.trace_waves.specs.Spelled as spec;

use std::fmt;

/// Whether a byte stands for itself in a word of value changes.
fn is_word(byte: u8) -> bool
    ensures { result ≡ spec.is_word byte }
{
    byte >= 33 && byte <= 126 && byte != b'\\'
}

/// A byte as a word of value changes has it.
#[derive(Clone, Copy)]
struct Spelling(u8);

impl fmt::Display for Spelling {
    ghost output = { λ s. Some (spec.spell s.0) };

    fn fmt<W: fmt::Write>(&self, f: &mut fmt::Formatter<W>) -> fmt::Result {
        let byte = self.0;
        if is_word(byte) {
            f.write_char(byte as char)
        } else {
            let first = byte / 64 % 8;
            let second = byte / 8 % 8;
            let third = byte % 8;
            write!(f, "\\{first}{second}{third}")
        }
    }
}

/// A word as value changes have it.
#[derive(Clone, Copy)]
pub(crate) struct Spelled<'a>(pub(crate) &'a str);

impl fmt::Display for Spelled<'_> {
    ghost output = { λ s. Some (spec.spelled s.0.now) };

    fn fmt<W: fmt::Write>(&self, f: &mut fmt::Formatter<W>) -> fmt::Result {
        for byte in self.0.as_bytes() {
            let spelling = Spelling(*byte);
            write!(f, "{spelling}")?;
        }
        Ok(())
    }
}
