ghost use Rattle.std.specs.Prelude.{◌≡◌, Some};
ghost use Rattle.trace_forms.specs.Escapes as spec;

use std::fmt;

/// Whether a byte stands for itself on a page.
fn is_plain(byte: u8) -> bool
    ensures { result ≡ spec.is_plain byte }
{
    byte >= 32
        && byte <= 126
        && byte != b'&'
        && byte != b'<'
        && byte != b'>'
        && byte != b'"'
        && byte != b'\''
}

/// A byte as a page has it.
#[derive(Clone, Copy)]
struct Escape(u8);

impl fmt::Display for Escape {
    ghost output = { λ e. Some (spec.escape e.0) };

    fn fmt<W: fmt::Write>(&self, f: &mut fmt::Formatter<W>) -> fmt::Result {
        let byte = self.0;
        if is_plain(byte) {
            f.write_char(byte as char)
        } else {
            write!(f, "&#{byte};")
        }
    }
}

/// A text as a page has it.
#[derive(Clone, Copy)]
pub struct Escaped<'a>(pub &'a str);

impl fmt::Display for Escaped<'_> {
    ghost output = { λ e. Some (spec.escaped e.0.now) };

    fn fmt<W: fmt::Write>(&self, f: &mut fmt::Formatter<W>) -> fmt::Result {
        for byte in self.0.as_bytes() {
            let escape = Escape(*byte);
            write!(f, "{escape}")?;
        }
        Ok(())
    }
}
