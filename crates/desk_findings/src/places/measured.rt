/// Bytes that may follow each other at the front of a text.
#[derive(Clone, Copy)]
pub(crate) enum Signs {
    /// What stands between words of a line.
    Spaces,
    /// What stands between values: spaces and ends of lines.
    Blanks,
    /// A key without quotes.
    BareKey,
    /// All up to the end of the line.
    Line,
}

impl Signs {
    /// Whether a byte is one of them.
    fn has(self, byte: u8) -> bool {
        match self {
            Signs::Spaces => matches!(byte, b' ' | b'\t'),
            Signs::Blanks => matches!(byte, b' ' | b'\t' | b'\n' | b'\r'),
            Signs::BareKey => byte.is_ascii_alphanumeric() || matches!(byte, b'_' | b'-'),
            Signs::Line => byte != b'\n',
        }
    }

    /// How many bytes at the front are such.
    pub(crate) fn count_in(self, bytes: &[u8]) -> usize {
        for (place, byte) in bytes.iter().enumerate() {
            if !self.has(*byte) {
                return place;
            }
        }
        bytes.len()
    }
}

/// How many bytes at the front are a value without quotes, spaces at its end left out.
pub(crate) fn plain_len(bytes: &[u8]) -> usize {
    let mut len = 0usize;
    let mut seen = 0usize;
    for byte in bytes {
        seen = seen.saturating_add(1);
        match byte {
            b',' | b']' | b'}' | b'#' | b'\n' | b'\r' => return len,
            b' ' | b'\t' => {}
            _ => len = seen,
        }
    }
    len
}

/// How many bytes are a string of one line behind its first quote, with its last.
fn behind_quote(bytes: &[u8], quote: u8) -> usize {
    let mut len = 0usize;
    let mut escaped = false;
    for byte in bytes {
        len = len.saturating_add(1);
        if escaped {
            escaped = false;
        } else if *byte == b'\\' && quote == b'"' {
            escaped = true;
        } else if *byte == quote || *byte == b'\n' {
            return len;
        }
    }
    len
}

/// How many bytes are a string of many lines behind its first quotes, with its last.
fn behind_quotes(bytes: &[u8], quote: u8) -> usize {
    let mut len = 0usize;
    let mut quotes = 0u8;
    for byte in bytes {
        len = len.saturating_add(1);
        quotes = if *byte == quote {
            quotes.saturating_add(1)
        } else {
            0
        };
        if quotes == 3 {
            return len;
        }
    }
    len
}

/// How many bytes at the front are a string with its quotes.
pub(crate) fn quoted_len(bytes: &[u8]) -> usize {
    match bytes {
        [b'"', b'"', b'"', rest @ ..] => behind_quotes(rest, b'"').saturating_add(3),
        [b'\'', b'\'', b'\'', rest @ ..] => behind_quotes(rest, b'\'').saturating_add(3),
        [quote, rest @ ..] => behind_quote(rest, *quote).saturating_add(1),
        [] => 0,
    }
}
