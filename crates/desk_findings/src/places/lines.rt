use std::alloc::{AllocError, Global};

/// A part of a text: from this byte on, up to before that one.
#[derive(Clone, Copy)]
pub struct Span {
    /// Its first byte.
    pub start: usize,
    /// The byte behind its last.
    pub end: usize,
}

/// A place as a person counts it.
#[derive(Clone, Copy)]
pub struct Position {
    /// The line, from 1.
    pub line: usize,
    /// The character in the line, from 1.
    pub column: usize,
}

/// The lines of a text.
#[derive(Drop)]
pub struct Lines<'a> {
    text: &'a [u8],
    /// Where each line begins.
    starts: Vec<usize>,
}

/// How many characters some bytes are.
pub fn characters(bytes: &[u8]) -> usize {
    let mut count = 0usize;
    for byte in bytes {
        if *byte & 0xC0 != 0x80 {
            count = count.saturating_add(1);
        }
    }
    count
}

impl<'a> Lines<'a> {
    /// The lines of a text.
    pub fn of(alloc: Global, text: &'a [u8]) -> Result<Lines<'a>, AllocError> {
        let mut starts = Vec::new(alloc);
        starts.push(0)?;
        for (place, byte) in text.iter().enumerate() {
            if *byte == b'\n' {
                starts.push(place.saturating_add(1))?;
            }
        }
        Ok(Lines { text, starts })
    }

    /// The number of the line that holds a byte, from 0.
    fn index_at(&self, place: usize) -> usize {
        match self.starts.binary_search(&place) {
            Ok(index) => index,
            Err(behind) => behind.saturating_sub(1),
        }
    }

    /// How many lines there are; the last one may be empty.
    pub fn count(&self) -> usize {
        self.starts.len()
    }

    /// Where the line with this number, from 1, begins.
    pub fn start_of(&self, line: usize) -> usize {
        match self.starts.get(line.saturating_sub(1)) {
            Some(start) => *start,
            None => self.text.len(),
        }
    }

    /// The line with this number, from 1, without its end.
    pub fn line(&self, line: usize) -> &'a [u8] {
        let start = self.start_of(line);
        let end = self.start_of(line.saturating_add(1));
        match self.text.get(start..end) {
            Some([front @ .., b'\r', b'\n']) => front,
            Some([front @ .., b'\n']) => front,
            Some(whole) => whole,
            None => &[],
        }
    }

    /// The part of the text that is the line with this number, from 1, without its end.
    pub fn span_of(&self, line: usize) -> Span {
        let start = self.start_of(line);
        Span {
            start,
            end: start.saturating_add(self.line(line).len()),
        }
    }

    /// The place of a byte.
    pub fn position(&self, place: usize) -> Position {
        let line = self.index_at(place).saturating_add(1);
        let before = self.text.get(self.start_of(line)..place).unwrap_or(&[]);
        Position {
            line,
            column: characters(before).saturating_add(1),
        }
    }
}
