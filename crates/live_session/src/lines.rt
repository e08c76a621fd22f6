ghost use Rattle.std.specs.Prelude.{◌<◌, IfSome, length};

use mcal_base::{Failed, Source};
use memchr::memchr;
use std::alloc::{AllocError, Global};

/// The most bytes of a line, and of a configuration.
pub(crate) const MOST_BYTES: usize = 1_048_576;

/// How many bytes are read at once.
const PIECE: usize = 4_096;

/// What came next.
#[derive(Clone, Copy)]
pub(crate) enum Came {
    /// A line.
    Line,
    /// A line of more bytes than are kept.
    Long,
    /// The end of the input.
    End,
}

/// What was taken of a line.
#[derive(Clone, Copy)]
struct Taken {
    /// Whether the line ends there.
    ends: bool,
    /// Whether all of it is kept.
    is_whole: bool,
    /// How many bytes it is, with its end.
    count: usize,
}

/// Why nothing came.
#[derive(Clone, Copy)]
pub(crate) enum ReadFault {
    /// The source met a fault.
    Source,
    /// Memory was not found.
    NoMemory,
}

impl From<Failed> for ReadFault {
    fn from(_e: Failed) -> ReadFault {
        ReadFault::Source
    }
}

impl From<AllocError> for ReadFault {
    fn from(_e: AllocError) -> ReadFault {
        ReadFault::NoMemory
    }
}

/// The place of the first such byte.
pub(crate) fn place_of(byte: u8, text: &[u8]) -> Option<usize>
    ensures { IfSome result (λ place. place < length text.now) }
{
    memchr(byte, text)
}

/// Takes what a piece has of a line, between two places of it, as far as it is kept.
fn take(piece: &[u8], from: usize, to: usize, line: &mut Vec<u8>) -> Result<Taken, AllocError> {
    let left = piece.get(from..to).unwrap_or(&[]);
    let end = place_of(b'\n', left);
    let part = &left[..end.unwrap_or(left.len())];
    let room = MOST_BYTES.saturating_sub(line.len());
    let kept = &part[..part.len().min(room)];
    line.extend_from_slice(kept)?;
    Ok(Taken {
        ends: end.is_some(),
        is_whole: kept.len() == part.len(),
        count: part.len().saturating_add(1),
    })
}

/// A source, line by line.
#[derive(Drop)]
pub(crate) struct Lines<S: Source + Drop> {
    source: S,
    piece: [u8; 4096],
    at: usize,
    filled: usize,
    line: Vec<u8>,
}

impl<S: Source + Drop> Lines<S> {
    /// The lines of a source.
    pub(crate) fn new(alloc: Global, source: S) -> Lines<S> {
        Lines {
            source,
            piece: [0; PIECE],
            at: 0,
            filled: 0,
            line: Vec::new(alloc),
        }
    }

    /// Whether the source is asked for what comes next.
    pub(crate) fn waits(&self) -> bool {
        self.at >= self.filled
    }

    /// The line that came last, as it stands before its line feed.
    pub(crate) fn whole(&self) -> &[u8] {
        self.line.as_slice()
    }

    /// The line that came last, without its end.
    pub(crate) fn line(&self) -> &[u8] {
        match self.line.as_slice() {
            [front @ .., b'\r'] => front,
            line => line,
        }
    }

    /// Has the source asked for more where nothing of the piece is left. Tells whether nothing comes more.
    fn ends(&mut self) -> Result<bool, ReadFault> {
        if self.waits() {
            self.filled = self.source.read(&mut self.piece)?;
            self.at = 0;
        }
        Ok(self.waits())
    }

    /// Reads the next line. The last one may go without its end.
    pub(crate) fn next(&mut self) -> Result<Came, ReadFault> {
        self.line.clear();
        let mut is_whole = true;
        for read in 0..u64::MAX {
            if self.ends()? {
                if read == 0 {
                    return Ok(Came::End);
                }
                break;
            }
            let taken = take(&self.piece, self.at, self.filled, &mut self.line)?;
            self.at = self.at.saturating_add(taken.count);
            is_whole = is_whole && taken.is_whole;
            if taken.ends {
                break;
            }
        }
        Ok(if is_whole { Came::Line } else { Came::Long })
    }
}
