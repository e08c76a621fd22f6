use desk_findings::places::Span;
use std::alloc::{AllocError, Global};
use std::str;

/// A word of a line.
#[derive(Clone, Copy)]
pub(crate) struct Word<'a> {
    /// Where it stands in the file.
    pub(crate) span: Span,
    /// The word.
    pub(crate) text: &'a str,
}

/// The part of a line before its comment.
pub(crate) fn before_comment(line: &[u8]) -> &[u8] {
    for (place, byte) in line.iter().enumerate() {
        if *byte == b'#' {
            return line.get(..place).unwrap_or(&[]);
        }
    }
    line
}

/// How many bytes at the front are such as may stand before a comment.
pub(crate) fn plain_len(bytes: &[u8]) -> usize {
    for (place, byte) in bytes.iter().enumerate() {
        if !matches!(*byte, b'\t' | 0x20..=0x7E) {
            return place;
        }
    }
    bytes.len()
}

/// The words of a line that begins at a place of the file.
pub(crate) fn words_of(
    alloc: Global,
    line: &[u8],
    start: usize,
) -> Result<Vec<Word<'_>>, AllocError> {
    let mut words = Vec::new(alloc);
    let mut at = start;
    for part in before_comment(line).split(|byte| matches!(*byte, b' ' | b'\t')) {
        let end = at.saturating_add(part.len());
        if !part.is_empty() {
            words.push(Word {
                span: Span { start: at, end },
                text: str::from_utf8(part).unwrap_or(""),
            })?;
        }
        at = end.saturating_add(1);
    }
    Ok(words)
}
