ghost use Rattle.std.specs.Prelude.{◌≡◌, ◌==◌, [], IfOk};
ghost use Rattle.std.specs.List.{position};
ghost use Rattle.circular_buffer.specs.Buffer.{buffer};
ghost use Rattle.bench_top.specs.Tail as spec;

use crate::words::Printing;
use circular_buffer::HeapCircularBuffer;
use std::alloc::{AllocError, Global};

/// Where the first line feed of a text stands.
fn first_feed(text: &[u8]) -> Option<usize>
    ensures { result ≡ position (λ b. b == 10) text.now }
{
    text.iter().position(|byte| *byte == b'\n')
}

/// How many bytes the first line of a text has, with its line feed.
fn first_len(text: &[u8]) -> usize
    ensures { result ≡ spec.first_len text.now }
{
    match first_feed(text) {
        Some(feed) => feed + 1,
        None => text.len(),
    }
}

/// The last lines of a text, as many as the ring has places. The ring keeps where each of them begins.
fn last_lines<'a>(starts: &mut HeapCircularBuffer<usize>, text: &'a [u8]) -> &'a [u8]
    requires { starts.old.items ≡ [] }
    ensures { result.now ≡ spec.last_lines starts.old.capacity text.now }
{
    let mut start = 0;
    while start < text.len() {
        starts.push_back(start);
        start += first_len(&text[start..]);
    }
    let first = starts.front().copied().unwrap_or(text.len());
    text.split_at(first).1
}

/// The ring for the last lines of a report, with a place for each that is asked for.
pub(crate) fn ring_for(
    alloc: Global,
    printing: Printing,
) -> Result<HeapCircularBuffer<usize>, AllocError>
    ensures { IfOk result (λ ring. ring ≡ buffer [] (spec.lines_asked printing)) }
{
    let lines = match printing {
        Printing::Tail(lines) => lines,
        _ => 0,
    };
    HeapCircularBuffer::with_capacity(alloc, lines)
}

/// What is printed of a report.
pub(crate) fn printed<'a>(
    printing: Printing,
    starts: &mut HeapCircularBuffer<usize>,
    report: &'a [u8],
) -> &'a [u8]
    requires { starts.old ≡ buffer [] (spec.lines_asked printing) }
    ensures { result.now ≡ spec.printed printing report.now }
{
    match printing {
        Printing::Tail(_) => last_lines(starts, report),
        _ => report,
    }
}
