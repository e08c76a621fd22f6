ghost use Rattle.std.specs.Prelude.{◌≡◌};

use crate::ends::{Failed, Sink, Source};
use std::io::{ErrorKind, Read, Write};

/// How often an interrupted call is made again.
pub const RETRIES: u32 = 1_000_000;

/// A source over a reader of std. It has the bytes that the reader has left, where that tells them; it repeats an
/// interrupted call, and counts an error as a fault.
#[derive(Drop)]
pub struct StdSource<R> {
    inner: R,
    faults: u64,
}

/// A sink over a writer of std. It has taken the bytes that the writer holds, where that tells them; it repeats an
/// interrupted call, and counts an error, or a write that takes nothing, as a fault.
#[derive(Drop)]
pub struct StdSink<W> {
    inner: W,
    faults: u64,
}

impl<R: Read> StdSource<R> {
    /// A source over this reader: what it has left, with no fault so far.
    pub fn new(inner: R) -> StdSource<R>
        ensures left { ⟦<StdSource<R> as Source>⟧.left result ≡ R.remaining inner }
        ensures faults { ⟦<StdSource<R> as Source>⟧.faults result ≡ 0 }
    {
        StdSource { inner, faults: 0 }
    }
}

impl<W: Write> StdSink<W> {
    /// A sink over this writer: what it holds, with no fault so far.
    pub fn new(inner: W) -> StdSink<W>
        ensures taken { ⟦<StdSink<W> as Sink>⟧.taken result ≡ W.contents inner }
        ensures faults { ⟦<StdSink<W> as Sink>⟧.faults result ≡ 0 }
    {
        StdSink { inner, faults: 0 }
    }
}

impl<R: Read> Source for StdSource<R> {
    ghost left = { λ s. R.remaining s.inner };

    ghost faults = { λ s. s.faults };

    fn read(&mut self, buf: &mut [u8]) -> Result<usize, Failed> {
        for _ in 0..RETRIES {
            match self.inner.read(buf) {
                Ok(count) => return Ok(count),
                Err(error) => {
                    if error.kind() != ErrorKind::Interrupted {
                        break;
                    }
                }
            }
        }
        self.faults = self.faults.saturating_add(1);
        Err(Failed)
    }
}

impl<W: Write> Sink for StdSink<W> {
    ghost taken = { λ s. W.contents s.inner };

    ghost faults = { λ s. s.faults };

    fn write(&mut self, piece: &[u8]) -> Result<usize, Failed> {
        for _ in 0..RETRIES {
            match self.inner.write(piece) {
                Ok(0) => break,
                Ok(count) => return Ok(count),
                Err(error) => {
                    if error.kind() != ErrorKind::Interrupted {
                        break;
                    }
                }
            }
        }
        self.faults = self.faults.saturating_add(1);
        Err(Failed)
    }
}
