ghost use Rattle.std.specs.Prelude.{◌≡◌, ◌≢◌, ◌<◌, ◌≤◌, Err, IfOk, OnOk, OnErr, length, vec_len};
ghost use Rattle.std.specs.Option.{IfSome};
ghost use Rattle.std.specs.Io.KnownBytes.{Appends, Consumes, IsAtEnd};
ghost use Rattle.mcal_base.specs.Causes.{Rose};
ghost use Rattle.trace_drawing.specs.Outcomes.{WritesFront};

use mcal_base::{Failed, Sink, Source};
use std::alloc::Global;

/// The most bytes that an input may have.
pub(crate) const LIMIT: usize = 268_435_456;

/// Why no input came.
#[derive(Clone, Copy)]
pub(crate) enum ReadEnd {
    /// The source met a fault.
    Fault,
    /// More bytes came than an input may have.
    TooLong,
    /// Memory was not found.
    NoMemory,
}

/// Reads the input to its end, in pieces of at most 4,096 bytes.
pub(crate) fn read_all<S: Source>(alloc: Global, input: &mut S) -> Result<Vec<u8>, ReadEnd>
    ensures all { IfOk result (λ v. Consumes (S.left input.old) (S.left input.new) v.items × IsAtEnd (S.left input.new)) }
    ensures limit { IfOk result (λ v. vec_len v ≤ LIMIT) }
    ensures long { result ≡ Err ReadEnd.TooLong → IfSome (S.left input.old) (λ bytes. LIMIT < length bytes) }
    ensures fault { result ≡ Err ReadEnd.Fault → Rose (S.faults input.old) (S.faults input.new) }
    ensures later { S.faults input.old ≤ S.faults input.new }
    ensures still { result ≢ Err ReadEnd.Fault → S.faults input.new ≡ S.faults input.old }
{
    let mut bytes = Vec::new(alloc);
    let mut piece = [0u8; 4096];
    while bytes.len() <= LIMIT {
        match input.read(&mut piece) {
            Err(Failed) => return Err(ReadEnd::Fault),
            Ok(0) => return Ok(bytes),
            Ok(n) => {
                if bytes.extend_from_slice(&piece[..n]).is_err() {
                    return Err(ReadEnd::NoMemory);
                }
            }
        }
    }
    Err(ReadEnd::TooLong)
}

/// Writes all the bytes; each write is handed all that is left.
pub(crate) fn write_all<K: Sink>(out: &mut K, bytes: &[u8]) -> Result<(), Failed>
    ensures all { OnOk result (Appends (K.taken out.old) (K.taken out.new) bytes.now) }
    ensures still { OnOk result (K.faults out.new ≡ K.faults out.old) }
    ensures prefix { OnErr result (WritesFront (K.taken out.old) (K.taken out.new) bytes.now) }
    ensures fault { OnErr result (Rose (K.faults out.old) (K.faults out.new)) }
{
    let mut done = 0;
    while done < bytes.len() {
        done += out.write(&bytes[done..])?;
    }
    Ok(())
}
