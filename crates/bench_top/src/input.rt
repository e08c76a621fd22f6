ghost use Rattle.std.specs.Prelude.{◌≡◌, ◌≢◌, ◌<◌, ◌≤◌, IfOk, length, vec_len};
ghost use Rattle.std.specs.Option.{IfSome};
ghost use Rattle.std.specs.Io.KnownBytes.{Consumes, IsAtEnd};
ghost use Rattle.mcal_base.specs.Causes.{Rose};

use mcal_base::{Failed, Source};
use std::alloc::Global;

/// The most bytes that an input may have.
pub const LIMIT: usize = 1_048_576;

/// Why no input came.
#[derive(Clone, Copy)]
pub enum ReadEnd {
    /// The source met a fault.
    Fault,
    /// More bytes came than an input may have.
    TooLong,
    /// Memory was not found.
    NoMemory,
}

/// Reads the input to its end, in pieces of at most 4,096 bytes, where it has no more bytes than these.
pub fn read_most<S: Source>(alloc: Global, input: &mut S, most: usize) -> Result<Vec<u8>, ReadEnd>
    ensures all { IfOk result (λ v. Consumes (S.left input.old) (S.left input.new) v.items × IsAtEnd (S.left input.new)) }
    ensures limit { IfOk result (λ v. vec_len v ≤ most) }
    ensures long { result ≡ Err ReadEnd.TooLong → IfSome (S.left input.old) (λ bytes. most < length bytes) }
    ensures fault { result ≡ Err ReadEnd.Fault → Rose (S.faults input.old) (S.faults input.new) }
    ensures later { S.faults input.old ≤ S.faults input.new }
    ensures still { result ≢ Err ReadEnd.Fault → S.faults input.new ≡ S.faults input.old }
{
    let mut bytes = Vec::new(alloc);
    let mut piece = [0u8; 4096];
    while bytes.len() <= most {
        match input.read(&mut piece) {
            Err(Failed) => return Err(ReadEnd::Fault),
            Ok(0) => return Ok(bytes),
            Ok(n) => {
                if bytes.extend_from_slice(&piece[..n]).is_err() {
                    return Err(ReadEnd::NoMemory);
                }
            }
        }
    }
    Err(ReadEnd::TooLong)
}

/// Reads the input of a bench file to its end.
pub fn read_all<S: Source>(alloc: Global, input: &mut S) -> Result<Vec<u8>, ReadEnd>
    ensures all { IfOk result (λ v. Consumes (S.left input.old) (S.left input.new) v.items × IsAtEnd (S.left input.new)) }
    ensures limit { IfOk result (λ v. vec_len v ≤ LIMIT) }
    ensures long { result ≡ Err ReadEnd.TooLong → IfSome (S.left input.old) (λ bytes. LIMIT < length bytes) }
    ensures fault { result ≡ Err ReadEnd.Fault → Rose (S.faults input.old) (S.faults input.new) }
    ensures later { S.faults input.old ≤ S.faults input.new }
    ensures still { result ≢ Err ReadEnd.Fault → S.faults input.new ≡ S.faults input.old }
{
    read_most(alloc, input, LIMIT)
}
