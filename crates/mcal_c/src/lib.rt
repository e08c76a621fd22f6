//! The drivers of all modules for C: a bench behind a handle, to which lines are said, and what is told of them.
//!
//! C passes a handle that `mcal_c_open` wrote, to one call at a time.
#![tactic(auto)]

ghost use Rattle.std.specs.Prelude.{◌≤◌, length};

mod bench;
mod handle;
mod lend;

use bench::{answer, copy_from, session_of, status_of};
pub use handle::{Bench, Handle, Opaque};
use lend::{lent, opaque};
use std::alloc::Global;

/// A bench without power: `out` is its handle, where the answer is true; else memory was not found.
#[unsafe(no_mangle)]
pub extern "C" fn mcal_c_open(alloc: Global, out: &mut *mut Opaque) -> bool {
    let bench = Bench {
        session: None,
        told: String::new(alloc),
    };
    match Box::new(alloc, bench) {
        Ok(owned) => {
            *out = opaque(Box::into_raw(owned));
            true
        }
        Err(_) => false,
    }
}

/// Switches the power on under a configuration, and off before it where it was on. 0; else the power is off: 4 where memory
/// was not found, 5 where the configuration has more than 1,048,576 bytes, 6 where it is refused, and what is told says why.
#[unsafe(no_mangle)]
pub extern "C" fn mcal_c_power_on(alloc: Global, handle: &mut Handle, text: &[u8]) -> u32 {
    let bench = lent(handle);
    bench.told.clear();
    match session_of(alloc, &mut bench.told, text) {
        Ok(session) => {
            bench.session = Some(session);
            0
        }
        Err(cause) => {
            bench.session = None;
            status_of(cause)
        }
    }
}

/// Answers a line of the protocol: 0, 4 where memory was not found, 8 where the power is off.
#[unsafe(no_mangle)]
pub extern "C" fn mcal_c_line(alloc: Global, handle: &mut Handle, line: &[u8]) -> u32 {
    let bench = lent(handle);
    match &mut bench.session {
        None => 8,
        Some(session) => match answer(alloc, session, line) {
            Ok(()) => 0,
            Err(_) => 4,
        },
    }
}

/// Copies what is told, from a place on, as far as there is room for it, and answers how many bytes.
#[unsafe(no_mangle)]
pub extern "C" fn mcal_c_told(handle: &mut Handle, at: usize, out: &mut [u8]) -> usize
    ensures { result ≤ length out.new }
{
    let bench = lent(handle);
    match &bench.session {
        Some(session) => copy_from(session.told(), at, out),
        None => copy_from(bench.told.as_bytes(), at, out),
    }
}
