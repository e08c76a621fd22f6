//! What is done to a bench.

ghost use Rattle.std.specs.Prelude.{◌≤◌, length};

use live_session::{Session, Sights};
use mcal_config::{ConfigFault, Printed};
use serial_devices::SerialDevice;
use std::alloc::{AllocError, AllocFailed, Global};

/// The most bytes of a configuration.
const MOST_BYTES: usize = 1_048_576;

/// Why the power isn't on.
#[derive(Clone, Copy)]
pub(crate) enum Unpowered {
    /// Memory was not found.
    NoMemory,
    /// The configuration has too many bytes.
    TooLong,
    /// The configuration is refused, and what is told says why.
    Refused,
}

impl From<AllocError> for Unpowered {
    fn from(_e: AllocError) -> Unpowered {
        Unpowered::NoMemory
    }
}

impl<T: Drop> From<AllocFailed<T>> for Unpowered {
    fn from(_e: AllocFailed<T>) -> Unpowered {
        Unpowered::NoMemory
    }
}

/// Its status.
pub(crate) fn status_of(cause: Unpowered) -> u32 {
    match cause {
        Unpowered::NoMemory => 4,
        Unpowered::TooLong => 5,
        Unpowered::Refused => 6,
    }
}

/// A session under a configuration, with no device on the serial bus; where it is refused `fault` says why.
pub(crate) fn session_of<B: Sights>(
    alloc: Global,
    fault: &mut String,
    text: &[u8],
) -> Result<Session<B>, Unpowered> {
    if text.len() > MOST_BYTES {
        return Err(Unpowered::TooLong);
    }
    let mut kept = Vec::new(alloc);
    kept.extend_from_slice(text)?;
    match Session::open(alloc, kept, 0) {
        Ok(session) => Ok(session),
        Err(ConfigFault::NoMemory) => Err(Unpowered::NoMemory),
        Err(refused) => {
            let refused = Printed(refused);
            write!(fault, "configuration fault {refused}\n")?;
            Err(Unpowered::Refused)
        }
    }
}

/// Answers a line. What was told before is forgotten.
pub(crate) fn answer<B: Sights>(
    alloc: Global,
    session: &mut Session<B>,
    line: &[u8],
) -> Result<(), AllocError> {
    session.forget_told();
    let mut rack: Vec<Box<dyn SerialDevice>> = Vec::new(alloc);
    if session.answer(alloc, &mut rack, line)? {
        session.power_on(alloc, 0)?;
    }
    Ok(())
}

/// Copies bytes from a place on, as far as there is room, and tells how many.
pub(crate) fn copy_from(bytes: &[u8], at: usize, out: &mut [u8]) -> usize
    ensures { result ≤ length out.new }
{
    if at >= bytes.len() {
        return 0;
    }
    let rest = &bytes[at..];
    let count = rest.len().min(out.len());
    out[..count].copy_from_slice(&rest[..count]);
    count
}
