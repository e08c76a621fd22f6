use crate::told::Told;
use bench_top::{FileEnd, read_file};
use desk_map::memory_map;
use std::alloc::{AllocError, Global};

/// The most bytes that a bench file may have.
const LIMIT: usize = 1_048_576;

/// Whose the driver words and the interrupt lines of a file's board are. Where the bench refuses the file, that is told.
pub fn map(alloc: Global, bytes: &[u8]) -> Result<Told, AllocError> {
    if LIMIT < bytes.len() {
        let text = String::from_str(alloc, "too long: more than 1048576 bytes\n")?;
        return Ok(Told { status: 5, text });
    }
    match read_file(alloc, bytes) {
        Ok(read) => Ok(Told {
            status: 0,
            text: memory_map(alloc, &read.config)?,
        }),
        Err(FileEnd::Refused(refusal)) => Ok(Told {
            status: refusal.status(),
            text: refusal.text(alloc)?,
        }),
        Err(FileEnd::NoMemory) => Err(AllocError),
    }
}
