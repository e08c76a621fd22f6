use crate::told::Told;
use bench_top::bench;
use mcal_base::{ListSource, StdSink};
use serial_devices::{PlainDevice, SerialDevice};
use std::alloc::{AllocError, Global};

/// How many bytes the bench is handed at a time.
const PIECE: usize = 4_096;

/// The words of a run.
fn words(alloc: Global, is_traced: bool) -> Result<Vec<String>, AllocError> {
    let words: &[&str] = if is_traced {
        &["run", "--trace"]
    } else {
        &["run"]
    };
    let mut owned = Vec::new(alloc);
    for word in words {
        owned.push(String::from_str(alloc, word)?)?;
    }
    Ok(owned)
}

/// Has the bench run a file, as the program `mcal_bench` does, with the same two devices: what that prints, and its
/// status.
pub fn run_bench(alloc: Global, bytes: &[u8], is_traced: bool) -> Result<Told, AllocError> {
    let words = words(alloc, is_traced)?;
    let mut rack: Vec<Box<dyn SerialDevice>> = Vec::new(alloc);
    rack.push(Box::new(alloc, PlainDevice::new(false))?)?;
    rack.push(Box::new(alloc, PlainDevice::new(true))?)?;
    let mut input = ListSource::new(bytes.to_vec(alloc)?, PIECE, Vec::new(alloc));
    let mut printed = Vec::new(alloc);
    let mut out = StdSink::new(&mut printed);
    let outcome = bench(alloc, &words, &mut input, &mut out, &mut rack);
    let status = outcome.status;
    drop(out);
    Ok(Told {
        status,
        text: String::from_utf8_lossy(alloc, &printed)?,
    })
}
