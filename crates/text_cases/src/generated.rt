//! Bench files that the generator is to make, too.

use bench_generator::{board, script};
use bench_script::{read_script, split_file};
use mcal_base::{Config, Directive};
use mcal_config::{Printed, read_config};
use std::io;

/// The seed, whose analog values pass the largest one, so that they begin anew.
const SEED: u32 = 4_090;

/// How many directives there are: those at the start and two rounds.
const COUNT: u32 = 24;

/// The most bytes of a bench file.
const MOST_BYTES: usize = 1_048_576;

/// Tells whether a configuration is the generator's board.
fn compare_boards(rt: &HostRuntime, read: &Config) -> io::Result<()> {
    let read = format!(in rt.alloc(); "{read:?}")?;
    let made = format!(in rt.alloc(); "{:?}", board())?;
    if read == made {
        println!(rt; "the board is that of the generator")
    } else {
        println!(rt; "another board\n  read {read}\n  made {made}")
    }
}

/// Tells whether directives are those of the seed.
fn compare_scripts(rt: &HostRuntime, read: &[Directive]) -> io::Result<()> {
    let Ok(made) = script(rt.alloc(), SEED, COUNT) else {
        return println!(rt; "no memory");
    };
    let count = made.len();
    let read = format!(in rt.alloc(); "{read:?}")?;
    let made = format!(in rt.alloc(); "{made:?}")?;
    if read == made {
        println!(rt; "the {count} directives are those of seed {SEED}")
    } else {
        println!(rt; "other directives\n  read {read}\n  made {made}")
    }
}

/// Tells whether the board of a bench file is the one that scripts are generated for, and its script the one of the seed.
pub fn compare(rt: &HostRuntime, text: &[u8]) -> io::Result<()> {
    if text.len() > MOST_BYTES {
        return println!(rt; "too long");
    }
    let Some((configuration, lines)) = split_file(text) else {
        return println!(rt; "no separator");
    };
    match read_config(rt.alloc(), configuration) {
        Ok(read) => compare_boards(rt, &read)?,
        Err(fault) => println!(rt; "configuration fault {}", Printed(fault))?,
    }
    match read_script(rt.alloc(), lines) {
        Ok(read) => compare_scripts(rt, read.as_slice()),
        Err(fault) => println!(rt; "script fault {fault}"),
    }
}
