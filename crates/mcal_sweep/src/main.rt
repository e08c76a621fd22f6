//! The sweep program: standard input, standard output, standard error for progress, and the words of the command line.
#![tactic(auto)]

use mcal_base::{NoMemory, StdSink, StdSource};
use std::env;
use std::io::ErrorKind;
use std::process::ExitCode;
use sweep_top::{ProgressLines, sweep};

/// The words of the command line, without the program's name. Words that are not text are of no form.
fn words(rt: &HostRuntime) -> Result<Vec<String>, NoMemory> {
    match env::args(rt) {
        Ok(words) => match words.skip(1).collect(rt.alloc()) {
            Ok(words) => Ok(words),
            Err(_) => Err(NoMemory),
        },
        Err(error) => match error.kind() {
            ErrorKind::OutOfMemory => Err(NoMemory),
            _ => Ok(Vec::new(rt.alloc())),
        },
    }
}

fn main(rt: HostRuntime) -> ExitCode {
    let Ok(words) = words(&rt) else {
        return ExitCode::from(4);
    };
    let mut input = StdSource::new(rt.stdin());
    let mut out = StdSink::new(rt.stdout());
    let mut progress = ProgressLines::new(rt.alloc(), StdSink::new(rt.stderr()));
    ExitCode::from(sweep(rt.alloc(), &words, &mut input, &mut out, &mut progress))
}
