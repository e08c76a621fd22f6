//! Scripts and bench files, each with what it is read as.

use bench_script::{read_script, split_file};
use std::alloc::{AllocError, Global};
use std::io;

/// How often a text of `many` stands.
const MANY: usize = 50_000;

/// The byte that a letter behind a backslash stands for.
fn escaped(letter: u8) -> u8 {
    match letter {
        b'n' => b'\n',
        b'r' => b'\r',
        b't' => b'\t',
        b'l' => 0x1F,
        b'd' => 0x7F,
        b'h' => 0xFF,
        _ => letter,
    }
}

/// The text of a case.
fn unescaped(alloc: Global, text: &[u8]) -> Result<Vec<u8>, AllocError> {
    let mut bytes = Vec::new(alloc);
    let mut is_escaped = false;
    for byte in text {
        if *byte == b'\\' && !is_escaped {
            is_escaped = true;
        } else {
            let byte = if is_escaped { escaped(*byte) } else { *byte };
            bytes.push(byte)?;
            is_escaped = false;
        }
    }
    Ok(bytes)
}

/// Prints the directives of a script, or its fault.
fn show_script(rt: &HostRuntime, text: &[u8], each: bool) -> io::Result<()> {
    if text.len() > 10_000_000 {
        return println!(rt; "too long");
    }
    match read_script(rt.alloc(), text) {
        Ok(directives) if each => {
            for directive in directives.as_slice() {
                let line = directive.line;
                let order = &directive.order;
                println!(rt; "{line} {order:?}")?;
            }
            Ok(())
        }
        Ok(directives) => {
            let count = directives.len();
            println!(rt; "{count} directives")
        }
        Err(fault) => {
            let line = fault.line();
            let kind = fault.kind_text();
            println!(rt; "{kind} {line}")
        }
    }
}

/// The same of a text that stands many times.
fn show_many(rt: &HostRuntime, text: &[u8]) -> io::Result<()> {
    let mut script = Vec::new(rt.alloc());
    for _ in 0..MANY {
        script.extend_from_slice(text)?;
    }
    show_script(rt, script.as_slice(), false)
}

/// Prints how a bench file is cut.
fn show_file(rt: &HostRuntime, text: &[u8]) -> io::Result<()> {
    match split_file(text) {
        Some((configuration, script)) => {
            let before = configuration.len();
            let after = script.len();
            println!(rt; "configuration {before} script {after}")
        }
        None => println!(rt; "no separator"),
    }
}

/// Prints a case, and what it is read as.
pub fn show(rt: &HostRuntime, case: &[u8]) -> io::Result<()> {
    let case = String::from_utf8_lossy(rt.alloc(), case)?;
    println!(rt; "{case}")?;
    let Some((word, text)) = case.as_str().split_once(' ') else {
        return println!(rt; "no case");
    };
    let text = unescaped(rt.alloc(), text.as_bytes())?;
    match word {
        "script" => show_script(rt, text.as_slice(), true),
        "many" => show_many(rt, text.as_slice()),
        "file" => show_file(rt, text.as_slice()),
        _ => println!(rt; "no case"),
    }
}
