//! Reads small texts from standard input and prints what each gives: scripts and bench files first, one a line, and behind
//! them configurations.
//!
//! A line that begins with `--- ` is a title, and the lines up to the next title are a configuration's text. After the title
//! comes the refusal, or the record, a line a module. The text of the title `generated` is a bench file, which is compared
//! with what the generator makes.
//!
//! A line in front of the first title is a word and a text. In the text `\n`, `\r` and `\t` stand for a line feed, a
//! carriage return and a tab, and `\l`, `\d` and `\h` for the bytes 0x1F, 0x7F and 0xFF. After the line comes what the word
//! asks for:
//!
//! - `script`: each directive with its line, or the kind of the first fault and its line
//! - `many`: the same of the text 50,000 times over, but of the directives only their number
//! - `file`: the bytes of the configuration and of the script in number, or `no separator`
#![tactic(auto)]

mod configurations;
mod generated;
mod scripts;

use std::io::{self, BufRead};

/// What the line of a title begins with.
const TITLE: &[u8] = b"--- ";

fn main(rt: HostRuntime) -> io::Result<()> {
    let mut title = String::new(rt.alloc());
    let mut text = Vec::new(rt.alloc());
    for line in rt.stdin().lock().split(rt.alloc(), b'\n') {
        let line = line?;
        if let Some(name) = line.strip_prefix(TITLE) {
            configurations::show(&rt, title.as_str(), text.as_slice())?;
            title = String::from_utf8_lossy(rt.alloc(), name)?;
            text.clear();
        } else if title.is_empty() {
            scripts::show(&rt, line.as_slice())?;
        } else {
            text.extend_from_slice(line.as_slice())?;
            text.push(b'\n')?;
        }
    }
    configurations::show(&rt, title.as_str(), text.as_slice())
}
