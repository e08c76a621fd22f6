use crate::lines::{Came, Lines, MOST_BYTES, ReadFault};
use crate::session::Session;
use crate::sights::Sights;
use mcal_base::{Failed, NoMemory, Sink, Source};
use mcal_config::{ConfigFault, Printed};
use serial_devices::{PlainDevice, SerialDevice};
use std::alloc::{AllocError, AllocFailed, Global};

/// How many devices hang on the serial units at power on.
const DEVICES: usize = 2;

/// How a session ended.
#[derive(Clone, Copy)]
pub enum End {
    /// The input ended.
    Over,
    /// The source met a fault.
    ReadFault,
    /// The sink met a fault.
    WriteFault,
    /// Memory was not found.
    NoMemory,
    /// The configuration has too many bytes.
    TooLong,
    /// The configuration is refused.
    Configuration,
    /// No line ended the configuration.
    NoSeparator,
}

impl End {
    /// What is printed last.
    fn last_words(self) -> &'static str {
        match self {
            End::ReadFault => "read fault\n",
            End::TooLong => "too long: more than 1048576 bytes\n",
            End::NoSeparator => "script fault 0 NoSeparator\n",
            End::Over | End::WriteFault | End::NoMemory | End::Configuration => "",
        }
    }
}

impl From<ReadFault> for End {
    fn from(e: ReadFault) -> End {
        match e {
            ReadFault::Source => End::ReadFault,
            ReadFault::NoMemory => End::NoMemory,
        }
    }
}

impl From<Failed> for End {
    fn from(_e: Failed) -> End {
        End::WriteFault
    }
}

impl From<NoMemory> for End {
    fn from(_e: NoMemory) -> End {
        End::NoMemory
    }
}

impl From<AllocError> for End {
    fn from(_e: AllocError) -> End {
        End::NoMemory
    }
}

impl<T: Drop> From<AllocFailed<T>> for End {
    fn from(_e: AllocFailed<T>) -> End {
        End::NoMemory
    }
}

/// Writes bytes, all of them.
fn write_all<K: Sink>(out: &mut K, bytes: &[u8]) -> Result<(), Failed> {
    let mut rest = bytes;
    for _ in 0..u64::MAX {
        if rest.is_empty() {
            break;
        }
        let written = out.write(rest)?;
        rest = &rest[written..];
    }
    Ok(())
}

/// Writes what the session has to tell.
fn write_out<K: Sink, B: Sights>(out: &mut K, session: &mut Session<B>) -> Result<(), Failed> {
    write_all(out, session.told())?;
    session.forget_told();
    Ok(())
}

/// Reads the next line of a configuration, and tells whether it is one: the line `---` ends it.
fn next_of_text<S: Source + Drop>(lines: &mut Lines<S>) -> Result<bool, End> {
    match lines.next()? {
        Came::End => Err(End::NoSeparator),
        Came::Long => Err(End::TooLong),
        Came::Line => Ok(lines.line() != b"---".as_slice()),
    }
}

/// Keeps a line of a configuration, as far as there may be more of it.
fn keep_line(text: &mut Vec<u8>, line: &[u8]) -> Result<(), End> {
    text.extend_from_slice(line)?;
    text.push(b'\n')?;
    if text.len() > MOST_BYTES {
        return Err(End::TooLong);
    }
    Ok(())
}

/// Reads the lines of a configuration, to the line `---`.
fn read_text<S: Source + Drop>(alloc: Global, lines: &mut Lines<S>) -> Result<Vec<u8>, End> {
    let mut text = Vec::new(alloc);
    for _ in 0..u64::MAX {
        if !next_of_text(lines)? {
            break;
        }
        keep_line(&mut text, lines.whole())?;
    }
    Ok(text)
}

/// Switches a board on; where its configuration is refused the fault is printed.
fn open<K: Sink, B: Sights>(alloc: Global, out: &mut K, text: Vec<u8>) -> Result<Session<B>, End> {
    match Session::open(alloc, text, DEVICES) {
        Ok(session) => Ok(session),
        Err(ConfigFault::NoMemory) => Err(End::NoMemory),
        Err(fault) => {
            let fault = Printed(fault);
            let mut told = String::new(alloc);
            write!(told, "configuration fault {fault}\n")?;
            write_all(out, told.as_bytes())?;
            Err(End::Configuration)
        }
    }
}

/// Answers line after line, to the end of the input or until the board is switched off and on; tells whether it is.
fn answer_all<S: Source + Drop, K: Sink, B: Sights>(
    alloc: Global,
    lines: &mut Lines<S>,
    out: &mut K,
    session: &mut Session<B>,
    rack: &mut Vec<Box<dyn SerialDevice>>,
) -> Result<bool, End> {
    for _ in 0..u64::MAX {
        if lines.waits() {
            write_out(out, session)?;
        }
        match lines.next()? {
            Came::End => break,
            Came::Long => session.refuse_long()?,
            Came::Line => {
                if session.answer(alloc, rack, lines.line())? {
                    return Ok(true);
                }
            }
        }
    }
    Ok(false)
}

/// Answers what comes while the power is on, with two new devices, of which the first answers each word's complement and the
/// second the word that it was sent before. Tells whether the board is switched off and on.
fn answer_powered<S: Source + Drop, K: Sink, B: Sights>(
    alloc: Global,
    lines: &mut Lines<S>,
    out: &mut K,
    session: &mut Session<B>,
) -> Result<bool, End> {
    let mut rack: Vec<Box<dyn SerialDevice>> = Vec::new(alloc);
    for echo in [false, true] {
        rack.push(Box::new(alloc, PlainDevice::new(echo))?)?;
    }
    answer_all(alloc, lines, out, session, &mut rack)
}

/// Answers what comes behind the configuration, from one power on to the next.
fn answer_on<S: Source + Drop, K: Sink, B: Sights>(
    alloc: Global,
    lines: &mut Lines<S>,
    out: &mut K,
    session: &mut Session<B>,
) -> Result<(), End> {
    for _ in 0..u64::MAX {
        if !answer_powered(alloc, lines, out, session)? {
            break;
        }
        session.power_on(alloc, DEVICES)?;
    }
    Ok(())
}

/// Tells what was counted.
fn close<K: Sink, B: Sights>(out: &mut K, session: &mut Session<B>) -> Result<(), End> {
    session.close()?;
    write_out(out, session)?;
    Ok(())
}

/// Reads a configuration, and answers what comes behind it.
fn talk<S: Source + Drop, K: Sink, B: Sights>(
    alloc: Global,
    input: S,
    out: &mut K,
) -> Result<(), End> {
    let mut lines = Lines::new(alloc, input);
    let text = read_text(alloc, &mut lines)?;
    let mut session: Session<B> = open(alloc, out, text)?;
    answer_on(alloc, &mut lines, out, &mut session)?;
    close(out, &mut session)
}

/// A session, to its end.
pub fn converse<S: Source + Drop, K: Sink, B: Sights>(alloc: Global, input: S, out: &mut K) -> End {
    match talk::<S, K, B>(alloc, input, out) {
        Ok(()) => End::Over,
        Err(end) => match write_all(out, end.last_words().as_bytes()) {
            Ok(()) => end,
            Err(_) => End::WriteFault,
        },
    }
}
