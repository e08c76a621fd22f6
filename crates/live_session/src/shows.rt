use crate::places::Section;
use crate::shown::ShownBoard;
use crate::wires::Wire;
use bench_report::{RowName, Value, write_row};
use mcal_base::{DESTINATIONS, SOURCES, STAMPS, Shown, USERS};
use std::alloc::{AllocError, Global};

/// Writes the row of so many driver words from a first one on.
fn write_words<R: ShownBoard>(
    alloc: Global,
    text: &mut String,
    board: &R,
    line: u32,
    name: RowName,
    first: u32,
    size: u32,
) -> Result<(), AllocError> {
    let mut values = Vec::new(alloc);
    for place in 0..size {
        values.push(Value::One(board.word(first.saturating_add(place))))?;
    }
    write_row(text, line, name, &values)
}

/// Writes the levels of the configured pins.
fn write_pins<R: ShownBoard>(text: &mut String, board: &R, line: u32) -> Result<(), AllocError> {
    for pin in 0..64 {
        if let Some(high) = board.level(pin) {
            let level = if high { 1 } else { 0 };
            write_row(text, line, RowName::Pin(pin), &[Value::One(level)])?;
        }
    }
    Ok(())
}

/// Writes the words of a RAM section.
fn write_section<R: ShownBoard>(
    alloc: Global,
    text: &mut String,
    board: &R,
    line: u32,
    number: u32,
    section: Section,
) -> Result<(), AllocError> {
    let mut values = Vec::new(alloc);
    for place in 0..section.size {
        values.push(Value::One(board.ram(section.first.saturating_add(place))))?;
    }
    write_row(text, line, RowName::Ram(number), &values)
}

/// Writes the words of the RAM sections.
fn write_sections<R: ShownBoard>(
    alloc: Global,
    text: &mut String,
    board: &R,
    line: u32,
) -> Result<(), AllocError> {
    let mut number = 0u32;
    for section in board.sections() {
        write_section(alloc, text, board, line, number, *section)?;
        number = number.saturating_add(1);
    }
    Ok(())
}

/// Writes the stamps of the capture channels.
fn write_captures<R: ShownBoard>(
    alloc: Global,
    text: &mut String,
    board: &R,
    line: u32,
) -> Result<(), AllocError> {
    for channel in 0..8 {
        if let Some(size) = board.stamps(channel) {
            let name = RowName::Stamps(channel);
            write_words(alloc, text, board, line, name, STAMPS + 64 * channel, size)?;
        }
    }
    Ok(())
}

/// Writes the chosen buffers of the converter groups.
fn write_groups<R: ShownBoard>(
    alloc: Global,
    text: &mut String,
    board: &R,
    line: u32,
) -> Result<(), AllocError> {
    for group in 0..16 {
        let Some((buffer, size)) = board.results(group) else {
            continue;
        };
        let first = USERS + 2_048 * (2 * group + buffer);
        let name = RowName::Results(group, buffer);
        write_words(alloc, text, board, line, name, first, size)?;
    }
    Ok(())
}

/// Writes one side of an internal serial channel.
fn write_side<R: ShownBoard>(
    alloc: Global,
    text: &mut String,
    board: &R,
    line: u32,
    channel: u32,
    received: bool,
    size: u32,
) -> Result<(), AllocError> {
    let mut values = Vec::new(alloc);
    for place in 0..size {
        values.push(Value::One(board.internal(channel, received, place)))?;
    }
    let name = if received {
        RowName::Receive(channel)
    } else {
        RowName::Transmit(channel)
    };
    write_row(text, line, name, &values)
}

/// Writes the arrays of the serial channels.
fn write_channels<R: ShownBoard>(
    alloc: Global,
    text: &mut String,
    board: &R,
    line: u32,
) -> Result<(), AllocError> {
    for number in 0..16 {
        let Some((internal, size)) = board.channel(number) else {
            continue;
        };
        let source = SOURCES + 64 * number;
        write_words(
            alloc,
            text,
            board,
            line,
            RowName::Source(number),
            source,
            size,
        )?;
        if internal {
            write_side(alloc, text, board, line, number, false, size)?;
            write_side(alloc, text, board, line, number, true, size)?;
        } else {
            let name = RowName::Destination(number);
            let first = DESTINATIONS + 64 * number;
            write_words(alloc, text, board, line, name, first, size)?;
        }
    }
    Ok(())
}

/// Writes the words on a wire.
fn write_wire(
    alloc: Global,
    text: &mut String,
    wire: &Wire,
    line: u32,
    unit: u32,
) -> Result<(), AllocError> {
    let mut values = Vec::new(alloc);
    for (sent, received) in wire.words() {
        values.push(Value::Pair(*sent, *received))?;
    }
    write_row(text, line, RowName::Wire(unit), &values)
}

/// The lines that a show prints.
pub(crate) fn shown_text<R: ShownBoard>(
    alloc: Global,
    board: &R,
    line: u32,
    shown: Shown,
) -> Result<String, AllocError> {
    let mut text = String::new(alloc);
    match shown {
        Shown::Pins => write_pins(&mut text, board, line)?,
        Shown::Ram => write_sections(alloc, &mut text, board, line)?,
        Shown::Buffers => {
            write_captures(alloc, &mut text, board, line)?;
            write_groups(alloc, &mut text, board, line)?;
            write_channels(alloc, &mut text, board, line)?;
        }
        Shown::Wire => {
            write_wire(alloc, &mut text, board.first_wire(), line, 0)?;
            write_wire(alloc, &mut text, board.second_wire(), line, 1)?;
        }
    }
    Ok(text)
}
