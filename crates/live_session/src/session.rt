ghost use Rattle.std.specs.Prelude.{◌≤◌, length};

use crate::board::Board;
use crate::command::command_of;
use crate::lines::MOST_BYTES;
use crate::obey::{command, obey};
use crate::page::Page;
use crate::sights::Sights;
use crate::steps::Far;
use bench_script::{ScriptFault, read_script};
use mcal_base::Order;
use mcal_config::{ConfigFault, read_config};
use serial_devices::SerialDevice;
use std::alloc::{AllocError, Global};

/// How many interrupt lines there are.
const LINES: u32 = 32;

/// What stands now.
#[derive(Clone, Copy)]
struct State {
    /// How many frames are under way.
    depth: u32,
    /// The level of the topmost, where there is one.
    level: Option<u32>,
    /// Whether the mask is closed.
    masked: bool,
    /// The interrupt lines that are pending, a bit each.
    pending: u32,
}

/// Prints which interrupt lines are pending.
fn write_pending(page: &mut Page, pending: u32) -> Result<(), AllocError> {
    if pending == 0 {
        return Ok(());
    }
    page.text.push_str(" pending")?;
    for line in 0..LINES {
        if (pending >> line) % 2 == 1 {
            write!(page.text, " {line}")?;
        }
    }
    Ok(())
}

/// Prints how many frames are there, and the level of the top one.
fn write_frames(page: &mut Page, state: State) -> Result<(), AllocError> {
    match state.level {
        None => page.text.push_str("> 0"),
        Some(level) => {
            let depth = state.depth;
            write!(page.text, "> {depth} at {level}")
        }
    }
}

/// Prints how many frames are there, the level of the top one, whether the mask is closed, and which lines are pending.
fn write_line(page: &mut Page, state: State) -> Result<(), AllocError> {
    write_frames(page, state)?;
    if state.masked {
        page.text.push_str(" masked")?;
    }
    write_pending(page, state.pending)?;
    page.text.push_str("\n")
}

/// Prints what stands now.
fn write_state<B: Sights>(board: &Board<B>, page: &mut Page) -> Result<(), AllocError> {
    let bus = board.live.bus();
    let state = State {
        depth: board.live.depth(),
        level: board.frames.top_level(),
        masked: bus.masked(),
        pending: bus.pending_lines(),
    };
    write_line(page, state)
}

/// The directive of a line, and how far the steps of a frame go that it begins: to the frame's end, and behind the word `next`
/// until one tells something.
fn directive_of(line: &[u8]) -> (Far, &[u8])
    ensures { length result.1.now ≤ length line.now }
{
    match line.trim_ascii() {
        [b'n', b'e', b'x', b't', b' ' | b'\t', rest @ ..] => (Far::Told, rest),
        _ => (Far::Whole, line),
    }
}

/// Whether the steps that a directive makes may go so far.
fn may_go(far: Far, order: &Order) -> bool {
    match far {
        Far::Told => matches!(order, Order::Do(..) | Order::Serve(_)),
        _ => true,
    }
}

/// Obeys a line of the script language.
fn obey_line<B: Sights>(
    alloc: Global,
    board: &mut Board<B>,
    rack: &mut Vec<Box<dyn SerialDevice>>,
    page: &mut Page,
    line: &[u8],
) -> Result<(), AllocError> {
    if line.len() > MOST_BYTES {
        return page.refuse("Long");
    }
    let (far, text) = directive_of(line);
    match read_script(alloc, text) {
        Err(ScriptFault::NoMemory) => Err(AllocError),
        Err(fault) => page.refuse(fault.kind_text()),
        Ok(script) => match script.last() {
            None => Ok(()),
            Some(directive) if !may_go(far, &directive.order) => page.refuse("Word"),
            Some(directive) => {
                obey(alloc, board, rack, page, directive, far)?;
                page.close()
            }
        },
    }
}

/// A board at power on, under the configuration that a text has.
fn board_of<B: Sights>(
    alloc: Global,
    text: &[u8],
    devices: usize,
) -> Result<Board<B>, ConfigFault> {
    let config = read_config(alloc, text)?;
    match Board::new(alloc, &config, devices) {
        Ok(board) => Ok(board),
        Err(_) => Err(ConfigFault::NoMemory),
    }
}

/// A board that answers lines.
#[derive(Drop)]
pub struct Session<B: Sights> {
    /// The configuration's text.
    text: Vec<u8>,
    board: Board<B>,
    page: Page,
}

impl<B: Sights> Session<B> {
    /// A session at power on, under the configuration that a text has, and with so many devices.
    pub fn open(alloc: Global, text: Vec<u8>, devices: usize) -> Result<Session<B>, ConfigFault> {
        let board = board_of(alloc, text.as_slice(), devices)?;
        let mut page = Page::new(alloc);
        match write_state(&board, &mut page) {
            Ok(()) => Ok(Session { text, board, page }),
            Err(_) => Err(ConfigFault::NoMemory),
        }
    }

    /// Switches the board off and on.
    pub fn power_on(&mut self, alloc: Global, devices: usize) -> Result<(), AllocError> {
        match board_of(alloc, self.text.as_slice(), devices) {
            Ok(board) => {
                self.board = board;
                write_state(&self.board, &mut self.page)
            }
            Err(_) => Err(AllocError),
        }
    }

    /// Answers a line. Where the board is to be switched off and on it is told that it is, and the caller does it.
    pub fn answer(
        &mut self,
        alloc: Global,
        rack: &mut Vec<Box<dyn SerialDevice>>,
        line: &[u8],
    ) -> Result<bool, AllocError> {
        self.page.begin();
        match command_of(line) {
            Some(asked) => {
                let again = command(&mut self.board, rack, &mut self.page, asked)?;
                self.page.close()?;
                if again {
                    return Ok(true);
                }
            }
            None => obey_line(alloc, &mut self.board, rack, &mut self.page, line)?,
        }
        write_state(&self.board, &mut self.page)?;
        Ok(false)
    }

    /// Answers a line that is too long to be kept.
    pub fn refuse_long(&mut self) -> Result<(), AllocError> {
        self.page.begin();
        self.page.refuse("Long")?;
        write_state(&self.board, &mut self.page)
    }

    /// Tells what was counted.
    pub fn close(&mut self) -> Result<(), AllocError> {
        let tally = self.page.tally;
        write!(self.page.text, "{tally}")
    }

    /// What there is to tell.
    pub fn told(&self) -> &[u8] {
        self.page.text.as_bytes()
    }

    /// It was told.
    pub fn forget_told(&mut self) {
        self.page.text.clear();
    }
}
