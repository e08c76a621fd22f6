ghost use Rattle.std.specs.Prelude.{◌≡◌, ◌≢◌, OnOk, true, false, codes};
ghost use Rattle.bench_report.specs.Report.{frames_after};
ghost use Rattle.live_board.specs.Lives.{is_outside};
ghost use Rattle.live_session.specs.Answers.{IsObeyed};
ghost use Rattle.live_session.specs.Beginnings as spec;
ghost use Rattle.live_session.specs.Pages as pages;
ghost use Rattle.mcal_base.specs.declared.directive.Order.TheVariants as orders;
ghost use Rattle.mcal_base.specs.declared.directive.Reason.TheVariants.{Software};
ghost use Rattle.run_model.specs.Follows.{Gives};
ghost use Rattle.run_model.specs.Moment.{Begins, Enters};
ghost use Rattle.step_runner.specs.Kept.{cause_of};

use crate::board::Board;
use crate::command::{Command, HELP};
use crate::page::Page;
use crate::shows::shown_text;
use crate::sights::Sights;
use crate::steps::{Far, make_step, make_steps, tell_refusal, tell_reset, tell_watchdog};
use bench_report::{Line, MoveMade, RegisterName, purpose_of};
use irq_control::Held;
use mcal_base::{Directive, Move, Order, Reason, Request, Shown};
use serial_devices::SerialDevice;
use std::alloc::{AllocError, Global};

/// Begins what a directive begins, unless it is held. Tells whether it began.
fn begin<B: Sights>(
    board: &mut Board<B>,
    page: &mut Page,
    directive: &Directive,
    level: u32,
    begun: Result<(), Held>,
) -> Result<bool, AllocError>
    ensures told { OnOk result (page.new ≡ pages.say_all page.old (spec.lines_of (cause_of begun))) }
    ensures frames { OnOk result (board.new.frames ≡ frames_after directive.now.order board.old.frames (spec.said_of (cause_of begun))) }
    ensures live { board.new.live ≡ board.old.live }
{
    match begun {
        Err(cause) => {
            page.say(Line::Holds(cause))?;
            Ok(false)
        }
        Ok(()) => {
            board.frames.begin(purpose_of(&directive.order), level)?;
            Ok(true)
        }
    }
}

/// Begins a call.
fn call<B: Sights>(
    board: &mut Board<B>,
    page: &mut Page,
    directive: &Directive,
    level: u32,
    request: &Request,
) -> Result<bool, AllocError>
    ensures begins { let driver = board.old.live.driver in
        let asked = B.Driver.call_of driver request.now in
        B.Driver.has_service driver request.now.service ≡ true →
        OnOk result (spec.IsBegun (B.Driver.spec driver) directive.now.order (spec.call_held (B.Driver.spec driver) board.old.live asked level) (Begins asked level) board.old.live board.new.live board.old.frames board.new.frames page.old page.new) }
    ensures refused { B.Driver.has_service board.old.live.driver request.now.service ≡ false → OnOk result ((page.new ≡ pages.refused page.old (codes "Service")) × (board.new ≡ board.old)) }
{
    if !board.live.has(request.service) {
        page.refuse("Service")?;
        return Ok(false);
    }
    let begun = board.live.begin(level, request);
    begin(board, page, directive, level, begun)
}

/// Begins the handler of a line.
fn enter<B: Sights>(
    board: &mut Board<B>,
    page: &mut Page,
    directive: &Directive,
    line: u32,
) -> Result<bool, AllocError>
    ensures { let d = B.Driver.spec board.old.live.driver in
        OnOk result (spec.IsBegun d directive.now.order (spec.line_held d board.old.live line) (Enters line) board.old.live board.new.live board.old.frames board.new.frames page.old page.new) }
{
    let level = board.live.level(line);
    let begun = board.live.enter(line);
    begin(board, page, directive, level, begun)
}

/// Begins a call, and makes its steps as far as is asked.
fn call_whole<B: Sights>(
    board: &mut Board<B>,
    rack: &mut Vec<Box<dyn SerialDevice>>,
    page: &mut Page,
    directive: &Directive,
    level: u32,
    request: &Request,
    far: Far,
) -> Result<(), AllocError> {
    if call(board, page, directive, level, request)? {
        make_steps(board, rack, page, far)
    } else {
        Ok(())
    }
}

/// Begins the handler of a line, and makes its steps as far as is asked.
fn enter_whole<B: Sights>(
    board: &mut Board<B>,
    rack: &mut Vec<Box<dyn SerialDevice>>,
    page: &mut Page,
    directive: &Directive,
    line: u32,
    far: Far,
) -> Result<(), AllocError> {
    if enter(board, page, directive, line)? {
        make_steps(board, rack, page, far)
    } else {
        Ok(())
    }
}

/// Lets time go by.
fn tick<B: Sights>(board: &mut Board<B>, page: &mut Page, ticks: u32) -> Result<(), AllocError>
    ensures driver { board.new.live.driver ≡ board.old.live.driver }
    ensures obeyed { let driver = board.old.live.driver in let d = B.Driver.spec driver in let calls = B.Driver.call_of driver in
        OnOk result (IsObeyed d calls false (orders.Tick ticks)
        board.old.live board.new.live board.old.frames board.new.frames page.old page.new
        (λ m items. Gives d.setting calls m page.old.number (orders.Tick ticks) items)) }
{
    match board.live.tick(ticks) {
        Ok(dropped) => tell_watchdog(board, page, dropped),
        Err(_) => page.refuse("Spent"),
    }
}

/// Moves the hardware.
fn happen<B: Sights>(
    board: &mut Board<B>,
    page: &mut Page,
    directive: &Directive,
) -> Result<(), AllocError>
    ensures driver { board.new.live.driver ≡ board.old.live.driver }
    ensures obeyed { let driver = board.old.live.driver in let d = B.Driver.spec driver in let calls = B.Driver.call_of driver in
        is_outside directive.now.order ≡ true → OnOk result (IsObeyed d calls false directive.now.order
        board.old.live board.new.live board.old.frames board.new.frames page.old page.new
        (λ m items. Gives d.setting calls m page.old.number directive.now.order items)) }
{
    match board.live.happen(directive) {
        Ok(()) => Ok(()),
        Err(refusal) => tell_refusal(page, refusal),
    }
}

/// Drops the last device.
fn detach<B: Sights>(
    board: &mut Board<B>,
    rack: &mut Vec<Box<dyn SerialDevice>>,
    page: &mut Page,
) -> Result<(), AllocError>
    ensures driver { board.new.live.driver ≡ board.old.live.driver }
    ensures obeyed { let driver = board.old.live.driver in let d = B.Driver.spec driver in let calls = B.Driver.call_of driver in
        OnOk result (IsObeyed d calls false orders.Detach
        board.old.live board.new.live board.old.frames board.new.frames page.old page.new
        (λ m items. Gives d.setting calls m page.old.number orders.Detach items)) }
{
    match board.live.detach() {
        Ok(()) => {
            let _ = rack.pop();
            Ok(())
        }
        Err(cause) => page.say(Line::Holds(cause)),
    }
}

/// Resets the chip.
fn reset<B: Sights>(board: &mut Board<B>, page: &mut Page, reason: Reason) -> Result<(), AllocError>
    ensures driver { board.new.live.driver ≡ board.old.live.driver }
    ensures obeyed { let driver = board.old.live.driver in let d = B.Driver.spec driver in let calls = B.Driver.call_of driver in
        reason ≢ Software → OnOk result (IsObeyed d calls false (orders.Reset reason)
        board.old.live board.new.live board.old.frames board.new.frames page.old page.new
        (λ m items. Gives d.setting calls m page.old.number (orders.Reset reason) items)) }
{
    let dropped = board.live.reset(reason);
    tell_reset(board, page, reason, dropped)
}

/// Shows something, where no frame is under way.
fn show<B: Sights>(
    alloc: Global,
    board: &Board<B>,
    page: &mut Page,
    shown: Shown,
) -> Result<(), AllocError> {
    if board.live.depth() > 0 {
        return page.say(Line::Holds(Held::Frames));
    }
    let text = shown_text(alloc, board, page.number, shown)?;
    page.silent = page.silent && text.as_str().is_empty();
    page.text.push_str(text.as_str())
}

/// Obeys a directive of the script language. Steps of a frame that it begins go so far.
pub(crate) fn obey<B: Sights>(
    alloc: Global,
    board: &mut Board<B>,
    rack: &mut Vec<Box<dyn SerialDevice>>,
    page: &mut Page,
    directive: &Directive,
    far: Far,
) -> Result<(), AllocError> {
    match &directive.order {
        Order::Call(level, request) => {
            let _began = call(board, page, directive, *level, request)?;
            Ok(())
        }
        Order::Do(level, request) => {
            call_whole(board, rack, page, directive, *level, request, far)
        }
        Order::Enter(line) => {
            let _began = enter(board, page, directive, *line)?;
            Ok(())
        }
        Order::Serve(line) => enter_whole(board, rack, page, directive, *line, far),
        Order::Run(count) => make_steps(board, rack, page, Far::Count(*count)),
        Order::Upto(stop) => make_steps(board, rack, page, Far::Until(*stop)),
        Order::Finish => make_steps(board, rack, page, Far::Whole),
        Order::Tick(ticks) => tick(board, page, *ticks),
        Order::Detach => detach(board, rack, page),
        Order::Reset(reason) => reset(board, page, *reason),
        Order::Show(shown) => show(alloc, board, page, *shown),
        Order::Level(..)
        | Order::Analog(..)
        | Order::Trigger(_)
        | Order::Miso(..)
        | Order::SpiFault(_)
        | Order::Fill(..) => happen(board, page, directive),
    }
}

/// Prints a move that wasn't made yet: what a read or a load gives isn't known.
fn write_move(page: &mut Page, made: Move) -> Result<(), AllocError> {
    let number = page.number;
    match made {
        Move::Read(reg) => {
            let reg = RegisterName(reg);
            write!(page.text, "{number} next read {reg}")
        }
        Move::Load(word) => write!(page.text, "{number} next load w{word}"),
        made => {
            let made = MoveMade { made, value: 0 };
            write!(page.text, "{number} next {made}")
        }
    }
}

/// Prints a move that wasn't made yet, and how long it waits.
fn write_upcoming(page: &mut Page, made: Move, ticks: u32) -> Result<(), AllocError> {
    page.silent = false;
    write_move(page, made)?;
    if ticks > 0 {
        write!(page.text, " after {ticks}")?;
    }
    page.text.push_str("\n")
}

/// Prints the next move of the top frame, and how long it waits.
fn peek<B: Sights>(board: &Board<B>, page: &mut Page) -> Result<(), AllocError> {
    match board.live.upcoming() {
        Some(made) => write_upcoming(page, made, board.live.stall()),
        None => page.say(Line::Holds(Held::Empty)),
    }
}

/// Prints what may be asked for.
fn help(page: &mut Page) -> Result<(), AllocError> {
    page.silent = false;
    page.text.push_str(HELP)
}

/// Does what a command asks for, and tells whether the board is switched off and on.
pub(crate) fn command<B: Sights>(
    board: &mut Board<B>,
    rack: &mut Vec<Box<dyn SerialDevice>>,
    page: &mut Page,
    command: Command,
) -> Result<bool, AllocError> {
    match command {
        Command::Step => make_step(board, rack, page)?,
        Command::Next => make_steps(board, rack, page, Far::Told)?,
        Command::Peek => peek(board, page)?,
        Command::PowerOn => return Ok(true),
        Command::Help => help(page)?,
    }
    Ok(false)
}
