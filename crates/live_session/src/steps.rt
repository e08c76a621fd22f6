ghost use Rattle.std.specs.Prelude.{◌≡◌, ◌++◌, [], None, Some, IfOk, OnOk, drop, length, if◌then◌else◌};
ghost use Rattle.bench_report.specs.Lines.{Restarts};
ghost use Rattle.bench_report.specs.Report as report;
ghost use Rattle.live_board.specs.Lives.{wait_of};
ghost use Rattle.live_session.specs.Pages as pages;
ghost use Rattle.live_session.specs.Steps as spec;
ghost use Rattle.run_model.specs.Follows as follows;
ghost use Rattle.run_model.specs.Frame as model;

use crate::board::Board;
use crate::frames::Frames;
use crate::page::Page;
use crate::sights::Sights;
use bench_report::{Line, Purpose};
use irq_control::Held;
use live_board::{Live, Refusal};
use mcal_base::{Answer, Event, Move, Reason, Reg, Stop};
use run_model::Stepped;
use script_runner::Caller;
use serial_devices::SerialDevice;
use std::alloc::AllocError;

/// How far steps go.
#[derive(Clone, Copy)]
pub(crate) enum Far {
    /// So many steps.
    Count(u32),
    /// Until one is such a step.
    Until(Stop),
    /// Until one tells something.
    Told,
    /// To the frame's end.
    Whole,
}

/// What a turn of the top frame came to.
#[derive(Clone, Copy)]
pub(crate) enum Goes {
    /// A step was made, and the frame is there still.
    On,
    /// The frame is gone.
    Off,
    /// No step was made, since what is counted is used up.
    Spent,
}

/// Whether a step is one at which `upto` stops.
fn stops_at(stop: Stop, stepped: &Stepped) -> bool
    ensures { result ≡ follows.stops_at stop stepped.now }
{
    match stop {
        Stop::Act => matches!(stepped.event, Some(Event::Act)),
        Stop::Mask => matches!(stepped.made, Move::Mask),
        Stop::Unmask => matches!(stepped.made, Move::Unmask),
        Stop::Note => matches!(stepped.made, Move::Note(_)),
    }
}

/// Whether steps stop after this one, the last of so many.
fn has_reached(far: Far, made: u32, stepped: &Stepped) -> bool
    ensures reached { spec.asked far (result ≡ follows.is_reached (spec.reach_of far) made stepped.now) }
{
    match far {
        Far::Count(most) => made == most,
        Far::Until(stop) => stops_at(stop, stepped),
        Far::Told => matches!(stepped.made, Move::Note(_) | Move::Report(_)),
        Far::Whole => false,
    }
}

/// Tells that the chip was reset, and forgets what the reset dropped.
pub(crate) fn tell_reset<B: Sights>(
    board: &mut Board<B>,
    page: &mut Page,
    reason: Reason,
    dropped: u32,
) -> Result<(), AllocError>
    ensures told { OnOk result (page.new ≡ pages.say page.old (Restarts reason dropped)) }
    ensures frames { OnOk result (board.new.frames ≡ []) }
    ensures live { board.new.live ≡ board.old.live }
{
    board.forget();
    page.say(Line::Restarts(reason, dropped))
}

/// Tells of the watchdog's reset, where it dropped so many frames.
pub(crate) fn tell_watchdog<B: Sights>(
    board: &mut Board<B>,
    page: &mut Page,
    dropped: Option<u32>,
) -> Result<(), AllocError>
    ensures told { OnOk result (page.new ≡ pages.say_all page.old (spec.watchdog_lines dropped)) }
    ensures frames { OnOk result (board.new.frames ≡ spec.watchdog_frames board.old.frames dropped) }
    ensures live { board.new.live ≡ board.old.live }
{
    match dropped {
        Some(dropped) => tell_reset(board, page, Reason::Watchdog, dropped),
        None => Ok(()),
    }
}

/// Tells that no step is made, since what is counted is used up.
fn spend(page: &mut Page) -> Result<Goes, AllocError> {
    page.refuse("Spent")?;
    Ok(Goes::Spent)
}

/// Tells why no step is made.
fn refuse_step(page: &mut Page, refusal: Refusal) -> Result<Goes, AllocError> {
    tell_refusal(page, refusal)?;
    Ok(Goes::Spent)
}

/// Tells why something isn't done.
pub(crate) fn tell_refusal(page: &mut Page, refusal: Refusal) -> Result<(), AllocError>
    ensures { OnOk result (page.new ≡ spec.refusal_told page.old refusal) }
{
    match refusal {
        Refusal::Held(cause) => page.say(Line::Holds(cause)),
        Refusal::Spent => page.refuse("Spent"),
    }
}

/// Takes the topmost frame off, and tells of its end.
fn tell_end(frames: &mut Frames, page: &mut Page, answer: &Answer) -> Result<(), AllocError>
    ensures told { OnOk result (page.new ≡ pages.say_all page.old (report.end_lines frames.old (Some answer.now))) }
    ensures frames { OnOk result (frames.new ≡ drop 1 frames.old) }
{
    match frames.end() {
        Some(Purpose::Call(service)) => page.say(Line::Returns(
            service,
            answer.head,
            answer.words.as_slice(),
        )),
        Some(Purpose::Handler(line)) => page.say(Line::Leaves(line)),
        None => Ok(()),
    }
}

/// Tells of a step.
fn tell_step(page: &mut Page, traced: bool, depth: u32, stepped: &Stepped) -> Result<(), AllocError>
    ensures { OnOk result (page.new ≡ pages.say_all page.old (report.step_lines traced depth stepped.now ++ report.move_lines stepped.now.made)) }
{
    if traced {
        page.say(Line::Makes(
            depth,
            stepped.made,
            stepped.value,
            stepped.received,
            stepped.event,
        ))?;
    }
    match stepped.made {
        Move::Note(notice) => page.say(Line::Notes(notice)),
        Move::Report(found) => page.say(Line::Errs(found)),
        _ => Ok(()),
    }
}

/// Tells of the topmost frame's end, where a step made it.
fn end_of(frames: &mut Frames, page: &mut Page, stepped: &Stepped) -> Result<Goes, AllocError>
    ensures told { OnOk result (page.new ≡ pages.say_all page.old (report.end_lines frames.old stepped.now.ended)) }
    ensures frames { OnOk result (frames.new ≡ report.frames_after_end frames.old stepped.now.ended) }
    ensures goes { IfOk result (λ goes. goes ≡ spec.goes_by stepped.now.ended) }
{
    match &stepped.ended {
        Some(answer) => {
            tell_end(frames, page, answer)?;
            Ok(Goes::Off)
        }
        None => Ok(Goes::On),
    }
}

/// Whether a move resets the chip.
fn resets_chip(made: Move) -> bool
    ensures { result ≡ model.resets_chip made }
{
    matches!(made, Move::Write(Reg::ResetRequest, _))
}

/// Tells of a step that was made, and does what follows it at once.
fn follow<B: Sights>(
    board: &mut Board<B>,
    page: &mut Page,
    traced: bool,
    depth: u32,
    stepped: &Stepped,
) -> Result<Goes, AllocError>
    ensures told { OnOk result (page.new ≡ pages.say_all page.old (spec.lines_of traced depth board.old.frames (length board.old.live.kept.frames) stepped.now)) }
    ensures frames { OnOk result (board.new.frames ≡ spec.frames_of board.old.frames stepped.now) }
    ensures goes { IfOk result (λ goes. goes ≡ spec.goes_after stepped.now) }
    ensures driver { board.new.live.driver ≡ board.old.live.driver }
    ensures devices { board.new.live.devices ≡ board.old.live.devices }
    ensures live { OnOk result (spec.IsFollowed (B.Driver.spec board.old.live.driver) board.old.live board.new.live stepped.now) }
{
    board.first_wire.take(0, stepped)?;
    board.second_wire.take(1, stepped)?;
    tell_step(page, traced, depth, stepped)?;
    let goes = end_of(&mut board.frames, page, stepped)?;
    if resets_chip(stepped.made) {
        let dropped = board.live.reset(Reason::Software);
        tell_reset(board, page, Reason::Software, dropped)?;
        return Ok(Goes::Off);
    }
    Ok(goes)
}

/// The ticks that are told of a step that is printed: those for which it waits.
fn told_wait<M: Caller>(live: &Live<M>, traced: bool) -> u32
    ensures { result ≡ (if traced then wait_of M.Frame.move_of live.now.kept.frames live.now.chip else 0) }
{
    if traced { live.stall() } else { 0 }
}

/// Tells of a wait, where there was one.
fn tell_wait(page: &mut Page, ticks: u32) -> Result<(), AllocError>
    ensures { OnOk result (page.new ≡ pages.say_all page.old (spec.waits_of ticks)) }
{
    if ticks == 0 {
        return Ok(());
    }
    page.say(Line::Waits(ticks))
}

/// Takes the answer out of a step's place, where it has one: to write none over none would fill as many bytes.
fn clear(stepped: &mut Stepped)
    ensures { stepped.new.ended ≡ None }
{
    match &stepped.ended {
        Some(_) => stepped.ended = None,
        None => {}
    }
}

/// Makes one step of the top frame, after its wait.
fn one_step<B: Sights>(
    board: &mut Board<B>,
    rack: &mut Vec<Box<dyn SerialDevice>>,
    page: &mut Page,
    traced: bool,
    stepped: &mut Stepped,
) -> Result<Goes, AllocError> {
    clear(stepped);
    let ticks = told_wait(&board.live, traced);
    let dropped = match board.live.wait(stepped) {
        Ok(dropped) => dropped,
        Err(_) => return spend(page),
    };
    if dropped.is_some() {
        tell_watchdog(board, page, dropped)?;
        return Ok(Goes::Off);
    }
    let depth = board.live.depth();
    match board.live.step_on(rack, stepped) {
        Ok(()) => {
            tell_wait(page, ticks)?;
            follow(board, page, traced, depth, stepped)
        }
        Err(refusal) => refuse_step(page, refusal),
    }
}

/// Makes one step of the top frame, which is printed.
pub(crate) fn make_step<B: Sights>(
    board: &mut Board<B>,
    rack: &mut Vec<Box<dyn SerialDevice>>,
    page: &mut Page,
) -> Result<(), AllocError> {
    if board.live.depth() == 0 {
        return page.say(Line::Holds(Held::Empty));
    }
    let mut stepped = Stepped::blank();
    let _goes = one_step(board, rack, page, true, &mut stepped)?;
    Ok(())
}

/// Makes steps of the top frame as far as is asked, at least one unless none is asked for.
pub(crate) fn make_steps<B: Sights>(
    board: &mut Board<B>,
    rack: &mut Vec<Box<dyn SerialDevice>>,
    page: &mut Page,
    far: Far,
) -> Result<(), AllocError> {
    if board.live.depth() == 0 {
        return page.say(Line::Holds(Held::Empty));
    }
    if matches!(far, Far::Count(0)) {
        return Ok(());
    }
    let mut stepped = Stepped::blank();
    for made in 1..u32::MAX {
        let goes = one_step(board, rack, page, false, &mut stepped)?;
        if matches!(goes, Goes::Off | Goes::Spent) || has_reached(far, made, &stepped) {
            break;
        }
    }
    Ok(())
}
