//! Ticks, the waits of frames for a word in transfer, and the end of the watchdog's time in both.

ghost use Rattle.std.specs.Prelude.{◌≡◌, ◌<◌, ◌≤◌, ◌+◌, length};
ghost use Rattle.std.specs.Bool.{OnFalse, OnTrue};
ghost use Rattle.chip_model.specs.Chip.{Chip, CanHappen, expiry_of, stall_of};
ghost use Rattle.mcal_base.specs.declared.directive.Order.TheVariants.{Tick};
ghost use Rattle.script_runner.specs.AlongRun.{along};
ghost use Rattle.script_runner.specs.Standing.{IsStanding, HasRoom, HasTime, Obeyed, Ticked, RanDown, RanOut, Waited, left_within};
ghost use Rattle.step_runner.specs.Driver.{EndsBefore};
ghost use Rattle.step_runner.specs.Kept.{IsLooked};

use crate::caller::Caller;
use crate::parts::{RunSetup, RunState};
use chip_model::Bus;
use mcal_base::{Directive, Move, Order, Reason, Reg};
use step_runner::{hardware, run_out};

/// The time that is left for the watchdog, where it ends within so many ticks.
fn left_of(bus: &Bus, ticks: u32) -> Option<u32>
    ensures { result ≡ left_within ticks (expiry_of bus.now) }
{
    match bus.expiry() {
        Some(left) if left <= u64::from(ticks) => Some(left as u32),
        _ => None,
    }
}

/// Ticks in which the watchdog's time doesn't end.
fn tick_on<M: Caller>(course: &RunSetup<M>, line: u32, ticks: u32, parts: &mut RunState<M>)
    requires fits { (M.spec course.now.driver).fits }
    requires can { CanHappen parts.old.bus (Tick ticks) }
    requires early { EndsBefore (Tick ticks) (expiry_of parts.old.bus) }
    requires room { length parts.old.journal.entries < parts.old.journal.room }
    requires words { length parts.old.journal.words ≤ parts.old.journal.words_room }
    requires stands { along M.spec M.call_of course.now IsStanding parts.old.bus parts.old.stack.frames
        parts.old.journal.entries }
    ensures stack { parts.new.stack ≡ parts.old.stack }
    ensures ticked { along M.spec M.call_of course.now Ticked line ticks parts.old.bus parts.old.stack.frames
        parts.old.journal parts.new.bus parts.new.journal }
{
    let depth = parts.stack.depth();
    let happening = Directive {
        line,
        order: Order::Tick(ticks),
    };
    hardware(&parts.stack, &mut parts.bus, &happening);
    parts.journal.happened(line, depth, &happening.order);
}

/// Ticks to the end of the watchdog's time, which resets the chip and drops every frame.
fn run_down<M: Caller>(course: &RunSetup<M>, line: u32, left: u32, parts: &mut RunState<M>)
    requires fits { (M.spec course.now.driver).fits }
    requires can { CanHappen parts.old.bus (Tick left) }
    requires ends { expiry_of parts.old.bus ≡ Some left }
    requires room { length parts.old.journal.entries + 1 < parts.old.journal.room }
    requires words { length parts.old.journal.words ≤ parts.old.journal.words_room }
    requires stands { along M.spec M.call_of course.now IsStanding parts.old.bus parts.old.stack.frames
        parts.old.journal.entries }
    ensures { along M.spec M.call_of course.now RanDown line left parts.old.bus parts.old.stack
        parts.old.journal parts.new.bus parts.new.stack parts.new.journal }
{
    let depth = parts.stack.depth();
    parts.journal.happened(line, depth, &Order::Tick(left));
    let dropped = run_out(&mut parts.stack, &mut parts.bus, left);
    parts.journal.reset(line, depth, Reason::Watchdog, dropped);
}

/// Whether a move may wait: it reads the wait register of a unit.
fn may_wait(made: &Move) -> bool
    ensures { OnFalse result ((chip : Chip) → stall_of chip made.now ≡ 0) }
{
    matches!(made, Move::Read(Reg::SerialWait(_)))
}

/// Ticks until the top frame's next step, of this move, waits for no word. Tells whether the watchdog's time ended in them:
/// then the chip is reset, and every frame is dropped.
pub(crate) fn wait<M: Caller>(
    course: &RunSetup<M>,
    line: u32,
    parts: &mut RunState<M>,
    made: &Move,
) -> bool
    requires fits { (M.spec course.now.driver).fits }
    requires frame { 0 < length parts.old.stack.frames }
    requires looked { IsLooked M.Frame.move_of parts.old.stack.frames made.now }
    requires time { HasTime course.now.most parts.old.stack.steps parts.old.bus }
    requires room { HasRoom course.now.most parts.old.stack.steps 2 parts.old.bus parts.old.journal }
    requires stands { along M.spec M.call_of course.now IsStanding parts.old.bus parts.old.stack.frames
        parts.old.journal.entries }
    ensures stack { OnFalse result (parts.new.stack ≡ parts.old.stack) }
    ensures on { OnFalse result (along M.spec M.call_of course.now Waited M.Frame.move_of line parts.old.bus
        parts.old.stack.frames parts.old.journal parts.new.bus parts.new.journal) }
    ensures out { OnTrue result (along M.spec M.call_of course.now RanOut line parts.old.bus parts.old.stack
        parts.old.journal parts.new.bus parts.new.stack parts.new.journal) }
{
    may_wait(made) && wait_for_word(course, line, parts, made)
}

/// The same for a move that may wait.
#[cold]
#[inline(never)]
fn wait_for_word<M: Caller>(
    course: &RunSetup<M>,
    line: u32,
    parts: &mut RunState<M>,
    made: &Move,
) -> bool
    requires fits { (M.spec course.now.driver).fits }
    requires frame { 0 < length parts.old.stack.frames }
    requires looked { IsLooked M.Frame.move_of parts.old.stack.frames made.now }
    requires time { HasTime course.now.most parts.old.stack.steps parts.old.bus }
    requires room { HasRoom course.now.most parts.old.stack.steps 2 parts.old.bus parts.old.journal }
    requires stands { along M.spec M.call_of course.now IsStanding parts.old.bus parts.old.stack.frames
        parts.old.journal.entries }
    ensures stack { OnFalse result (parts.new.stack ≡ parts.old.stack) }
    ensures on { OnFalse result (along M.spec M.call_of course.now Waited M.Frame.move_of line parts.old.bus
        parts.old.stack.frames parts.old.journal parts.new.bus parts.new.journal) }
    ensures out { OnTrue result (along M.spec M.call_of course.now RanOut line parts.old.bus parts.old.stack
        parts.old.journal parts.new.bus parts.new.stack parts.new.journal) }
{
    let ticks = parts.bus.stall(made) as u32;
    if ticks == 0 {
        return false;
    }
    match left_of(&parts.bus, ticks) {
        Some(left) => {
            run_down(course, line, left, parts);
            true
        }
        None => {
            tick_on(course, line, ticks, parts);
            false
        }
    }
}

/// So many ticks, through the end of the watchdog's time where it ends in them.
pub(crate) fn obey_tick<M: Caller>(
    course: &RunSetup<M>,
    directive: &Directive,
    ticks: u32,
    parts: &mut RunState<M>,
)
    requires fits { (M.spec course.now.driver).fits }
    requires tick { directive.now.order ≡ Tick ticks }
    requires few { ticks ≤ 1000000 }
    requires time { HasTime course.now.most parts.old.stack.steps parts.old.bus }
    requires room { HasRoom course.now.most parts.old.stack.steps 3 parts.old.bus parts.old.journal }
    requires stands { along M.spec M.call_of course.now IsStanding parts.old.bus parts.old.stack.frames
        parts.old.journal.entries }
    ensures { along M.spec M.call_of course.now Obeyed course.now.most directive.now.line directive.now.order
        parts.old.bus parts.old.stack parts.old.journal parts.new.bus parts.new.stack parts.new.journal }
{
    match left_of(&parts.bus, ticks) {
        Some(left) => {
            run_down(course, directive.line, left, parts);
            if left < ticks {
                tick_on(course, directive.line, ticks - left, parts);
            }
        }
        None => tick_on(course, directive.line, ticks, parts),
    }
}
