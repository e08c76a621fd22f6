ghost use Rattle.std.specs.Prelude.{ℕ, ◌≡◌, ◌<◌, ◌≤◌, ◌+◌, ◌∷◌, length, IfOk, OnOk, OnErr, None, ◌||◌, is_some, map, vec_len};
ghost use Rattle.std.specs.Bool.{OnFalse, OnTrue};
ghost use Rattle.mcal_base.specs.declared.directive.Order.{Order};
ghost use Rattle.run_model.specs.Entry as entry;
ghost use Rattle.run_model.specs.Follows as follows;
ghost use Rattle.run_model.specs.Follows.{GoesOn, is_reached};
ghost use Rattle.run_model.specs.Frame.{resets_chip};
ghost use Rattle.run_model.specs.Stops.{GoesToStop};
ghost use Rattle.script_runner.specs.AlongRun.{along};
ghost use Rattle.script_runner.specs.Standing.{Called, IsStanding, HasRoom, HasTime, TookStep, RanOut, Waited, WentFar, IsStuck};

use crate::caller::Caller;
use crate::parts::{RunSetup, RunState};
use crate::ticks::wait;
use mcal_base::{Event, Move, Reason, Reg, Stop};
use run_model::{Stepped, StopCondition};
use serial_devices::SerialDevice;
use step_runner::{reset, step_into};

/// A step past the most of a run would be taken.
#[derive(Clone, Copy)]
pub struct TooLong;

/// Whether a step is one at which `upto` stops.
fn stops_at(stop: Stop, stepped: &Stepped) -> bool
    ensures { result ≡ follows.stops_at stop stepped.now }
{
    match stop {
        Stop::Act => matches!(stepped.event, Some(Event::Act)),
        Stop::Mask => matches!(stepped.made, Move::Mask),
        Stop::Unmask => matches!(stepped.made, Move::Unmask),
        Stop::Note => matches!(stepped.made, Move::Note(_)),
    }
}

/// Whether a directive stops after this step, the last of so many.
fn has_reached(reach: StopCondition, made: u32, stepped: &Stepped) -> bool
    ensures { result ≡ is_reached reach made stepped.now }
{
    match reach {
        StopCondition::Count(most) => made == most,
        StopCondition::Until(stop) => stops_at(stop, stepped),
        StopCondition::Whole => false,
    }
}

/// Whether the steps end after this one, the last of so many: the frame ended, or the directive stops.
fn stops_after(reach: StopCondition, made: u32, stepped: &Stepped) -> bool
    ensures { result ≡ is_some stepped.now.ended || is_reached reach made stepped.now }
{
    stepped.ended.is_some() || has_reached(reach, made, stepped)
}

/// Whether a move resets the chip.
fn is_reset(made: &Move) -> bool
    ensures { result ≡ resets_chip made.now }
{
    matches!(made, Move::Write(Reg::ResetRequest, _))
}

/// An answer has at most 64 words.
fn answer_is_short(stepped: &Stepped) -> usize
    ensures { length (entry.words_of_answer stepped.now.ended) ≤ 64 }
{
    match &stepped.ended {
        None => 0,
        Some(answer) => answer.words.len(),
    }
}

/// Takes a step of the top frame, after its wait, and notes it, unless so many were taken. The step is written to a place
/// that holds no answer. Tells whether it was taken: it isn't where the watchdog's time ends in the wait.
#[inline(always)]
pub(crate) fn take_step<M: Caller>(
    course: &RunSetup<M>,
    script_line: u32,
    parts: &mut RunState<M>,
    rack: &mut Vec<Box<dyn SerialDevice>>,
    stepped: &mut Stepped,
) -> Result<bool, TooLong>
    requires fits { (M.spec course.now.driver).fits }
    requires hung { vec_len rack.old ≡ parts.old.bus.devices }
    requires limit { course.now.most < 4294967295 }
    requires frame { 0 < length parts.old.stack.frames }
    requires time { HasTime course.now.most parts.old.stack.steps parts.old.bus }
    requires room { HasRoom course.now.most parts.old.stack.steps 2 parts.old.bus parts.old.journal }
    requires stands { along M.spec M.call_of course.now IsStanding parts.old.bus parts.old.stack.frames
        parts.old.journal.entries }
    requires free { stepped.old.ended ≡ None }
    ensures took { IfOk result (λ taken. OnTrue taken (along M.spec M.call_of course.now TookStep
        course.now.most script_line parts.old.bus parts.old.stack parts.old.journal stepped.new parts.new.bus
        parts.new.stack parts.new.journal)) }
    ensures out { IfOk result (λ taken. OnFalse taken (along M.spec M.call_of course.now RanOut script_line
        parts.old.bus parts.old.stack parts.old.journal parts.new.bus parts.new.stack parts.new.journal)) }
    ensures too_long { OnErr result ((parts.new.stack ≡ parts.old.stack) × (parts.old.stack.steps ≡
        course.now.most) × along M.spec M.call_of course.now Waited M.Frame.move_of script_line parts.old.bus
        parts.old.stack.frames parts.old.journal parts.new.bus parts.new.journal) }
    ensures hung { vec_len rack.new ≡ parts.new.bus.devices }
    ensures calls { along M.spec M.call_of course.now Called parts.old.journal.entries
        parts.new.journal.entries (map (λ d. line d) rack.old.items) (map (λ d. line d) rack.new.items) }
{
    parts.stack.look(stepped);
    if wait(course, script_line, parts, &stepped.made) {
        return Ok(false);
    }
    if parts.stack.steps() == course.most {
        return Err(TooLong);
    }
    let depth = parts.stack.depth();
    match step_into(&mut parts.stack, &mut parts.bus, rack, stepped) {
        Ok(()) => {
            let _words = answer_is_short(stepped);
            parts.journal.stepped(script_line, depth, stepped);
            Ok(true)
        }
        Err(_) => unreachable!(),
    }
}

/// Steps the top frame as far as a directive reaches, which is at least one step.
pub(crate) fn run_steps<M: Caller>(
    course: &RunSetup<M>,
    script_line: u32,
    reach: StopCondition,
    parts: &mut RunState<M>,
    rack: &mut Vec<Box<dyn SerialDevice>>,
) -> Result<(), TooLong>
    requires fits { (M.spec course.now.driver).fits }
    requires hung { vec_len rack.old ≡ parts.old.bus.devices }
    requires limit { course.now.most < 4294967295 }
    requires frame { 0 < length parts.old.stack.frames }
    requires time { HasTime course.now.most parts.old.stack.steps parts.old.bus }
    requires room { HasRoom course.now.most parts.old.stack.steps 2 parts.old.bus parts.old.journal }
    requires stands { along M.spec M.call_of course.now IsStanding parts.old.bus parts.old.stack.frames
        parts.old.journal.entries }
    ensures went { OnOk result (along M.spec M.call_of course.now WentFar course.now.most script_line reach
        parts.old.bus parts.old.stack parts.old.journal parts.new.bus parts.new.stack parts.new.journal) }
    ensures too_long { along M.spec M.call_of course.now (λ d first calls script.
        OnErr result (IsStuck d first calls script course.now.most 0 parts.old.stack parts.old.journal
        parts.new.bus parts.new.stack parts.new.journal
        (λ m items. GoesToStop d.setting script_line reach 0 m items))) }
    ensures hung { vec_len rack.new ≡ parts.new.bus.devices }
    ensures calls { along M.spec M.call_of course.now Called parts.old.journal.entries
        parts.new.journal.entries (map (λ d. line d) rack.old.items) (map (λ d. line d) rack.new.items) }
{
    let mut made = 0u32;
    let mut stepped = Stepped::blank();
    loop {
        match take_step(course, script_line, parts, rack, &mut stepped) {
            Ok(true) => {}
            Ok(false) => return Ok(()),
            Err(TooLong) => return Err(TooLong),
        }
        made += 1;
        if is_reset(&stepped.made) {
            let depth = parts.stack.depth();
            let dropped = reset(&mut parts.stack, &mut parts.bus, Reason::Software);
            parts
                .journal
                .reset(script_line, depth, Reason::Software, dropped);
            return Ok(());
        }
        if stops_after(reach, made, &stepped) {
            return Ok(());
        }
    }
}
