//! Directives that begin a frame.

ghost use Rattle.std.specs.Prelude.{◌≡◌, ◌<◌, ◌∷◌, [], length, OnOk, OnErr, Some, true, map, vec_len};
ghost use Rattle.std.specs.Bool.{OnTrue, OnFalse};
ghost use Rattle.mcal_base.specs.declared.directive.Order.{Order};
ghost use Rattle.run_model.specs.Follows.{call_held, line_held, BeginsOnly, BeginsWhole};
ghost use Rattle.run_model.specs.Moment.{Begins, Enters};
ghost use Rattle.run_model.specs.Script.{order_at, beginnings_of};
ghost use Rattle.run_model.specs.Stops.{BeginsToStop};
ghost use Rattle.script_runner.specs.AlongRun.{along};
ghost use Rattle.script_runner.specs.Standing.{moment_of, Called, IsStanding, HasRoom, HasTime, Began, StayedOff, ObeyedBy, IsStuck, bounds_of};

use crate::caller::Caller;
use crate::parts::{RunSetup, RunState};
use crate::steps::{TooLong, run_steps};
use mcal_base::Request;
use run_model::StopCondition;
use serial_devices::SerialDevice;
use step_runner::{begin, enter};

/// Begins a call, or notes why it is held; tells whether it began.
fn obey_call<M: Caller>(
    course: &RunSetup<M>,
    line: u32,
    level: u32,
    request: &Request,
    parts: &mut RunState<M>,
) -> bool
    requires fits { (M.spec course.now.driver).fits }
    requires has { M.has_service course.now.driver request.now.service ≡ true }
    requires at { let calls = M.call_of course.now.driver in
        beginnings_of calls (order_at course.now.script.now line) ≡ Begins (calls request.now) level ∷ [] }
    requires room { length parts.old.journal.entries < parts.old.journal.room }
    requires stands { along M.spec M.call_of course.now IsStanding parts.old.bus parts.old.stack.frames
        parts.old.journal.entries }
    ensures bus { parts.new.bus ≡ parts.old.bus }
    ensures began { along M.spec M.call_of course.now (λ d first calls script.
        let m = moment_of d first calls script parts.old.journal.entries in
        let held = call_held d.setting m (calls request.now) level in
        let deed = Begins (calls request.now) level in
        OnTrue result (Began d first calls script line deed held parts.new.bus
        parts.old.stack parts.old.journal parts.new.stack parts.new.journal)) }
    ensures held { along M.spec M.call_of course.now (λ d first calls script.
        let m = moment_of d first calls script parts.old.journal.entries in
        let held = call_held d.setting m (calls request.now) level in
        OnFalse result (StayedOff d first calls script line held parts.new.bus
        parts.old.stack parts.old.journal parts.new.stack parts.new.journal)) }
{
    let depth = parts.stack.depth();
    let call = course.driver.call(request);
    match begin(&mut parts.stack, &course.driver, &parts.bus, call, level) {
        Ok(()) => {
            parts.journal.begun(line, depth);
            true
        }
        Err(cause) => {
            parts.journal.held(line, depth, cause);
            false
        }
    }
}

/// Begins the handler of a line, or notes why it is held; tells whether it began.
fn obey_enter<M: Caller>(course: &RunSetup<M>, line: u32, irq: u32, parts: &mut RunState<M>) -> bool
    requires fits { (M.spec course.now.driver).fits }
    requires at { beginnings_of (M.call_of course.now.driver) (order_at course.now.script.now line) ≡ Enters irq ∷ [] }
    requires room { length parts.old.journal.entries < parts.old.journal.room }
    requires stands { along M.spec M.call_of course.now IsStanding parts.old.bus parts.old.stack.frames
        parts.old.journal.entries }
    ensures bus { parts.new.bus ≡ parts.old.bus }
    ensures began { along M.spec M.call_of course.now (λ d first calls script.
        let held = line_held d.setting (moment_of d first calls script parts.old.journal.entries) irq in
        OnTrue result (Began d first calls script line (Enters irq) held parts.new.bus
        parts.old.stack parts.old.journal parts.new.stack parts.new.journal)) }
    ensures held { along M.spec M.call_of course.now (λ d first calls script.
        let held = line_held d.setting (moment_of d first calls script parts.old.journal.entries) irq in
        OnFalse result (StayedOff d first calls script line held parts.new.bus
        parts.old.stack parts.old.journal parts.new.stack parts.new.journal)) }
{
    let depth = parts.stack.depth();
    match enter(&mut parts.stack, &course.driver, &parts.bus, irq) {
        Ok(()) => {
            parts.journal.begun(line, depth);
            true
        }
        Err(cause) => {
            parts.journal.held(line, depth, cause);
            false
        }
    }
}

/// A directive that begins a call, and no more.
pub(crate) fn obey_call_alone<M: Caller>(
    course: &RunSetup<M>,
    line: u32,
    level: u32,
    request: &Request,
    parts: &mut RunState<M>,
)
    requires fits { (M.spec course.now.driver).fits }
    requires has { M.has_service course.now.driver request.now.service ≡ true }
    requires at { let calls = M.call_of course.now.driver in
        beginnings_of calls (order_at course.now.script.now line) ≡ Begins (calls request.now) level ∷ [] }
    requires room { HasRoom course.now.most parts.old.stack.steps 3 parts.old.bus parts.old.journal }
    requires stands { along M.spec M.call_of course.now IsStanding parts.old.bus parts.old.stack.frames
        parts.old.journal.entries }
    ensures { along M.spec M.call_of course.now (λ d first calls script.
        (order : Order) → beginnings_of calls (Some order) ≡ Begins (calls request.now) level ∷ [] →
        ObeyedBy d first calls script course.now.most order
        parts.old.bus parts.old.stack parts.old.journal parts.new.bus parts.new.stack parts.new.journal
        (λ m items. BeginsOnly m line (call_held d.setting m (calls request.now) level) items)) }
{
    let _began = obey_call(course, line, level, request, parts);
}

/// A directive that begins a call and runs it to its end.
pub(crate) fn obey_call_whole<M: Caller>(
    course: &RunSetup<M>,
    script_line: u32,
    level: u32,
    request: &Request,
    parts: &mut RunState<M>,
    rack: &mut Vec<Box<dyn SerialDevice>>,
) -> Result<(), TooLong>
    requires fits { (M.spec course.now.driver).fits }
    requires hung { vec_len rack.old ≡ parts.old.bus.devices }
    requires has { M.has_service course.now.driver request.now.service ≡ true }
    requires limit { course.now.most < 4294967295 }
    requires time { HasTime course.now.most parts.old.stack.steps parts.old.bus }
    requires at { let calls = M.call_of course.now.driver in
        beginnings_of calls (order_at course.now.script.now script_line) ≡ Begins (calls request.now) level ∷ [] }
    requires room { HasRoom course.now.most parts.old.stack.steps 3 parts.old.bus parts.old.journal }
    requires stands { along M.spec M.call_of course.now IsStanding parts.old.bus parts.old.stack.frames
        parts.old.journal.entries }
    ensures obeyed { along M.spec M.call_of course.now (λ d first calls script.
        let deed = Begins (calls request.now) level in
        OnOk result ((order : Order) → beginnings_of calls (Some order) ≡ deed ∷ [] →
        ObeyedBy d first calls script course.now.most order
        parts.old.bus parts.old.stack parts.old.journal parts.new.bus parts.new.stack parts.new.journal
        (λ m items. BeginsWhole d.setting m script_line deed (call_held d.setting m (calls request.now) level) items))) }
    ensures too_long { along M.spec M.call_of course.now (λ d first calls script.
        let deed = Begins (calls request.now) level in
        OnErr result (IsStuck d first calls script course.now.most (bounds_of d.setting (deed ∷ []))
        parts.old.stack parts.old.journal parts.new.bus parts.new.stack parts.new.journal
        (λ m items. BeginsToStop d.setting script_line m deed (call_held d.setting m (calls request.now) level) items))) }
    ensures hung { vec_len rack.new ≡ parts.new.bus.devices }
    ensures calls { along M.spec M.call_of course.now Called parts.old.journal.entries
        parts.new.journal.entries (map (λ d. line d) rack.old.items) (map (λ d. line d) rack.new.items) }
{
    if obey_call(course, script_line, level, request, parts) {
        run_steps(course, script_line, StopCondition::Whole, parts, rack)
    } else {
        Ok(())
    }
}

/// A directive that begins the handler of a line, and no more.
pub(crate) fn obey_enter_alone<M: Caller>(
    course: &RunSetup<M>,
    line: u32,
    irq: u32,
    parts: &mut RunState<M>,
)
    requires fits { (M.spec course.now.driver).fits }
    requires at { beginnings_of (M.call_of course.now.driver) (order_at course.now.script.now line) ≡ Enters irq ∷ [] }
    requires room { HasRoom course.now.most parts.old.stack.steps 3 parts.old.bus parts.old.journal }
    requires stands { along M.spec M.call_of course.now IsStanding parts.old.bus parts.old.stack.frames
        parts.old.journal.entries }
    ensures { along M.spec M.call_of course.now (λ d first calls script.
        (order : Order) → beginnings_of calls (Some order) ≡ Enters irq ∷ [] →
        ObeyedBy d first calls script course.now.most order
        parts.old.bus parts.old.stack parts.old.journal parts.new.bus parts.new.stack parts.new.journal
        (λ m items. BeginsOnly m line (line_held d.setting m irq) items)) }
{
    let _began = obey_enter(course, line, irq, parts);
}

/// A directive that begins the handler of a line and runs it to its end.
pub(crate) fn obey_enter_whole<M: Caller>(
    course: &RunSetup<M>,
    script_line: u32,
    irq: u32,
    parts: &mut RunState<M>,
    rack: &mut Vec<Box<dyn SerialDevice>>,
) -> Result<(), TooLong>
    requires fits { (M.spec course.now.driver).fits }
    requires hung { vec_len rack.old ≡ parts.old.bus.devices }
    requires limit { course.now.most < 4294967295 }
    requires time { HasTime course.now.most parts.old.stack.steps parts.old.bus }
    requires at { beginnings_of (M.call_of course.now.driver) (order_at course.now.script.now script_line) ≡ Enters irq ∷ [] }
    requires room { HasRoom course.now.most parts.old.stack.steps 3 parts.old.bus parts.old.journal }
    requires stands { along M.spec M.call_of course.now IsStanding parts.old.bus parts.old.stack.frames
        parts.old.journal.entries }
    ensures obeyed { along M.spec M.call_of course.now (λ d first calls script.
        OnOk result ((order : Order) → beginnings_of calls (Some order) ≡ Enters irq ∷ [] →
        ObeyedBy d first calls script course.now.most order
        parts.old.bus parts.old.stack parts.old.journal parts.new.bus parts.new.stack parts.new.journal
        (λ m items. BeginsWhole d.setting m script_line (Enters irq) (line_held d.setting m irq) items))) }
    ensures too_long { along M.spec M.call_of course.now (λ d first calls script.
        OnErr result (IsStuck d first calls script course.now.most
        (bounds_of d.setting (Enters irq ∷ []))
        parts.old.stack parts.old.journal parts.new.bus parts.new.stack parts.new.journal
        (λ m items. BeginsToStop d.setting script_line m (Enters irq) (line_held d.setting m irq) items))) }
    ensures hung { vec_len rack.new ≡ parts.new.bus.devices }
    ensures calls { along M.spec M.call_of course.now Called parts.old.journal.entries
        parts.new.journal.entries (map (λ d. line d) rack.old.items) (map (λ d. line d) rack.new.items) }
{
    if obey_enter(course, script_line, irq, parts) {
        run_steps(course, script_line, StopCondition::Whole, parts, rack)
    } else {
        Ok(())
    }
}
