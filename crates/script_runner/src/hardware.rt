//! Directives that move the hardware, show something or reset the chip.

ghost use Rattle.std.specs.Prelude.{◌≡◌, ◌<◌, ◌≤◌, ◌+◌, ◌^◌, ◌≢◌, ℕ, length, map, vec_len, true, false, Some, None};
ghost use Rattle.chip_model.specs.Chip.{now_of, CanHappen};
ghost use Rattle.mcal_base.specs.declared.directive.Order.{Order};
ghost use Rattle.mcal_base.specs.declared.directive.Reason.TheVariants.{Software};
ghost use Rattle.run_model.specs.Legal.{hardware_held};
ghost use Rattle.script_runner.specs.AlongRun.{along};
ghost use Rattle.script_runner.specs.Standing.{moment_of, Called, IsStanding, HasRoom, Obeyed, is_built, is_hardware, may_be_held, filled_by, GivenFits};

use crate::caller::Caller;
use crate::parts::{RunSetup, RunState};
use crate::sizes::words_by;
use irq_control::Held;
use mcal_base::{Directive, Reason, Shown};
use serial_devices::{SerialDevice, drop_last};
use step_runner::{fill_held, hardware, reset};

/// Moves the hardware, where nothing holds it. It takes no time.
fn move_hardware<M: Caller>(course: &RunSetup<M>, directive: &Directive, parts: &mut RunState<M>)
    requires fits { (M.spec course.now.driver).fits }
    requires hardware { is_hardware directive.now.order ≡ true }
    requires built { is_built directive.now.order ≡ true }
    requires can { CanHappen parts.old.bus directive.now.order }
    requires free { along M.spec M.call_of course.now (λ d first calls script.
        hardware_held d.setting (moment_of d first calls script parts.old.journal.entries)
        directive.now.order ≡ None) }
    requires room { HasRoom course.now.most parts.old.stack.steps 3 parts.old.bus parts.old.journal }
    requires stands { along M.spec M.call_of course.now IsStanding parts.old.bus parts.old.stack.frames
        parts.old.journal.entries }
    ensures { along M.spec M.call_of course.now Obeyed course.now.most directive.now.line directive.now.order
        parts.old.bus parts.old.stack parts.old.journal parts.new.bus parts.new.stack parts.new.journal }
{
    let _words = words_by(&directive.order);
    let depth = parts.stack.depth();
    hardware(&parts.stack, &mut parts.bus, directive);
    parts
        .journal
        .happened(directive.line, depth, &directive.order);
}

/// Moves the hardware by a directive that nothing holds.
pub(crate) fn obey_hardware<M: Caller>(
    course: &RunSetup<M>,
    directive: &Directive,
    parts: &mut RunState<M>,
)
    requires fits { (M.spec course.now.driver).fits }
    requires hardware { is_hardware directive.now.order ≡ true }
    requires built { is_built directive.now.order ≡ true }
    requires free { may_be_held directive.now.order ≡ false }
    requires given { GivenFits directive.now.order parts.old.bus }
    requires room { HasRoom course.now.most parts.old.stack.steps 3 parts.old.bus parts.old.journal }
    requires stands { along M.spec M.call_of course.now IsStanding parts.old.bus parts.old.stack.frames
        parts.old.journal.entries }
    ensures { along M.spec M.call_of course.now Obeyed course.now.most directive.now.line directive.now.order
        parts.old.bus parts.old.stack parts.old.journal parts.new.bus parts.new.stack parts.new.journal }
{
    move_hardware(course, directive, parts)
}

/// Fills a serial channel's source array, unless a cause holds it.
pub(crate) fn obey_fill<M: Caller>(
    course: &RunSetup<M>,
    directive: &Directive,
    channel: u32,
    parts: &mut RunState<M>,
)
    requires fits { (M.spec course.now.driver).fits }
    requires fill { filled_by directive.now.order ≡ Some channel }
    requires room { HasRoom course.now.most parts.old.stack.steps 3 parts.old.bus parts.old.journal }
    requires stands { along M.spec M.call_of course.now IsStanding parts.old.bus parts.old.stack.frames
        parts.old.journal.entries }
    ensures { along M.spec M.call_of course.now Obeyed course.now.most directive.now.line directive.now.order
        parts.old.bus parts.old.stack parts.old.journal parts.new.bus parts.new.stack parts.new.journal }
{
    match fill_held(&parts.stack, &course.driver, &parts.bus, channel) {
        None => move_hardware(course, directive, parts),
        Some(cause) => {
            let depth = parts.stack.depth();
            parts.journal.held(directive.line, depth, cause);
        }
    }
}

/// Drops the last device of the rack, or notes that there is none.
pub(crate) fn obey_detach<M: Caller>(
    course: &RunSetup<M>,
    directive: &Directive,
    parts: &mut RunState<M>,
    rack: &mut Vec<Box<dyn SerialDevice>>,
)
    requires fits { (M.spec course.now.driver).fits }
    requires detach { directive.now.order ≡ Order.Detach }
    requires hung { vec_len rack.old ≡ parts.old.bus.devices }
    requires room { HasRoom course.now.most parts.old.stack.steps 3 parts.old.bus parts.old.journal }
    requires stands { along M.spec M.call_of course.now IsStanding parts.old.bus parts.old.stack.frames
        parts.old.journal.entries }
    ensures obeyed { along M.spec M.call_of course.now Obeyed course.now.most directive.now.line
        directive.now.order parts.old.bus parts.old.stack parts.old.journal parts.new.bus parts.new.stack
        parts.new.journal }
    ensures hung { vec_len rack.new ≡ parts.new.bus.devices }
    ensures calls { along M.spec M.call_of course.now Called parts.old.journal.entries
        parts.new.journal.entries (map (λ d. line d) rack.old.items) (map (λ d. line d) rack.new.items) }
{
    if rack.is_empty() {
        let depth = parts.stack.depth();
        parts.journal.held(directive.line, depth, Held::Unknown);
    } else {
        drop_last(rack);
        move_hardware(course, directive, parts);
    }
}

/// Notes that something is shown, which needs that no frame is under way.
pub(crate) fn obey_show<M: Caller>(
    course: &RunSetup<M>,
    directive: &Directive,
    shown: Shown,
    parts: &mut RunState<M>,
)
    requires fits { (M.spec course.now.driver).fits }
    requires show { directive.now.order ≡ Order.Show shown }
    requires room { HasRoom course.now.most parts.old.stack.steps 3 parts.old.bus parts.old.journal }
    requires stands { along M.spec M.call_of course.now IsStanding parts.old.bus parts.old.stack.frames
        parts.old.journal.entries }
    ensures { along M.spec M.call_of course.now Obeyed course.now.most directive.now.line directive.now.order
        parts.old.bus parts.old.stack parts.old.journal parts.new.bus parts.new.stack parts.new.journal }
{
    let _shown = shown;
    let depth = parts.stack.depth();
    if depth == 0 {
        parts
            .journal
            .happened(directive.line, depth, &directive.order);
    } else {
        parts.journal.held(directive.line, depth, Held::Frames);
    }
}

/// Resets the chip, and drops every frame.
pub(crate) fn obey_reset<M: Caller>(
    course: &RunSetup<M>,
    directive: &Directive,
    reason: Reason,
    parts: &mut RunState<M>,
)
    requires fits { (M.spec course.now.driver).fits }
    requires reset { directive.now.order ≡ Order.Reset reason }
    requires asked { reason ≢ Software }
    requires room { HasRoom course.now.most parts.old.stack.steps 3 parts.old.bus parts.old.journal }
    requires stands { along M.spec M.call_of course.now IsStanding parts.old.bus parts.old.stack.frames
        parts.old.journal.entries }
    ensures { along M.spec M.call_of course.now Obeyed course.now.most directive.now.line directive.now.order
        parts.old.bus parts.old.stack parts.old.journal parts.new.bus parts.new.stack parts.new.journal }
{
    let depth = parts.stack.depth();
    let dropped = reset(&mut parts.stack, &mut parts.bus, reason);
    parts.journal.reset(directive.line, depth, reason, dropped);
}
