//! Obeys one directive.

ghost use Rattle.std.specs.Prelude.{◌≡◌, ◌<◌, length, OnOk, OnErr, Some, true, map, vec_len};
ghost use Rattle.mcal_base.specs.declared.directive.Order.{Order};
ghost use Rattle.run_model.specs.Follows.{Goes};
ghost use Rattle.run_model.specs.Script.{order_at};
ghost use Rattle.run_model.specs.Stops.{StopsWithin};
ghost use Rattle.script_runner.specs.AlongRun.{along};
ghost use Rattle.script_runner.specs.Scripts.{is_offered};
ghost use Rattle.script_runner.specs.Standing.{Called, IsStanding, HasRoom, HasTime, ObeyedBy, Obeyed, IsStuck, Stuck, is_built, makes_no_step, GivenFits};

use crate::beginnings::{obey_call_alone, obey_call_whole, obey_enter_alone, obey_enter_whole};
use crate::caller::Caller;
use crate::hardware::{obey_detach, obey_fill, obey_hardware, obey_reset, obey_show};
use crate::parts::{RunSetup, RunState};
use crate::steps::{TooLong, run_steps};
use crate::ticks::obey_tick;
use irq_control::Held;
use mcal_base::Directive;
use mcal_base::Order::{
    Analog, Call, Detach, Do, Enter, Fill, Finish, Level, Miso, Reset, Run, Serve, Show, SpiFault,
    Tick, Trigger, Upto,
};
use run_model::StopCondition;
use serial_devices::SerialDevice;

/// Whether a directive runs no steps at all.
fn is_no_step(reach: StopCondition) -> bool
    ensures { result ≡ makes_no_step reach }
{
    matches!(reach, StopCondition::Count(0))
}

/// Steps the top frame as far as a directive reaches, or notes that there is none.
fn obey_steps<M: Caller>(
    course: &RunSetup<M>,
    script_line: u32,
    reach: StopCondition,
    parts: &mut RunState<M>,
    rack: &mut Vec<Box<dyn SerialDevice>>,
) -> Result<(), TooLong>
    requires fits { (M.spec course.now.driver).fits }
    requires hung { vec_len rack.old ≡ parts.old.bus.devices }
    requires limit { course.now.most < 4294967295 }
    requires time { HasTime course.now.most parts.old.stack.steps parts.old.bus }
    requires room { HasRoom course.now.most parts.old.stack.steps 3 parts.old.bus parts.old.journal }
    requires stands { along M.spec M.call_of course.now IsStanding parts.old.bus parts.old.stack.frames
        parts.old.journal.entries }
    ensures obeyed { along M.spec M.call_of course.now (λ d first calls script.
        OnOk result ((order : Order) →
        ObeyedBy d first calls script course.now.most order
        parts.old.bus parts.old.stack parts.old.journal parts.new.bus parts.new.stack parts.new.journal
        (λ m items. Goes d.setting script_line reach m m.opens items))) }
    ensures too_long { along M.spec M.call_of course.now (λ d first calls script.
        OnErr result (IsStuck d first calls script course.now.most 0 parts.old.stack parts.old.journal
        parts.new.bus parts.new.stack parts.new.journal
        (λ m items. StopsWithin d.setting script_line reach m m.opens items))) }
    ensures hung { vec_len rack.new ≡ parts.new.bus.devices }
    ensures calls { along M.spec M.call_of course.now Called parts.old.journal.entries
        parts.new.journal.entries (map (λ d. line d) rack.old.items) (map (λ d. line d) rack.new.items) }
{
    if parts.stack.depth() == 0 {
        parts.journal.held(script_line, 0, Held::Empty);
        return Ok(());
    }
    if is_no_step(reach) {
        return Ok(());
    }
    run_steps(course, script_line, reach, parts, rack)
}

/// Obeys a directive.
pub(crate) fn obey_one<M: Caller>(
    course: &RunSetup<M>,
    directive: &Directive,
    parts: &mut RunState<M>,
    rack: &mut Vec<Box<dyn SerialDevice>>,
) -> Result<(), TooLong>
    requires fits { (M.spec course.now.driver).fits }
    requires hung { vec_len rack.old ≡ parts.old.bus.devices }
    requires limit { course.now.most < 4294967295 }
    requires at { order_at course.now.script.now directive.now.line ≡ Some directive.now.order }
    requires built { is_built directive.now.order ≡ true }
    requires offered { is_offered (M.has_service course.now.driver) directive.now.order ≡ true }
    requires given { GivenFits directive.now.order parts.old.bus }
    requires time { HasTime course.now.most parts.old.stack.steps parts.old.bus }
    requires room { HasRoom course.now.most parts.old.stack.steps 3 parts.old.bus parts.old.journal }
    requires stands { along M.spec M.call_of course.now IsStanding parts.old.bus parts.old.stack.frames
        parts.old.journal.entries }
    ensures obeyed { OnOk result (along M.spec M.call_of course.now Obeyed course.now.most directive.now.line
        directive.now.order parts.old.bus parts.old.stack parts.old.journal parts.new.bus parts.new.stack
        parts.new.journal) }
    ensures too_long { OnErr result (along M.spec M.call_of course.now Stuck course.now.most
        directive.now.line directive.now.order parts.old.stack parts.old.journal parts.new.bus parts.new.stack
        parts.new.journal) }
    ensures hung { vec_len rack.new ≡ parts.new.bus.devices }
    ensures calls { along M.spec M.call_of course.now Called parts.old.journal.entries
        parts.new.journal.entries (map (λ d. line d) rack.old.items) (map (λ d. line d) rack.new.items) }
{
    let line = directive.line;
    match &directive.order {
        Call(level, request) => {
            obey_call_alone(course, line, *level, request, parts);
            Ok(())
        }
        Do(level, request) => { obey_call_whole(course, line, *level, request, parts, rack) }
        Enter(irq) => {
            obey_enter_alone(course, line, *irq, parts);
            Ok(())
        }
        Serve(irq) => obey_enter_whole(course, line, *irq, parts, rack),
        Run(count) => { obey_steps(course, line, StopCondition::Count(*count), parts, rack) }
        Upto(stop) => { obey_steps(course, line, StopCondition::Until(*stop), parts, rack) }
        Finish => obey_steps(course, line, StopCondition::Whole, parts, rack),
        Tick(ticks) => {
            obey_tick(course, directive, *ticks, parts);
            Ok(())
        }
        Level(..) | Analog(..) | Trigger(_) | Miso(..) | SpiFault(_) => {
            obey_hardware(course, directive, parts);
            Ok(())
        }
        Reset(reason) => {
            obey_reset(course, directive, *reason, parts);
            Ok(())
        }
        Show(shown) => {
            obey_show(course, directive, *shown, parts);
            Ok(())
        }
        Fill(channel, _) => {
            obey_fill(course, directive, *channel, parts);
            Ok(())
        }
        Detach => {
            obey_detach(course, directive, parts, rack);
            Ok(())
        }
    }
}
