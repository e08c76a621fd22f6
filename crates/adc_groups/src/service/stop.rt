ghost use Rattle.std.specs.Prelude.{◌≡◌, ◌++◌, ◌+◌, ◌≤◌, length, is_some};
ghost use Rattle.adc_machine.specs.Groups.{trigger_input};
ghost use Rattle.adc_machine.specs.Table.{group_of};
ghost use Rattle.adc_groups.specs.laws.services.Decisions as spec;

use crate::body::Decided;
use crate::making::{Continuation, StructureOp, WindowWrite, WindowWrites, WriteBatch, moves_of};
use crate::outside::Outside;
use crate::owed::error_owed;
use crate::service::request::trigger_bit;
use crate::service::{acts_and_ends, done, makes};
use crate::window::Window;
use crate::words::{Phase, Word, entry, order_of};
use adc_machine::AdcTable;
use mcal_base::{ErrorName, Event, Reg, Service};
use service_outline::nothing;

/// What a stop has seen.
#[derive(Clone, Copy)]
pub struct StopSeen {
    /// The group's phase.
    pub phase: u32,
    /// Whether it has a turn.
    pub turn: u32,
    /// What its unit runs.
    pub running: u32,
    /// The claim on its unit.
    pub claim: u32,
}

/// `Adc_StopGroupConversion` and `Adc_DisableHardwareTrigger`
pub fn stop(table: &AdcTable, unit: u8, group: u8, seen: StopSeen) -> Decided
    ensures { result ≡ spec.stop table.now unit group seen }
{
    if seen.phase == 0 {
        return acts_and_ends(
            nothing(),
            error_owed(table, service(table, group), ErrorName::AdcIdle),
        );
    }
    let mut deeds = WindowWrites::new();
    deeds.push(WindowWrite::Set(Word::Phase(group), Phase::Idle.number()));
    deeds.push(WindowWrite::Set(Word::Notified(group), 0));
    if table.trigger_of(group).is_some() {
        trigger_off(&mut deeds, trigger_bit(table, group));
    }
    if seen.turn == 0 {
        return makes(moves_of(Some(Event::Act), deeds, Continuation::Ends(done(nothing()))));
    }
    if seen.running == 1 + u32::from(group) {
        deeds.push(WindowWrite::Abort(unit));
        deeds.push(WindowWrite::Write(Reg::ConverterAck(u32::from(unit)), 1));
        deeds.push(WindowWrite::Set(Word::Running(unit), 0));
    }
    if seen.claim == 2 + u32::from(group) {
        deeds.push(WindowWrite::Set(Word::Claim(unit), 1));
    }
    deeds.push(WindowWrite::Set(Word::Turn(group), 0));
    makes(WriteBatch {
        order: Some(StructureOp::Drop(order_of(unit).drop(entry(group)))),
        ..moves_of(
            Some(Event::Act),
            deeds,
            Continuation::Goes(Outside::Closes(Window::Begin(unit))),
        )
    })
}

/// The service that stops a group.
fn service(table: &AdcTable, group: u8) -> Service
    ensures { result ≡ spec.stop_service (is_some (trigger_input (group_of table.now group))) }
{
    if table.trigger_of(group).is_some() {
        Service::AdcDisableHardwareTrigger
    } else {
        Service::AdcStopGroupConversion
    }
}

/// A trigger is switched off: first its gate, and then what flag it has left.
pub fn trigger_off(deeds: &mut WindowWrites, bit: u32)
    requires { length deeds.old ≤ 8 }
    ensures { deeds.new ≡ deeds.old ++ spec.trigger_off bit }
{
    deeds.push(WindowWrite::Write(Reg::TriggerClear, bit));
    deeds.push(WindowWrite::Write(Reg::TriggerFlags, bit));
}
