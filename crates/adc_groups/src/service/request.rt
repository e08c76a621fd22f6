ghost use Rattle.std.specs.Prelude.{◌≡◌};
ghost use Rattle.adc_groups.specs.laws.services.Decisions as spec;

use crate::body::{Decided, Place};
use crate::making::{Continuation, StructureOp, WindowWrite, WindowWrites, WriteBatch, moves_of};
use crate::owed::error_owed;
use crate::service::{acts_and_ends, done, makes, turn};
use crate::window::Window;
use crate::words::{Phase, Word, bit, entry, order_of};
use adc_machine::AdcTable;
use mcal_base::{ErrorName, Event, Reg, Service};
use service_outline::nothing;

/// The service whose window it is.
fn service(window: Window) -> Service
    ensures { result ≡ spec.service_in window }
{
    match window {
        Window::Close => Service::AdcDeInit,
        Window::Enable(_) => Service::AdcEnableHardwareTrigger,
        _ => Service::AdcStartGroupConversion,
    }
}

/// A call that finds an error in what it has seen.
fn refused(table: &AdcTable, window: Window, error: ErrorName) -> Decided
    ensures { result ≡ spec.refused table.now window error }
{
    acts_and_ends(nothing(), error_owed(table, service(window), error))
}

/// `Adc_StartGroupConversion` and `Adc_EnableHardwareTrigger`, by the group's words.
pub fn looked(table: &AdcTable, window: Window, chosen: u32, phase: u32) -> Decided
    ensures { result ≡ spec.looked table.now window chosen phase }
{
    if chosen == 0 {
        return refused(table, window, ErrorName::AdcBufferUninit);
    }
    if Phase::of(phase).is_under_way() {
        return refused(table, window, ErrorName::AdcBusy);
    }
    if table.takes_one() {
        Decided::Goes(survey(table, window, 0))
    } else {
        Decided::Goes(begin(table, window))
    }
}

/// The next group from this number on that must not be under way, or what follows where there is none.
pub fn survey(table: &AdcTable, window: Window, from: u8) -> Place
    ensures { result ≡ spec.survey table.now window from }
{
    match table.next_of(unit_of(table, window), from) {
        Some(group) => Place::Surveys(window, group),
        None => begin(table, window),
    }
}

/// The unit whose groups must not be under way, none where it is all groups.
fn unit_of(table: &AdcTable, window: Window) -> Option<u8>
    ensures { result ≡ spec.unit_in table.now window }
{
    match window {
        Window::Start(group) | Window::Enable(group) => Some(table.unit_of(group)),
        _ => None,
    }
}

/// What follows where a group has this phase.
pub fn surveyed(table: &AdcTable, window: Window, group: u8, phase: u32) -> Decided
    ensures { result ≡ spec.surveyed table.now window group phase }
{
    if Phase::of(phase).is_under_way() {
        refused(table, window, ErrorName::AdcBusy)
    } else if group < 16 {
        Decided::Goes(survey(table, window, group + 1))
    } else {
        Decided::Goes(begin(table, window))
    }
}

/// The call goes on without an error.
fn begin(table: &AdcTable, window: Window) -> Place
    ensures { result ≡ spec.begin table.now window }
{
    match window {
        Window::Start(group) => Place::Makes(start(table, group)),
        Window::Enable(group) => Place::Makes(enable(table, group)),
        _ => Place::Makes(close()),
    }
}

/// A group begins a stream, and makes a request.
fn start(table: &AdcTable, group: u8) -> WriteBatch
    ensures { result ≡ spec.start table.now group }
{
    let unit = table.unit_of(group);
    let mut deeds = WindowWrites::new();
    deeds.push(WindowWrite::Set(Word::Phase(group), Phase::Busy.number()));
    deeds.push(WindowWrite::Set(Word::Count(group), 0));
    deeds.push(WindowWrite::Set(Word::Place(group), 0));
    deeds.push(WindowWrite::Set(Word::Kept(group), 0));
    deeds.push(WindowWrite::Set(Word::Turn(group), 1));
    WriteBatch {
        order: Some(StructureOp::Add(order_of(unit).add(entry(group)))),
        ..moves_of(Some(Event::Act), deeds, turn::after_request(table, unit))
    }
}

/// A group begins a stream, and its trigger is switched on.
fn enable(table: &AdcTable, group: u8) -> WriteBatch
    ensures { result ≡ spec.enable table.now group }
{
    let mut deeds = WindowWrites::new();
    deeds.push(WindowWrite::Write(Reg::TriggerSet, trigger_bit(table, group)));
    deeds.push(WindowWrite::Set(Word::Phase(group), Phase::Busy.number()));
    deeds.push(WindowWrite::Set(Word::Count(group), 0));
    deeds.push(WindowWrite::Set(Word::Place(group), 0));
    moves_of(Some(Event::Act), deeds, Continuation::Ends(done(nothing())))
}

/// The bit of a group's trigger input.
pub fn trigger_bit(table: &AdcTable, group: u8) -> u32
    ensures { result ≡ spec.trigger_bit table.now group }
{
    match table.trigger_of(group) {
        Some(input) => bit(input),
        None => 0,
    }
}

/// The module is uninitialised, and its lines are disabled.
fn close() -> WriteBatch
    ensures { result ≡ spec.close }
{
    let mut deeds = WindowWrites::new();
    deeds.push(WindowWrite::Set(Word::State, 0));
    deeds.push(WindowWrite::Disable);
    moves_of(Some(Event::Act), deeds, Continuation::Ends(done(nothing())))
}

/// The handler of a trigger's line: the pulse is served, and the group makes a request unless it has a turn.
pub fn pulse(table: &AdcTable, input: u8, group: u8, has_turn: u32) -> Decided
    ensures { result ≡ spec.pulse table.now input group has_turn }
{
    let unit = table.unit_of(group);
    let serves = Some(Event::Serve(28 + u32::from(input)));
    let mut deeds = WindowWrites::new();
    deeds.push(WindowWrite::Write(Reg::TriggerFlags, bit(input)));
    if has_turn == 1 {
        return makes(moves_of(serves, deeds, Continuation::Ends(done(nothing()))));
    }
    deeds.push(WindowWrite::Set(Word::Kept(group), 0));
    deeds.push(WindowWrite::Set(Word::Turn(group), 1));
    makes(WriteBatch {
        order: Some(StructureOp::Add(order_of(unit).add(entry(group)))),
        ..moves_of(serves, deeds, turn::after_request(table, unit))
    })
}
