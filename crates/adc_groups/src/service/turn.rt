ghost use Rattle.std.specs.Prelude.{◌≡◌, ◌+◌, ◌≤◌, map, length};
ghost use Rattle.std.specs.List.{range_with_len};
ghost use Rattle.adc_groups.specs.laws.services.Decisions as spec;

use crate::body::{Decided, Place};
use crate::making::{Continuation, StructureOp, WindowWrite, WindowWrites, WriteBatch, moves_of};
use crate::outside::{Outside, Suspended};
use crate::service::{done, looking, makes, over};
use crate::window::Window;
use crate::words::{Word, entry, group_in, order_of};
use adc_machine::AdcTable;
use mcal_base::{Event, Reg, Unit};
use service_outline::nothing;
use word_shapes::streams::limited;

/// What follows a new request on a unit: where priorities count, a round of lower priority yields, and then the first
/// request starts.
pub fn after_request(table: &AdcTable, unit: u8) -> Continuation
    ensures { result ≡ spec.after_request table.now unit }
{
    if table.priorities {
        Continuation::Goes(Outside::Closes(Window::Yield(unit)))
    } else {
        Continuation::Goes(Outside::Closes(Window::Begin(unit)))
    }
}

/// It opens the mask, to start what waits first on a unit.
fn begins_next(unit: u8) -> Place
    ensures { result ≡ spec.begins_next unit }
{
    Place::Opens(Outside::Closes(Window::Begin(unit)))
}

/// The unit, as an event names it.
fn named(unit: u8) -> Unit
    ensures { result ≡ spec.unit_named unit }
{
    if unit == 0 { Unit::Adc0 } else { Unit::Adc1 }
}

/// A round is sought that may have to yield.
pub fn yields(table: &AdcTable, unit: u8, running: u32, claim: u32) -> Decided
    ensures { result ≡ spec.yields table.now unit running claim }
{
    match group_in(running) {
        Some(group) if claim == 0 => {
            let front = order_of(unit).front(table.ranks());
            Decided::Goes(Place::Seeks(Window::Suspend(unit, group), front))
        }
        _ => Decided::Goes(begins_next(unit)),
    }
}

/// A request is sought that may start.
pub fn begins(table: &AdcTable, unit: u8, running: u32, claim: u32) -> Decided
    ensures { result ≡ spec.begins table.now unit running claim }
{
    if running != 0 || claim != 0 {
        return over();
    }
    let front = order_of(unit).front(table.ranks());
    Decided::Goes(Place::Seeks(Window::Begin(unit), front))
}

/// What follows where this group waits first, 16 where none waits.
pub fn sought(table: &AdcTable, window: Window, first: u32) -> Decided
    ensures { result ≡ spec.sought table.now window first }
{
    match window {
        Window::Suspend(unit, group) => {
            if first < 16 && table.rank(group) < table.rank(first as u8) {
                Decided::Goes(looking(window))
            } else {
                Decided::Goes(begins_next(unit))
            }
        }
        Window::Begin(unit) if first < 16 => {
            Decided::Goes(looking(Window::Convert(unit, first as u8, false)))
        }
        Window::Leave(unit) if first < 16 => {
            Decided::Goes(looking(Window::Convert(unit, first as u8, true)))
        }
        Window::Leave(unit) => Decided::Goes(Place::Quits(unit)),
        _ => over(),
    }
}

/// The round is to be aborted.
pub fn aborts(unit: u8, group: u8, kept: u32) -> Decided
    ensures { result ≡ spec.aborts unit group kept }
{
    let kept = limited(kept, 32);
    Decided::Goes(Place::Aborts(Suspended { unit, group, kept }))
}

/// The round was aborted, or was finished before. Its group waits again; where it suspends, the frame claims the unit
/// and keeps the values that have ended.
pub fn aborted(table: &AdcTable, round: Suspended, value: u32) -> (Option<Event>, Place)
    ensures { result ≡ spec.aborted table.now round value }
{
    let Suspended { unit, group, .. } = round;
    if value != 1 {
        return (None, begins_next(unit));
    }
    let mut deeds = WindowWrites::new();
    deeds.push(WindowWrite::Set(Word::Running(unit), 0));
    let after = if table.suspends(group) {
        deeds.push(WindowWrite::Set(Word::Claim(unit), 2 + u32::from(group)));
        Continuation::Goes(Outside::Counts(round))
    } else {
        Continuation::Goes(Outside::Closes(Window::Begin(unit)))
    };
    let making = WriteBatch {
        order: Some(StructureOp::Again(order_of(unit).again(entry(group)))),
        ..moves_of(None, deeds, after)
    };
    (Some(Event::Abort(named(unit))), Place::Makes(making))
}

/// The values of a suspended round are kept, unless it was stopped, and the claim ends.
pub fn keep(round: Suspended, claim: u32) -> Decided
    ensures { result ≡ spec.keep round claim }
{
    let mut deeds = WindowWrites::new();
    if claim == 2 + u32::from(round.group) {
        deeds.push(WindowWrite::Set(Word::Kept(round.group), u32::from(round.kept)));
    }
    deeds.push(WindowWrite::Set(Word::Claim(round.unit), 0));
    let after = Continuation::Goes(Outside::Closes(Window::Begin(round.unit)));
    makes(moves_of(None, deeds, after))
}

/// The first request of a unit is sought, of a frame whose claim ends.
pub fn leaves(table: &AdcTable, unit: u8) -> Decided
    ensures { result ≡ spec.leaves table.now unit }
{
    let front = order_of(unit).front(table.ranks());
    Decided::Goes(Place::Seeks(Window::Leave(unit), front))
}

/// The group starts its round, with the inputs that no value is kept of, at the last move: all words say so before.
pub fn convert(table: &AdcTable, unit: u8, group: u8, claimed: bool, kept: u32) -> Decided
    ensures { result ≡ spec.convert table.now unit group claimed kept }
{
    let kept = limited(kept, table.input_count(group));
    let left = table.input_count(group) - kept;
    makes(WriteBatch {
        ahead: moves_ahead(left, claimed),
        order: Some(StructureOp::Next(order_of(unit).next(table.ranks()))),
        ..moves_of(
            Some(Event::Start(named(unit))),
            start_deeds(table, unit, group, kept, left, claimed),
            Continuation::Ends(done(nothing())),
        )
    })
}

/// So many moves of a start come before the one at which the unit starts.
fn moves_ahead(left: u8, claimed: bool) -> u8
    requires few { left ≤ 32 }
    ensures { result ≡ spec.moves_ahead left claimed }
{
    if claimed {
        (left + 3) / 4 + 2
    } else {
        (left + 3) / 4 + 1
    }
}

/// The moves of a start, but for those of the order.
fn start_deeds(
    table: &AdcTable,
    unit: u8,
    group: u8,
    kept: u8,
    left: u8,
    claimed: bool,
) -> WindowWrites
    requires few { kept + left ≤ 32 }
    ensures { result ≡ spec.start_deeds table.now unit group kept left claimed }
{
    let mut deeds = lists(table, unit, group, kept, left);
    deeds.push(WindowWrite::Set(Word::Running(unit), 1 + u32::from(group)));
    if claimed {
        deeds.push(WindowWrite::Set(Word::Claim(unit), 0));
    }
    deeds.push(WindowWrite::Write(Reg::ConverterGo(u32::from(unit)), u32::from(left)));
    deeds
}

/// The list registers take the inputs that are left, four each.
fn lists(table: &AdcTable, unit: u8, group: u8, kept: u8, left: u8) -> WindowWrites
    requires few { kept + left ≤ 32 }
    ensures is { result ≡ map (spec.list_deed table.now unit group kept) (range_with_len 0 (spec.lists_for left)) }
    ensures most { length result ≤ 8 }
{
    let mut deeds = WindowWrites::new();
    for at in 0..(left + 3) / 4 {
        let inputs = table.listed(group, kept + 4 * at);
        deeds.push(WindowWrite::Write(Reg::ConverterList(unit, at), inputs));
    }
    deeds
}
