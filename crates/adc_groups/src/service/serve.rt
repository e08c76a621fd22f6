ghost use Rattle.std.specs.Prelude.{◌≡◌};
ghost use Rattle.adc_groups.specs.laws.services.Decisions as spec;

use crate::body::{Decided, Place};
use crate::making::{Continuation, StructureOp, WindowWrite, WindowWrites, WriteBatch, moves_of};
use crate::outside::{Copied, Outside, Taken};
use crate::service::request::trigger_bit;
use crate::service::stop::trigger_off;
use crate::service::{looking, makes, over, turn};
use crate::window::Window;
use crate::words::{Phase, Word, entry, group_in, order_of, rounds_of};
use adc_machine::AdcTable;
use mcal_base::{Event, Reg};
use word_shapes::PutPart;
use word_shapes::streams::{Bank, Column, Copying, following, limited, one_more};

/// What a serving has seen.
#[derive(Clone, Copy)]
pub struct RoundSeen {
    /// What the unit runs.
    pub running: u32,
    /// The group's phase.
    pub phase: u32,
    /// The rounds of its stream.
    pub count: u32,
    /// The place of the round.
    pub place: u32,
    /// The chosen buffer.
    pub chosen: u32,
    /// Whether the notification is on.
    pub notified: u32,
}

/// A finished round is there, of the group that the unit runs: a bank is sought for it.
pub fn take(table: &AdcTable, unit: u8, running: u32) -> Decided
    ensures { result ≡ spec.take table.now unit running }
{
    match group_in(running) {
        Some(group) if table.is_on(unit, group) => {
            let put = rounds_of(table, group).trio().put(PutPart::Choose);
            Decided::Goes(Place::Chooses(unit, group, put))
        }
        _ => over(),
    }
}

/// A bank was found.
pub fn chosen(unit: u8, group: u8, bank: Bank) -> Decided
    ensures { result ≡ spec.chosen unit group bank }
{
    Decided::Goes(looking(Window::Claim(Taken { unit, group, bank })))
}

/// The unit is claimed, and the round is copied to the bank.
pub fn claim(table: &AdcTable, taken: Taken, kept: u32) -> Decided
    ensures { result ≡ spec.claim table.now taken kept }
{
    let mut deeds = WindowWrites::new();
    deeds.push(WindowWrite::Set(Word::Claim(taken.unit), 1));
    let rounds = rounds_of(table, taken.group);
    let what = word_shapes::streams::Copied::Round(
        rounds,
        taken.unit,
        limited(kept, 32),
        taken.bank,
    );
    let after = match Copying::of(what) {
        Some(copying) => Outside::Copies(copying, Copied::Serves(taken)),
        None => Outside::Closes(Window::Serve(taken)),
    };
    makes(moves_of(None, deeds, Continuation::Goes(after)))
}

/// The round is served, unless the group was stopped meanwhile.
pub fn serve(table: &AdcTable, taken: Taken, seen: RoundSeen) -> Decided
    ensures { result ≡ spec.serve table.now taken seen }
{
    let Taken { unit, group, bank } = taken;
    if seen.running == 0 {
        return turn::leaves(table, unit);
    }
    let samples = table.samples_of(group);
    let count = one_more(seen.count, samples);
    let full = table.is_full(group, count);
    let again = table.is_continuous(group) && !full;
    let phase = phase_after(table, group, &seen, full);
    let mut deeds = WindowWrites::new();
    deeds.push(WindowWrite::Write(Reg::ConverterAck(u32::from(unit)), 1));
    deeds.push(WindowWrite::Set(Word::Running(unit), 0));
    deeds.push(WindowWrite::Set(Word::Count(group), count));
    deeds.push(WindowWrite::Set(Word::Place(group), following(seen.place, samples)));
    deeds.push(WindowWrite::Set(Word::Phase(group), phase.number()));
    let order = order_of(unit);
    let shape = if again {
        deeds.push(WindowWrite::Set(Word::Kept(group), 0));
        StructureOp::Again(order.again(entry(group)))
    } else {
        deeds.push(WindowWrite::Set(Word::Turn(group), 0));
        StructureOp::Drop(order.drop(entry(group)))
    };
    if full && table.trigger_of(group).is_some() {
        trigger_off(&mut deeds, trigger_bit(table, group));
    }
    deeds.push(WindowWrite::Set(Word::Claim(unit), 0));
    let put = rounds_of(table, group)
        .trio()
        .put(PutPart::Commit(bank.number()));
    makes(WriteBatch {
        order: Some(shape),
        banks: Some(StructureOp::Put(put)),
        ..moves_of(
            Some(Event::Serve(24 + u32::from(unit))),
            deeds,
            Continuation::Goes(stores(table, taken, &seen)),
        )
    })
}

/// The phase after a round.
fn phase_after(table: &AdcTable, group: u8, seen: &RoundSeen, full: bool) -> Phase
    ensures { result ≡ spec.phase_after table.now group seen.now full }
{
    let last = following(seen.place, table.samples_of(group)) == 0;
    if last || is_streamed(Phase::of(seen.phase)) {
        let goes_on = table.is_continuous(group) || table.trigger_of(group).is_some();
        if goes_on && !full {
            Phase::Streaming
        } else {
            Phase::Ended
        }
    } else {
        Phase::Completed
    }
}

/// Whether the group's stream was completed before.
fn is_streamed(phase: Phase) -> bool
    ensures { result ≡ spec.is_streamed phase }
{
    match phase {
        Phase::Streaming | Phase::Ended => true,
        Phase::Idle | Phase::Busy | Phase::Completed => false,
    }
}

/// The round is copied to the user's buffer that was chosen at the serving.
fn stores(table: &AdcTable, taken: Taken, seen: &RoundSeen) -> Outside
    ensures { result ≡ spec.stores table.now taken seen.now }
{
    let Taken { unit, group, bank } = taken;
    let column = Column {
        group,
        second: seen.chosen == 2,
        samples: table.samples_of(group),
        place: limited(seen.place, 64),
    };
    let what = word_shapes::streams::Copied::Bank(rounds_of(table, group), bank, column);
    match Copying::of(what) {
        Some(copying) => Outside::Copies(copying, Copied::Tells(unit, group, seen.notified == 1)),
        None => Outside::Closes(Window::Begin(unit)),
    }
}
