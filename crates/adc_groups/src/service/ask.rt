ghost use Rattle.std.specs.Prelude.{◌≡◌, ◌<◌};
ghost use Rattle.adc_machine.specs.Words.{buffer_number};
ghost use Rattle.adc_groups.specs.laws.services.Decisions as spec;

use crate::body::{Decided, Place};
use crate::making::{Continuation, WindowWrite, WindowWrites, moves_of};
use crate::owed::error_owed;
use crate::service::{acts_and_ends, done, makes};
use crate::words::{Phase, Word, flag};
use adc_machine::{AdcTable, ResultBuffer};
use mcal_base::{AnswerName, ErrorName, Event, Service};
use service_outline::{Epilogue, Reply, named, nothing, numbers, zero_null};
use word_shapes::streams::preceding;

/// One deed, at which a call acts, and with which it is done.
pub fn change(deed: WindowWrite, answer: Reply) -> Place
    ensures { result ≡ spec.change deed answer }
{
    let mut deeds = WindowWrites::new();
    deeds.push(deed);
    Place::Makes(moves_of(Some(Event::Act), deeds, Continuation::Ends(done(answer))))
}

/// `Adc_SetupResultBuffer`
pub fn set_up(table: &AdcTable, group: u8, buffer: ResultBuffer, phase: u32) -> Decided
    ensures { result ≡ spec.set_up table.now group buffer phase }
{
    if phase == 0 {
        let deed = WindowWrite::Set(Word::Chosen(group), 1 + buffer_number(buffer));
        Decided::Goes(change(deed, named(AnswerName::EOk)))
    } else {
        let owed = error_owed(table, Service::AdcSetupResultBuffer, ErrorName::AdcBusy);
        acts_and_ends(named(AnswerName::ENotOk), owed)
    }
}

/// The number of a buffer.
fn buffer_number(buffer: ResultBuffer) -> u32
    ensures is { result ≡ buffer_number buffer }
    ensures few { result < 2 }
{
    match buffer {
        ResultBuffer::Zero => 0,
        ResultBuffer::One => 1,
    }
}

/// `Adc_EnableGroupNotification` and `Adc_DisableGroupNotification`
pub fn notify(group: u8, on: bool) -> Place
    ensures { result ≡ spec.notify group on }
{
    change(WindowWrite::Set(Word::Notified(group), flag(on)), nothing())
}

/// `Adc_GetGroupStatus`
pub fn status(phase: u32) -> Decided
    ensures { result ≡ spec.status phase }
{
    let name = match Phase::of(phase) {
        Phase::Idle => AnswerName::AdcIdle,
        Phase::Busy => AnswerName::AdcBusy,
        Phase::Completed => AnswerName::AdcCompleted,
        Phase::Streaming | Phase::Ended => AnswerName::AdcStreamCompleted,
    };
    acts_and_ends(named(name), Epilogue::Nothing)
}

/// `Adc_GetStreamLastPointer`
pub fn point(table: &AdcTable, group: u8, phase: u32, count: u32, place: u32) -> Decided
    ensures { result ≡ spec.point table.now group phase count place }
{
    match Phase::of(phase) {
        Phase::Idle => {
            let owed = error_owed(table, Service::AdcGetStreamLastPointer, ErrorName::AdcIdle);
            acts_and_ends(zero_null(), owed)
        }
        Phase::Busy => acts_and_ends(zero_null(), Epilogue::Nothing),
        found => {
            let newest = preceding(place, table.samples_of(group));
            let deed = WindowWrite::Set(Word::Phase(group), found.read().number());
            Decided::Goes(change(deed, numbers(count, newest)))
        }
    }
}
