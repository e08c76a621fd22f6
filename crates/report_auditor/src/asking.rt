ghost use Rattle.std.specs.Prelude.{◌≡◌, Some};
ghost use Rattle.run_model.specs.Frame.{Open};
ghost use Rattle.run_model.specs.Legal.{ShowsRight, StartsUncalled};
ghost use Rattle.run_model.specs.World.{World};
ghost use Rattle.audit_base.specs.Outside.{IsWorld};
ghost use Rattle.audit_frames.specs.Decides.{Decides};
ghost use Rattle.audit_frames.specs.StandsFor.{StandsFor};
ghost use Rattle.audit_subject.specs.Origins.{origin_of};
ghost use Rattle.report_text.specs.reading.Reading as reading;
ghost use Rattle.report_auditor.specs.Asking as spec;

use audit_base::Outside;
use audit_frames::{Frame, Owing};
use audit_subject::{Origin, Subject};
use audit_whole::Whole;
use chip_model::Bus;
use mcal_base::{Event, Move, Reg, Unit};
use trace_reader::Mark;

/// The converter unit of a number, where there is one.
fn converter_at(number: u32) -> Option<Unit>
    ensures { result ≡ reading.converter_at number }
{
    match number {
        0 => Some(Unit::Adc0),
        1 => Some(Unit::Adc1),
        _ => None,
    }
}

/// The serial unit of a number, where there is one.
fn serial_at(number: u32) -> Option<Unit>
    ensures { result ≡ reading.serial_at number }
{
    match number {
        0 => Some(Unit::Spi0),
        1 => Some(Unit::Spi1),
        _ => None,
    }
}

/// The unit that is started by a move, where one is.
fn started_by(made: &Move) -> Option<Unit>
    ensures { result ≡ reading.started_by made.now }
{
    match *made {
        Move::Write(Reg::ConverterGo(unit), _) => converter_at(unit),
        Move::Write(Reg::SerialData(unit), _) => serial_at(unit),
        _ => None,
    }
}

/// The unit that is aborted by a move, where one is.
fn aborted_by(made: &Move) -> Option<Unit>
    ensures { result ≡ reading.aborted_by made.now }
{
    match *made {
        Move::Read(Reg::ConverterAbort(unit)) => converter_at(unit),
        _ => None,
    }
}

/// The event that is marked at a move, where it can stand there.
pub fn event_of(made: &Move, mark: Mark) -> Option<Event>
    ensures { result ≡ reading.event_of made.now (Some mark) }
{
    match mark {
        Mark::Act => Some(Event::Act),
        Mark::Serve(line) => Some(Event::Serve(line)),
        Mark::Start => match started_by(made) {
            Some(unit) => Some(Event::Start(unit)),
            None => None,
        },
        Mark::Abort => match aborted_by(made) {
            Some(unit) => Some(Event::Abort(unit)),
            None => None,
        },
    }
}

/// The unit that an event starts, where it starts one.
fn started(event: Option<Event>) -> Option<Unit>
    ensures { result ≡ spec.started event }
{
    match event {
        Some(Event::Start(unit)) => Some(unit),
        _ => None,
    }
}

/// Whether a frame may start a unit by what it has done: one that has acted may where the start is allowed for no call.
fn may_start<S: Subject>(subject: &S, outside: &Outside, frame: &Frame, unit: Unit) -> bool
    requires fits { S.fits subject.now outside.now }
    ensures { (w : World) (s : S.State) → IsWorld outside.now w → S.stands subject.now s →
        Decides result (StartsUncalled (S.member (S.table subject.now)).machine w s unit frame.now.answer) }
{
    match frame.answer() {
        Some(_) => subject.starts_uncalled(outside, unit),
        None => true,
    }
}

/// Whether a start of a frame that has acted is one that is allowed for no call, whatever word comes in.
pub fn starts_right<S: Subject>(
    subject: &S,
    outside: &Outside,
    frame: &Frame,
    event: Option<Event>,
) -> bool
    requires fits { S.fits subject.now outside.now }
    ensures { (w : World) (s : S.State) → IsWorld outside.now w → S.stands subject.now s →
        Decides result (spec.StartRight (S.member (S.table subject.now)).machine w s frame.now.answer event) }
{
    match started(event) {
        Some(unit) => may_start(subject, outside, frame, unit),
        None => true,
    }
}

fn is_note(made: &Move) -> bool
    ensures { result ≡ spec.is_note made.now }
{
    matches!(made, Move::Note(_))
}

/// Whether the user arrays of the object that a notice names are the machine's, where a serving owes it.
fn shows_next<P: Whole>(parts: &P, bus: &Bus, origin: &Origin<P::Call>, owed: Option<Owing>) -> bool
    requires { P.within parts.now }
    ensures { (s : P.State) → P.stands parts.now s →
        Decides result (spec.ShowsNext ((P.setting (P.table parts.now)).shows (origin_of origin.now)) bus.now s owed) }
{
    match owed {
        Some(owing) => {
            if !owing.served {
                return true;
            }
            parts.agrees_at(bus, origin, owing.notice)
        }
        None => true,
    }
}

/// Whether a notice that a serving owes comes where the user arrays of its object are the machine's.
pub fn shows_right<P: Whole>(
    parts: &P,
    bus: &Bus,
    frame: &Frame,
    origin: &Origin<P::Call>,
    made: &Move,
) -> bool
    requires { P.within parts.now }
    ensures { (s : P.State) (o : Open P.Call) → P.stands parts.now s → StandsFor (P.setting (P.table parts.now)) frame.now o →
        Decides result (ShowsRight (P.setting (P.table parts.now)) bus.now s (origin_of origin.now) o.owed made.now) }
{
    if !is_note(made) {
        return true;
    }
    shows_next(parts, bus, origin, frame.next_owed())
}
