ghost use Rattle.std.specs.Prelude.{◌≡◌, IfOk};
ghost use Rattle.audit_base.specs.Tells.{listed};
ghost use Rattle.audit_frames.specs.OwingRules as spec;
ghost use Rattle.audit_frames.specs.OwingRules.{is_empty};

use crate::same::{same_notice, same_report};
use audit_base::Notices;
use mcal_base::{DevError, Event, Move, NoMemory, Notice};

/// A notice that a frame owes, and whether a serving owes it.
#[derive(Clone, Copy)]
pub struct Owing {
    /// The notice.
    pub notice: Notice,
    /// Whether the frame owes it by a serving.
    pub served: bool,
}

/// Whether no notice is owed.
pub(crate) fn owes_none(owed: &[Owing]) -> bool
    ensures { result ≡ is_empty owed.now }
{
    match owed {
        [] => true,
        [_, ..] => false,
    }
}

fn is_serving(event: Option<Event>) -> bool
    ensures { result ≡ spec.is_serving event }
{
    matches!(event, Some(Event::Serve(_)))
}

/// One more notice is owed.
fn put(owed: &mut Vec<Owing>, notice: Notice, served: bool) -> Result<(), NoMemory>
    ensures { IfOk result (λ _. owed.new.items ≡ spec.put owed.old.items notice served) }
{
    match owed.push(Owing { notice, served }) {
        Ok(()) => Ok(()),
        Err(_) => Err(NoMemory),
    }
}

/// The notices of an event are owed too.
fn owe_by(owed: &mut Vec<Owing>, event: Option<Event>, notices: Notices) -> Result<(), NoMemory>
    ensures { IfOk result (λ _. owed.new.items ≡ spec.owed_by owed.old.items event (listed notices)) }
{
    match event {
        None => Ok(()),
        Some(_) => owe(owed, notices, is_serving(event)),
    }
}

/// These notices are owed too.
fn owe(owed: &mut Vec<Owing>, notices: Notices, served: bool) -> Result<(), NoMemory>
    ensures { IfOk result (λ _. owed.new.items ≡ spec.owe owed.old.items (listed notices) served) }
{
    match notices {
        Notices::None => Ok(()),
        Notices::One(first) => put(owed, first, served),
        Notices::Two(first, second) => {
            put(owed, first, served)?;
            put(owed, second, served)
        }
    }
}

/// The first notice is owed no longer, where one is.
fn drop_first(owed: &mut Vec<Owing>)
    ensures { owed.new.items ≡ spec.rest_of owed.old.items }
{
    if !owes_none(owed.as_slice()) {
        owed.remove(0);
    }
}

/// A notice that is given is owed no longer.
fn give(owed: &mut Vec<Owing>, made: &Move)
    ensures { owed.new.items ≡ spec.given owed.old.items made.now }
{
    if let Move::Note(_) = made {
        drop_first(owed);
    }
}

/// The notices that are owed after a step: with those of its event, and without the one that it gives.
pub(crate) fn owe_after(
    owed: &mut Vec<Owing>,
    made: &Move,
    event: Option<Event>,
    notices: Notices,
) -> Result<(), NoMemory>
    ensures { IfOk result (λ _. owed.new.items ≡ spec.owed_after owed.old.items made.now event (listed notices)) }
{
    owe_by(owed, event, notices)?;
    give(owed, made);
    Ok(())
}

/// Whether the notice is the next one that is owed.
fn is_owed(owed: &Vec<Owing>, notice: &Notice) -> bool
    ensures { result ≡ spec.is_owed owed.now.items notice.now }
{
    match owed.as_slice() {
        [] => false,
        [first, ..] => same_notice(&first.notice, notice),
    }
}

/// Whether the error is the one that has to be reported.
fn is_reported(report: Option<DevError>, error: &DevError) -> bool
    ensures { result ≡ spec.is_reported report error.now }
{
    match report {
        Some(report) => same_report(&report, error),
        None => false,
    }
}

/// Whether a frame closes only an open mask and opens only a closed one, gives the next notice that it owes, with the mask open,
/// and reports its error. The report is the one that has to be made with this step's act.
pub(crate) fn move_right(
    inside: bool,
    owed: &Vec<Owing>,
    report: Option<DevError>,
    made: &Move,
) -> bool
    ensures { result ≡ spec.move_right inside owed.now.items report made.now }
{
    match made {
        Move::Mask => !inside,
        Move::Unmask => inside,
        Move::Note(notice) => !inside && is_owed(owed, notice),
        Move::Report(error) => is_reported(report, error),
        Move::Read(_) | Move::Write(_, _) | Move::Load(_) | Move::Store(_, _) => true,
    }
}
