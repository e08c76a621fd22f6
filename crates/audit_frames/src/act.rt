ghost use Rattle.std.specs.Prelude.{◌≡◌};
ghost use Rattle.run_model.specs.Frame.{report_after};
ghost use Rattle.audit_frames.specs.ActRules as spec;

use crate::accesses::reads_low;
use crate::terms::{Caller, Task};
use mcal_base::{DevError, ErrorName, Event, Move, Reg, Service};

/// Where the call of a frame acted.
#[derive(Clone, Copy)]
pub struct Acted {
    /// Whether it read the low half of its counter there, with the mask closed.
    pub low: bool,
    /// Whether it found an error.
    pub failed: bool,
}

/// Where the call of a frame acted, after a step; `inside` says whether it held the mask closed before it.
pub(crate) fn acted_after(
    task: Task,
    inside: bool,
    made: &Move,
    acted: Option<Acted>,
    event: Option<Event>,
    error: Option<ErrorName>,
) -> Option<Acted>
    ensures { result ≡ spec.acted_after task inside made.now acted event error }
{
    match task {
        Task::Call(caller) => match event {
            Some(Event::Act) => Some(Acted {
                low: reads_low(caller.counter, made) && inside,
                failed: error.is_some(),
            }),
            _ => acted,
        },
        Task::Line(_) => acted,
    }
}

/// Whether a call that acted without an error and has read both halves of its counter acted at a read of the low half, with
/// the mask closed.
pub(crate) fn halves_right(acted: Option<Acted>, low_read: bool, high_read: bool) -> bool
    ensures { result ≡ spec.halves_right acted low_read high_read }
{
    match acted {
        Some(acted) => acted.failed || !(low_read && high_read) || acted.low,
        None => true,
    }
}

/// Whether a call that found an error wrote nothing.
pub(crate) fn errors_right(acted: Option<Acted>, wrote: bool) -> bool
    ensures { result ≡ spec.errors_right acted wrote }
{
    match acted {
        Some(acted) => !(acted.failed && wrote),
        None => true,
    }
}

/// Whether a call that acted without an error has made each write that it owes, which `are_made` says.
pub(crate) fn writes_right(acted: Option<Acted>, are_made: bool) -> bool
    ensures { result ≡ spec.writes_right acted are_made }
{
    match acted {
        Some(acted) => acted.failed || are_made,
        None => true,
    }
}

/// The report of an error that the act of a call found, where it is reported: as a runtime error or as a development error.
fn report_of(caller: Caller, error: Option<ErrorName>, reported: Option<bool>) -> Option<DevError>
    ensures { result ≡ spec.report_of caller error reported }
{
    match error {
        Some(error) => match reported {
            Some(runtime) => Some(DevError {
                service: caller.service,
                error,
                runtime,
            }),
            None => None,
        },
        None => None,
    }
}

/// The error that has to be reported, with that of a step's act.
pub(crate) fn report_by(
    task: Task,
    report: Option<DevError>,
    event: Option<Event>,
    error: Option<ErrorName>,
    reported: Option<bool>,
) -> Option<DevError>
    ensures { result ≡ spec.report_by task report event error reported }
{
    match task {
        Task::Call(caller) => match event {
            Some(Event::Act) => report_of(caller, error, reported),
            _ => report,
        },
        Task::Line(_) => report,
    }
}

/// The error that has to be reported, after a move: it is reported once.
pub(crate) fn report_after(report: Option<DevError>, made: &Move) -> Option<DevError>
    ensures { result ≡ report_after report made.now }
{
    match made {
        Move::Report(_) => None,
        _ => report,
    }
}

/// Whether a move resets the chip.
fn resets_chip(made: &Move) -> bool
    ensures { result ≡ spec.resets_chip made.now }
{
    matches!(made, Move::Write(Reg::ResetRequest, _))
}

/// Whether a call acts that asks for a reset, and finds no error.
fn asks_reset(task: Task, event: Option<Event>, error: Option<ErrorName>) -> bool
    ensures { result ≡ spec.asks_reset task event error }
{
    match task {
        Task::Call(caller) => match event {
            Some(Event::Act) => {
                matches!(caller.service, Service::McuPerformReset) && !error.is_some()
            }
            _ => false,
        },
        Task::Line(_) => false,
    }
}

/// Whether the chip is reset exactly where a call acts that asks for it and finds no error, and the frame doesn't end there.
pub(crate) fn reset_right(
    task: Task,
    made: &Move,
    event: Option<Event>,
    error: Option<ErrorName>,
    ends: bool,
) -> bool
    ensures { result ≡ spec.reset_right task made.now event error ends }
{
    if resets_chip(made) {
        asks_reset(task, event, error) && !ends
    } else {
        !asks_reset(task, event, error)
    }
}
