ghost use Rattle.std.specs.Prelude.{◌≡◌, IfOk, string_bytes};
ghost use Rattle.sweep_top.specs.Endings as spec;
ghost use Rattle.sweep_top.specs.declared.ends.SweepEnd.TheVariants as ends;

use bench_sweep::SweepFault;
use bench_top::Refusal;
use std::alloc::{AllocError, AllocFailed, Global};
use sweep_trials::Stop;

/// Why a sweep tells of no outcomes.
#[derive(Clone, Copy)]
pub enum SweepEnd {
    /// The words are of no form.
    Usage,
    /// More bytes came than an input may have.
    TooManyBytes,
    /// The configuration is refused, or no line is the separator.
    Refused(Refusal),
    /// The script is no sweep.
    Fault(SweepFault),
    /// The sweep came to no end.
    Stopped(Stop),
    /// Memory was not found.
    NoMemory,
}

/// The line that is printed where a sweep came to no end.
fn stop_text(alloc: Global, stop: Stop) -> Result<String, AllocError>
    ensures { IfOk result (λ text. string_bytes text ≡ (spec.stopped stop).text) }
{
    match stop {
        Stop::TooManyDirectives => {
            String::from_str(alloc, "too long: more than 1100000 directives in a run\n")
        }
        Stop::TooManySteps => {
            String::from_str(alloc, "too long: more than 1000000 steps in a run\n")
        }
        Stop::TooManyInAll => {
            String::from_str(alloc, "too long: more than 100000000 steps in all runs\n")
        }
        Stop::TooManyNotices => {
            String::from_str(
                alloc,
                "too long: more than 1000 notices followed in a run\n",
            )
        }
        Stop::TooLongReport => {
            String::from_str(alloc, "too long: more than 268435456 bytes of report\n")
        }
        Stop::NoPlace(places) => format!(in alloc; "no such place: there are {places}\n"),
        Stop::NoMemory => Ok(String::new(alloc)),
    }
}

impl SweepEnd {
    /// The status.
    pub fn status(self) -> u8
        ensures { result ≡ (spec.ended self).status }
    {
        match self {
            SweepEnd::Usage => 1,
            SweepEnd::NoMemory | SweepEnd::Stopped(Stop::NoMemory) => 4,
            SweepEnd::Refused(refusal) => refusal.status(),
            SweepEnd::Fault(_) | SweepEnd::Stopped(Stop::NoPlace(_)) => 7,
            SweepEnd::TooManyBytes | SweepEnd::Stopped(_) => 5,
        }
    }

    /// The line that is printed.
    pub fn text(self, alloc: Global) -> Result<String, AllocError>
        ensures { IfOk result (λ text. string_bytes text ≡ (spec.ended self).text) }
    {
        match self {
            SweepEnd::Usage => String::from_str(
                alloc,
                "usage: mcal_sweep [--first] [--all] [--json] [--part I/N] | mcal_sweep --show PLACE\n",
            ),
            SweepEnd::TooManyBytes => {
                String::from_str(alloc, "too long: more than 1048576 bytes\n")
            }
            SweepEnd::Stopped(stop) => stop_text(alloc, stop),
            SweepEnd::Refused(refusal) => refusal.text(alloc),
            SweepEnd::Fault(fault) => fault.text(alloc),
            SweepEnd::NoMemory => Ok(String::new(alloc)),
        }
    }
}

impl<T: Drop> From<AllocFailed<T>> for SweepEnd {
    ghost from_gives = { λ _ e. e ≡ ends.NoMemory };

    fn from(_e: AllocFailed<T>) -> SweepEnd {
        SweepEnd::NoMemory
    }
}
