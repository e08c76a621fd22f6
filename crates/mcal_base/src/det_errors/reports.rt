ghost use Rattle.std.specs.Prelude.{◌≡◌};
ghost use Rattle.mcal_base.specs.det_errors.Reports as spec;

use crate::ErrorName;

/// Whether an error is reported by a module that detects development errors or doesn't, and classifies state errors as
/// runtime errors (2) or as development errors (1): None where it isn't reported, else whether it is a runtime error.
pub fn reported(detect: bool, classification: u32, error: ErrorName) -> Option<bool>
    ensures { result ≡ spec.reported (record { detect = detect; classification = classification }) error }
{
    if classification == 2 && is_state_error(error) {
        Some(true)
    } else if detect {
        Some(false)
    } else {
        None
    }
}

/// Whether it is a state error: one that comes of the moment of the call.
fn is_state_error(error: ErrorName) -> bool
    ensures { result ≡ spec.is_state_error error }
{
    matches!(
        error,
        ErrorName::GptBusy
            | ErrorName::GptMode
            | ErrorName::IcuNotStarted
            | ErrorName::AdcBusy
            | ErrorName::AdcIdle
            | ErrorName::SpiSeqPending
            | ErrorName::SpiSeqInProcess
    )
}
