ghost use Rattle.std.specs.Prelude.{◌≡◌, false, [], ◌∷◌};
ghost use Rattle.module_machines.specs.mcu.Checks as checks;
ghost use Rattle.module_machines.specs.mcu.Machine as spec;

use audit_base::{named, nothing};
use mcal_base::det_errors::Facts;
use mcal_base::{Answer, AnswerName, Reason};
use module_machines::mcu::{Call, ClockCall, McuTable};

/// Whether the errors of a call hold, in their order: the module is uninitialised, the PLL isn't locked.
pub(crate) fn facts(driver: &McuTable, call: Call, off: bool, unlocked: bool) -> Facts
    ensures { result.holds ≡ checks.facts_by driver.now call off unlocked }
{
    let holds = match call {
        Call::Init => [false; 6],
        Call::InitRamSection(number) => named_wrongly(off, driver.section(number).is_none()),
        Call::Clock(ClockCall::InitClock(number)) => {
            named_wrongly(off, driver.multiplier(number).is_none())
        }
        Call::Clock(ClockCall::DistributePllClock) => named_wrongly(off, unlocked),
        Call::SetMode(mode) => named_wrongly(off, !driver.has_mode(mode)),
        Call::GetPllStatus | Call::GetResetReason | Call::PerformReset => {
            named_wrongly(off, false)
        }
    };
    Facts { holds }
}

fn named_wrongly(off: bool, wrong: bool) -> [bool; 6]
    ensures { result ≡ off ∷ wrong ∷ false ∷ false ∷ false ∷ false ∷ [] }
{
    [off, wrong, false, false, false, false]
}

/// The answer of a call with an error.
pub(crate) fn refused(call: Call) -> Answer
    ensures { result ≡ checks.answer_refused call }
{
    match call {
        Call::InitRamSection(_) | Call::Clock(_) => named(AnswerName::ENotOk),
        Call::GetPllStatus => named(AnswerName::McuPllStatusUndefined),
        Call::GetResetReason => named(AnswerName::McuResetUndefined),
        Call::Init | Call::PerformReset | Call::SetMode(_) => nothing(),
    }
}

/// The answer for a reason of a reset.
pub(crate) fn reason_name(reason: Reason) -> AnswerName
    ensures { result ≡ spec.reason_name reason }
{
    match reason {
        Reason::PowerOn => AnswerName::McuPowerOnReset,
        Reason::Watchdog => AnswerName::McuWatchdogReset,
        Reason::Software => AnswerName::McuSwReset,
    }
}

/// The answer for a PLL, locked or not.
pub(crate) fn status_name(locked: bool) -> AnswerName
    ensures { result ≡ spec.status_name locked }
{
    if locked {
        AnswerName::McuPllLocked
    } else {
        AnswerName::McuPllUnlocked
    }
}
