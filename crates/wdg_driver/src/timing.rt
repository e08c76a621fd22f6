ghost use Rattle.std.specs.Prelude.{◌≡◌};
ghost use Rattle.wdg_driver.specs.Words as spec;

use mcal_base::WdgMode;
use module_machines::wdg::Timing;

/// What is written to `W.LOAD` for a mode with a timeout: the ticks of the oscillator, at least one, and 0 in the off mode.
pub(crate) fn load(timing: &Timing) -> u32
    ensures { result ≡ spec.load_of timing.now }
{
    match timing.mode {
        WdgMode::Off => 0,
        WdgMode::Slow => ((timing.timeout as u32) * 16).max(1),
        WdgMode::Fast => (timing.timeout as u32).max(1),
    }
}

/// The word of an initialised module's state.
pub(crate) fn state_word(mode: WdgMode) -> u32
    ensures { result ≡ spec.mode_word mode }
{
    match mode {
        WdgMode::Off => 1,
        WdgMode::Slow => 2,
        WdgMode::Fast => 3,
    }
}

/// The mode in the state word of an initialised module.
pub(crate) fn mode_in(state: u32) -> WdgMode
    ensures { result ≡ spec.mode_in state }
{
    match state {
        2 => WdgMode::Slow,
        3 => WdgMode::Fast,
        _ => WdgMode::Off,
    }
}
