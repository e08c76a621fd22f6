ghost use Rattle.std.specs.Prelude.{◌≡◌};
ghost use Rattle.gpt_driver.specs.Words as spec;

use module_machines::gpt::Switches;

/// The switches that stand in a word.
pub(crate) fn unpacked(word: u32) -> Switches
    ensures { result ≡ spec.switches_of word }
{
    Switches {
        notification: word % 2 == 1,
        wakeup: word / 2 % 2 == 1,
        woken: word / 4 % 2 == 1,
    }
}

/// The word of switches.
pub(crate) fn packed(switches: Switches) -> u32
    ensures { result ≡ spec.word_of switches }
{
    u32::from(switches.notification)
        + 2 * u32::from(switches.wakeup)
        + 4 * u32::from(switches.woken)
}
