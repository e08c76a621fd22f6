ghost use Rattle.std.specs.Prelude.{◌≡◌};
ghost use Rattle.chip_model.specs.Wiring.{output_in, wiring_of};

use mcal_base::{Config, PwmChannel};

/// The pin at which each pulse channel's output is seen, where it is seen at one.
#[tactic(auto, unfolding(chip_model::specs::Wiring::wiring_of))]
pub(crate) fn outputs_of(config: &Config) -> [Option<u32>; 8]
    ensures { result ≡ (wiring_of config.now).outputs }
{
    let channels = config.pwm.channels.as_slice();
    [
        output(channels, 0),
        output(channels, 1),
        output(channels, 2),
        output(channels, 3),
        output(channels, 4),
        output(channels, 5),
        output(channels, 6),
        output(channels, 7),
    ]
}

/// The pin of a pulse channel, where it is configured and has one.
fn output(channels: &[PwmChannel], channel: u32) -> Option<u32>
    ensures { result ≡ output_in channels.now channel }
{
    for configured in channels {
        if configured.id == channel {
            return configured.pin;
        }
    }
    None
}
