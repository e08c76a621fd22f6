ghost use Rattle.std.specs.Prelude.{◌≡◌};
ghost use Rattle.mcal_base.specs.Layout.{words_of};
ghost use Rattle.chip_model.specs.Wiring.{wiring_of, output_in, source_in};

use mcal_base::{Config, PwmChannel, SpiChannel, SpiChannelType};

/// What a configuration wires to the chip.
#[derive(Clone, Copy)]
pub struct Wiring {
    /// The pin of each pulse channel's output, where it has one.
    pub outputs: [Option<u32>; 8],
    /// The places of each serial channel's source array.
    pub sources: [u32; 16],
}

impl Wiring {
    /// The wiring of a configuration.
    #[tactic(auto, unfolding(crate::specs::Wiring::wiring_of))]
    pub fn of(config: &Config) -> Wiring
        ensures { result ≡ wiring_of config.now }
    {
        let pulses = config.pwm.channels.as_slice();
        let serial = config.spi.channels.as_slice();
        Wiring {
            outputs: [
                output(pulses, 0),
                output(pulses, 1),
                output(pulses, 2),
                output(pulses, 3),
                output(pulses, 4),
                output(pulses, 5),
                output(pulses, 6),
                output(pulses, 7),
            ],
            sources: [
                source(serial, 0),
                source(serial, 1),
                source(serial, 2),
                source(serial, 3),
                source(serial, 4),
                source(serial, 5),
                source(serial, 6),
                source(serial, 7),
                source(serial, 8),
                source(serial, 9),
                source(serial, 10),
                source(serial, 11),
                source(serial, 12),
                source(serial, 13),
                source(serial, 14),
                source(serial, 15),
            ],
        }
    }
}

/// The pin of a pulse channel, where it is configured and has one.
fn output(channels: &[PwmChannel], channel: u32) -> Option<u32>
    ensures { result ≡ output_in channels.now channel }
{
    for configured in channels {
        if configured.id == channel {
            return configured.pin;
        }
    }
    None
}

/// The places of a serial channel's source array; one that isn't configured has none.
fn source(channels: &[SpiChannel], channel: u32) -> u32
    ensures { result ≡ source_in channels.now channel }
{
    for configured in channels {
        if configured.id == channel {
            return words(configured.channel_type);
        }
    }
    0
}

/// The words of a channel's arrays.
fn words(channel_type: SpiChannelType) -> u32
    ensures { result ≡ words_of channel_type }
{
    match channel_type {
        SpiChannelType::Internal(words) => words,
        SpiChannelType::External(words) => words,
    }
}
