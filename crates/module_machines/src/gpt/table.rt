ghost use Rattle.std.specs.Prelude.{◌≡◌, ◌<◌};
ghost use Rattle.module_machines.specs.gpt.Table as spec;

use mcal_base::{Config, GptChannel, GptChannelMode};

/// How many channels the chip has.
const CHANNELS: u32 = 8;

/// A configured channel.
#[derive(Clone, Copy)]
pub struct Channel {
    /// `GptChannelId`, 0 to 7.
    pub number: u8,
    /// `GptChannelMode` is one-shot.
    pub one_shot: bool,
    /// `GptChannelTickValueMax`: the largest value of a start.
    pub tick_value_max: u32,
    /// `GptEnableWakeup`: whether wakeup may be enabled.
    pub wakeup: bool,
    /// Whether `GptNotification` is given.
    pub notification: bool,
    /// `Prescaler`: peripheral ticks a count.
    pub prescaler: u32,
    /// `Level` of its line.
    pub level: u32,
}

/// What the timer driver keeps of a configuration.
#[derive(Clone, Copy)]
pub struct GptTable {
    /// `GptDevErrorDetect`.
    pub detect: bool,
    /// `Classification` of state errors.
    pub classification: u32,
    /// The channels by number, where they are configured.
    pub channels: [Option<Channel>; 8],
}

impl GptTable {
    /// The table of a configuration. It takes no memory.
    pub fn new(config: &Config) -> GptTable
        ensures { result ≡ spec.table_of config.now.gpt }
    {
        let channels = config.gpt.channels.as_slice();
        GptTable {
            detect: config.gpt.dev_error_detect,
            classification: config.gpt.classification,
            channels: [
                find(channels, 0),
                find(channels, 1),
                find(channels, 2),
                find(channels, 3),
                find(channels, 4),
                find(channels, 5),
                find(channels, 6),
                find(channels, 7),
            ],
        }
    }

    /// The channel of a number, where it is configured.
    pub fn channel(&self, number: u32) -> Option<Channel>
        ensures { result ≡ spec.channel_of self.now number }
    {
        if number < CHANNELS {
            self.channels[number as usize]
        } else {
            None
        }
    }
}

/// The first channel with this number.
fn find(channels: &[GptChannel], number: u8) -> Option<Channel>
    ensures { result ≡ spec.channel_in channels.now number }
{
    for channel in channels {
        if channel.id == u32::from(number) {
            return Some(taken(channel, number));
        }
    }
    None
}

fn taken(channel: &GptChannel, number: u8) -> Channel
    ensures { result ≡ spec.taken channel.now number }
{
    Channel {
        number,
        one_shot: channel.mode == GptChannelMode::OneShot,
        tick_value_max: channel.tick_value_max,
        wakeup: channel.enable_wakeup,
        notification: channel.notification,
        prescaler: channel.prescaler,
        level: channel.level,
    }
}
