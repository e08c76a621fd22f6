ghost use Rattle.std.specs.Prelude.{◌≡◌};
ghost use Rattle.module_machines.specs.icu.Table as spec;

use mcal_base::{
    Config, IcuChannel, IcuMeasurementMode, IcuSignalMeasurementProperty, IcuStartEdge,
    IcuTimestampMeasurementProperty,
};

/// A configured channel.
#[derive(Clone, Copy)]
pub struct Channel {
    /// `IcuChannelId`, 0 to 7.
    pub number: u8,
    /// `IcuDefaultStartEdge`.
    pub start_edge: IcuStartEdge,
    /// `IcuMeasurementMode`.
    pub mode: IcuMeasurementMode,
    /// `IcuSignalMeasurementProperty`; it is there in measurement mode.
    pub measured: Option<IcuSignalMeasurementProperty>,
    /// `IcuTimestampMeasurementProperty`; it is there in timestamp mode.
    pub buffer: Option<IcuTimestampMeasurementProperty>,
    /// Whether `IcuSignalNotification` is given.
    pub signal_notification: bool,
    /// Whether `IcuTimestampNotification` is given.
    pub timestamp_notification: bool,
    /// `Pin` whose edges come to it.
    pub pin: u32,
    /// `Level` of its line.
    pub level: u32,
}

/// What the capture driver keeps of a configuration.
#[derive(Clone, Copy)]
pub struct IcuTable {
    /// `IcuDevErrorDetect`.
    pub detect: bool,
    /// `Classification` of state errors.
    pub classification: u32,
    /// The channels by number, where they are configured.
    pub channels: [Option<Channel>; 8],
}

impl IcuTable {
    /// The table of a configuration. It takes no memory.
    pub fn new(config: &Config) -> IcuTable
        ensures { result ≡ spec.table_of config.now.icu }
    {
        let channels = config.icu.channels.as_slice();
        IcuTable {
            detect: config.icu.dev_error_detect,
            classification: config.icu.classification,
            channels: [
                find(channels, 0),
                find(channels, 1),
                find(channels, 2),
                find(channels, 3),
                find(channels, 4),
                find(channels, 5),
                find(channels, 6),
                find(channels, 7),
            ],
        }
    }

    /// The channel of a number, where it is configured.
    pub fn channel(&self, number: u32) -> Option<Channel>
        ensures { result ≡ spec.channel_of self.now number }
    {
        if number < 8 {
            self.channels[number as usize]
        } else {
            None
        }
    }

    /// The channel of a line, where it is configured.
    pub fn channel_of_line(&self, line: u32) -> Option<Channel>
        ensures { result ≡ spec.channel_of_line self.now line }
    {
        if line < 16 {
            None
        } else {
            self.channel(line - 16)
        }
    }
}

/// The first channel with this number.
fn find(channels: &[IcuChannel], number: u8) -> Option<Channel>
    ensures { result ≡ spec.channel_in channels.now number }
{
    for channel in channels {
        if channel.id == u32::from(number) {
            return Some(taken(channel, number));
        }
    }
    None
}

fn taken(channel: &IcuChannel, number: u8) -> Channel
    ensures { result ≡ spec.taken channel.now number }
{
    Channel {
        number,
        start_edge: channel.default_start_edge,
        mode: channel.measurement_mode,
        measured: channel.signal_measurement_property,
        buffer: channel.timestamp_measurement_property,
        signal_notification: channel.signal_notification,
        timestamp_notification: channel.timestamp_notification,
        pin: channel.pin,
        level: channel.level,
    }
}
