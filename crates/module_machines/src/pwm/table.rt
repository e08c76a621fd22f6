ghost use Rattle.std.specs.Prelude.{◌≡◌};
ghost use Rattle.module_machines.specs.pwm.Table as spec;

use mcal_base::{Config, PwmChannel, PwmChannelClass, PwmOutputState};

/// A configured channel.
#[derive(Clone, Copy)]
pub struct Channel {
    /// `PwmChannelId`, 0 to 7.
    pub number: u8,
    /// `PwmChannelClass` is that of a variable period.
    pub variable_period: bool,
    /// `PwmDutycycleDefault`.
    pub duty_cycle_default: u32,
    /// `PwmIdleState` is high.
    pub idle_high: bool,
    /// `PwmPolarity` is high.
    pub polarity_high: bool,
    /// Whether `PwmNotification` is given.
    pub notification: bool,
    /// `PeriodTicks`: the period from `Pwm_Init` on.
    pub period_ticks: u32,
    /// `Level` of its line.
    pub level: u32,
}

/// What the pulse driver keeps of a configuration.
#[derive(Clone, Copy)]
pub struct PwmTable {
    /// `PwmDevErrorDetect`.
    pub detect: bool,
    /// The channels by number, where they are configured.
    pub channels: [Option<Channel>; 8],
}

impl PwmTable {
    /// The table of a configuration. It takes no memory.
    pub fn new(config: &Config) -> PwmTable
        ensures { result ≡ spec.table_of config.now.pwm }
    {
        let channels = config.pwm.channels.as_slice();
        PwmTable {
            detect: config.pwm.dev_error_detect,
            channels: [
                find(channels, 0),
                find(channels, 1),
                find(channels, 2),
                find(channels, 3),
                find(channels, 4),
                find(channels, 5),
                find(channels, 6),
                find(channels, 7),
            ],
        }
    }

    /// The channel of a number, where it is configured.
    pub fn channel(&self, number: u32) -> Option<Channel>
        ensures { result ≡ spec.channel_of self.now number }
    {
        if number < 8 {
            self.channels[number as usize]
        } else {
            None
        }
    }

    /// The channel of a line, where it is configured.
    pub fn channel_of_line(&self, line: u32) -> Option<Channel>
        ensures { result ≡ spec.channel_of_line self.now line }
    {
        if line < 8 {
            None
        } else {
            self.channel(line - 8)
        }
    }
}

/// The first channel with this number.
fn find(channels: &[PwmChannel], number: u8) -> Option<Channel>
    ensures { result ≡ spec.channel_in channels.now number }
{
    for channel in channels {
        if channel.id == u32::from(number) {
            return Some(taken(channel, number));
        }
    }
    None
}

fn taken(channel: &PwmChannel, number: u8) -> Channel
    ensures { result ≡ spec.taken channel.now number }
{
    Channel {
        number,
        variable_period: channel.class == PwmChannelClass::VariablePeriod,
        duty_cycle_default: channel.duty_cycle_default,
        idle_high: channel.idle_state == PwmOutputState::High,
        polarity_high: channel.polarity == PwmOutputState::High,
        notification: channel.notification,
        period_ticks: channel.period_ticks,
        level: channel.level,
    }
}
