use crate::short::Short;

/// `PwmChannelClass`.
#[derive(Clone, Copy, Debug, Default)]
pub enum PwmChannelClass {
    /// `PWM_FIXED_PERIOD`
    #[default]
    FixedPeriod,
    /// `PWM_FIXED_PERIOD_SHIFTED`, taken as `PWM_FIXED_PERIOD`
    FixedPeriodShifted,
    /// `PWM_VARIABLE_PERIOD`
    VariablePeriod,
}

/// A level of a pulse output.
#[derive(Clone, Copy, Debug, Default)]
pub enum PwmOutputState {
    /// `PWM_HIGH`
    High,
    /// `PWM_LOW`
    #[default]
    Low,
}

/// A pulse output.
#[derive(Debug, Default, Drop)]
pub struct PwmChannel {
    /// `PwmChannelId`, 0 to 7.
    pub id: u32,
    /// `PwmChannelClass`.
    pub class: PwmChannelClass,
    /// `PwmDutycycleDefault`, 0 to 32,768.
    pub duty_cycle_default: u32,
    /// `PwmIdleState`.
    pub idle_state: PwmOutputState,
    /// `PwmPolarity`.
    pub polarity: PwmOutputState,
    /// Whether `PwmNotification` is given.
    pub notification: bool,
    /// `PeriodTicks`, 0 to 65,535.
    pub period_ticks: u32,
    /// `Pin`, 0 to 63.
    pub pin: Option<u32>,
    /// `Level` of its line, 1 to 7.
    pub level: u32,
}

/// The table `Pwm`.
#[derive(Debug, Default, Drop)]
pub struct PwmConfig {
    /// `PwmDevErrorDetect`.
    pub dev_error_detect: bool,
    /// `PwmChannel`.
    pub channels: Short<PwmChannel, 8>,
}
