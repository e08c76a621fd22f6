use crate::short::Short;

/// `GptChannelMode`.
#[derive(Clone, Copy, Debug, Default)]
pub enum GptChannelMode {
    /// `GPT_CH_MODE_CONTINUOUS`
    #[default]
    Continuous,
    /// `GPT_CH_MODE_ONESHOT`
    OneShot,
}

/// A timer channel.
#[derive(Debug, Default, Drop)]
pub struct GptChannel {
    /// `GptChannelId`, 0 to 7.
    pub id: u32,
    /// `GptChannelMode`.
    pub mode: GptChannelMode,
    /// `GptChannelTickValueMax`: the largest value of a start.
    pub tick_value_max: u32,
    /// `GptEnableWakeup`: whether wakeup may be enabled.
    pub enable_wakeup: bool,
    /// Whether `GptNotification` is given.
    pub notification: bool,
    /// `Prescaler`: peripheral ticks a count, 1 to 65,535.
    pub prescaler: u32,
    /// `Level` of its line, 1 to 7.
    pub level: u32,
}

/// The table `Gpt`.
#[derive(Debug, Default, Drop)]
pub struct GptConfig {
    /// `GptDevErrorDetect`.
    pub dev_error_detect: bool,
    /// `Classification`: 2 where state errors are runtime errors, 1 where they are development errors.
    pub classification: u32,
    /// `GptChannelConfiguration`.
    pub channels: Short<GptChannel, 8>,
}
