use crate::short::Short;

/// `AdcPriorityImplementation`.
#[derive(Clone, Copy, Debug, Default)]
pub enum AdcPriorityImplementation {
    /// `ADC_PRIORITY_NONE`
    #[default]
    None,
    /// `ADC_PRIORITY_HW_SW`
    HwSw,
}

/// `AdcGroupAccessMode`.
#[derive(Clone, Copy, Debug, Default)]
pub enum AdcAccessMode {
    /// `ADC_ACCESS_MODE_SINGLE`
    #[default]
    Single,
    /// `ADC_ACCESS_MODE_STREAMING`
    Streaming,
}

/// `AdcGroupConversionMode`.
#[derive(Clone, Copy, Debug, Default)]
pub enum AdcConversionMode {
    /// `ADC_CONV_MODE_ONESHOT`
    #[default]
    OneShot,
    /// `ADC_CONV_MODE_CONTINUOUS`
    Continuous,
}

/// `AdcGroupReplacement`.
#[derive(Clone, Copy, Debug, Default)]
pub enum AdcGroupReplacement {
    /// `ADC_GROUP_REPL_ABORT_RESTART`: an aborted round begins anew.
    #[default]
    AbortRestart,
    /// `ADC_GROUP_REPL_SUSPEND_RESUME`: an aborted round keeps the inputs that have ended.
    SuspendResume,
}

/// `AdcGroupTriggSrc`.
#[derive(Clone, Copy, Debug, Default)]
pub enum AdcTriggerSource {
    /// `ADC_TRIGG_SRC_SW`
    #[default]
    Software,
    /// `ADC_TRIGG_SRC_HW`
    Hardware,
}

/// `AdcStreamingBufferMode`.
#[derive(Clone, Copy, Debug, Default)]
pub enum AdcStreamBufferMode {
    /// `ADC_STREAM_BUFFER_LINEAR`
    #[default]
    Linear,
    /// `ADC_STREAM_BUFFER_CIRCULAR`
    Circular,
}

/// A converter unit.
#[derive(Debug, Default, Drop)]
pub struct AdcHwUnit {
    /// `AdcHwUnitId`, 0 or 1.
    pub id: u32,
    /// `Level` of its line, 1 to 7.
    pub level: u32,
}

/// A converter group.
#[derive(Debug, Default, Drop)]
pub struct AdcGroup {
    /// `AdcGroupId`, 0 to 15.
    pub id: u32,
    /// `Unit`, the id of a configured unit.
    pub unit: u32,
    /// `AdcGroupDefinition`: the numbers of its inputs, 0 to 31, in their order.
    pub definition: Short<u32, 32>,
    /// `AdcGroupAccessMode`.
    pub access_mode: AdcAccessMode,
    /// `AdcGroupConversionMode`.
    pub conversion_mode: AdcConversionMode,
    /// `AdcGroupPriority`, 0 to 255, 255 the highest.
    pub priority: u32,
    /// `AdcGroupReplacement`.
    pub replacement: AdcGroupReplacement,
    /// `AdcGroupTriggSrc`.
    pub trigger_source: AdcTriggerSource,
    /// `AdcStreamingBufferMode`.
    pub streaming_buffer_mode: AdcStreamBufferMode,
    /// `AdcStreamingNumSamples`, 1 to 64.
    pub streaming_num_samples: u32,
    /// Whether `AdcNotification` is given.
    pub notification: bool,
    /// `TriggerInput`, 0 to 3; it is there for a hardware trigger.
    pub trigger_input: Option<u32>,
    /// `Level` of its trigger line, 1 to 7.
    pub level: u32,
}

/// The table `Adc`.
#[derive(Debug, Default, Drop)]
pub struct AdcConfig {
    /// `AdcDevErrorDetect`.
    pub dev_error_detect: bool,
    /// `Classification`: 2 where state errors are runtime errors, 1 where they are development errors.
    pub classification: u32,
    /// `AdcPriorityImplementation`.
    pub priority_implementation: AdcPriorityImplementation,
    /// `AdcEnableQueuing`.
    pub enable_queuing: bool,
    /// `AdcHwUnit`.
    pub units: Short<AdcHwUnit, 2>,
    /// `AdcGroup`.
    pub groups: Short<AdcGroup, 16>,
}
