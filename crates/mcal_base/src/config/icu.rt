use crate::short::Short;

/// `IcuDefaultStartEdge`.
#[derive(Clone, Copy, Debug, Default)]
pub enum IcuStartEdge {
    /// `ICU_RISING_EDGE`
    #[default]
    Rising,
    /// `ICU_FALLING_EDGE`
    Falling,
    /// `ICU_BOTH_EDGES`
    Both,
}

/// `IcuMeasurementMode`.
#[derive(Clone, Copy, Debug, Default)]
pub enum IcuMeasurementMode {
    /// `ICU_MODE_SIGNAL_EDGE_DETECT`
    #[default]
    SignalEdgeDetect,
    /// `ICU_MODE_EDGE_COUNTER`
    EdgeCounter,
    /// `ICU_MODE_TIMESTAMP`
    Timestamp,
    /// `ICU_MODE_SIGNAL_MEASUREMENT`
    SignalMeasurement,
}

/// `IcuSignalMeasurementProperty`.
#[derive(Clone, Copy, Debug, Default)]
pub enum IcuSignalMeasurementProperty {
    /// `ICU_LOW_TIME`
    #[default]
    LowTime,
    /// `ICU_HIGH_TIME`
    HighTime,
    /// `ICU_PERIOD_TIME`
    PeriodTime,
    /// `ICU_DUTY_CYCLE`
    DutyCycle,
}

/// `IcuTimestampMeasurementProperty`.
#[derive(Clone, Copy, Debug, Default)]
pub enum IcuTimestampMeasurementProperty {
    /// `ICU_LINEAR_BUFFER`
    #[default]
    LinearBuffer,
    /// `ICU_CIRCULAR_BUFFER`
    CircularBuffer,
}

/// A capture input.
#[derive(Debug, Default, Drop)]
pub struct IcuChannel {
    /// `IcuChannelId`, 0 to 7.
    pub id: u32,
    /// `IcuDefaultStartEdge`.
    pub default_start_edge: IcuStartEdge,
    /// `IcuMeasurementMode`.
    pub measurement_mode: IcuMeasurementMode,
    /// `IcuSignalMeasurementProperty`; it is there in measurement mode.
    pub signal_measurement_property: Option<IcuSignalMeasurementProperty>,
    /// `IcuTimestampMeasurementProperty`; it is there in timestamp mode.
    pub timestamp_measurement_property: Option<IcuTimestampMeasurementProperty>,
    /// Whether `IcuSignalNotification` is given.
    pub signal_notification: bool,
    /// Whether `IcuTimestampNotification` is given.
    pub timestamp_notification: bool,
    /// `Pin`, 0 to 63.
    pub pin: u32,
    /// `Level` of its line, 1 to 7.
    pub level: u32,
}

/// The table `Icu`.
#[derive(Debug, Default, Drop)]
pub struct IcuConfig {
    /// `IcuDevErrorDetect`.
    pub dev_error_detect: bool,
    /// `Classification`: 2 where state errors are runtime errors, 1 where they are development errors.
    pub classification: u32,
    /// `IcuChannel`.
    pub channels: Short<IcuChannel, 8>,
}
