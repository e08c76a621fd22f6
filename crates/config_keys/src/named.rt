ghost use Rattle.std.specs.Prelude.{◌≡◌, List, ℕ, Option};
ghost use Rattle.config_keys.specs.Names as spec;

use mcal_base::{
    AdcAccessMode, AdcConversionMode, AdcGroupReplacement, AdcPriorityImplementation,
    AdcStreamBufferMode, AdcTriggerSource, GptChannelMode, IcuMeasurementMode,
    IcuSignalMeasurementProperty, IcuStartEdge, IcuTimestampMeasurementProperty, PortPinDirection,
    PortPinMode, PwmChannelClass, PwmOutputState, WdgMode,
};

/// A parameter whose values are names.
pub trait Named: Copy {
    /// The value with this name.
    ghost named: { List ℕ → Option Self };

    /// The value with this name; `None` for a name that is not listed.
    fn from_name(text: &str) -> Option<Self>
        ensures { result ≡ named text.now };
}

/// `PortPinLevelValue`.
#[derive(Clone, Copy, Default)]
pub enum PinLevel {
    /// `PORT_PIN_LEVEL_HIGH`
    High,
    /// `PORT_PIN_LEVEL_LOW`
    #[default]
    Low,
}

/// `SpiChannelType`, without the number of words.
#[derive(Clone, Copy)]
pub enum SpiBuffer {
    /// `IB`
    Internal,
    /// `EB`
    External,
}

impl Named for PortPinDirection {
    ghost named = { spec.direction_named };

    fn from_name(text: &str) -> Option<PortPinDirection> {
        match text {
            "PORT_PIN_IN" => Some(PortPinDirection::In),
            "PORT_PIN_OUT" => Some(PortPinDirection::Out),
            _ => None,
        }
    }
}

impl Named for PortPinMode {
    ghost named = { spec.pin_mode_named };

    fn from_name(text: &str) -> Option<PortPinMode> {
        match text {
            "PORT_PIN_MODE_ADC" => Some(PortPinMode::Adc),
            "PORT_PIN_MODE_DIO" => Some(PortPinMode::Dio),
            "PORT_PIN_MODE_ICU" => Some(PortPinMode::Icu),
            "PORT_PIN_MODE_PWM" => Some(PortPinMode::Pwm),
            "PORT_PIN_MODE_SPI" => Some(PortPinMode::Spi),
            _ => None,
        }
    }
}

impl Named for PinLevel {
    ghost named = { spec.pin_level_named };

    fn from_name(text: &str) -> Option<PinLevel> {
        match text {
            "PORT_PIN_LEVEL_HIGH" => Some(PinLevel::High),
            "PORT_PIN_LEVEL_LOW" => Some(PinLevel::Low),
            _ => None,
        }
    }
}

impl Named for GptChannelMode {
    ghost named = { spec.channel_mode_named };

    fn from_name(text: &str) -> Option<GptChannelMode> {
        match text {
            "GPT_CH_MODE_CONTINUOUS" => Some(GptChannelMode::Continuous),
            "GPT_CH_MODE_ONESHOT" => Some(GptChannelMode::OneShot),
            _ => None,
        }
    }
}

impl Named for PwmChannelClass {
    ghost named = { spec.class_named };

    fn from_name(text: &str) -> Option<PwmChannelClass> {
        match text {
            "PWM_FIXED_PERIOD" => Some(PwmChannelClass::FixedPeriod),
            "PWM_FIXED_PERIOD_SHIFTED" => Some(PwmChannelClass::FixedPeriodShifted),
            "PWM_VARIABLE_PERIOD" => Some(PwmChannelClass::VariablePeriod),
            _ => None,
        }
    }
}

impl Named for PwmOutputState {
    ghost named = { spec.output_state_named };

    fn from_name(text: &str) -> Option<PwmOutputState> {
        match text {
            "PWM_HIGH" => Some(PwmOutputState::High),
            "PWM_LOW" => Some(PwmOutputState::Low),
            _ => None,
        }
    }
}

impl Named for IcuStartEdge {
    ghost named = { spec.start_edge_named };

    fn from_name(text: &str) -> Option<IcuStartEdge> {
        match text {
            "ICU_RISING_EDGE" => Some(IcuStartEdge::Rising),
            "ICU_FALLING_EDGE" => Some(IcuStartEdge::Falling),
            "ICU_BOTH_EDGES" => Some(IcuStartEdge::Both),
            _ => None,
        }
    }
}

impl Named for IcuMeasurementMode {
    ghost named = { spec.measurement_mode_named };

    fn from_name(text: &str) -> Option<IcuMeasurementMode> {
        match text {
            "ICU_MODE_SIGNAL_EDGE_DETECT" => Some(IcuMeasurementMode::SignalEdgeDetect),
            "ICU_MODE_EDGE_COUNTER" => Some(IcuMeasurementMode::EdgeCounter),
            "ICU_MODE_TIMESTAMP" => Some(IcuMeasurementMode::Timestamp),
            "ICU_MODE_SIGNAL_MEASUREMENT" => Some(IcuMeasurementMode::SignalMeasurement),
            _ => None,
        }
    }
}

impl Named for IcuSignalMeasurementProperty {
    ghost named = { spec.signal_property_named };

    fn from_name(text: &str) -> Option<IcuSignalMeasurementProperty> {
        match text {
            "ICU_LOW_TIME" => Some(IcuSignalMeasurementProperty::LowTime),
            "ICU_HIGH_TIME" => Some(IcuSignalMeasurementProperty::HighTime),
            "ICU_PERIOD_TIME" => Some(IcuSignalMeasurementProperty::PeriodTime),
            "ICU_DUTY_CYCLE" => Some(IcuSignalMeasurementProperty::DutyCycle),
            _ => None,
        }
    }
}

impl Named for IcuTimestampMeasurementProperty {
    ghost named = { spec.timestamp_property_named };

    fn from_name(text: &str) -> Option<IcuTimestampMeasurementProperty> {
        match text {
            "ICU_LINEAR_BUFFER" => Some(IcuTimestampMeasurementProperty::LinearBuffer),
            "ICU_CIRCULAR_BUFFER" => Some(IcuTimestampMeasurementProperty::CircularBuffer),
            _ => None,
        }
    }
}

impl Named for AdcPriorityImplementation {
    ghost named = { spec.priority_implementation_named };

    fn from_name(text: &str) -> Option<AdcPriorityImplementation> {
        match text {
            "ADC_PRIORITY_NONE" => Some(AdcPriorityImplementation::None),
            "ADC_PRIORITY_HW_SW" => Some(AdcPriorityImplementation::HwSw),
            _ => None,
        }
    }
}

impl Named for AdcAccessMode {
    ghost named = { spec.access_mode_named };

    fn from_name(text: &str) -> Option<AdcAccessMode> {
        match text {
            "ADC_ACCESS_MODE_SINGLE" => Some(AdcAccessMode::Single),
            "ADC_ACCESS_MODE_STREAMING" => Some(AdcAccessMode::Streaming),
            _ => None,
        }
    }
}

impl Named for AdcConversionMode {
    ghost named = { spec.conversion_mode_named };

    fn from_name(text: &str) -> Option<AdcConversionMode> {
        match text {
            "ADC_CONV_MODE_ONESHOT" => Some(AdcConversionMode::OneShot),
            "ADC_CONV_MODE_CONTINUOUS" => Some(AdcConversionMode::Continuous),
            _ => None,
        }
    }
}

impl Named for AdcGroupReplacement {
    ghost named = { spec.replacement_named };

    fn from_name(text: &str) -> Option<AdcGroupReplacement> {
        match text {
            "ADC_GROUP_REPL_ABORT_RESTART" => Some(AdcGroupReplacement::AbortRestart),
            "ADC_GROUP_REPL_SUSPEND_RESUME" => Some(AdcGroupReplacement::SuspendResume),
            _ => None,
        }
    }
}

impl Named for AdcTriggerSource {
    ghost named = { spec.trigger_source_named };

    fn from_name(text: &str) -> Option<AdcTriggerSource> {
        match text {
            "ADC_TRIGG_SRC_SW" => Some(AdcTriggerSource::Software),
            "ADC_TRIGG_SRC_HW" => Some(AdcTriggerSource::Hardware),
            _ => None,
        }
    }
}

impl Named for AdcStreamBufferMode {
    ghost named = { spec.stream_buffer_mode_named };

    fn from_name(text: &str) -> Option<AdcStreamBufferMode> {
        match text {
            "ADC_STREAM_BUFFER_LINEAR" => Some(AdcStreamBufferMode::Linear),
            "ADC_STREAM_BUFFER_CIRCULAR" => Some(AdcStreamBufferMode::Circular),
            _ => None,
        }
    }
}

impl Named for SpiBuffer {
    ghost named = { spec.buffer_named };

    fn from_name(text: &str) -> Option<SpiBuffer> {
        match text {
            "IB" => Some(SpiBuffer::Internal),
            "EB" => Some(SpiBuffer::External),
            _ => None,
        }
    }
}

impl Named for WdgMode {
    ghost named = { spec.wdg_mode_named };

    fn from_name(text: &str) -> Option<WdgMode> {
        match text {
            "WDGIF_OFF_MODE" => Some(WdgMode::Off),
            "WDGIF_SLOW_MODE" => Some(WdgMode::Slow),
            "WDGIF_FAST_MODE" => Some(WdgMode::Fast),
            _ => None,
        }
    }
}
