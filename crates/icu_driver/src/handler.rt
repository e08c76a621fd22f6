ghost use Rattle.std.specs.Prelude.{◌≡◌};
ghost use Rattle.module_machines.specs.icu.Table as table;
ghost use Rattle.icu_driver.specs.laws.Handler as spec;

use crate::service::detect::DetectBody;
use crate::service::keep::{KeepBody, Kept};
use crate::service::sample::{SampleBody, Sampled};
use crate::service::{self, IcuBody};
use mcal_base::{
    IcuMeasurementMode, IcuSignalMeasurementProperty, IcuStartEdge, IcuTimestampMeasurementProperty,
};
use module_machines::icu::Channel;

/// The handler of a channel's line. A counter's finds no edge.
pub(crate) fn handler(channel: Channel) -> IcuBody
    ensures { result ≡ spec.handler_of channel }
{
    match channel.mode {
        IcuMeasurementMode::SignalEdgeDetect | IcuMeasurementMode::EdgeCounter => {
            service::detect_body(DetectBody::Look(channel.number))
        }
        IcuMeasurementMode::Timestamp => service::keep_body(KeepBody::Look(keeping(channel))),
        IcuMeasurementMode::SignalMeasurement => {
            service::sample_body(SampleBody::Look(sampling(channel)))
        }
    }
}

/// What the handler of a timestamp channel knows at first.
fn keeping(channel: Channel) -> Kept
    ensures { result ≡ spec.keeping channel }
{
    Kept {
        channel: channel.number,
        linear: is_linear(channel.buffer),
        time: 0,
        size: 0,
        index: 0,
        left: 0,
        interval: 0,
        notified: false,
    }
}

/// What the handler of a measurement knows at first.
fn sampling(channel: Channel) -> Sampled
    ensures { result ≡ spec.sampling channel }
{
    Sampled {
        channel: channel.number,
        first: begins_rising(channel),
        whole: is_whole(channel.measured),
        duty: is_duty_cycle(channel.measured),
        rising: false,
        gap: false,
        time: 0,
        seen: 0,
        start: 0,
        opposite: 0,
    }
}

fn is_linear(buffer: Option<IcuTimestampMeasurementProperty>) -> bool
    ensures { result ≡ table.is_linear buffer }
{
    match buffer {
        Some(IcuTimestampMeasurementProperty::LinearBuffer) => true,
        _ => false,
    }
}

/// Whether a measure begins at a rising edge.
fn begins_rising(channel: Channel) -> bool
    ensures { result ≡ spec.begins channel.measured channel }
{
    match channel.measured {
        Some(IcuSignalMeasurementProperty::LowTime) => false,
        Some(IcuSignalMeasurementProperty::PeriodTime | IcuSignalMeasurementProperty::DutyCycle) =>
            starts_rising(channel.start_edge),
        Some(IcuSignalMeasurementProperty::HighTime) | None => true,
    }
}

fn starts_rising(edge: IcuStartEdge) -> bool
    ensures { result ≡ table.starts_rising edge }
{
    match edge {
        IcuStartEdge::Falling => false,
        _ => true,
    }
}

/// Whether a measure ends at the next start edge.
fn is_whole(measured: Option<IcuSignalMeasurementProperty>) -> bool
    ensures { result ≡ spec.is_whole measured }
{
    match measured {
        Some(IcuSignalMeasurementProperty::PeriodTime | IcuSignalMeasurementProperty::DutyCycle) =>
            true,
        _ => false,
    }
}

fn is_duty_cycle(measured: Option<IcuSignalMeasurementProperty>) -> bool
    ensures { result ≡ table.is_duty_cycle measured }
{
    match measured {
        Some(IcuSignalMeasurementProperty::DutyCycle) => true,
        _ => false,
    }
}
