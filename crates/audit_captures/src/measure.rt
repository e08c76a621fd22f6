ghost use Rattle.std.specs.Prelude.{◌≡◌, Some, option_map};
ghost use Rattle.module_machines.specs.icu.Edges as edges;
ghost use Rattle.module_machines.specs.icu.Table as table;
ghost use Rattle.audit_captures.specs.Measures as spec;
ghost use Rattle.audit_captures.specs.Stands.{edge_of, seen_as, value_as};

use crate::queue::Edge;
use mcal_base::{IcuSignalMeasurementProperty, IcuStartEdge};
use module_machines::icu::Channel;

/// What was seen of the newest measure that waits for its end. Times are in peripheral ticks, modulo 2^32.
#[derive(Clone, Copy)]
pub enum OpenMeasure {
    /// None waits.
    Nothing,
    /// Its first edge, at a time.
    Start(u32),
    /// Its first edge and the next one, at their times.
    Next(u32, u32),
}

/// A value that was measured, in peripheral ticks.
#[derive(Clone, Copy)]
pub enum Value {
    /// A time.
    Time(u32),
    /// An active time and a period.
    Duty(u32, u32),
}

/// The time from one edge to a later one, modulo 2^32.
fn span(start: u32, now: u32) -> u32
    ensures { result ≡ spec.span start now }
{
    now.wrapping_sub(start)
}

fn starts_rising(edge: IcuStartEdge) -> bool
    ensures { result ≡ table.starts_rising edge }
{
    !matches!(edge, IcuStartEdge::Falling)
}

/// Whether what a channel measures begins at a rising edge.
pub(crate) fn begins_rising(property: IcuSignalMeasurementProperty, channel: Channel) -> bool
    ensures { result ≡ edges.begins_rising property channel }
{
    match property {
        IcuSignalMeasurementProperty::HighTime => true,
        IcuSignalMeasurementProperty::LowTime => false,
        IcuSignalMeasurementProperty::PeriodTime | IcuSignalMeasurementProperty::DutyCycle => {
            starts_rising(channel.start_edge)
        }
    }
}

/// Whether it ends at one.
pub(crate) fn ends_rising(property: IcuSignalMeasurementProperty, channel: Channel) -> bool
    ensures { result ≡ edges.ends_rising property channel }
{
    match property {
        IcuSignalMeasurementProperty::HighTime => false,
        IcuSignalMeasurementProperty::LowTime => true,
        IcuSignalMeasurementProperty::PeriodTime | IcuSignalMeasurementProperty::DutyCycle => {
            starts_rising(channel.start_edge)
        }
    }
}

impl OpenMeasure {
    /// What is seen with one more edge: a measure begins at one of the first direction, and one of the last ends it.
    pub(crate) fn with(self, first: bool, last: bool, edge: Edge) -> OpenMeasure
        ensures { seen_as result ≡ spec.seen_with first last (edge_of edge) (seen_as self) }
    {
        if edge.rising == first {
            return OpenMeasure::Start(edge.time);
        }
        if edge.after_gap || edge.rising == last {
            return OpenMeasure::Nothing;
        }
        match self {
            OpenMeasure::Nothing => OpenMeasure::Nothing,
            OpenMeasure::Start(start) => OpenMeasure::Next(start, edge.time),
            OpenMeasure::Next(..) => self,
        }
    }

    /// The value that an edge completes.
    pub(crate) fn told(
        self,
        property: IcuSignalMeasurementProperty,
        last: bool,
        edge: Edge,
    ) -> Option<Value>
        ensures { option_map value_as result ≡ spec.told_with property last (edge_of edge) (seen_as self) }
    {
        if edge.after_gap || edge.rising != last {
            return None;
        }
        let is_duty = matches!(property, IcuSignalMeasurementProperty::DutyCycle);
        match self {
            OpenMeasure::Nothing => None,
            OpenMeasure::Start(_) if is_duty => None,
            OpenMeasure::Next(start, next) if is_duty => {
                Some(Value::Duty(span(start, next), span(start, edge.time)))
            }
            OpenMeasure::Start(start) | OpenMeasure::Next(start, _) => Some(Value::Time(span(
                start, edge.time,
            ))),
        }
    }
}
