ghost use Rattle.std.specs.Prelude.{◌≡◌, ◌<◌, ◌≤◌, ◌+◌, ◌%◌, ◌^◌, ◌++◌, [], ◌∷◌, true, false, List, Some, option_map, option_to_list, length, if◌then◌else◌};
ghost use Rattle.std.specs.Option.{option_or};
ghost use Rattle.module_machines.specs.icu.Edges as edges;
ghost use Rattle.module_machines.specs.icu.Machine as spec;
ghost use Rattle.module_machines.specs.icu.Machine.{Stamp};
ghost use Rattle.module_machines.specs.icu.Table as table;
ghost use Rattle.audit_captures.specs.Stands.{capture_of, edge_of, start_of, seen_as, value_as, seen_after, told_after, restarts, left_served, keeps_edge, more_served, more_stored, FollowsIf, SameMeasures, NoMeasures, LeavesMeasures};
ghost use Rattle.module_machines.specs.icu.Table.{is_timestamp};

use crate::measure::{OpenMeasure, Value, begins_rising, ends_rising};
use crate::queue::{Edge, Queue};
use mcal_base::{IcuMeasurementMode, IcuStartEdge, IcuTimestampMeasurementProperty, NoticeKind};
use module_machines::icu::{Channel, ChannelCall};

/// A start of timestamps.
#[derive(Clone, Copy)]
pub struct Start {
    /// The size of the buffer, in stamps.
    pub size: u32,
    /// After how many stamps each notice comes.
    pub interval: u32,
}

/// A channel.
#[derive(Clone, Copy)]
pub struct Capture {
    /// It detects, counts, stamps or measures.
    pub on: bool,
    /// Its notification is on.
    pub notification: bool,
    /// The edges that are chosen.
    pub activation: IcuStartEdge,
    /// The edges that wait.
    pub waiting: Queue,
    /// Whether an edge was lost since the last that was kept or since the last emptying.
    pub lost: bool,
    /// The active mark.
    pub active: bool,
    /// The number of edges, modulo 2^32.
    pub count: u32,
    /// The last start of timestamps since the reset.
    pub start: Option<Start>,
    /// How many edges were stamped or measured since the start.
    pub served: u32,
    /// What was seen of the newest measure.
    pub seen: OpenMeasure,
    /// The newest value since the start.
    pub value: Option<Value>,
    /// Whether a value was asked for since the newest one.
    pub handed_out: bool,
}

/// A channel after a reset.
pub(crate) const BLANK: Capture = Capture {
    on: false,
    notification: false,
    activation: IcuStartEdge::Rising,
    waiting: Queue::Empty,
    lost: false,
    active: false,
    count: 0,
    start: None,
    served: 0,
    seen: OpenMeasure::Nothing,
    value: None,
    handed_out: false,
};

/// Whether an edge of a direction is one of the chosen ones.
fn chooses(chosen: IcuStartEdge, rising: bool) -> bool
    ensures { result ≡ table.chooses chosen rising }
{
    match chosen {
        IcuStartEdge::Rising => rising,
        IcuStartEdge::Falling => !rising,
        IcuStartEdge::Both => true,
    }
}

/// Whether a buffer is linear.
fn is_linear(channel: Channel) -> bool
    ensures { result ≡ table.is_linear channel.buffer }
{
    matches!(
        channel.buffer,
        Some(IcuTimestampMeasurementProperty::LinearBuffer)
    )
}

/// A remainder, which is the number itself where the divisor is 0.
fn rest(number: u32, by: u32) -> u32
    ensures { result ≡ number % by }
{
    if by == 0 { number } else { number % by }
}

/// The newer of two values, where there is one.
fn newer(told: Option<Value>, before: Option<Value>) -> Option<Value>
    ensures { option_map value_as result ≡ option_or (option_map value_as told) (option_map value_as before) }
{
    match told {
        Some(value) => Some(value),
        None => before,
    }
}

/// The notice kind of a serving, where its notification is on.
fn kind_if(owed: bool, kind: NoticeKind) -> Option<NoticeKind>
    ensures { option_to_list result ≡ if owed then kind ∷ [] else [] }
{
    if owed { Some(kind) } else { None }
}

impl Capture {
    /// An edge is queued where fewer than four wait, and is lost else.
    fn edge_queued(self, now: u64, rising: bool) -> Capture
        ensures is { (es : List edges.Edge) (stored : List Stamp) → capture_of result es stored ≡ spec.edge_queued now rising (capture_of self es stored) }
        ensures same { SameMeasures self result }
    {
        let edge = Edge {
            time: (now % 0x1_0000_0000) as u32,
            rising,
            after_gap: self.lost,
        };
        match self.waiting.pushed(edge) {
            Some(waiting) => Capture {
                waiting,
                lost: false,
                ..self
            },
            None => Capture { lost: true, ..self },
        }
    }

    /// An edge comes that is for the channel: it is taken where the channel is on and chooses it.
    fn edge_taken(self, channel: Channel, now: u64, rising: bool) -> Capture
        ensures is { (es : List edges.Edge) (stored : List Stamp) → capture_of result es stored ≡ spec.edge_taken channel now rising (capture_of self es stored) }
        ensures same { SameMeasures self result }
    {
        let measures = matches!(channel.mode, IcuMeasurementMode::SignalMeasurement);
        if !(self.on && (measures || chooses(self.activation, rising))) {
            return self;
        }
        if matches!(channel.mode, IcuMeasurementMode::EdgeCounter) {
            Capture {
                count: self.count.wrapping_add(1),
                ..self
            }
        } else {
            self.edge_queued(now, rising)
        }
    }

    /// An edge of a pin comes, which is for the channel where that is its pin.
    pub(crate) fn edge_at_pin(
        self,
        channel: Option<Channel>,
        now: u64,
        pin: u32,
        rising: bool,
    ) -> Capture
        ensures is { (es : List edges.Edge) (stored : List Stamp) → capture_of result es stored ≡ spec.edge_at_pin channel now pin rising (capture_of self es stored) }
        ensures same { SameMeasures self result }
    {
        match channel {
            Some(channel) if channel.pin == pin => self.edge_taken(channel, now, rising),
            _ => self,
        }
    }

    /// Switched on or off, with no edge that waits.
    fn switched(self, on: bool) -> Capture
        ensures is { (es : List edges.Edge) (stored : List Stamp) → capture_of result es stored ≡ spec.switched on (capture_of self es stored) }
        ensures same { SameMeasures self result }
    {
        Capture {
            on,
            waiting: Queue::Empty,
            lost: false,
            ..self
        }
    }

    /// With nothing served.
    fn unserved(self) -> Capture
        ensures is { (es : List edges.Edge) (stored : List Stamp) → capture_of result [] stored ≡ record (capture_of self es stored) { served = []; handed_out = false } }
        ensures fresh { NoMeasures result }
    {
        Capture {
            served: 0,
            seen: OpenMeasure::Nothing,
            value: None,
            handed_out: false,
            ..self
        }
    }

    /// All off, with nothing counted or served.
    pub(crate) fn cleared(self, channel: Channel) -> Capture
        ensures is { (es : List edges.Edge) (stored : List Stamp) → capture_of result [] stored ≡ spec.cleared (Some channel) (capture_of self es stored) }
        ensures fresh { NoMeasures result }
    {
        Capture {
            notification: false,
            activation: channel.start_edge,
            active: false,
            count: 0,
            ..self.switched(false).unserved()
        }
    }

    /// After a call about it without an error.
    pub(crate) fn worked(self, call: ChannelCall) -> Capture
        ensures is { (es : List edges.Edge) (stored : List Stamp) → capture_of result (left_served (restarts call) es) stored ≡ spec.channel_work call (capture_of self es stored) }
        ensures leaves { LeavesMeasures (restarts call) self result }
    {
        match call {
            ChannelCall::SetActivationCondition(Some(activation)) => Capture {
                activation,
                active: false,
                ..self
            },
            ChannelCall::EnableNotification => Capture {
                notification: true,
                ..self
            },
            ChannelCall::DisableNotification => Capture {
                notification: false,
                ..self
            },
            ChannelCall::GetInputState => Capture {
                active: false,
                ..self
            },
            ChannelCall::EnableEdgeDetection | ChannelCall::EnableEdgeCount => self.switched(true),
            ChannelCall::DisableEdgeDetection
            | ChannelCall::DisableEdgeCount
            | ChannelCall::StopTimestamp
            | ChannelCall::StopSignalMeasurement => self.switched(false),
            ChannelCall::ResetEdgeCount => Capture { count: 0, ..self },
            ChannelCall::StartTimestamp(size, interval) => Capture {
                start: Some(Start { size, interval }),
                ..self.switched(true).unserved()
            },
            ChannelCall::StartSignalMeasurement => self.switched(true).unserved(),
            ChannelCall::GetTimeElapsed | ChannelCall::GetDutyCycleValues => Capture {
                handed_out: true,
                ..self
            },
            ChannelCall::SetActivationCondition(None)
            | ChannelCall::GetEdgeNumbers
            | ChannelCall::GetTimestampIndex => self,
        }
    }

    /// The index of the next stamp: a circular one begins anew at the size.
    pub(crate) fn index(self, channel: Channel) -> u32
        ensures { result ≡ spec.index_by channel (option_map start_of self.start) self.served }
    {
        match self.start {
            Some(_) if is_linear(channel) => self.served,
            Some(start) => rest(self.served, start.size),
            None => 0,
        }
    }

    /// What is seen of the newest measure with one more edge.
    fn seen_after(self, channel: Channel, edge: Edge) -> OpenMeasure
        ensures { seen_as result ≡ seen_after channel.measured channel (edge_of edge) (seen_as self.seen) }
    {
        match channel.measured {
            Some(property) => {
                let first = begins_rising(property, channel);
                let last = ends_rising(property, channel);
                self.seen.with(first, last, edge)
            }
            None => self.seen,
        }
    }

    /// The value that one more edge completes.
    fn told_after(self, channel: Channel, edge: Edge) -> Option<Value>
        ensures { option_map value_as result ≡ told_after channel.measured channel (edge_of edge) (seen_as self.seen) }
    {
        match channel.measured {
            Some(property) => self
                .seen
                .told(property, ends_rising(property, channel), edge),
            None => None,
        }
    }

    /// The edge is one of those that were served.
    fn followed(self, channel: Channel, edge: Edge) -> Capture
        requires { self.served + 1 < 2 ^ 32 }
        ensures follows { (es : List edges.Edge) → FollowsIf (Some channel) self es → FollowsIf (Some channel) result (es ++ edge_of edge ∷ []) }
        ensures is { (es more : List edges.Edge) (stored : List Stamp) → capture_of result more stored ≡ record (capture_of self es stored) { served = more } }
        ensures count { result.served ≡ self.served + 1 }
    {
        let told = self.told_after(channel, edge);
        Capture {
            served: self.served + 1,
            seen: self.seen_after(channel, edge),
            value: newer(told, self.value),
            ..self
        }
    }

    /// Whether a value is complete with an edge.
    fn completes(self, channel: Channel, edge: Edge) -> bool
        ensures { (es : List edges.Edge) → FollowsIf (Some channel) self es → result ≡ spec.completes channel es (edge_of edge) }
    {
        self.told_after(channel, edge).is_some()
    }

    /// With the active mark and a value to hand out, where one is complete.
    fn marked(self, complete: bool) -> Capture
        ensures is { (es : List edges.Edge) (stored : List Stamp) → capture_of result es stored ≡ if complete then record (capture_of self es stored) { active = true; handed_out = false } else capture_of self es stored }
        ensures same { SameMeasures self result }
    {
        if complete {
            Capture {
                active: true,
                handed_out: false,
                ..self
            }
        } else {
            self
        }
    }

    /// Switched off, where its buffer is full.
    fn stopped(self, full: bool) -> Capture
        ensures is { (es : List edges.Edge) (stored : List Stamp) → capture_of result es stored ≡ if full then spec.switched false (capture_of self es stored) else capture_of self es stored }
        ensures same { SameMeasures self result }
    {
        if full { self.switched(false) } else { self }
    }

    /// The edge is measured; a value that is complete sets the active mark, and may be handed out.
    fn measured(self, channel: Channel, edge: Edge) -> Capture
        requires { self.served + 1 < 2 ^ 32 }
        ensures is { (es : List edges.Edge) (stored : List Stamp) → FollowsIf (Some channel) self es →
            capture_of result (es ++ edge_of edge ∷ []) stored ≡ spec.measured channel (edge_of edge) (capture_of self es stored) }
        ensures follows { (es : List edges.Edge) → FollowsIf (Some channel) self es → FollowsIf (Some channel) result (es ++ edge_of edge ∷ []) }
        ensures count { result.served ≡ self.served + 1 }
    {
        let complete = self.completes(channel, edge);
        self.followed(channel, edge).marked(complete)
    }

    /// Whether a linear buffer is full with so many stamps.
    fn is_full(self, channel: Channel, stamps: u32) -> bool
        ensures { result ≡ spec.is_full channel (option_map start_of self.start) stamps }
    {
        match self.start {
            Some(start) => is_linear(channel) && stamps == start.size,
            None => false,
        }
    }

    /// The edge's time is stored; a linear buffer that becomes full stops.
    fn stamped(self, channel: Channel, edge: Edge) -> Capture
        requires { self.served + 1 < 2 ^ 32 }
        ensures is { (es : List edges.Edge) (stored : List Stamp) → FollowsIf (Some channel) self es →
            capture_of result (es ++ edge_of edge ∷ []) (record { place = spec.index_by channel (option_map start_of self.start) self.served; time = edge.time } ∷ stored) ≡ spec.stamped channel (edge_of edge) (capture_of self es stored) }
        ensures follows { (es : List edges.Edge) → FollowsIf (Some channel) self es → FollowsIf (Some channel) result (es ++ edge_of edge ∷ []) }
        ensures count { result.served ≡ self.served + 1 }
    {
        let full = self.is_full(channel, self.served + 1);
        self.followed(channel, edge).stopped(full)
    }

    /// What the oldest edge does, which waits no longer.
    pub(crate) fn served_by(self, channel: Channel, edge: Edge) -> Capture
        requires { self.served + 1 < 2 ^ 32 }
        ensures is { (es : List edges.Edge) (stored : List Stamp) → FollowsIf (Some channel) self es →
            capture_of result (more_served (keeps_edge channel.mode) es (edge_of edge)) (more_stored (is_timestamp channel.mode) (spec.index_by channel (option_map start_of self.start) self.served) (edge_of edge) stored) ≡ spec.served_by channel.mode channel (edge_of edge) (capture_of self es stored) }
        ensures follows { (es : List edges.Edge) → FollowsIf (Some channel) self es → FollowsIf (Some channel) result (more_served (keeps_edge channel.mode) es (edge_of edge)) }
        ensures count { result.served ≤ self.served + 1 }
    {
        match channel.mode {
            IcuMeasurementMode::SignalEdgeDetect => Capture {
                active: true,
                ..self
            },
            IcuMeasurementMode::EdgeCounter => self,
            IcuMeasurementMode::Timestamp => self.stamped(channel, edge),
            IcuMeasurementMode::SignalMeasurement => self.measured(channel, edge),
        }
    }

    /// The notice that a serving gives, where it gives one.
    pub(crate) fn kind(self, channel: Channel) -> Option<NoticeKind>
        requires { self.served + 1 < 2 ^ 32 }
        ensures { (es : List edges.Edge) (stored : List Stamp) → self.served ≡ length es →
            option_to_list result ≡ spec.kinds_by channel.mode (capture_of self es stored) }
    {
        match channel.mode {
            IcuMeasurementMode::SignalEdgeDetect => {
                kind_if(self.notification, NoticeKind::IcuSignalNotification)
            }
            IcuMeasurementMode::Timestamp => {
                let owed = self.notification && self.is_notified(self.served + 1);
                kind_if(owed, NoticeKind::IcuTimestampNotification)
            }
            IcuMeasurementMode::EdgeCounter | IcuMeasurementMode::SignalMeasurement => None,
        }
    }

    /// Whether a notice comes with the stamp of this number.
    fn is_notified(self, stamps: u32) -> bool
        ensures { result ≡ spec.is_notified (option_map start_of self.start) stamps }
    {
        match self.start {
            Some(start) => rest(stamps, start.interval) == 0,
            None => false,
        }
    }
}
