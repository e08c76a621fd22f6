ghost use Rattle.std.specs.Prelude.{◌≡◌, ◌<◌, ◌≤◌, ◌+◌, ◌^◌, ◌&&◌, ℕ, Some, None, is_some, length, not, option_to_list, slice_index_or};
ghost use Rattle.mcal_base.specs.det_errors.Reports as errors;
ghost use Rattle.mcal_base.specs.declared.directive.Order.TheVariants.{Level};
ghost use Rattle.run_model.specs.Machine.{Acts, Serves, Moves, outcome, tells_nothing};
ghost use Rattle.run_model.specs.World.{World};
ghost use Rattle.module_machines.specs.icu.Checks as checks;
ghost use Rattle.module_machines.specs.icu.Edges as edges;
ghost use Rattle.module_machines.specs.icu.Machine as spec;
ghost use Rattle.module_machines.specs.icu.Machine.{IcuState, capture_at, stamp_in};
ghost use Rattle.module_machines.specs.icu.Shown.{size_of};
ghost use Rattle.module_machines.specs.icu.Table.{channel_of, channel_of_line, is_timestamp};
ghost use Rattle.audit_base.specs.Comes.{Comes, ComesIf, Gives};
ghost use Rattle.audit_base.specs.Tells.{listed, gives};
ghost use Rattle.audit_captures.specs.Stands.{StandsFor, ChannelStands, ServedWithin, blank, edge_of, served_if, served_on, with_kept, stored_if};

use crate::capture::{BLANK, Capture};
use crate::checks::{answer, facts, refused};
use crate::queue::Edge;
use audit_base::{Notices, Told};
use mcal_base::det_errors::first_error;
use mcal_base::{ErrorName, IcuMeasurementMode, Notice, NoticeKind};
use module_machines::icu::{Call, Channel, ChannelCall, IcuTable};
use std::marker::Model;

/// The machine of the capture channels under a configuration. Times are in peripheral ticks.
#[derive(Drop)]
pub struct Captures {
    driver: IcuTable,
    servings: u32,
    initialised: bool,
    channels: [Capture; 8],
    stamps: [u32; 512],
}

impl Model for Captures {
    ghost use Rattle.std.specs.Prelude.{◌≡◌, ◌≤◌, length};
    ghost use Rattle.std.specs.List.{AllByRecursion};
    ghost use Rattle.audit_captures.specs.Stands.{CapturesKept, ServedWithin};

    ghost Value = { CapturesKept };

    ghost view = { λ t. record { driver = t.driver; servings = t.servings; initialised = t.initialised; channels = t.channels; stamps = t.stamps } };

    ghost invariant = { λ t. (length t.channels ≡ 8) × (length t.stamps ≡ 512) × AllByRecursion (ServedWithin t.servings) t.channels };
}

/// Whether two levels differ.
fn differs(before: bool, after: bool) -> bool
    ensures { result ≡ not (edges.is_same before after) }
{
    if before { !after } else { after }
}

/// A notice of a channel, where there is one.
fn notices(channel: u32, kind: Option<NoticeKind>) -> Notices
    ensures { listed result ≡ spec.notices_of channel (option_to_list kind) }
{
    match kind {
        Some(kind) => Notices::One(Notice { kind, id: channel }),
        None => Notices::None,
    }
}

impl Captures {
    /// After power on.
    pub fn new(driver: IcuTable) -> Captures
        ensures is { StandsFor result spec.first_state }
        ensures driver { result.driver ≡ driver }
        ensures servings { result.servings ≡ 0 }
    {
        Captures {
            driver,
            servings: 0,
            initialised: false,
            channels: [BLANK; 8],
            stamps: [0; 512],
        }
    }

    /// What is configured.
    pub fn table(&self) -> &IcuTable
        ensures { result.now ≡ self.now.driver }
    {
        &self.driver
    }

    /// A channel.
    fn at(&self, number: u32) -> Capture
        ensures is { result ≡ slice_index_or self.now.channels number blank }
        ensures within { ServedWithin self.now.servings result }
        ensures size { length self.now.channels ≡ 8 }
    {
        if number < 8 {
            self.channels[number as usize]
        } else {
            BLANK
        }
    }

    /// A channel becomes so.
    fn set(&mut self, number: u32, capture: Capture)
        requires there { number < 8 }
        requires within { ServedWithin self.old.servings capture }
        ensures is { self.new ≡ with_kept self.old number capture }
        ensures size { length self.old.channels ≡ 8 }
    {
        self.channels[number as usize] = capture;
    }

    /// What an edge of a pin makes of a channel.
    fn edge_at(&self, number: u32, now: u64, pin: u32, rising: bool) -> Capture
        requires { number < 8 }
        ensures is { (s : IcuState) → StandsFor self.now s →
            ChannelStands (channel_of self.now.driver number) result (spec.edge_at_pin (channel_of self.now.driver number) now pin rising (capture_at s number)) }
        ensures within { ServedWithin self.now.servings result }
    {
        self.at(number)
            .edge_at_pin(self.driver.channel(number), now, pin, rising)
    }

    /// An edge of a pin comes.
    fn edge(&mut self, now: u64, pin: u32, rising: bool)
        ensures is { (s : IcuState) → StandsFor self.old s →
            StandsFor self.new (record s { channels = spec.by_channel (λ c. spec.edge_at_pin (channel_of self.old.driver c) now pin rising (capture_at s c)) }) }
        ensures driver { self.new.driver ≡ self.old.driver }
        ensures servings { self.new.servings ≡ self.old.servings }
    {
        self.channels = [
            self.edge_at(0, now, pin, rising),
            self.edge_at(1, now, pin, rising),
            self.edge_at(2, now, pin, rising),
            self.edge_at(3, now, pin, rising),
            self.edge_at(4, now, pin, rising),
            self.edge_at(5, now, pin, rising),
            self.edge_at(6, now, pin, rising),
            self.edge_at(7, now, pin, rising),
        ];
    }

    /// The outside level of a pin is set, which was another one before or the same.
    pub fn level(&mut self, pin: u32, before: bool, high: bool, now: u64)
        ensures is { (w : World) (s : IcuState) → w.now ≡ now → w.levels pin ≡ before → StandsFor self.old s →
            Comes (StandsFor self.new) tells_nothing (spec.happens self.old.driver w s (Moves (Level pin high))) }
        ensures driver { self.new.driver ≡ self.old.driver }
        ensures servings { self.new.servings ≡ self.old.servings }
    {
        if differs(before, high) {
            self.edge(now, pin, high);
        }
    }

    /// A channel all off, where it is configured.
    fn cleared_at(&self, number: u32) -> Capture
        requires { number < 8 }
        ensures is { (s : IcuState) → StandsFor self.now s →
            ChannelStands (channel_of self.now.driver number) result (spec.cleared (channel_of self.now.driver number) (capture_at s number)) }
        ensures within { ServedWithin self.now.servings result }
    {
        let capture = self.at(number);
        match self.driver.channel(number) {
            Some(channel) => capture.cleared(channel),
            None => capture,
        }
    }

    /// All channels are off, and the module is initialised or not.
    fn clear(&mut self, initialised: bool) -> Told
        ensures is { (s : IcuState) → StandsFor self.old s → Gives (StandsFor self.new) result (outcome (spec.cleared_all self.old.driver s initialised) tells_nothing) }
        ensures driver { self.new.driver ≡ self.old.driver }
        ensures servings { self.new.servings ≡ self.old.servings }
    {
        self.channels = [
            self.cleared_at(0),
            self.cleared_at(1),
            self.cleared_at(2),
            self.cleared_at(3),
            self.cleared_at(4),
            self.cleared_at(5),
            self.cleared_at(6),
            self.cleared_at(7),
        ];
        self.initialised = initialised;
        Told::nothing()
    }

    /// What a call about a configured channel without an error does.
    fn asked_of(&mut self, number: u32, channel: Channel, call: ChannelCall) -> Told
        requires { number < 8 }
        ensures is { (s : IcuState) → channel_of self.old.driver number ≡ Some channel → StandsFor self.old s →
            Gives (StandsFor self.new) result (spec.asked (Some channel) s number call) }
        ensures driver { self.new.driver ≡ self.old.driver }
        ensures servings { self.new.servings ≡ self.old.servings }
    {
        let capture = self.at(number);
        self.set(number, capture.worked(call));
        Told::with_answer(answer(capture, channel, call))
    }

    /// What a call about a channel without an error does.
    fn asked(&mut self, number: u32, call: ChannelCall) -> Told
        ensures is { (s : IcuState) → StandsFor self.old s → Gives (StandsFor self.new) result (spec.asked (channel_of self.old.driver number) s number call) }
        ensures driver { self.new.driver ≡ self.old.driver }
        ensures servings { self.new.servings ≡ self.old.servings }
    {
        match self.driver.channel(number) {
            Some(channel) => self.asked_of(number, channel, call),
            None => Told::nothing(),
        }
    }

    /// What a call without an error does.
    fn work(&mut self, call: Call) -> Told
        ensures is { (s : IcuState) → StandsFor self.old s → Gives (StandsFor self.new) result (spec.work self.old.driver s call) }
        ensures driver { self.new.driver ≡ self.old.driver }
        ensures servings { self.new.servings ≡ self.old.servings }
    {
        match call {
            Call::Init => self.clear(true),
            Call::DeInit => self.clear(false),
            Call::Channel(number, call) => self.asked(number, call),
        }
    }

    /// Whether the channel of a call is on.
    fn is_on(&self, call: Call) -> bool
        ensures { (s : IcuState) → StandsFor self.now s → result ≡ spec.is_on s call }
    {
        match call {
            Call::Channel(number, _) => self.at(number).on,
            Call::Init | Call::DeInit => false,
        }
    }

    /// The first error of a call that holds.
    fn error(&self, call: Call) -> Option<ErrorName>
        ensures { (s : IcuState) → StandsFor self.now s → result ≡ checks.error_by self.now.driver call (not s.initialised) (spec.is_on s call) }
    {
        let facts = facts(&self.driver, call, !self.initialised, self.is_on(call));
        first_error(call.service(), &facts)
    }

    /// A call acts.
    pub fn act(&mut self, call: Call) -> Told
        ensures is { (w : World) (s : IcuState) (committed : ℕ → ℕ) → StandsFor self.old s →
            Comes (StandsFor self.new) result (spec.happens self.old.driver w s (Acts call committed)) }
        ensures driver { self.new.driver ≡ self.old.driver }
        ensures servings { self.new.servings ≡ self.old.servings }
    {
        match self.error(call) {
            Some(error) => Told::with_error(refused(call), error),
            None => self.work(call),
        }
    }

    /// Whether a configured channel uses a line.
    pub fn has_line(&self, line: u32) -> bool
        ensures { result ≡ is_some (channel_of_line self.now.driver line) }
    {
        self.driver.channel_of_line(line).is_some()
    }

    /// Whether the module is initialised and an edge waits on a channel, of eight.
    fn waits_at(&self, number: u32) -> bool
        requires { number < 8 }
        ensures { (s : IcuState) → StandsFor self.now s → result ≡ s.initialised && spec.waits (capture_at s number).waiting }
    {
        let waits = self.at(number).waiting.waits();
        self.initialised && waits
    }

    /// Whether a line may be served: an edge waits on its channel.
    pub fn ready(&self, line: u32) -> bool
        ensures { (w : World) (s : IcuState) → StandsFor self.now s → result ≡ spec.ready self.now.driver w s line }
    {
        match self.driver.channel_of_line(line) {
            Some(_) => self.waits_at(line.saturating_sub(16)),
            None => false,
        }
    }

    /// A line is served, where it may be.
    pub fn serve(&mut self, line: u32) -> Option<Told>
        requires { self.old.servings + 1 < 2 ^ 32 }
        ensures is { (w : World) (s : IcuState) (received : ℕ) → StandsFor self.old s →
            ComesIf (StandsFor self.new) result (spec.happens self.old.driver w s (Serves line received)) }
        ensures servings { self.new.servings ≤ self.old.servings + 1 }
        ensures unchanged { result ≡ None → self.new ≡ self.old }
        ensures driver { self.new.driver ≡ self.old.driver }
    {
        match self.driver.channel_of_line(line) {
            Some(channel) => self.serve_on(line.saturating_sub(16), channel),
            None => None,
        }
    }

    /// The oldest edge of a channel is served, where the module is initialised and one waits.
    fn serve_on(&mut self, number: u32, channel: Channel) -> Option<Told>
        requires there { number < 8 }
        requires room { self.old.servings + 1 < 2 ^ 32 }
        ensures is { (s : IcuState) → channel_of self.old.driver number ≡ Some channel → StandsFor self.old s →
            ComesIf (StandsFor self.new) result (served_on (Some channel) (Some channel) s number) }
        ensures servings { self.new.servings ≤ self.old.servings + 1 }
        ensures unchanged { result ≡ None → self.new ≡ self.old }
        ensures driver { self.new.driver ≡ self.old.driver }
    {
        let initialised = self.initialised;
        if initialised {
            self.serve_edge(number, channel)
        } else {
            None
        }
    }

    /// The oldest edge of a channel of an initialised module is served, where one waits.
    fn serve_edge(&mut self, number: u32, channel: Channel) -> Option<Told>
        requires there { number < 8 }
        requires room { self.old.servings + 1 < 2 ^ 32 }
        ensures is { (s : IcuState) → channel_of self.old.driver number ≡ Some channel → StandsFor self.old s →
            ComesIf (StandsFor self.new) result (served_if (Some channel) s number (capture_at s number).waiting) }
        ensures servings { self.new.servings ≤ self.old.servings + 1 }
        ensures unchanged { result ≡ None → self.new ≡ self.old }
        ensures driver { self.new.driver ≡ self.old.driver }
    {
        let capture = self.at(number);
        match capture.waiting.split() {
            Some((edge, waiting)) => {
                Some(self.served(number, channel, edge, Capture { waiting, ..capture }))
            }
            None => None,
        }
    }

    /// An edge of a channel is served, which waits no longer.
    fn served(&mut self, number: u32, channel: Channel, edge: Edge, capture: Capture) -> Told
        requires there { number < 8 }
        requires room { self.old.servings + 1 < 2 ^ 32 }
        requires within { ServedWithin self.old.servings capture }
        ensures is { (s : IcuState) (x : spec.Capture) → StandsFor self.old s → channel_of self.old.driver number ≡ Some channel →
            ChannelStands (Some channel) capture x → x.stored ≡ (capture_at s number).stored →
            Gives (StandsFor self.new) result (outcome (spec.with_capture s number (spec.served_by channel.mode channel (edge_of edge) x)) (gives (spec.notices_of number (spec.kinds_by channel.mode x)))) }
        ensures servings { self.new.servings ≤ self.old.servings + 1 }
        ensures driver { self.new.driver ≡ self.old.driver }
    {
        let kind = capture.kind(channel);
        self.store(number, channel, capture.index(channel), edge.time);
        self.count();
        self.set(number, capture.served_by(channel, edge));
        Told::with_notices(notices(number, kind))
    }

    /// A time is stored at a place of a channel's stamps, of which there are 64, where the channel stamps edges.
    fn store(&mut self, number: u32, channel: Channel, place: u32, time: u32)
        requires { number < 8 }
        ensures is { self.new ≡ record self.old { stamps = stored_if (is_timestamp channel.mode) self.old.stamps number place time } }
        ensures size { length self.old.stamps ≡ 512 }
    {
        let stamps = matches!(channel.mode, IcuMeasurementMode::Timestamp);
        if stamps && place < 64 {
            self.stamps[(64 * number + place) as usize] = time;
        }
    }

    /// One more serving.
    fn count(&mut self)
        requires { self.old.servings + 1 < 2 ^ 32 }
        ensures { self.new ≡ record self.old { servings = self.old.servings + 1 } }
    {
        self.servings += 1;
    }

    /// A stamp, of 64, of a channel, of eight.
    pub fn stamp(&self, number: u32, place: u32) -> u32
        requires channel { number < 8 }
        requires place { place < 64 }
        ensures { (s : IcuState) → StandsFor self.now s → result ≡ stamp_in (capture_at s number).stored place }
    {
        self.stamps[(64 * number + place) as usize]
    }

    /// How many stamps of a channel, of eight, are shown: the size of its last start, none without one since the reset.
    pub fn size(&self, number: u32) -> Option<u32>
        requires { number < 8 }
        ensures { (s : IcuState) → StandsFor self.now s → result ≡ size_of s number }
    {
        match self.at(number).start {
            Some(start) => Some(start.size),
            None => None,
        }
    }

    /// Whether an error that a call finds is reported: as a runtime error, or as a development error.
    pub fn report(&self, error: ErrorName) -> Option<bool>
        ensures { result ≡ errors.reported (checks.reporting self.now.driver) error }
    {
        mcal_base::det_errors::reported(self.driver.detect, self.driver.classification, error)
    }

    /// The chip is reset.
    pub fn reset(&mut self)
        ensures is { StandsFor self.new spec.first_state }
        ensures driver { self.new.driver ≡ self.old.driver }
        ensures servings { self.new.servings ≡ self.old.servings }
    {
        self.initialised = false;
        self.channels = [BLANK; 8];
        self.stamps = [0; 512];
    }
}
