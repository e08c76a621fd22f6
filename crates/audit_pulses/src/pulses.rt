ghost use Rattle.std.specs.Prelude.{◌≡◌, ◌==◌, ◌<◌, ◌≤◌, ℕ, Some, None, is_some, not, option_map, if◌then◌else◌};
ghost use Rattle.mcal_base.specs.det_errors.Reports as errors;
ghost use Rattle.run_model.specs.Machine.{Acts, Serves, outcome};
ghost use Rattle.run_model.specs.World.{World};
ghost use Rattle.module_machines.specs.pwm.Checks as checks;
ghost use Rattle.module_machines.specs.pwm.Machine as spec;
ghost use Rattle.module_machines.specs.pwm.Table.{channel_of, channel_of_line};
ghost use Rattle.audit_pulses.specs.Stands.{pulse_of, times_of, ArePast, PulseFits};

use crate::checks::{facts, level_answer, refused};
use crate::pulse::{Pulse, SILENT, polarity};
use audit_base::{Notices, Told};
use mcal_base::det_errors::first_error;
use mcal_base::{ErrorName, Notice, NoticeKind};
use module_machines::pwm::{Call, ChannelCall, PwmTable};
use std::marker::Model;

/// The machine of the pulse outputs under a configuration, and the latest time that it was told, in peripheral ticks.
#[derive(Drop)]
pub struct Pulses {
    driver: PwmTable,
    latest: u64,
    initialised: bool,
    touched: bool,
    channels: [Pulse; 8],
}

impl Model for Pulses {
    ghost use Rattle.std.specs.Prelude.{◌≡◌, length};
    ghost use Rattle.std.specs.List.{AllByRecursion};
    ghost use Rattle.audit_pulses.specs.Stands.{Kept, channels_of, PulseFits};

    ghost Value = { Kept };

    ghost view = { λ t. record { driver = t.driver; latest = t.latest; state = record { initialised = t.initialised; channels = channels_of t.touched t.channels } } };

    ghost invariant = { λ t. (length t.channels ≡ 8) × AllByRecursion (PulseFits t.latest) t.channels };
}

impl Pulses {
    /// After power on.
    pub fn new(driver: PwmTable) -> Pulses
        ensures { result ≡ record { driver = driver; latest = 0; state = spec.first_state } }
    {
        Pulses {
            driver,
            latest: 0,
            initialised: false,
            touched: false,
            channels: [SILENT; 8],
        }
    }

    /// Time has come to now.
    fn advance(&mut self, now: u64)
        requires { self.old.latest ≤ now }
        ensures state { self.new.state ≡ self.old.state }
        ensures driver { self.new.driver ≡ self.old.driver }
        ensures latest { self.new.latest ≡ now }
    {
        self.latest = now;
    }

    /// What is configured.
    pub fn table(&self) -> &PwmTable
        ensures { result.now ≡ self.now.driver }
    {
        &self.driver
    }

    /// A channel.
    fn channel(&self, number: u32) -> Pulse
        ensures is { pulse_of result ≡ spec.pulse_at self.now.state number }
        ensures fits { PulseFits self.now.latest result }
    {
        if self.touched && number < 8 {
            self.channels[number as usize]
        } else {
            SILENT
        }
    }

    /// What stands at a place where a channel becomes so.
    fn placed(&self, place: u32, number: u32, pulse: Pulse) -> Pulse
        requires { PulseFits self.now.latest pulse }
        ensures is { pulse_of result ≡ if place == number then pulse_of pulse else spec.pulse_at self.now.state place }
        ensures fits { PulseFits self.now.latest result }
    {
        if place == number {
            pulse
        } else {
            self.channel(place)
        }
    }

    /// A channel becomes so.
    fn set(&mut self, number: u32, pulse: Pulse)
        requires { PulseFits self.old.latest pulse }
        ensures state { self.new.state ≡ spec.with_pulse self.old.state number (pulse_of pulse) }
        ensures driver { self.new.driver ≡ self.old.driver }
        ensures latest { self.new.latest ≡ self.old.latest }
    {
        self.channels = [
            self.placed(0, number, pulse),
            self.placed(1, number, pulse),
            self.placed(2, number, pulse),
            self.placed(3, number, pulse),
            self.placed(4, number, pulse),
            self.placed(5, number, pulse),
            self.placed(6, number, pulse),
            self.placed(7, number, pulse),
        ];
        self.touched = true;
    }

    /// The channel, of eight, that starts at its time.
    fn started(&self, number: u32, times: [u64; 8]) -> Pulse
        requires there { number < 8 }
        requires past { ArePast times self.now.latest }
        ensures is { pulse_of result ≡ spec.started (channel_of self.now.driver number) (times_of times number) (spec.pulse_at self.now.state number) }
        ensures fits { PulseFits self.now.latest result }
    {
        let time = times[number as usize];
        self.channel(number)
            .started(self.driver.channel(number), time, self.latest)
    }

    /// The channel that ends.
    fn ended(&self, number: u32) -> Pulse
        ensures is { pulse_of result ≡ spec.ended (channel_of self.now.driver number) self.now.latest (spec.pulse_at self.now.state number) }
        ensures fits { PulseFits self.now.latest result }
    {
        self.channel(number)
            .ended(self.driver.channel(number), self.latest)
    }

    /// All channels start, each at its time.
    fn start(&mut self, times: [u64; 8]) -> Told
        requires { ArePast times self.old.latest }
        ensures is { (w : World) → w.now ≡ self.old.latest → outcome self.new.state result ≡ spec.work self.old.driver w self.old.state Call.Init (times_of times) }
        ensures driver { self.new.driver ≡ self.old.driver }
        ensures latest { self.new.latest ≡ self.old.latest }
    {
        self.channels = [
            self.started(0, times),
            self.started(1, times),
            self.started(2, times),
            self.started(3, times),
            self.started(4, times),
            self.started(5, times),
            self.started(6, times),
            self.started(7, times),
        ];
        self.touched = true;
        self.initialised = true;
        Told::nothing()
    }

    /// All channels end.
    fn end(&mut self) -> Told
        ensures is { (w : World) (committed : ℕ → ℕ) → w.now ≡ self.old.latest → outcome self.new.state result ≡ spec.work self.old.driver w self.old.state Call.DeInit committed }
        ensures driver { self.new.driver ≡ self.old.driver }
        ensures latest { self.new.latest ≡ self.old.latest }
    {
        self.channels = [
            self.ended(0),
            self.ended(1),
            self.ended(2),
            self.ended(3),
            self.ended(4),
            self.ended(5),
            self.ended(6),
            self.ended(7),
        ];
        self.touched = true;
        self.initialised = false;
        Told::nothing()
    }

    /// What a call about a channel without an error does.
    fn work_on(&mut self, number: u32, call: ChannelCall) -> Told
        ensures is { (w : World) (committed : ℕ → ℕ) → w.now ≡ self.old.latest → outcome self.new.state result ≡ spec.work self.old.driver w self.old.state (Call.Channel number call) committed }
        ensures driver { self.new.driver ≡ self.old.driver }
        ensures latest { self.new.latest ≡ self.old.latest }
    {
        let channel = self.driver.channel(number);
        let pulse = self.channel(number).worked(channel, self.latest, call);
        self.set(number, pulse);
        Told::nothing()
    }

    /// What a call without an error does.
    fn work(&mut self, call: Call, times: [u64; 8]) -> Told
        requires { ArePast times self.old.latest }
        ensures is { (w : World) → w.now ≡ self.old.latest → outcome self.new.state result ≡ spec.work self.old.driver w self.old.state call (times_of times) }
        ensures driver { self.new.driver ≡ self.old.driver }
        ensures latest { self.new.latest ≡ self.old.latest }
    {
        match call {
            Call::Init => self.start(times),
            Call::DeInit => self.end(),
            Call::GetOutputState(number) => {
                let latest = self.latest;
                Told::with_answer(level_answer(self.level(number, latest)))
            }
            Call::Channel(number, call) => self.work_on(number, call),
        }
    }

    /// The first error of a call that holds.
    fn error(&self, call: Call) -> Option<ErrorName>
        ensures { result ≡ checks.error_by self.now.driver call (not self.now.state.initialised) }
    {
        let facts = facts(&self.driver, call, !self.initialised);
        first_error(call.service(), &facts)
    }

    /// A call acts, now; its frame wrote the commit register of each channel last at these times.
    pub fn act(&mut self, call: Call, now: u64, times: [u64; 8]) -> Told
        requires later { self.old.latest ≤ now }
        requires past { ArePast times now }
        ensures is { (w : World) → w.now ≡ now → Some (outcome self.new.state result) ≡ spec.happens self.old.driver w self.old.state (Acts call (times_of times)) }
        ensures driver { self.new.driver ≡ self.old.driver }
        ensures latest { self.new.latest ≡ now }
    {
        self.advance(now);
        match self.error(call) {
            Some(error) => Told::with_error(refused(call), error),
            None => self.work(call, times),
        }
    }

    /// The level of a channel's output.
    pub fn level(&self, number: u32, now: u64) -> bool
        ensures { (w : World) → w.now ≡ now → result ≡ spec.level_at self.now.driver w self.now.state number }
    {
        let polarity = polarity(self.driver.channel(number));
        self.channel(number).output.level(polarity, now)
    }

    /// Whether a configured channel uses a line.
    pub fn has_line(&self, line: u32) -> bool
        ensures { result ≡ is_some (channel_of_line self.now.driver line) }
    {
        self.driver.channel_of_line(line).is_some()
    }

    /// Whether a line may be served: the mark of its channel stands.
    pub fn ready(&self, line: u32, now: u64) -> bool
        ensures { (w : World) → w.now ≡ now → result ≡ spec.ready self.now.driver w self.now.state line }
    {
        let channel = self.driver.channel_of_line(line);
        channel.is_some()
            && self.initialised
            && self.channel(line.saturating_sub(8)).marked(channel, now)
    }

    /// A line is served now, where it may be.
    pub fn serve(&mut self, line: u32, now: u64) -> Option<Told>
        requires { self.old.latest ≤ now }
        ensures is { (w : World) (received : ℕ) → w.now ≡ now → option_map (outcome self.new.state) result ≡ spec.happens self.old.driver w self.old.state (Serves line received) }
        ensures unchanged { result ≡ None → self.new.state ≡ self.old.state }
        ensures driver { self.new.driver ≡ self.old.driver }
        ensures latest { self.new.latest ≡ now }
    {
        self.advance(now);
        if self.ready(line, now) {
            Some(self.served(line.saturating_sub(8)))
        } else {
            None
        }
    }

    /// The mark of a channel is dropped, and notified.
    fn served(&mut self, number: u32) -> Told
        ensures is { (w : World) → w.now ≡ self.old.latest → outcome self.new.state result ≡ spec.served w self.old.state number }
        ensures driver { self.new.driver ≡ self.old.driver }
        ensures latest { self.new.latest ≡ self.old.latest }
    {
        let pulse = self.channel(number).forgotten(self.latest);
        self.set(number, pulse);
        Told::with_notices(Notices::One(Notice {
            kind: NoticeKind::PwmNotification,
            id: number,
        }))
    }

    /// Whether an error that a call finds is reported: as a runtime error, or as a development error.
    pub fn report(&self, error: ErrorName) -> Option<bool>
        ensures { result ≡ errors.reported (checks.reporting self.now.driver) error }
    {
        mcal_base::det_errors::reported(self.driver.detect, 1, error)
    }

    /// The chip is reset.
    pub fn reset(&mut self)
        ensures state { self.new.state ≡ spec.first_state }
        ensures driver { self.new.driver ≡ self.old.driver }
        ensures latest { self.new.latest ≡ self.old.latest }
    {
        self.initialised = false;
        self.touched = false;
    }
}
