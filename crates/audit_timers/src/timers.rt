ghost use Rattle.std.specs.Prelude.{◌≡◌, ◌==◌, ℕ, Some, None, is_some, option_map, if◌then◌else◌};
ghost use Rattle.mcal_base.specs.det_errors.Reports as errors;
ghost use Rattle.run_model.specs.Machine.{Acts, Serves, outcome};
ghost use Rattle.run_model.specs.World.{World};
ghost use Rattle.module_machines.specs.gpt.Machine as spec;
ghost use Rattle.module_machines.specs.gpt.Checks as checks;
ghost use Rattle.module_machines.specs.gpt.Table.{channel_of};
ghost use Rattle.audit_timers.specs.Stands.{timing_of, HasTarget, TakesTarget, CallTakes, mode_of};

use crate::checks::{facts, refused};
use crate::course::Course;
use crate::timing::{Timing, UNTOUCHED, changed, tells};
use audit_base::{Notices, Told, number};
use mcal_base::det_errors::first_error;
use mcal_base::{ErrorName, Notice, NoticeKind};
use module_machines::gpt::{Call, Change, ChannelCall, GptMode, GptTable, Switches};
use std::marker::Model;

/// Uninitialised, or the mode of an initialised module.
#[derive(Clone, Copy)]
pub enum Mode {
    /// Uninitialised.
    Off,
    /// Normal mode.
    Normal,
    /// Sleep mode.
    Sleep,
}

/// The timers' machine under a configuration. Times are in peripheral ticks.
#[derive(Drop)]
pub struct Timers {
    driver: GptTable,
    mode: Mode,
    touched: bool,
    channels: [Timing; 8],
}

impl Model for Timers {
    ghost use Rattle.std.specs.Prelude.{◌≡◌, length};
    ghost use Rattle.std.specs.List.{AllByRecursion};
    ghost use Rattle.audit_timers.specs.Stands.{Kept, mode_of, channels_of, TimingFits};

    ghost Value = { Kept };

    ghost view = { λ t. record { driver = t.driver; state = record { mode = mode_of t.mode; channels = channels_of t.touched t.channels } } };

    ghost invariant = { λ t. (length t.channels ≡ 8) × AllByRecursion TimingFits t.channels };
}

/// A notice about a channel, where one is owed.
fn notes(owed: bool, kind: NoticeKind, channel: u32) -> Told
    ensures { result ≡ spec.notes owed kind channel }
{
    if owed {
        Told::with_notices(Notices::One(Notice { kind, id: channel }))
    } else {
        Told::nothing()
    }
}

impl Timers {
    /// After power on.
    pub fn new(driver: GptTable) -> Timers
        ensures { result ≡ record { driver = driver; state = spec.first_state } }
    {
        Timers {
            driver,
            mode: Mode::Off,
            touched: false,
            channels: [UNTOUCHED; 8],
        }
    }

    /// What is configured.
    pub fn table(&self) -> &GptTable
        ensures { result.now ≡ self.now.driver }
    {
        &self.driver
    }

    /// A channel.
    fn channel(&self, number: u32) -> Timing
        ensures is { timing_of result ≡ spec.channel_at self.now.state number }
        ensures target { HasTarget result.course }
    {
        if self.touched && number < 8 {
            self.channels[number as usize]
        } else {
            UNTOUCHED
        }
    }

    /// What stands at a place where a channel becomes so.
    fn placed(&self, place: u32, number: u32, timing: Timing) -> Timing
        requires { HasTarget timing.course }
        ensures is { timing_of result ≡ if place == number then timing_of timing else spec.channel_at self.now.state place }
        ensures target { HasTarget result.course }
    {
        if place == number {
            timing
        } else {
            self.channel(place)
        }
    }

    /// A channel becomes so.
    fn set(&mut self, number: u32, timing: Timing)
        requires { HasTarget timing.course }
        ensures state { self.new.state ≡ spec.with_channel self.old.state number (timing_of timing) }
        ensures driver { self.new.driver ≡ self.old.driver }
    {
        self.channels = [
            self.placed(0, number, timing),
            self.placed(1, number, timing),
            self.placed(2, number, timing),
            self.placed(3, number, timing),
            self.placed(4, number, timing),
            self.placed(5, number, timing),
            self.placed(6, number, timing),
            self.placed(7, number, timing),
        ];
        self.touched = true;
    }

    /// The channel that falls asleep.
    fn asleep(&self, number: u32, now: u64) -> Timing
        ensures is { timing_of result ≡ spec.slept (channel_of self.now.driver number) now (spec.channel_at self.now.state number) }
        ensures target { HasTarget result.course }
    {
        self.channel(number).slept(self.driver.channel(number), now)
    }

    /// The module falls asleep.
    fn sleep(&mut self, now: u64)
        ensures state { (w : World) → w.now ≡ now → self.new.state ≡ spec.slept_all self.old.driver w self.old.state }
        ensures driver { self.new.driver ≡ self.old.driver }
    {
        self.channels = [
            self.asleep(0, now),
            self.asleep(1, now),
            self.asleep(2, now),
            self.asleep(3, now),
            self.asleep(4, now),
            self.asleep(5, now),
            self.asleep(6, now),
            self.asleep(7, now),
        ];
        self.touched = true;
        self.mode = Mode::Sleep;
    }

    /// Whether the channel of a number runs.
    fn runs(&self, number: u32, now: u64) -> bool
        ensures { (w : World) → w.now ≡ now → result ≡ spec.runs_at self.now.driver w self.now.state number }
    {
        self.channel(number)
            .course
            .runs(self.driver.channel(number), now)
    }

    /// What a call finds busy: its channel, and one about the module any one.
    fn busy(&self, call: Call, now: u64) -> bool
        ensures { (w : World) → w.now ≡ now → result ≡ spec.is_busy self.now.driver w self.now.state call }
    {
        match call {
            Call::Channel(number, _) => self.runs(number, now),
            Call::Init | Call::DeInit | Call::SetMode(_) => {
                self.runs(0, now)
                    || self.runs(1, now)
                    || self.runs(2, now)
                    || self.runs(3, now)
                    || self.runs(4, now)
                    || self.runs(5, now)
                    || self.runs(6, now)
                    || self.runs(7, now)
            }
        }
    }

    fn is_off(&self) -> bool
        ensures { result ≡ spec.is_off self.now.state.mode }
    {
        matches!(self.mode, Mode::Off)
    }

    fn is_asleep(&self) -> bool
        ensures { result ≡ spec.is_asleep self.now.state.mode }
    {
        matches!(self.mode, Mode::Sleep)
    }

    /// The first error of a call that holds.
    fn error(&self, call: Call, now: u64) -> Option<ErrorName>
        ensures is { (w : World) → w.now ≡ now →
            result ≡ checks.error_by self.now.driver call (spec.is_off self.now.state.mode) (spec.is_asleep self.now.state.mode) (spec.is_busy self.now.driver w self.now.state call) }
        ensures takes { result ≡ None → CallTakes call }
    {
        let facts = facts(
            &self.driver,
            call,
            self.is_off(),
            self.is_asleep(),
            self.busy(call, now),
        );
        first_error(call.service(), &facts)
    }

    /// A change of a channel's switches.
    fn switch(&mut self, number: u32, by: Change) -> Told
        ensures is { outcome self.new.state result ≡ spec.switches (channel_of self.old.driver number) self.old.state number by }
        ensures driver { self.new.driver ≡ self.old.driver }
    {
        if self.driver.channel(number).is_none() {
            return Told::nothing();
        }
        let timing = self.channel(number);
        let told = notes(
            tells(timing.switches, by),
            NoticeKind::EcuMSetWakeupEvent,
            number,
        );
        self.set(
            number,
            Timing {
                switches: changed(timing.switches, by),
                ..timing
            },
        );
        told
    }

    /// What a call about a channel without an error does.
    fn work_on(&mut self, number: u32, call: ChannelCall, now: u64) -> Told
        requires { TakesTarget call }
        ensures is { (w : World) → w.now ≡ now → outcome self.new.state result ≡ spec.work self.old.driver w self.old.state (Call.Channel number call) }
        ensures driver { self.new.driver ≡ self.old.driver }
    {
        let channel = self.driver.channel(number);
        let timing = self.channel(number);
        match call {
            ChannelCall::GetTimeElapsed => answers(timing.course.elapsed(channel, now)),
            ChannelCall::GetTimeRemaining => answers(timing.course.remaining(channel, now)),
            ChannelCall::StartTimer(target) => {
                self.set(
                    number,
                    Timing {
                        course: Course::Running(now, target),
                        dropped: now,
                        ..timing
                    },
                );
                Told::nothing()
            }
            ChannelCall::StopTimer => {
                self.set(number, timing.stopped(channel, now));
                Told::nothing()
            }
            ChannelCall::Change(by) => self.switch(number, by),
        }
    }

    /// What a call without an error does.
    fn work(&mut self, call: Call, now: u64) -> Told
        requires { CallTakes call }
        ensures is { (w : World) → w.now ≡ now → outcome self.new.state result ≡ spec.work self.old.driver w self.old.state call }
        ensures driver { self.new.driver ≡ self.old.driver }
    {
        match call {
            Call::Init => self.restart(Mode::Normal),
            Call::DeInit => self.restart(Mode::Off),
            Call::SetMode(None) => {}
            Call::SetMode(Some(GptMode::Normal)) => self.mode = Mode::Normal,
            Call::SetMode(Some(GptMode::Sleep)) => self.sleep(now),
            Call::Channel(number, call) => return self.work_on(number, call, now),
        }
        Told::nothing()
    }

    /// No channel was touched, in a mode.
    fn restart(&mut self, mode: Mode)
        ensures state { self.new.state ≡ spec.fresh_state (mode_of mode) }
        ensures driver { self.new.driver ≡ self.old.driver }
    {
        self.mode = mode;
        self.touched = false;
    }

    /// A call acts.
    pub fn act(&mut self, call: Call, now: u64) -> Told
        ensures is { (w : World) (committed : ℕ → ℕ) → w.now ≡ now → Some (outcome self.new.state result) ≡ spec.happens self.old.driver w self.old.state (Acts call committed) }
        ensures driver { self.new.driver ≡ self.old.driver }
    {
        match self.error(call, now) {
            Some(error) => Told::with_error(refused(call), error),
            None => self.work(call, now),
        }
    }

    /// Whether a configured channel uses a line.
    pub fn has_line(&self, line: u32) -> bool
        ensures { result ≡ is_some (channel_of self.now.driver line) }
    {
        self.driver.channel(line).is_some()
    }

    /// Whether a line may be served: an expiry of its channel wasn't.
    pub fn ready(&self, line: u32, now: u64) -> bool
        ensures { (w : World) → w.now ≡ now → result ≡ spec.ready self.now.driver w self.now.state line }
    {
        line < 8 && self.channel(line).marked(self.driver.channel(line), now)
    }

    /// A line is served, where it may be.
    pub fn serve(&mut self, line: u32, now: u64) -> Option<Told>
        ensures is { (w : World) (received : ℕ) → w.now ≡ now → option_map (outcome self.new.state) result ≡ spec.happens self.old.driver w self.old.state (Serves line received) }
        ensures unchanged { result ≡ None → self.new ≡ self.old }
        ensures driver { self.new.driver ≡ self.old.driver }
    {
        if self.ready(line, now) {
            Some(self.served(line, now))
        } else {
            None
        }
    }

    /// A line that is ready is served.
    fn served(&mut self, line: u32, now: u64) -> Told
        ensures is { (w : World) → w.now ≡ now → outcome self.new.state result ≡ spec.served w self.old.state line }
        ensures driver { self.new.driver ≡ self.old.driver }
    {
        let timing = self.channel(line);
        let wakes = self.is_asleep() && timing.switches.wakeup;
        let notifies = !self.is_asleep() && timing.switches.notification;
        let woken = wakes || timing.switches.woken;
        self.set(
            line,
            Timing {
                dropped: now,
                switches: Switches {
                    woken,
                    ..timing.switches
                },
                ..timing
            },
        );
        if wakes {
            notes(true, NoticeKind::EcuMCheckWakeup, line)
        } else {
            notes(notifies, NoticeKind::GptNotification, line)
        }
    }

    /// Whether an error that a call finds is reported: as a runtime error, or as a development error.
    pub fn report(&self, error: ErrorName) -> Option<bool>
        ensures { result ≡ errors.reported (spec.reporting self.now.driver) error }
    {
        mcal_base::det_errors::reported(self.driver.detect, self.driver.classification, error)
    }

    /// The chip is reset.
    pub fn reset(&mut self)
        ensures state { self.new.state ≡ spec.first_state }
        ensures driver { self.new.driver ≡ self.old.driver }
    {
        self.restart(Mode::Off);
    }
}

/// An answer that is a number.
fn answers(value: u32) -> Told
    ensures { result ≡ spec.answers_number value }
{
    Told::with_answer(number(value))
}
