ghost use Rattle.std.specs.Prelude.{◌≡◌, ◌==◌, ◌<◌, ℕ, not, slice_index_or, if◌then◌else◌};
ghost use Rattle.mcal_base.specs.det_errors.Reports as errors;
ghost use Rattle.run_model.specs.Machine.{Acts};
ghost use Rattle.run_model.specs.World.{World};
ghost use Rattle.module_machines.specs.port.Checks as checks;
ghost use Rattle.module_machines.specs.port.Machine as spec;
ghost use Rattle.module_machines.specs.port.Machine.{PortState};
ghost use Rattle.module_machines.specs.port.Table.{pin_of};
ghost use Rattle.audit_base.specs.Comes.{Comes};
ghost use Rattle.audit_clock.specs.PinStands.{StandsFor, state_of, turned};

use crate::pin_state::{
    PinState, UNTOUCHED, Whole, changed, latched, level_of, pin_facts, turned, with_latch,
};
use audit_base::{Told, nothing};
use mcal_base::ErrorName;
use mcal_base::det_errors::{Facts, first_error};
use module_machines::port::{Call, PortTable};
use std::marker::Model;

/// The machine of the pins under a configuration.
#[derive(Drop)]
pub struct Pins {
    driver: PortTable,
    initialised: bool,
    pins: [PinState; 64],
}

impl Model for Pins {
    ghost use Rattle.std.specs.Prelude.{◌≡◌, length, map};
    ghost use Rattle.audit_clock.specs.PinStands.{PinsKept, state_of};

    ghost Value = { PinsKept };

    ghost view = { λ t. record { driver = t.driver; initialised = t.initialised; pins = map state_of t.pins } };

    ghost invariant = { λ t. length t.pins ≡ 64 };
}

impl Pins {
    /// After power on.
    pub fn new(driver: PortTable) -> Pins
        ensures is { StandsFor result spec.first_state }
        ensures driver { result.driver ≡ driver }
    {
        Pins {
            driver,
            initialised: false,
            pins: [UNTOUCHED; 64],
        }
    }

    /// What is configured.
    pub fn table(&self) -> &PortTable
        ensures { result.now ≡ self.now.driver }
    {
        &self.driver
    }

    /// A pin of a number.
    fn at(&self, number: u32) -> PinState
        ensures { state_of result ≡ slice_index_or self.now.pins number spec.untouched }
    {
        if number < 64 {
            self.pins[number as usize]
        } else {
            UNTOUCHED
        }
    }

    /// A pin, of 64.
    pub fn state(&self, number: u32) -> PinState
        requires { number < 64 }
        ensures { (s : PortState) → StandsFor self.now s → state_of result ≡ spec.pin_at s number }
    {
        self.at(number)
    }

    /// Each pin is turned.
    fn turn(&mut self, by: Whole)
        ensures pins { (p : ℕ) → p < 64 → slice_index_or self.new.pins p spec.untouched ≡ turned by (pin_of self.old.driver p) (slice_index_or self.old.pins p spec.untouched) }
        ensures driver { self.new.driver ≡ self.old.driver }
        ensures initialised { self.new.initialised ≡ self.old.initialised }
    {
        for number in 0..64u32 {
            let state = turned(by, self.driver.pin(number), self.at(number));
            self.pins[number as usize] = state;
        }
    }

    /// A pin becomes so.
    fn set(&mut self, number: u32, state: PinState)
        ensures pins { (p : ℕ) → p < 64 → slice_index_or self.new.pins p spec.untouched ≡ if p == number then state_of state else slice_index_or self.old.pins p spec.untouched }
        ensures driver { self.new.driver ≡ self.old.driver }
        ensures initialised { self.new.initialised ≡ self.old.initialised }
    {
        if number < 64 {
            self.pins[number as usize] = state;
        }
    }

    /// What a call without an error does.
    fn work(&mut self, call: Call)
        ensures is { (s : PortState) → StandsFor self.old s → StandsFor self.new (spec.work self.old.driver s call) }
        ensures driver { self.new.driver ≡ self.old.driver }
    {
        match call {
            Call::Init => {
                self.turn(Whole::Configured);
                self.initialised = true;
            }
            Call::RefreshPortDirection => self.turn(Whole::Refreshed),
            Call::Pin(number, call) => {
                let state = changed(call, self.at(number));
                self.set(number, state);
            }
        }
    }

    /// A call acts.
    pub fn act(&mut self, call: Call) -> Told
        ensures is { (w : World) (s : PortState) (committed : ℕ → ℕ) → StandsFor self.old s →
            Comes (StandsFor self.new) result (spec.happens self.old.driver w s (Acts call committed)) }
        ensures driver { self.new.driver ≡ self.old.driver }
    {
        match self.error(call) {
            Some(error) => Told::with_error(nothing(), error),
            None => {
                self.work(call);
                Told::nothing()
            }
        }
    }

    /// A word of 256 * mask + levels is put to a port, of eight: the latches of its pins that are out and that the mask
    /// names take these levels.
    pub fn put(&mut self, port: u32, word: u32)
        requires { port < 8 }
        ensures is { (s : PortState) → StandsFor self.old s → StandsFor self.new (spec.with_change s (spec.Put port word)) }
        ensures driver { self.new.driver ≡ self.old.driver }
    {
        for place in 0..8u32 {
            let number = 8 * port + place;
            let state = latched(word, place, self.at(number));
            self.set(number, state);
        }
    }

    /// The latch of a pin is inverted, where it is out.
    pub fn invert(&mut self, number: u32)
        ensures is { (s : PortState) → StandsFor self.old s → StandsFor self.new (spec.with_change s (spec.Inverted number)) }
        ensures driver { self.new.driver ≡ self.old.driver }
    {
        let state = self.at(number);
        self.set(number, with_latch(!state.latch, state));
    }

    /// Whether an error that a call finds is reported: as a runtime error, or as a development error.
    pub fn report(&self, error: ErrorName) -> Option<bool>
        ensures { result ≡ errors.reported (checks.reporting self.now.driver) error }
    {
        mcal_base::det_errors::reported(self.driver.detect, 1, error)
    }

    /// The chip is reset.
    pub fn reset(&mut self)
        ensures is { StandsFor self.new spec.first_state }
        ensures driver { self.new.driver ≡ self.old.driver }
    {
        self.initialised = false;
        self.pins = [UNTOUCHED; 64];
    }

    /// The level of a pin, of 64, by what stands outside and the output of the pulse channel that names it.
    pub fn level(&self, number: u32, outside: bool, pulse: Option<bool>) -> bool
        requires { number < 64 }
        ensures is { (s : PortState) → StandsFor self.now s → result ≡ spec.level_of (spec.pin_at s number) outside pulse }
        ensures kept { result ≡ spec.level_of (slice_index_or self.now.pins number spec.untouched) outside pulse }
    {
        level_of(self.at(number), outside, pulse)
    }

    /// The first error of a call that holds.
    fn error(&self, call: Call) -> Option<ErrorName>
        ensures { result ≡ checks.error_by self.now.driver call (not self.now.initialised) }
    {
        let off = !self.initialised;
        let holds = match call {
            Call::Init => [false; 6],
            Call::RefreshPortDirection => [off, false, false, false, false, false],
            Call::Pin(number, call) => pin_facts(off, self.driver.pin(number), call),
        };
        first_error(call.service(), &Facts { holds })
    }
}
