ghost use Rattle.std.specs.Prelude.{◌≡◌, ℕ, IfSome};
ghost use Rattle.chip_model.specs.Chip.{power_on, hung};
ghost use Rattle.config_facts.specs.Valid.{IsValid};
ghost use Rattle.mcal_drivers.specs.Drivers.{as_one, drivers_of, system};

use crate::frame::{Frame, ModuleFrame};
use crate::outputs::outputs_of;
use adc_driver::AdcDriver;
use chip_model::Bus;
use dio_driver::DioDriver;
use gpt_driver::GptDriver;
use icu_driver::IcuDriver;
use mcal_base::{Config, ModuleName, Request, Service};
use mcu_driver::McuDriver;
use port_driver::PortDriver;
use pwm_driver::PwmDriver;
use run_model::Class;
use script_runner::Caller;
use spi_driver::SpiDriver;
use step_runner::{Either, Module};
use wdg_driver::WdgDriver;

/// The drivers of all modules as one. The clock's comes first, since the first alone may set the rate. The driver of
/// channels and ports is a guest of the others, in the pins' block.
#[derive(Drop)]
pub struct Drivers {
    clock: McuDriver,
    watchdog: WdgDriver,
    pins: PortDriver,
    timers: GptDriver,
    pulses: PwmDriver,
    captures: IcuDriver,
    converters: AdcDriver,
    serial: SpiDriver,
    ports: DioDriver,
    // The pin at which each pulse channel's output is seen. Contracts alone read it, for levels of pins depend on it.
    outputs: [Option<u32>; 8],
}

impl Drivers {
    /// The drivers under a configuration. They take no memory.
    pub fn new(config: &Config) -> Drivers
        requires valid { IsValid config.now }
        ensures is { result ≡ drivers_of config.now }
        ensures fits { (system config.now).fits }
        ensures wired { (room devices : ℕ) → (system config.now).wired (hung devices (power_on config.now room)) }
    {
        Drivers {
            clock: McuDriver::new(config),
            watchdog: WdgDriver::new(config),
            pins: PortDriver::new(config),
            timers: GptDriver::new(config),
            pulses: PwmDriver::new(config),
            captures: IcuDriver::new(config),
            converters: AdcDriver::new(config),
            serial: SpiDriver::new(config),
            ports: DioDriver::new(config),
            outputs: outputs_of(config),
        }
    }

    /// The serial driver.
    pub fn serial(&self) -> &SpiDriver
        ensures { result.now ≡ self.now.serial }
    {
        &self.serial
    }

    /// The converter driver.
    pub fn converters(&self) -> &AdcDriver
        ensures { result.now ≡ self.now.converters }
    {
        &self.converters
    }

    /// The driver of the capture inputs.
    pub fn captures(&self) -> &IcuDriver
        ensures { result.now ≡ self.now.captures }
    {
        &self.captures
    }
}

/// The calls of a module.
type CallOf<M> = <M as Module>::Call;

/// The states of a module's machine.
type StateOf<M> = <M as Module>::State;

/// A call of one of the modules that have a state, in their order.
type HostCall = Either<
    Either<
        Either<CallOf<McuDriver>, CallOf<WdgDriver>>,
        Either<CallOf<PortDriver>, CallOf<GptDriver>>,
    >,
    Either<
        Either<CallOf<PwmDriver>, CallOf<IcuDriver>>,
        Either<CallOf<AdcDriver>, CallOf<SpiDriver>>,
    >,
>;

/// A call of one of them, or of their guest.
type Call = Either<HostCall, module_machines::dio::Call>;

/// The states of their machines.
type States = (
    (
        (StateOf<McuDriver>, StateOf<WdgDriver>),
        (StateOf<PortDriver>, StateOf<GptDriver>),
    ),
    (
        (StateOf<PwmDriver>, StateOf<IcuDriver>),
        (StateOf<AdcDriver>, StateOf<SpiDriver>),
    ),
);

impl Drivers {
    /// The frame of a call that begins, made where one of another module stands.
    #[tactic(auto, unfolding(crate::specs::Drivers::as_one))]
    fn frame_over(&self, call: &Call, place: &mut Frame)
        ensures { place.new ≡ (as_one self.now).frame_of call.now }
    {
        *place = self.frame(call);
    }

    /// The frame of a line's handler, made where a frame of another module stands.
    #[tactic(auto, unfolding(crate::specs::Drivers::as_one))]
    fn handler_over(&self, line: u32, place: &mut Frame)
        ensures { IfSome ((as_one self.now).handler_of line) (λ frame. place.new ≡ frame) }
    {
        if let Some(frame) = self.handler(line) {
            *place = frame;
        }
    }
}

impl Module for Drivers {
    type Call = Call;

    type Frame = Frame;

    type State = States;

    ghost use Rattle.mcal_drivers.specs.Drivers.{as_one};
    ghost use Rattle.mcal_drivers.specs.Laws.{lawful_system};

    ghost spec = { as_one };

    #[tactic(auto, unfolding(crate::specs::Drivers::as_one))]
    fn frame(&self, call: &Call) -> Frame {
        let frame = match call {
            Either::Left(Either::Left(Either::Left(Either::Left(call)))) => {
                ModuleFrame::Clock(self.clock.frame(call))
            }
            Either::Left(Either::Left(Either::Left(Either::Right(call)))) => {
                ModuleFrame::Watchdog(self.watchdog.frame(call))
            }
            Either::Left(Either::Left(Either::Right(Either::Left(call)))) => {
                ModuleFrame::Pins(self.pins.frame(call))
            }
            Either::Left(Either::Left(Either::Right(Either::Right(call)))) => {
                ModuleFrame::Timers(self.timers.frame(call))
            }
            Either::Left(Either::Right(Either::Left(Either::Left(call)))) => {
                ModuleFrame::Pulses(self.pulses.frame(call))
            }
            Either::Left(Either::Right(Either::Left(Either::Right(call)))) => {
                ModuleFrame::Captures(self.captures.frame(call))
            }
            Either::Left(Either::Right(Either::Right(Either::Left(call)))) => {
                ModuleFrame::Converters(self.converters.frame(call))
            }
            Either::Left(Either::Right(Either::Right(Either::Right(call)))) => {
                ModuleFrame::Serial(self.serial.frame(call))
            }
            Either::Right(call) => ModuleFrame::Ports(self.ports.frame(call)),
        };
        Frame { frame }
    }

    /// Where a frame of the same module stands, its driver makes the new one there.
    #[tactic(auto, unfolding(crate::specs::Drivers::as_one))]
    fn frame_into(&self, call: &Call, place: &mut Frame) {
        match (call, &mut place.frame) {
            (
                Either::Left(Either::Left(Either::Left(Either::Left(call)))),
                ModuleFrame::Clock(frame),
            ) => { self.clock.frame_into(call, frame) }
            (
                Either::Left(Either::Left(Either::Left(Either::Right(call)))),
                ModuleFrame::Watchdog(frame),
            ) => { self.watchdog.frame_into(call, frame) }
            (
                Either::Left(Either::Left(Either::Right(Either::Left(call)))),
                ModuleFrame::Pins(frame),
            ) => { self.pins.frame_into(call, frame) }
            (
                Either::Left(Either::Left(Either::Right(Either::Right(call)))),
                ModuleFrame::Timers(frame),
            ) => { self.timers.frame_into(call, frame) }
            (
                Either::Left(Either::Right(Either::Left(Either::Left(call)))),
                ModuleFrame::Pulses(frame),
            ) => { self.pulses.frame_into(call, frame) }
            (
                Either::Left(Either::Right(Either::Left(Either::Right(call)))),
                ModuleFrame::Captures(frame),
            ) => { self.captures.frame_into(call, frame) }
            (
                Either::Left(Either::Right(Either::Right(Either::Left(call)))),
                ModuleFrame::Converters(frame),
            ) => self.converters.frame_into(call, frame),
            (
                Either::Left(Either::Right(Either::Right(Either::Right(call)))),
                ModuleFrame::Serial(frame),
            ) => { self.serial.frame_into(call, frame) }
            (call, _) => self.frame_over(call, place),
        }
    }

    /// Clock, watchdog and pins have no lines.
    #[tactic(auto, unfolding(crate::specs::Drivers::as_one))]
    fn handler(&self, line: u32) -> Option<Frame> {
        let frame = match self.timers.handler(line) {
            Some(frame) => ModuleFrame::Timers(frame),
            None => match self.pulses.handler(line) {
                Some(frame) => ModuleFrame::Pulses(frame),
                None => match self.captures.handler(line) {
                    Some(frame) => ModuleFrame::Captures(frame),
                    None => match self.converters.handler(line) {
                        Some(frame) => ModuleFrame::Converters(frame),
                        None => match self.serial.handler(line) {
                            Some(frame) => ModuleFrame::Serial(frame),
                            None => return None,
                        },
                    },
                },
            },
        };
        Some(Frame { frame })
    }

    #[tactic(auto, unfolding(crate::specs::Drivers::as_one))]
    fn serves(&self, line: u32) -> bool {
        self.timers.serves(line)
            || self.pulses.serves(line)
            || self.captures.serves(line)
            || self.converters.serves(line)
            || self.serial.serves(line)
    }

    /// Where a frame of the same module stands, its driver makes the new one there.
    #[tactic(auto, unfolding(crate::specs::Drivers::as_one))]
    fn handler_into(&self, line: u32, place: &mut Frame) {
        if self.timers.serves(line) {
            match &mut place.frame {
                ModuleFrame::Timers(frame) => self.timers.handler_into(line, frame),
                _ => self.handler_over(line, place),
            }
        } else if self.pulses.serves(line) {
            match &mut place.frame {
                ModuleFrame::Pulses(frame) => self.pulses.handler_into(line, frame),
                _ => self.handler_over(line, place),
            }
        } else if self.captures.serves(line) {
            match &mut place.frame {
                ModuleFrame::Captures(frame) => self.captures.handler_into(line, frame),
                _ => self.handler_over(line, place),
            }
        } else if self.converters.serves(line) {
            match &mut place.frame {
                ModuleFrame::Converters(frame) => self.converters.handler_into(line, frame),
                _ => self.handler_over(line, place),
            }
        } else {
            match &mut place.frame {
                ModuleFrame::Serial(frame) => self.serial.handler_into(line, frame),
                _ => self.handler_over(line, place),
            }
        }
    }

    #[tactic(auto, unfolding(crate::specs::Drivers::as_one))]
    fn class(&self, call: &Call) -> Class {
        match call {
            Either::Left(Either::Left(Either::Left(Either::Left(call)))) => self.clock.class(call),
            Either::Left(Either::Left(Either::Left(Either::Right(call)))) => self
                .watchdog
                .class(call),
            Either::Left(Either::Left(Either::Right(Either::Left(call)))) => self.pins.class(call),
            Either::Left(Either::Left(Either::Right(Either::Right(call)))) => self
                .timers
                .class(call),
            Either::Left(Either::Right(Either::Left(Either::Left(call)))) => self
                .pulses
                .class(call),
            Either::Left(Either::Right(Either::Left(Either::Right(call)))) => self
                .captures
                .class(call),
            Either::Left(Either::Right(Either::Right(Either::Left(call)))) => self
                .converters
                .class(call),
            Either::Left(Either::Right(Either::Right(Either::Right(call)))) => self
                .serial
                .class(call),
            Either::Right(_) => self.ports.class(),
        }
    }

    #[tactic(auto, unfolding(crate::specs::Drivers::as_one))]
    fn level(&self, line: u32) -> u32 {
        if self.timers.serves(line) {
            self.timers.level(line)
        } else if self.pulses.serves(line) {
            self.pulses.level(line)
        } else if self.captures.serves(line) {
            self.captures.level(line)
        } else if self.converters.serves(line) {
            self.converters.level(line)
        } else {
            self.serial.level(line)
        }
    }

    #[tactic(auto, unfolding(crate::specs::Drivers::as_one))]
    fn owner(&self, line: u32) -> ModuleName {
        if self.timers.serves(line) {
            self.timers.owner(line)
        } else if self.pulses.serves(line) {
            self.pulses.owner(line)
        } else if self.captures.serves(line) {
            self.captures.owner(line)
        } else if self.converters.serves(line) {
            self.converters.owner(line)
        } else {
            self.serial.owner(line)
        }
    }

    /// The serial driver alone has source arrays.
    #[tactic(auto, unfolding(crate::specs::Drivers::as_one))]
    fn source_use(&self, bus: &Bus, channel: u32) -> Option<bool> {
        self.serial.source_use(bus, channel)
    }

    ghost laws = { lawful_system };
}

impl Caller for Drivers {
    ghost use Rattle.mcal_drivers.specs.Laws.{slow_system};
    ghost use Rattle.mcal_drivers.specs.Setting.{has_service, call_of};

    ghost has_service = { λ _. has_service };

    ghost call_of = { λ _. call_of };

    #[tactic(auto, unfolding(crate::specs::Setting::has_service))]
    fn has(&self, service: Service) -> bool {
        matches!(
            service.module(),
            ModuleName::Mcu
                | ModuleName::Port
                | ModuleName::Gpt
                | ModuleName::Pwm
                | ModuleName::Icu
                | ModuleName::Adc
                | ModuleName::Spi
                | ModuleName::Dio
                | ModuleName::Wdg
        )
    }

    #[tactic(auto, unfolding(crate::specs::Drivers::as_one, crate::specs::Setting::has_service, crate::specs::Setting::call_of))]
    fn call(&self, request: &Request) -> Call {
        match request.service.module() {
            ModuleName::Mcu => Either::Left(Either::Left(Either::Left(Either::Left(
                self.clock.call(request),
            )))),
            ModuleName::Wdg => {
                Either::Left(Either::Left(Either::Left(Either::Right(self.watchdog.call(request)))))
            }
            ModuleName::Port => Either::Left(Either::Left(Either::Right(Either::Left(
                self.pins.call(request),
            )))),
            ModuleName::Gpt => {
                Either::Left(Either::Left(Either::Right(Either::Right(self.timers.call(request)))))
            }
            ModuleName::Pwm => {
                Either::Left(Either::Right(Either::Left(Either::Left(self.pulses.call(request)))))
            }
            ModuleName::Icu => {
                Either::Left(Either::Right(Either::Left(Either::Right(
                    self.captures.call(request),
                ))))
            }
            ModuleName::Adc => {
                Either::Left(Either::Right(Either::Right(Either::Left(
                    self.converters.call(request),
                ))))
            }
            ModuleName::Dio => Either::Right(module_machines::dio::call_of(request)),
            _ => Either::Left(Either::Right(Either::Right(Either::Right(
                self.serial.call(request),
            )))),
        }
    }

    #[tactic(auto, unfolding(crate::specs::Drivers::as_one))]
    fn call_steps(&self, call: &Call) -> u32 {
        match call {
            Either::Left(Either::Left(Either::Left(Either::Left(call)))) => self
                .clock
                .call_steps(call),
            Either::Left(Either::Left(Either::Left(Either::Right(call)))) => self
                .watchdog
                .call_steps(call),
            Either::Left(Either::Left(Either::Right(Either::Left(call)))) => self
                .pins
                .call_steps(call),
            Either::Left(Either::Left(Either::Right(Either::Right(call)))) => self
                .timers
                .call_steps(call),
            Either::Left(Either::Right(Either::Left(Either::Left(call)))) => self
                .pulses
                .call_steps(call),
            Either::Left(Either::Right(Either::Left(Either::Right(call)))) => self
                .captures
                .call_steps(call),
            Either::Left(Either::Right(Either::Right(Either::Left(call)))) => self
                .converters
                .call_steps(call),
            Either::Left(Either::Right(Either::Right(Either::Right(call)))) => self
                .serial
                .call_steps(call),
            Either::Right(_) => dio_driver::MOST_STEPS,
        }
    }

    #[tactic(auto, unfolding(crate::specs::Drivers::as_one))]
    fn line_steps(&self, line: u32) -> u32 {
        if self.timers.serves(line) {
            self.timers.line_steps(line)
        } else if self.pulses.serves(line) {
            self.pulses.line_steps(line)
        } else if self.captures.serves(line) {
            self.captures.line_steps(line)
        } else if self.converters.serves(line) {
            self.converters.line_steps(line)
        } else {
            self.serial.line_steps(line)
        }
    }

    ghost slow = { slow_system };
}
