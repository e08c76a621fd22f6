use crate::driver::SpiDriver;
use chip_model::Bus;
use mcal_base::{ModuleName, Request, Service};
use run_model::Class;
use script_runner::Caller;
use service_outline::Short;
use spi_machine::{Call, SERIAL_STEPS, call_of};
use spi_sequences::{Asked, FrameRole, ServePlace, SpiBody, UnitBody, UnitPlace, unit_body};
use std::marker::Model;
use step_runner::Module;

/// A call or a handler of the serial driver, under way.
pub type SpiFrame = Short<Asked, SpiBody>;

/// The state of the machine of the serial units, which contracts alone name.
pub struct SpiMachine;

impl Model for SpiMachine {
    ghost use Rattle.spi_machine.specs.State.{SpiState, first_state};

    ghost Value = { SpiState };

    ghost view = { λ _. first_state };
}

impl Module for SpiDriver {
    type Call = Call;

    type Frame = SpiFrame;

    type State = SpiMachine;

    ghost use Rattle.service_outline.specs.Services.{services_driver};
    ghost use Rattle.spi_driver.specs.laws.bookkeeping.Joined.{joined, joined_lawful};

    ghost spec = { λ d. services_driver (joined d.table) };

    fn frame(&self, call: &Call) -> SpiFrame {
        Short::Calling(Asked {
            call: *call,
            table: self.table,
        })
    }

    fn handler(&self, line: u32) -> Option<SpiFrame> {
        if self.table.uses(line) {
            Some(Short::Entering(unit_body(UnitBody {
                table: self.table,
                errand: FrameRole::Handler,
                unit: if line == 26 { 0 } else { 1 },
                place: UnitPlace::Serve(ServePlace::State),
            })))
        } else {
            None
        }
    }

    fn serves(&self, line: u32) -> bool {
        self.table.uses(line)
    }

    fn class(&self, call: &Call) -> Class {
        call.class()
    }

    fn level(&self, line: u32) -> u32 {
        self.table.level(line)
    }

    fn owner(&self, line: u32) -> ModuleName {
        self.table.owner(line)
    }

    fn source_use(&self, bus: &Bus, channel: u32) -> Option<bool> {
        if self.has_channel(channel) {
            Some(self.uses(bus, channel))
        } else {
            None
        }
    }

    ghost laws = { λ d fits. joined_lawful d.table fits };
}

impl Caller for SpiDriver {
    ghost use Rattle.spi_machine.specs.Requests.{has_service};
    ghost use Rattle.spi_driver.specs.Requests.{asked_call};
    ghost use Rattle.spi_driver.specs.laws.bookkeeping.Joined.{joined_slow};

    ghost has_service = { λ _. has_service };

    ghost call_of = { λ _. asked_call };

    fn has(&self, service: Service) -> bool {
        matches!(service.module(), ModuleName::Spi)
    }

    fn call(&self, request: &Request) -> Call {
        call_of(request)
    }

    fn call_steps(&self, call: &Call) -> u32 {
        self.table.most_steps(*call)
    }

    fn line_steps(&self, _line: u32) -> u32 {
        SERIAL_STEPS
    }

    ghost slow = { λ d. joined_slow d.table };
}
