use crate::driver::AdcDriver;
use adc_groups::{AdcBody, AnyBody, Asked, Place};
use adc_machine::{Call, call_of, has_service};
use chip_model::Bus;
use mcal_base::{ModuleName, Request, Service};
use run_model::Class;
use script_runner::Caller;
use service_outline::{Or, Short};
use std::marker::Model;
use step_runner::Module;

/// A call or a handler of the converter driver, under way.
pub type AdcFrame = Short<Asked, AnyBody>;

/// The state of the machine of the converter groups, which contracts alone name.
pub struct AdcMachine;

impl Model for AdcMachine {
    ghost use Rattle.adc_machine.specs.Turns.{AdcState, first_state};

    ghost Value = { AdcState };

    ghost view = { λ _. first_state };
}

impl Module for AdcDriver {
    type Call = Call;

    type Frame = AdcFrame;

    type State = AdcMachine;

    ghost use Rattle.service_outline.specs.Services.{services_driver};
    ghost use Rattle.adc_driver.specs.laws.bookkeeping.Joined.{joined, joined_lawful};

    ghost spec = { λ d. services_driver (joined d.table) };

    fn frame(&self, call: &Call) -> AdcFrame {
        Short::Calling(Asked {
            call: *call,
            table: self.table.copied(),
        })
    }

    fn handler(&self, line: u32) -> Option<AdcFrame> {
        if self.table.uses(line) {
            Some(Short::Entering(Or::Second(AdcBody {
                table: self.table.copied(),
                place: Place::Flag(self.window(line)),
            })))
        } else {
            None
        }
    }

    fn serves(&self, line: u32) -> bool {
        self.table.uses(line)
    }

    fn class(&self, call: &Call) -> Class {
        call.class()
    }

    fn level(&self, line: u32) -> u32 {
        self.table.level(line)
    }

    fn owner(&self, line: u32) -> ModuleName {
        self.table.owner(line)
    }

    fn source_use(&self, _bus: &Bus, _channel: u32) -> Option<bool> {
        None
    }

    ghost laws = { λ d fits. joined_lawful d.table fits };
}

impl Caller for AdcDriver {
    ghost use Rattle.adc_machine.specs.Requests.{has_service};
    ghost use Rattle.adc_driver.specs.Requests.{asked_call};
    ghost use Rattle.adc_driver.specs.laws.bookkeeping.Joined.{joined_slow};

    ghost has_service = { λ _. has_service };

    ghost call_of = { λ _. asked_call };

    fn has(&self, service: Service) -> bool {
        has_service(service)
    }

    fn call(&self, request: &Request) -> Call {
        call_of(request)
    }

    fn call_steps(&self, call: &Call) -> u32 {
        self.most_steps(*call)
    }

    fn line_steps(&self, line: u32) -> u32 {
        self.handler_steps(line)
    }

    ghost slow = { λ d. joined_slow d.table };
}
