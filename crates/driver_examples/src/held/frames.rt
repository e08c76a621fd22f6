ghost use Rattle.std.specs.Prelude.{◌≡◌};
ghost use Rattle.driver_examples.specs.held.Toy as spec;

use crate::held::asking::Asking;
use crate::held::call::Call;
use crate::held::filling::{Filled, Job};
use crate::held::keeping::{Putting, Taking};
use crate::held::polling::Polling;
use crate::held::rebooting::Rebooting;
use chip_model::Bus;
use mcal_base::{Answer, ErrorName, ModuleName, Service as ServiceName};
use run_model::{Class, Key, KeyKind, Kind};
use service_outline::{Done, Looked, Or, Service, Short, Sweep, SweepStage, error, nothing};
use std::marker::Model;
use step_runner::Module;

/// A place in any body of the module.
pub type ToyBody = Or<
    Or<Sweep<Job, Filled>, Asking>,
    Or<Or<Putting, Taking>, Or<Polling, Rebooting>>,
>;

/// A call, under way.
pub type ToyFrame = Short<Call, ToyBody>;

impl Service for Call {
    type Body = ToyBody;

    ghost use Rattle.driver_examples.specs.held.Toy.{STATE, looked, ends_with};

    ghost WORD = { STATE };

    const WORD: u32 = 32_809;

    ghost looked_of = { looked };

    ghost ends_with = { ends_with };

    fn look(&self, _value: u32) -> Looked<ToyBody> {
        match *self {
            Call::Fill(section, value) => {
                if section < 4 {
                    let objects = Job { section, value };
                    let place = SweepStage::Opens;
                    Looked::Goes(Or::First(Or::First(Sweep { objects, place })))
                } else {
                    Looked::Refused(Done {
                        answer: nothing(),
                        owed: error(
                            true,
                            2,
                            ServiceName::McuInitRamSection,
                            ErrorName::McuParamRamsection,
                        ),
                    })
                }
            }
            Call::Ask => Looked::Goes(Or::First(Or::Second(Asking::Want))),
            Call::Put(value) => {
                let body = Or::First(Putting::Look(value));
                Looked::Goes(Or::Second(Or::First(body)))
            }
            Call::Take => {
                let body = Or::Second(Taking::Newest);
                Looked::Goes(Or::Second(Or::First(body)))
            }
            Call::Poll => {
                let body = Or::First(Polling::Act);
                Looked::Goes(Or::Second(Or::Second(body)))
            }
            Call::Reboot => {
                let body = Or::Second(Rebooting::Reset);
                Looked::Goes(Or::Second(Or::Second(body)))
            }
        }
    }

    fn finish(body: &ToyBody, ended: &mut Option<Answer>) {
        if let Or::Second(Or::First(Or::Second(taking))) = body {
            taking.finish(ended);
        }
    }
}

/// The state of the module's machine, which contracts alone name.
pub struct ToyState;

impl Model for ToyState {
    ghost use Rattle.driver_examples.specs.held.Toy.{State, first_state};

    ghost Value = { State };

    ghost view = { λ _. first_state };
}

/// The module.
#[derive(Clone, Copy)]
pub struct ToyModule;

impl Module for ToyModule {
    type Call = Call;

    type Frame = ToyFrame;

    type State = ToyState;

    ghost use Rattle.service_outline.specs.Services.{services_driver};
    ghost use Rattle.driver_examples.specs.held.Toy.{toy};
    ghost use Rattle.driver_examples.specs.held.ToyLaws.{toy_lawful};

    ghost spec = { λ d. services_driver toy };

    fn frame(&self, call: &Call) -> ToyFrame {
        Short::Calling(*call)
    }

    fn handler(&self, _line: u32) -> Option<ToyFrame> {
        None
    }

    fn class(&self, call: &Call) -> Class {
        match *call {
            Call::Fill(section, _) => keyed(KeyKind::Section, u32::from(section)),
            Call::Take => keyed(KeyKind::Group, 0),
            Call::Ask | Call::Put(_) | Call::Poll => whole(Kind::Guarded),
            Call::Reboot => whole(Kind::Exclusive),
        }
    }

    fn level(&self, _line: u32) -> u32 {
        1
    }

    fn owner(&self, _line: u32) -> ModuleName {
        ModuleName::Mcu
    }

    fn source_use(&self, _bus: &Bus, _channel: u32) -> Option<bool> {
        None
    }

    ghost laws = { λ d fits. toy_lawful };
}

/// The class of a call with this key.
fn keyed(kind: KeyKind, number: u32) -> Class
    ensures { result ≡ spec.keyed kind number }
{
    Class {
        kind: Kind::Keyed,
        module: ModuleName::Mcu,
        key: Some(Key { kind, number }),
    }
}

/// A class without a key.
fn whole(kind: Kind) -> Class
    ensures { result ≡ spec.whole kind }
{
    Class {
        kind,
        module: ModuleName::Mcu,
        key: None,
    }
}
