ghost use Rattle.std.specs.Prelude.{◌≡◌};
ghost use Rattle.port_driver.specs.laws.Look as spec;
ghost use Rattle.module_machines.specs.port.Checks as checks;

use crate::driver::PortDriver;
use crate::service::init::Setup;
use crate::service::pin::PinBody;
use crate::service::refresh::RefreshBody;
use crate::service::{self, PortBody};
use crate::words::STATE;
use mcal_base::det_errors::{Facts, first_error};
use mcal_base::{Answer, ErrorName, PortPinMode};
use module_machines::port::{Call, Pin, PinCall};
use service_outline::{Done, Epilogue, Looked, error, nothing};

/// A call with the driver that it is made of.
#[derive(Clone, Copy)]
pub struct Asked {
    /// The call.
    pub call: Call,
    /// The driver.
    pub driver: PortDriver,
}

impl service_outline::Service for Asked {
    type Body = PortBody;

    ghost use Rattle.port_driver.specs.laws.Look.{port_looked};
    ghost use Rattle.port_driver.specs.declared.words.TheConstants.{STATE};

    ghost WORD = { STATE };

    const WORD: u32 = STATE;

    ghost looked_of = { port_looked };

    fn look(&self, value: u32) -> Looked<PortBody> {
        match first_error(self.call.service(), &self.facts(value)) {
            Some(error) => Looked::Refused(self.refusal(error)),
            None => self.begin(),
        }
    }

    fn finish(_body: &PortBody, _ended: &mut Option<Answer>) {}
}

impl Asked {
    /// Which errors the state word and the arguments show, in the order of the service's errors.
    fn facts(&self, state: u32) -> Facts
        ensures { result.holds ≡ spec.facts_of self.now state }
    {
        let uninit = state == 0;
        let holds = match self.call {
            Call::Init => [false; 6],
            Call::RefreshPortDirection => [uninit, false, false, false, false, false],
            Call::Pin(number, PinCall::SetPinDirection(_)) => {
                let pin = self.driver.pin(number);
                let fixed = !has_changeable_direction(pin);
                [uninit, pin.is_none(), fixed, false, false, false]
            }
            Call::Pin(number, PinCall::SetPinMode(mode)) => {
                let pin = self.driver.pin(number);
                let fixed = !has_changeable_mode(pin);
                [
                    uninit,
                    pin.is_none(),
                    !has_mode(pin, mode),
                    fixed,
                    false,
                    false,
                ]
            }
        };
        Facts { holds }
    }

    /// What a call with this error is done with.
    fn refusal(&self, name: ErrorName) -> Done
        ensures { result ≡ spec.refusal_of self.now name }
    {
        Done {
            answer: nothing(),
            owed: error(self.driver.detect, 1, self.call.service(), name),
        }
    }

    /// What a call without an error goes on with.
    fn begin(&self) -> Looked<PortBody>
        ensures { result ≡ spec.begun_of self.now }
    {
        let driver = self.driver;
        match self.call {
            Call::Init => Looked::Goes(service::init_body(Setup { driver })),
            Call::RefreshPortDirection => {
                Looked::Goes(service::refresh_body(RefreshBody::Write(driver, 0)))
            }
            Call::Pin(number, PinCall::SetPinDirection(direction)) => Looked::Goes(
                service::pin_body(PinBody::Direction(number, direction)),
            ),
            Call::Pin(number, PinCall::SetPinMode(Some(mode))) => {
                Looked::Goes(service::pin_body(PinBody::Mode(number, mode)))
            }
            Call::Pin(_, PinCall::SetPinMode(None)) => let_be(),
        }
    }
}

/// A call that does nothing.
fn let_be() -> Looked<PortBody>
    ensures { result ≡ spec.let_be }
{
    Looked::Refused(Done {
        answer: nothing(),
        owed: Epilogue::Nothing,
    })
}

fn has_changeable_direction(pin: Option<Pin>) -> bool
    ensures { result ≡ checks.has_changeable_direction pin }
{
    match pin {
        None => false,
        Some(found) => found.direction_changeable,
    }
}

fn has_changeable_mode(pin: Option<Pin>) -> bool
    ensures { result ≡ checks.has_changeable_mode pin }
{
    match pin {
        None => false,
        Some(found) => found.mode_changeable,
    }
}

/// Whether the pin may have the mode; what is no mode is none of its modes.
fn has_mode(pin: Option<Pin>, mode: Option<PortPinMode>) -> bool
    ensures { result ≡ checks.has_mode pin mode }
{
    match (pin, mode) {
        (Some(found), Some(wanted)) => found.modes.has(wanted),
        _ => false,
    }
}
