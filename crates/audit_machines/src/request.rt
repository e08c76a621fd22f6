ghost use Rattle.std.specs.Prelude.{◌≡◌, true};
ghost use Rattle.module_machines.specs.mcu.Requests as clock_requests;
ghost use Rattle.module_machines.specs.port.Requests as pin_requests;
ghost use Rattle.module_machines.specs.pwm.Requests as pulse_requests;
ghost use Rattle.module_machines.specs.icu.Requests as capture_requests;
ghost use Rattle.adc_machine.specs.Requests as converter_requests;
ghost use Rattle.adc_machine.specs.declared.call.Call.TheVariants as converters;
ghost use Rattle.spi_machine.specs.Requests as serial_requests;
ghost use Rattle.spi_machine.specs.declared.call.Call.TheVariants as serial;
ghost use Rattle.audit_machines.specs.Requests as spec;

use audit_base::Either;
use mcal_base::{ModuleName, Request};

/// A call of one of the modules that have a state, in the order of the parts.
pub type StateCall = Either<
    Either<
        Either<module_machines::mcu::Call, module_machines::wdg::Call>,
        Either<module_machines::port::Call, module_machines::gpt::Call>,
    >,
    Either<
        Either<module_machines::pwm::Call, module_machines::icu::Call>,
        Either<adc_machine::Call, spi_machine::Call>,
    >,
>;

/// A call of any module.
pub type AnyCall = Either<StateCall, module_machines::dio::Call>;

/// The call that a request of clock, RAM and resets asks for.
fn clock_call(request: &Request) -> module_machines::mcu::Call
    requires { clock_requests.has_service request.now.service ≡ true }
    ensures { result ≡ clock_requests.asked_for request.now }
{
    module_machines::mcu::call_of(request)
}

/// The call that a request of pins asks for.
fn pin_call(request: &Request) -> module_machines::port::Call
    requires { pin_requests.has_service request.now.service ≡ true }
    ensures { result ≡ pin_requests.asked_for request.now }
{
    module_machines::port::call_of(request)
}

/// The call that a request of pulse outputs asks for.
fn pulse_call(request: &Request) -> module_machines::pwm::Call
    requires { pulse_requests.has_service request.now.service ≡ true }
    ensures { result ≡ pulse_requests.asked_call request.now }
{
    module_machines::pwm::call_of(request)
}

/// The call that a request of capture channels asks for.
fn capture_call(request: &Request) -> module_machines::icu::Call
    requires { capture_requests.has_service request.now.service ≡ true }
    ensures { result ≡ capture_requests.asked_for request.now }
{
    module_machines::icu::call_of(request)
}

/// The call that a request of converter groups asks for.
fn converter_call(request: &Request) -> adc_machine::Call
    requires { converter_requests.has_service request.now.service ≡ true }
    ensures { result ≡ spec.call_or converters.Init (converter_requests.call_of request.now) }
{
    adc_machine::call_of(request)
}

/// The call that a request of serial units asks for.
fn serial_call(request: &Request) -> spi_machine::Call
    requires { serial_requests.has_service request.now.service ≡ true }
    ensures { result ≡ spec.call_or serial.Init (serial_requests.call_of request.now) }
{
    spi_machine::call_of(request)
}

/// The call that a request asks for.
pub fn call_of(request: &Request) -> AnyCall
    requires { spec.has_service request.now.service ≡ true }
    ensures { result ≡ spec.call_of request.now }
{
    match request.service.module() {
        ModuleName::Mcu => Either::Left(Either::Left(Either::Left(Either::Left(clock_call(
            request,
        ))))),
        ModuleName::Wdg => Either::Left(Either::Left(Either::Left(Either::Right(
            module_machines::wdg::call_of(request),
        )))),
        ModuleName::Port => Either::Left(Either::Left(Either::Right(Either::Left(pin_call(
            request,
        ))))),
        ModuleName::Gpt => Either::Left(Either::Left(Either::Right(Either::Right(
            module_machines::gpt::call_of(request),
        )))),
        ModuleName::Pwm => Either::Left(Either::Right(Either::Left(Either::Left(pulse_call(
            request,
        ))))),
        ModuleName::Icu => Either::Left(Either::Right(Either::Left(Either::Right(capture_call(
            request,
        ))))),
        ModuleName::Adc => Either::Left(Either::Right(Either::Right(Either::Left(converter_call(
            request,
        ))))),
        ModuleName::Dio => Either::Right(module_machines::dio::call_of(request)),
        _ => Either::Left(Either::Right(Either::Right(Either::Right(serial_call(request))))),
    }
}
