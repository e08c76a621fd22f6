ghost use Rattle.std.specs.Prelude.{◌≡◌};
ghost use Rattle.std.specs.List.{list_any};
ghost use Rattle.run_model.specs.Frame.{Called};
ghost use Rattle.audit_subject.specs.Origins.{origin_of};
ghost use Rattle.audit_whole.specs.Whole as spec;

use audit_base::Either;
use audit_machines::AnyCall;
use audit_subject::Origin;
use mcal_base::ModuleName;
use run_model::Kind;

/// Whether a call is one about all pins.
fn is_about_pins(call: &AnyCall) -> bool
    ensures { result ≡ spec.keeps_pins_busy (Called call.now) }
{
    match call {
        Either::Left(Either::Left(Either::Right(Either::Left(call)))) => {
            matches!(call.class().kind, Kind::Exclusive)
        }
        _ => false,
    }
}

/// Whether a frame that was begun for this keeps the pins busy.
fn keeps_pins_busy(origin: &Origin<AnyCall>) -> bool
    ensures { result ≡ spec.keeps_pins_busy (origin_of origin.now) }
{
    match origin {
        Origin::Call(call) => is_about_pins(call),
        Origin::Line(_) => false,
    }
}

/// Whether one of the frames that were begun for these keeps the pins busy.
pub(crate) fn pins_are_busy(origins: &[Origin<AnyCall>]) -> bool
    ensures { result ≡ list_any (λ o. spec.keeps_pins_busy (origin_of o)) origins.now }
{
    origins.iter().any(|origin| keeps_pins_busy(origin))
}

/// The module of a call's frame.
pub(crate) fn module_of(call: &AnyCall) -> ModuleName
    ensures { result ≡ spec.module_of call.now }
{
    match call {
        Either::Left(Either::Left(Either::Left(Either::Left(_)))) => ModuleName::Mcu,
        Either::Left(Either::Left(Either::Left(Either::Right(_)))) => ModuleName::Wdg,
        Either::Left(Either::Left(Either::Right(Either::Left(_)))) => ModuleName::Port,
        Either::Left(Either::Left(Either::Right(Either::Right(_)))) => ModuleName::Gpt,
        Either::Left(Either::Right(Either::Left(Either::Left(_)))) => ModuleName::Pwm,
        Either::Left(Either::Right(Either::Left(Either::Right(_)))) => ModuleName::Icu,
        Either::Left(Either::Right(Either::Right(Either::Left(_)))) => ModuleName::Adc,
        Either::Left(Either::Right(Either::Right(Either::Right(_)))) => ModuleName::Spi,
        Either::Right(_) => ModuleName::Port,
    }
}
