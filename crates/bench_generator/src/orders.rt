ghost use Rattle.std.specs.Prelude.{◌≡◌, ◌<◌, ◌≤◌, ◌+◌, ◌%◌, get_or, length};
ghost use Rattle.mcal_base.specs.declared.directive.Order.TheVariants.{Tick};
ghost use Rattle.bench_generator.specs.Generated as spec;

use mcal_base::{Argument, Order, Request, Service, Short};

/// A call of a service with these numbers, which begins at level 0 and runs to its end.
fn asks(service: Service, numbers: &[u32]) -> Order
    requires { length numbers.now ≤ 4 }
    ensures { result ≡ spec.asks service numbers.now }
{
    let mut arguments = Short::new();
    for number in numbers {
        arguments.push(Argument::Number(*number));
    }
    Order::Do(0, Request { service, arguments })
}

/// One of the eight orders at the start.
fn opening(value: u32, place: u32) -> Order
    requires { place < 8 }
    ensures { result ≡ get_or (spec.opening value) place (Tick 1) }
{
    match place {
        0 => asks(Service::GptInit, &[]),
        1 => asks(Service::GptEnableNotification, &[0]),
        2 => asks(Service::GptStartTimer, &[0, value]),
        3 => asks(Service::AdcInit, &[]),
        4 => asks(Service::AdcSetupResultBuffer, &[0, 0]),
        5 => asks(Service::AdcEnableGroupNotification, &[0]),
        6 => Order::Level(0, false),
        _ => Order::Level(0, true),
    }
}

/// One of the eight orders that repeat.
fn repeated(value: u32, analog: u32, place: u32) -> Order
    requires { place < 8 }
    ensures { result ≡ get_or (spec.repeated value analog) place (Tick 1) }
{
    match place {
        0 => Order::Analog(0, analog),
        1 => asks(Service::AdcStartGroupConversion, &[0]),
        2 => Order::Tick(value),
        3 => Order::Serve(24),
        4 => asks(Service::AdcReadGroup, &[0]),
        5 => Order::Analog(1, 0),
        6 => Order::Serve(0),
        _ => Order::Tick(1),
    }
}

/// The value that the timer is started with.
pub fn value_of(seed: u32) -> u32
    ensures { result ≡ spec.value_of seed }
{
    100 + seed % 900
}

/// What the analog input is set to by the directive with this number.
fn analog_of(seed: u32, number: u32) -> u32
    ensures { result ≡ (seed + number) % 4096 }
{
    ((u64::from(seed) + u64::from(number)) % 4_096) as u32
}

/// The order of the directive with this number.
pub(crate) fn order_of(seed: u32, number: u32) -> Order
    requires { 0 < number }
    ensures { result ≡ spec.order_of seed number }
{
    let value = value_of(seed);
    let place = (number - 1) % 8;
    if number > 8 {
        repeated(value, analog_of(seed, number), place)
    } else {
        opening(value, place)
    }
}
