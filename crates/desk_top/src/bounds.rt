ghost use Rattle.config_facts.specs.Valid.{IsValid};

use mcal_base::{Config, Directive, Order, Request};
use mcal_drivers::Drivers;
use script_runner::Caller;
use std::alloc::{AllocError, Global};

/// The most steps of a call, 0 where no driver has the service.
fn call_bound<M: Caller>(driver: &M, request: &Request) -> u32
    requires { (M.spec driver.now).fits }
{
    if driver.has(request.service) {
        driver.call_steps(&driver.call(request))
    } else {
        0
    }
}

/// The most steps of the frame that each directive begins, 0 where it begins none.
pub(crate) fn bounds(
    alloc: Global,
    config: &Config,
    script: &[Directive],
) -> Result<Vec<u32>, AllocError>
    requires { IsValid config.now }
{
    let drivers = Drivers::new(config);
    let mut bounds = Vec::new(alloc);
    for directive in script {
        bounds.push(match &directive.order {
            Order::Call(_, request) | Order::Do(_, request) => call_bound(&drivers, request),
            Order::Enter(line) | Order::Serve(line) => drivers.line_steps(*line),
            _ => 0,
        })?;
    }
    Ok(bounds)
}
