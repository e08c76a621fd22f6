ghost use Rattle.std.specs.Prelude.{◌≡◌, true, length, ◌^◌, ◌<◌};
ghost use Rattle.module_machines.specs.gpt.Requests.{has_service};
ghost use Rattle.script_runner.specs.Scripts.{is_offered};
ghost use Rattle.script_runner.specs.Standing.{is_built};

use crate::line::{Line, numbers};
use gpt_driver::GptDriver;
use mcal_base::{Directive, Order, Request, Service, Short};
use mcal_config::default_board;
use script_runner::run_within;
use std::alloc::{AllocError, Global};

/// The line that runs `Gpt_Init`.
fn init(line: u32) -> Directive
    ensures line { result.line ≡ line }
    ensures order { is_built result.order ≡ true }
    ensures offered { is_offered has_service result.order ≡ true }
{
    Directive {
        line,
        order: Order::Do(
            0,
            Request {
                service: Service::GptInit,
                arguments: Short::new(),
            },
        ),
    }
}

/// Whether a run of two calls of `Gpt_Init` within a limit of steps has so many items, and was too long or wasn't.
fn ends(alloc: Global, numbers: [u32; 4]) -> Result<bool, AllocError> {
    let [limit, items, too_long, _] = numbers;
    if limit > 1000 {
        return Ok(false);
    }
    let first = init(1);
    let second = init(2);
    let script = [first, second];
    let config = default_board();
    let driver = GptDriver::new(&config);
    let Ok(ran) = run_within(alloc, driver, config, &script, limit) else {
        return Err(AllocError);
    };
    let count = ran.journal.lists().items.len();
    Ok(count == items as usize && ran.too_long == (too_long == 1))
}

/// The number of the first line after whose limit a run doesn't end as it says, from 1, and 0 where all do.
pub fn first_wrong(alloc: Global, lines: &[Line<'_>]) -> Result<usize, AllocError>
    requires { length lines.now < 2 ^ 20 }
{
    for (place, line) in lines.iter().enumerate() {
        let holds = match line {
            Line::Word("limit", behind) => ends(alloc, numbers(behind))?,
            _ => false,
        };
        if !holds {
            return Ok(place + 1);
        }
    }
    Ok(0)
}
