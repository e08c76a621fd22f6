ghost use Rattle.std.specs.Prelude.{length, ◌^◌, ◌<◌};

use crate::line::{Line, number};
use bench_script::service_named;
use mcal_base::Service;
use mcal_base::det_errors::{Facts, first_error, text};

/// The spelling of the first error of a service, where the conditions of these bits hold.
fn spelled(service: Service, bits: u32) -> &'static str {
    let mut holds = [false; 6];
    for place in 0..6 {
        holds[place] = (bits >> place) % 2 == 1;
    }
    match first_error(service, &Facts { holds }) {
        Some(error) => text(error),
        None => "none",
    }
}

/// Whether a service has this first error where the conditions of these bits hold.
fn errs(service: &str, behind: &str) -> bool {
    let (Some(service), Some((bits, wanted))) = (
        service_named(service.as_bytes()),
        behind.split_once(' '),
    ) else {
        return false;
    };
    match number(bits) {
        Some(bits) => spelled(service, bits) == wanted,
        None => false,
    }
}

/// The number of the first line that is wrong, from 1, and 0 where none is.
pub fn first_wrong(lines: &[Line<'_>]) -> usize
    requires { length lines.now < 2 ^ 20 }
{
    for (place, line) in lines.iter().enumerate() {
        match line {
            Line::Word(service, behind) if errs(service, behind) => {}
            _ => return place + 1,
        }
    }
    0
}
