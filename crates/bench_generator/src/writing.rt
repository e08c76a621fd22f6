ghost use Rattle.std.specs.Prelude.{◌≡◌, IfOk, string_bytes};
ghost use Rattle.bench_generator.specs.Generated as spec;

use crate::orders::{order_of, value_of};
use mcal_base::{Directive, NoMemory};
use std::alloc::{AllocError, Global};

/// So many directives of a seed.
fn directives(alloc: Global, seed: u32, count: u32) -> Result<Vec<Directive>, AllocError>
    ensures { IfOk result (λ script. script.items ≡ spec.generated seed count) }
{
    let mut script = Vec::new(alloc);
    for before in 0..count {
        let line = before + 1;
        script.push(Directive {
            line,
            order: order_of(seed, line),
        })?;
    }
    Ok(script)
}

/// The script of a seed, with so many directives.
pub fn script(alloc: Global, seed: u32, count: u32) -> Result<Vec<Directive>, NoMemory>
    ensures { IfOk result (λ script. script.items ≡ spec.generated seed count) }
{
    directives(alloc, seed, count).map_err(|_| NoMemory)
}

/// The line that tells which script was generated.
pub fn first_line(alloc: Global, seed: u32, count: u32) -> Result<String, AllocError>
    ensures { IfOk result (λ text. string_bytes text ≡ spec.first_line seed count) }
{
    let value = value_of(seed);
    format!(in alloc; "generated {count} directives with value {value}\n")
}
