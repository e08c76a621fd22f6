ghost use Rattle.std.specs.Prelude.{◌≡◌, ◌<◌, ◌++◌, ◌∷◌, [], IfOk, OnOk, string_bytes};
ghost use Rattle.bench_report.specs.Shown.{rows_text};
ghost use Rattle.mcal_drivers.specs.Setting.{SystemState};
ghost use Rattle.run_model.specs.World.{World};
ghost use Rattle.shown_rows.specs.Shows as spec;

use crate::shown::ShownBoard;
use bench_report::{RowName, Value, write_row};
use std::alloc::{AllocError, Global};

/// The words on the wire of a serial unit.
fn wire_words<R: ShownBoard>(alloc: Global, run: &R, unit: u32) -> Result<Vec<Value>, AllocError>
    requires there { unit < 2 }
    ensures { (w : World) (s : SystemState) → R.shows run.now w s → IfOk result (λ values. values.items ≡ spec.wire_words s unit) }
{
    let words = run.wire(alloc, unit)?;
    let mut values = Vec::new(alloc);
    for place in 0..words.len() {
        let word = words[place];
        values.push(Value::Pair(word.sent, word.received))?;
    }
    Ok(values)
}

/// Writes the row of the wire of a serial unit.
#[tactic(auto, using(crate::proofs::Rows::row_alone))]
fn write_wire<R: ShownBoard>(
    alloc: Global,
    text: &mut String,
    run: &R,
    line: u32,
    unit: u32,
) -> Result<(), AllocError>
    requires there { unit < 2 }
    ensures { (w : World) (s : SystemState) → R.shows run.now w s → OnOk result (string_bytes text.new ≡ string_bytes text.old ++ rows_text line (spec.wire_row s unit ∷ [])) }
{
    let values = wire_words(alloc, run, unit)?;
    write_row(text, line, RowName::Wire(unit), &values)
}

/// Writes the rows of the wires of both serial units.
#[tactic(auto, using(crate::proofs::Rows::rows_joined))]
pub(crate) fn write_wires<R: ShownBoard>(
    alloc: Global,
    text: &mut String,
    run: &R,
    line: u32,
) -> Result<(), AllocError>
    ensures { (w : World) (s : SystemState) → R.shows run.now w s → OnOk result (string_bytes text.new ≡ string_bytes text.old ++ rows_text line (spec.wire_rows s)) }
{
    write_wire(alloc, text, run, line, 0)?;
    write_wire(alloc, text, run, line, 1)
}
