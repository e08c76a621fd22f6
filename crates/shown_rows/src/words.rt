ghost use Rattle.std.specs.Prelude.{◌≡◌, ◌+◌, ◌≤◌, ◌++◌, ◌∷◌, [], IfOk, OnOk, string_bytes};
ghost use Rattle.bench_report.specs.Shown.{rows_text};
ghost use Rattle.mcal_drivers.specs.Setting.{SystemState};
ghost use Rattle.run_model.specs.World.{World};
ghost use Rattle.shown_rows.specs.Places.{HasPlaces};
ghost use Rattle.shown_rows.specs.Words as spec;

use crate::shown::{ShownBoard, Words};
use bench_report::{RowName, Value, write_row};
use std::alloc::{AllocError, Global};

/// So many words from a first place on.
pub(crate) fn words_of<R: ShownBoard>(
    alloc: Global,
    run: &R,
    words: Words,
    first: u32,
    size: u32,
) -> Result<Vec<Value>, AllocError>
    requires inside { HasPlaces (R.configured run.now) words (first + size) }
    requires few { first + size ≤ 4294967295 }
    ensures { (w : World) (s : SystemState) → R.shows run.now w s → IfOk result (λ values. values.items ≡ spec.words s words first size) }
{
    let mut values = Vec::new(alloc);
    for number in 0..size {
        values.push(Value::One(run.word(words, first + number)))?;
    }
    Ok(values)
}

/// Writes the row of so many words from the first place on.
#[tactic(auto, using(crate::proofs::Rows::row_alone))]
pub(crate) fn write_words<R: ShownBoard>(
    alloc: Global,
    text: &mut String,
    run: &R,
    line: u32,
    name: RowName,
    words: Words,
    size: u32,
) -> Result<(), AllocError>
    requires inside { HasPlaces (R.configured run.now) words size }
    ensures { (w : World) (s : SystemState) → R.shows run.now w s → OnOk result (string_bytes text.new ≡ string_bytes text.old ++ rows_text line (spec.words_row s name words size ∷ [])) }
{
    let values = words_of(alloc, run, words, 0, size)?;
    write_row(text, line, name, &values)
}
