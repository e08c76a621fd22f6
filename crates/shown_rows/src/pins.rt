ghost use Rattle.std.specs.Prelude.{◌≡◌, ◌<◌, ◌++◌, ◌∷◌, [], OnOk, string_bytes};
ghost use Rattle.bench_report.specs.Shown.{rows_text};
ghost use Rattle.bench_report.specs.declared.rows.RowName.TheVariants as names;
ghost use Rattle.bench_report.specs.declared.rows.Value.TheVariants as values;
ghost use Rattle.mcal_drivers.specs.Setting.{SystemState};
ghost use Rattle.run_model.specs.World.{World};
ghost use Rattle.shown_rows.specs.Shows as spec;

use crate::shown::ShownBoard;
use bench_report::{RowName, Value, write_row};
use mcal_base::Config;
use std::alloc::AllocError;

/// Whether a pin is configured.
fn has_pin(config: &Config, pin: u32) -> bool
    ensures { result ≡ spec.has_pin config.now pin }
{
    config
        .port
        .pins
        .as_slice()
        .iter()
        .any(|other| other.id == pin)
}

/// A level as it is printed.
fn level_value(high: bool) -> u32
    ensures { result ≡ spec.level_value high }
{
    if high { 1 } else { 0 }
}

/// Writes the row of a pin that has this level.
#[tactic(auto, using(crate::proofs::Rows::row_alone))]
fn write_level(text: &mut String, line: u32, pin: u32, high: bool) -> Result<(), AllocError>
    ensures { OnOk result (string_bytes text.new ≡ string_bytes text.old ++ rows_text line (record { name = names.Pin pin; values = values.One (spec.level_value high) ∷ [] } ∷ [])) }
{
    let level = level_value(high);
    write_row(text, line, RowName::Pin(pin), &[Value::One(level)])
}

/// Writes the row of a pin, where it is configured.
#[tactic(auto, using(crate::proofs::Rows::no_rows))]
pub(crate) fn write_pin<R: ShownBoard>(
    text: &mut String,
    run: &R,
    line: u32,
    pin: u32,
) -> Result<(), AllocError>
    requires there { pin < 64 }
    ensures { (w : World) (s : SystemState) → R.shows run.now w s →
        OnOk result (string_bytes text.new ≡ string_bytes text.old ++ rows_text line (spec.pin_row (R.configured run.now) w s pin)) }
{
    if has_pin(run.config(), pin) {
        write_level(text, line, pin, run.pin(pin))
    } else {
        Ok(())
    }
}
