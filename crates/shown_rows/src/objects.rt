ghost use Rattle.std.specs.Prelude.{◌≡◌, ◌<◌, ◌++◌, OnOk, string_bytes};
ghost use Rattle.bench_report.specs.Shown.{rows_text};
ghost use Rattle.mcal_drivers.specs.Setting.{SystemState};
ghost use Rattle.run_model.specs.World.{World};
ghost use Rattle.shown_rows.specs.Objects as spec;

use crate::buffers::{write_capture, write_group, write_serial};
use crate::pins::write_pin;
use crate::shown::ShownBoard;
use std::alloc::{AllocError, Global};

/// Objects that are shown in the order of their numbers.
#[derive(Clone, Copy)]
pub(crate) enum Objects {
    /// The pins.
    Pins,
    /// The capture channels.
    Captures,
    /// The converter groups.
    Groups,
    /// The serial channels.
    Serials,
}

/// How many numbers there are.
fn count(objects: Objects) -> u32
    ensures { result ≡ spec.count objects }
{
    match objects {
        Objects::Pins => 64,
        Objects::Captures => 8,
        Objects::Groups => 16,
        Objects::Serials => 16,
    }
}

/// Writes the rows of the object of a number.
fn write_object<R: ShownBoard>(
    alloc: Global,
    text: &mut String,
    run: &R,
    line: u32,
    objects: Objects,
    number: u32,
) -> Result<(), AllocError>
    requires there { number < spec.count objects }
    ensures { (w : World) (s : SystemState) → R.shows run.now w s →
        OnOk result (string_bytes text.new ≡ string_bytes text.old ++ rows_text line (spec.object_rows (R.configured run.now) w s objects number)) }
{
    match objects {
        Objects::Pins => write_pin(text, run, line, number),
        Objects::Captures => write_capture(alloc, text, run, line, number),
        Objects::Groups => write_group(alloc, text, run, line, number),
        Objects::Serials => write_serial(alloc, text, run, line, number),
    }
}

/// Writes the rows of all objects.
pub(crate) fn write_objects<R: ShownBoard>(
    alloc: Global,
    text: &mut String,
    run: &R,
    line: u32,
    objects: Objects,
) -> Result<(), AllocError>
    ensures { (w : World) (s : SystemState) → R.shows run.now w s →
        OnOk result (string_bytes text.new ≡ string_bytes text.old ++ rows_text line (spec.all_rows (R.configured run.now) w s objects)) }
{
    for number in 0..count(objects) {
        write_object(alloc, text, run, line, objects, number)?;
    }
    Ok(())
}
