ghost use Rattle.std.specs.Prelude.{◌≡◌, ◌++◌, IfOk, OnOk, string_bytes};
ghost use Rattle.config_facts.specs.Valid.{IsValid};
ghost use Rattle.bench_report.specs.Shown.{rows_text};
ghost use Rattle.mcal_drivers.specs.Setting.{SystemState};
ghost use Rattle.run_model.specs.World.{World};
ghost use Rattle.shown_rows.specs.Shows as spec;

use crate::objects::{Objects, write_objects};
use crate::sections::write_sections;
use crate::shown::ShownBoard;
use crate::wires::write_wires;
use mcal_base::Shown;
use std::alloc::{AllocError, Global};

/// Writes the rows of the buffers: the capture channels' stamps, the converter groups, and the serial channels.
#[tactic(auto, using(crate::proofs::Rows::rows_joined))]
fn write_buffers<R: ShownBoard>(
    alloc: Global,
    text: &mut String,
    run: &R,
    line: u32,
) -> Result<(), AllocError>
    ensures { (w : World) (s : SystemState) → R.shows run.now w s → OnOk result (string_bytes text.new ≡ string_bytes text.old ++ rows_text line (spec.buffer_rows (R.configured run.now) s)) }
{
    write_objects(alloc, text, run, line, Objects::Captures)?;
    write_objects(alloc, text, run, line, Objects::Groups)?;
    write_objects(alloc, text, run, line, Objects::Serials)
}

/// Writes the rows of a show.
fn write_shown<R: ShownBoard>(
    alloc: Global,
    text: &mut String,
    run: &R,
    line: u32,
    shown: Shown,
) -> Result<(), AllocError>
    requires valid { IsValid (R.configured run.now) }
    ensures { (w : World) (s : SystemState) → R.shows run.now w s →
        OnOk result (string_bytes text.new ≡ string_bytes text.old ++ rows_text line (spec.show_rows (R.configured run.now) w s shown)) }
{
    match shown {
        Shown::Pins => write_objects(alloc, text, run, line, Objects::Pins),
        Shown::Ram => {
            let sections = run.config().mcu.ram_sections.as_slice();
            write_sections(alloc, text, run, line, sections)
        }
        Shown::Buffers => write_buffers(alloc, text, run, line),
        Shown::Wire => write_wires(alloc, text, run, line),
    }
}

/// The lines that a show prints at a script line.
pub fn shown_text<R: ShownBoard>(
    alloc: Global,
    run: &R,
    line: u32,
    shown: Shown,
) -> Result<String, AllocError>
    requires valid { IsValid (R.configured run.now) }
    ensures { (w : World) (s : SystemState) → R.shows run.now w s →
        IfOk result (λ text. string_bytes text ≡ rows_text line (spec.show_rows (R.configured run.now) w s shown)) }
{
    let mut text = String::new(alloc);
    write_shown(alloc, &mut text, run, line, shown)?;
    Ok(text)
}
