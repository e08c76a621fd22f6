ghost use Rattle.std.specs.Prelude.{◌≡◌, ◌+◌, ◌<◌, ◌≤◌, ◌++◌, ◌∷◌, [], OnOk, Some, length, slice_get, string_bytes};
ghost use Rattle.bench_report.specs.Shown.{rows_text};
ghost use Rattle.mcal_drivers.specs.Setting.{SystemState};
ghost use Rattle.run_model.specs.World.{World};
ghost use Rattle.shown_rows.specs.Shows as spec;

use crate::shown::{ShownBoard, Words};
use crate::words::words_of;
use bench_report::{RowName, write_row};
use mcal_base::McuRamSection;
use std::alloc::{AllocError, Global};

/// Writes the row of a RAM section.
#[tactic(auto, using(crate::proofs::Rows::row_alone))]
fn write_section<R: ShownBoard>(
    alloc: Global,
    text: &mut String,
    run: &R,
    line: u32,
    number: u32,
    section: &McuRamSection,
) -> Result<(), AllocError>
    requires inside { section.now.base_address + section.now.size ≤ 512 }
    ensures { (w : World) (s : SystemState) → R.shows run.now w s → OnOk result (string_bytes text.new ≡ string_bytes text.old ++ rows_text line (spec.section_row s number section.now ∷ [])) }
{
    let values = words_of(alloc, run, Words::Ram, section.base_address, section.size)?;
    write_row(text, line, RowName::Ram(number), &values)
}

/// The RAM section of a number.
fn section_at(sections: &[McuRamSection], number: u32) -> &McuRamSection
    requires there { number < length sections.now }
    requires inside { spec.AreInside sections.now }
    ensures section { slice_get sections.now number ≡ Some result.now }
    ensures inside { result.now.base_address + result.now.size ≤ 512 }
{
    &sections[number as usize]
}

/// Writes the rows of the RAM sections.
pub(crate) fn write_sections<R: ShownBoard>(
    alloc: Global,
    text: &mut String,
    run: &R,
    line: u32,
    sections: &[McuRamSection],
) -> Result<(), AllocError>
    requires inside { spec.AreInside sections.now }
    requires few { length sections.now ≤ 8 }
    ensures { (w : World) (s : SystemState) → R.shows run.now w s → OnOk result (string_bytes text.new ≡ string_bytes text.old ++ rows_text line (spec.section_rows s 0 sections.now)) }
{
    for number in 0..sections.len() as u32 {
        let section = section_at(sections, number);
        write_section(alloc, text, run, line, number, section)?;
    }
    Ok(())
}
