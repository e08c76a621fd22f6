ghost use Rattle.std.specs.Prelude.{◌≡◌, ◌==◌, IfOk, false};
ghost use Rattle.desk_lint.specs.WellFormed.{is_well_formed};

use crate::as_json::findings_json;
use crate::told::{Style, Told};
use desk_findings::places::Lines;
use desk_findings::{Finding, shown};
use desk_lint::lint_file;
use std::alloc::{AllocError, Global};

/// Writes a finding.
fn put(
    alloc: Global,
    text: &mut String,
    name: &str,
    lines: &Lines<'_>,
    finding: &Finding,
) -> Result<(), AllocError> {
    let shown = shown(alloc, name, lines, finding)?;
    text.push_str(shown.as_str())
}

/// Writes what is found in a file: errors and warnings in the order of the file's lines.
fn put_page(
    alloc: Global,
    text: &mut String,
    name: &str,
    lines: &Lines<'_>,
    errors: &[Finding],
    warnings: &[Finding],
) -> Result<(), AllocError> {
    let mut place = 0usize;
    for error in errors {
        for warning in warnings.iter().skip(place) {
            if error.span.start < warning.span.start {
                break;
            }
            put(alloc, text, name, lines, warning)?;
            place = place.saturating_add(1);
        }
        put(alloc, text, name, lines, error)?;
    }
    for warning in warnings.iter().skip(place) {
        put(alloc, text, name, lines, warning)?;
    }
    Ok(())
}

/// What is found in a file, for a person.
fn page(
    alloc: Global,
    name: &str,
    lines: &Lines<'_>,
    errors: &[Finding],
    warnings: &[Finding],
) -> Result<String, AllocError> {
    let mut text = String::new(alloc);
    put_page(alloc, &mut text, name, lines, errors, warnings)?;
    Ok(text)
}

/// The status: 0 where no error was found, and nothing else that counts.
fn status_of(is_clean: bool, is_warned: bool) -> u8
    ensures { is_warned ≡ false → (result == 0) ≡ is_clean }
{
    if is_clean && !is_warned { 0 } else { 1 }
}

/// Looks through a file. The status is 1 where the bench refuses it, or where something else is found and all of that
/// counts.
pub fn lint_told(
    alloc: Global,
    name: &str,
    bytes: &[u8],
    is_strict: bool,
    style: Style,
) -> Result<Told, AllocError>
    ensures { IfOk result (λ t. is_strict ≡ false → (t.status == 0) ≡ is_well_formed bytes.now) }
{
    let found = lint_file(alloc, bytes)?;
    let is_warned = is_strict && !found.warnings.is_empty();
    let status = status_of(found.errors.is_empty(), is_warned);
    let lines = Lines::of(alloc, bytes)?;
    let text = match style {
        Style::Plain | Style::Junit => page(alloc, name, &lines, &found.errors, &found.warnings),
        Style::Json => findings_json(alloc, name, &lines, &found.errors, &found.warnings),
    };
    Ok(Told {
        status,
        text: text?,
    })
}
