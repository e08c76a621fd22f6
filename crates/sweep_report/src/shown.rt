ghost use Rattle.std.specs.Prelude.{◌≡◌, ◌==◌, ◌++◌, IfOk, OnOk, string_bytes};
ghost use Rattle.std.specs.List.{list_any};
ghost use Rattle.sweep_report.specs.Place.{directive_text, directives_text};
ghost use Rattle.sweep_report.specs.Place as spec_place;
ghost use Rattle.sweep_report.specs.Table as spec;

use crate::listed::{order_text, text_of};
use bench_sweep::{Flat, Outcome, Parts, Settled, Told, directive_text};
use mcal_base::Directive;
use std::alloc::{AllocError, Global};
use sweep_trials::{Group, Reaction, Swept};

/// What is to be printed of a sweep.
#[derive(Clone, Copy)]
pub struct SweepShown<'a> {
    /// The text of the script.
    pub script: &'a [u8],
    /// Its parts.
    pub parts: Parts<'a>,
    /// What follows notices.
    pub reactions: &'a [Reaction],
    /// What came of the sweep.
    pub swept: &'a Swept,
    /// Its outcomes.
    pub groups: &'a [Group],
}

/// The outcome of a number.
pub(crate) fn outcome_at(swept: &Swept, number: usize) -> &[Told]
    ensures { result.now ≡ spec.told_at swept.now.outcomes.items number }
{
    match swept.outcomes.get(number) {
        Some(outcome) => outcome.told.as_slice(),
        None => &[],
    }
}

/// Whether an outcome of a number tells this.
fn tells(outcomes: &[Outcome], number: usize, told: &Told) -> bool
    ensures { result ≡ spec.tells outcomes.now number told.now }
{
    match outcomes.get(number) {
        Some(outcome) => outcome.tells(told),
        None => false,
    }
}

/// Whether all outcomes tell this.
pub(crate) fn is_common(swept: &Swept, groups: &[Group], told: &Told) -> bool
    ensures { result ≡ spec.is_common swept.now.outcomes.items groups.now told.now }
{
    groups
        .iter()
        .all(|group| tells(&swept.outcomes, group.outcome, told))
}

/// How many places there are where what is placed waits.
pub(crate) fn waiting(settled: &[Settled]) -> usize
    ensures { result ≡ spec.waiting settled.now }
{
    settled.iter().filter(|found| 0 < found.wait).count()
}

/// The longest wait.
pub(crate) fn longest_wait(settled: &[Settled]) -> usize
    ensures { result ≡ spec.longest_wait settled.now }
{
    let mut longest = 0;
    for found in settled {
        longest = longest.max(found.wait);
    }
    longest
}

/// The line of the first of some directives.
fn first_line(directives: &[Directive]) -> u32
    ensures { result ≡ spec.first_line directives.now }
{
    match directives {
        [first, ..] => first.line,
        [] => 0,
    }
}

/// Whether one of some calls stands on a line.
fn is_call_line(reactions: &[Reaction], line: u32) -> bool
    ensures { result ≡ list_any (λ r. r.directive.line == line) reactions.now }
{
    reactions
        .iter()
        .any(|reaction| reaction.directive.line == line)
}

/// Whether what a line of the file printed is told also where it is the same in all outcomes: from the first line on that is
/// placed, and of each line `on`.
pub(crate) fn is_listed(shown: SweepShown<'_>, line: u32) -> bool
    ensures { result ≡ spec.is_listed shown.entry.parts.swept.now shown.entry.reactions.now line }
{
    first_line(shown.parts.swept) <= line || is_call_line(shown.reactions, line)
}

/// Puts the line of a directive of a flat script: its order, and from which line of the file it came.
fn put_directive(
    alloc: Global,
    text: &mut String,
    script: &[u8],
    directive: &Directive,
    line: u32,
) -> Result<(), AllocError>
    ensures { OnOk result (string_bytes text.new ≡ string_bytes text.old ++ directive_text script.now directive.now.order line) }
{
    let order = directive_text(alloc, &directive.order, order_text(script, line))?;
    write!(text, "{order} # line {line}\n")
}

/// Puts the lines of directives of a flat script, which came from these lines of the file.
fn put_directives(
    alloc: Global,
    text: &mut String,
    script: &[u8],
    directives: &[Directive],
    lines: &[u32],
) -> Result<(), AllocError>
    ensures { OnOk result (string_bytes text.new ≡ string_bytes text.old ++ directives_text script.now directives.now lines.now) }
{
    let mut directives = directives;
    let mut lines = lines;
    while let [directive, others @ ..] = directives {
        let [line, more @ ..] = lines else {
            return Ok(());
        };
        put_directive(alloc, text, script, directive, *line)?;
        directives = others;
        lines = more;
    }
    Ok(())
}

/// A bench file for a flat script: each line tells from which line of the file it came.
pub fn flat_text(
    alloc: Global,
    configuration: &[u8],
    script: &[u8],
    flat: &Flat,
) -> Result<String, AllocError>
    ensures { IfOk result (λ text. string_bytes text ≡ spec_place.flat_text configuration.now script.now flat.now.script.items flat.now.lines.items) }
{
    let mut text = String::from_str(alloc, text_of(configuration))?;
    text.push_str("---\n")?;
    put_directives(alloc, &mut text, script, &flat.script, &flat.lines)?;
    Ok(text)
}
