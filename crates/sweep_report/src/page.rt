ghost use Rattle.std.specs.Prelude.{◌≡◌, ◌++◌, IfOk, OnOk, codes, flat_map, string_bytes};
ghost use Rattle.sweep_report.specs.Page as spec;
ghost use Rattle.sweep_report.specs.Table.{table_of};

use crate::listed::{asked_on, counted, listed};
use crate::shown::{SweepShown, is_common, is_listed, longest_wait, outcome_at, waiting};
use bench_sweep::{Settled, Told};
use mcal_base::Directive;
use std::alloc::{AllocError, Global};
use sweep_trials::{Group, Reaction, Row, Swept};

/// The lines that say what follows a notice.
fn put_reactions(text: &mut String, script: &[u8], reactions: &[Reaction]) -> Result<(), AllocError>
    ensures { OnOk result (string_bytes text.new ≡ string_bytes text.old ++ spec.reactions_text script.now reactions.now) }
{
    for reaction in reactions {
        let line = asked_on(script, reaction.directive.line);
        write!(text, "{line}\n")?;
    }
    Ok(())
}

/// A part of the script, behind a word.
fn put_part(
    alloc: Global,
    text: &mut String,
    word: &str,
    script: &[u8],
    directives: &[Directive],
) -> Result<(), AllocError>
    ensures { OnOk result (string_bytes text.new ≡ string_bytes text.old ++ spec.part_text word.now script.now directives.now) }
{
    let part = listed(alloc, script, directives)?;
    write!(text, "{word}: {part}\n")
}

/// What is placed a second time, where something is.
fn put_second(
    alloc: Global,
    text: &mut String,
    script: &[u8],
    directives: &[Directive],
) -> Result<(), AllocError>
    ensures { OnOk result (string_bytes text.new ≡ string_bytes text.old ++ spec.second_text script.now directives.now) }
{
    match directives {
        [] => Ok(()),
        [_, ..] => put_part(alloc, text, "and", script, directives),
    }
}

/// How many pairs are left out.
fn put_skipped(text: &mut String, more: usize) -> Result<(), AllocError>
    ensures { OnOk result (string_bytes text.new ≡ string_bytes text.old ++ spec.skipped_text more) }
{
    if 0 < more {
        write!(text, ", {more} more where one of them waits")
    } else {
        Ok(())
    }
}

/// A number of steps.
fn put_steps(alloc: Global, text: &mut String, steps: usize) -> Result<(), AllocError>
    ensures { OnOk result (string_bytes text.new ≡ string_bytes text.old ++ spec.counted steps (codes "step")) }
{
    let steps = counted(alloc, steps, "step")?;
    write!(text, "{steps}")
}

/// At how many places what is placed waits, and for how many steps at most.
fn put_waiting(
    alloc: Global,
    text: &mut String,
    places: usize,
    steps: usize,
) -> Result<(), AllocError>
    ensures { OnOk result (string_bytes text.new ≡ string_bytes text.old ++ spec.waiting_text places steps) }
{
    let places = counted(alloc, places, "place")?;
    write!(text, ", {places} where it waits, at most ")?;
    put_steps(alloc, text, steps)
}

/// At how many places what is placed waits, and how long, where it does.
fn put_waits(alloc: Global, text: &mut String, settled: &[Settled]) -> Result<(), AllocError>
    ensures { OnOk result (string_bytes text.new ≡ string_bytes text.old ++ spec.waits_text settled.now) }
{
    let places = waiting(settled);
    if places == 0 {
        Ok(())
    } else {
        put_waiting(alloc, text, places, longest_wait(settled))
    }
}

/// How many pairs are left out, and where what is placed waits: the end of the line.
fn put_skips_and_waits(alloc: Global, text: &mut String, swept: &Swept) -> Result<(), AllocError>
    ensures { OnOk result (string_bytes text.new ≡ string_bytes text.old ++ (spec.skipped_text swept.now.skipped ++ (spec.waits_text swept.now.settled.items ++ codes "\n"))) }
{
    put_skipped(text, swept.skipped)?;
    put_waits(alloc, text, &swept.settled)?;
    text.push_str("\n")
}

/// How many places and outcomes there are.
fn put_counts(
    alloc: Global,
    text: &mut String,
    swept: &Swept,
    outcomes: usize,
) -> Result<(), AllocError>
    ensures { OnOk result (string_bytes text.new ≡ string_bytes text.old ++ spec.counts_text swept.now outcomes) }
{
    let places = counted(alloc, swept.settled.len(), "place")?;
    let outcomes = counted(alloc, outcomes, "outcome")?;
    write!(text, "{places}, {outcomes}")?;
    put_skips_and_waits(alloc, text, swept)
}

/// A printed line, behind the number of the line of the file.
fn put_line(text: &mut String, number: u32, line: &str) -> Result<(), AllocError>
    ensures { OnOk result (string_bytes text.new ≡ string_bytes text.old ++ spec.told_line number line.now) }
{
    write!(text, "  {number} {line}\n")
}

/// What is told, line by line, each behind the number of its line.
fn put_told(text: &mut String, told: &Told) -> Result<(), AllocError>
    ensures { OnOk result (string_bytes text.new ≡ string_bytes text.old ++ spec.told_text told.now) }
{
    for line in told.text.as_str().lines() {
        put_line(text, told.line, line)?;
    }
    Ok(())
}

/// Places next to one another.
fn put_places(text: &mut String, row: &Row) -> Result<(), AllocError>
    ensures { OnOk result (string_bytes text.new ≡ string_bytes text.old ++ spec.places_text row.now) }
{
    let first = row.first;
    let last = row.last;
    let first_name = row.first_name.as_str();
    let last_name = row.last_name.as_str();
    if first < last {
        write!(text, "  at {first} to {last}: {first_name} .. {last_name}")
    } else {
        write!(text, "  at {first}: {first_name}")
    }
}

/// How long what is placed waits at most.
fn put_wait(alloc: Global, text: &mut String, wait: usize) -> Result<(), AllocError>
    ensures { OnOk result (string_bytes text.new ≡ string_bytes text.old ++ spec.wait_text wait) }
{
    if 0 < wait {
        let steps = counted(alloc, wait, "step")?;
        write!(text, ", waits at most {steps}")
    } else {
        Ok(())
    }
}

/// A row of places.
fn put_row(alloc: Global, text: &mut String, row: &Row) -> Result<(), AllocError>
    ensures { OnOk result (string_bytes text.new ≡ string_bytes text.old ++ spec.row_text row.now) }
{
    put_places(text, row)?;
    put_wait(alloc, text, row.wait)?;
    text.push_str("\n")
}

/// Rows of places.
fn put_rows(alloc: Global, text: &mut String, rows: &[Row]) -> Result<(), AllocError>
    ensures { OnOk result (string_bytes text.new ≡ string_bytes text.old ++ flat_map spec.row_text rows.now) }
{
    for row in rows {
        put_row(alloc, text, row)?;
    }
    Ok(())
}

/// How many rows there are more.
fn put_more(alloc: Global, text: &mut String, more: usize) -> Result<(), AllocError>
    ensures { OnOk result (string_bytes text.new ≡ string_bytes text.old ++ spec.more_text more) }
{
    if 0 < more {
        let more = counted(alloc, more, "more range")?;
        write!(text, "  {more}\n")
    } else {
        Ok(())
    }
}

/// What is told, unless all outcomes tell it.
fn put_unshared(
    text: &mut String,
    told: &Told,
    groups: &[Group],
    swept: &Swept,
) -> Result<(), AllocError>
    ensures { OnOk result (string_bytes text.new ≡ string_bytes text.old ++ spec.unshared_text swept.now.outcomes.items groups.now told.now) }
{
    if is_common(swept, groups, told) {
        Ok(())
    } else {
        put_told(text, told)
    }
}

/// What is told where outcomes differ.
fn put_differing(
    text: &mut String,
    told: &[Told],
    groups: &[Group],
    swept: &Swept,
) -> Result<(), AllocError>
    ensures { OnOk result (string_bytes text.new ≡ string_bytes text.old ++ spec.differing_text swept.now.outcomes.items groups.now told.now) }
{
    for told in told {
        put_unshared(text, told, groups, swept)?;
    }
    Ok(())
}

/// The head of an outcome.
fn put_head(
    alloc: Global,
    text: &mut String,
    number: usize,
    group: &Group,
) -> Result<(), AllocError>
    ensures { OnOk result (string_bytes text.new ≡ string_bytes text.old ++ spec.head_text number group.now) }
{
    let count = counted(alloc, group.places, "place")?;
    let standing = group.standing.text();
    write!(text, "\noutcome {number}: {count}, {standing}\n")
}

/// An outcome: its places, and the lines in which outcomes differ.
fn put_group(
    alloc: Global,
    text: &mut String,
    number: usize,
    group: &Group,
    shown: SweepShown<'_>,
) -> Result<(), AllocError>
    ensures { OnOk result (string_bytes text.new ≡ string_bytes text.old ++ spec.group_text (table_of shown.entry) number group.now) }
{
    put_head(alloc, text, number, group)?;
    put_rows(alloc, text, &group.rows)?;
    put_more(alloc, text, group.more)?;
    let told = outcome_at(shown.swept, group.outcome);
    put_differing(text, told, shown.groups, shown.swept)
}

/// The outcomes.
fn put_groups(alloc: Global, text: &mut String, shown: SweepShown<'_>) -> Result<(), AllocError>
    ensures { OnOk result (string_bytes text.new ≡ string_bytes text.old ++ spec.groups_text (table_of shown.entry) 1 shown.entry.groups.now) }
{
    let groups = shown.groups;
    for number in 0..groups.len() {
        put_group(alloc, text, number + 1, &groups[number], shown)?;
    }
    Ok(())
}

/// What is told, where all outcomes tell it, and its line is one of which that is told.
fn put_shared(text: &mut String, told: &Told, shown: SweepShown<'_>) -> Result<(), AllocError>
    ensures { OnOk result (string_bytes text.new ≡ string_bytes text.old ++ spec.shared_text (table_of shown.entry) told.now) }
{
    if is_listed(shown, told.line) && is_common(shown.swept, shown.groups, told) {
        put_told(text, told)
    } else {
        Ok(())
    }
}

/// What is told in all outcomes, of the lines of which that is told.
fn common(alloc: Global, told: &[Told], shown: SweepShown<'_>) -> Result<String, AllocError>
    ensures { IfOk result (λ text. string_bytes text ≡ flat_map (spec.shared_text (table_of shown.entry)) told.now) }
{
    let mut text = String::new(alloc);
    for told in told {
        put_shared(&mut text, told, shown)?;
    }
    Ok(text)
}

/// What the first outcome tells.
pub(crate) fn first_told(shown: SweepShown<'_>) -> &[Told]
    ensures { result.now ≡ spec.first_told (table_of shown.entry) }
{
    match shown.groups {
        [first, ..] => outcome_at(shown.swept, first.outcome),
        [] => &[],
    }
}

/// What is told in all outcomes, of the lines of which that is told.
#[tactic(auto, using(crate::proofs::Texts::headed_none, crate::proofs::Texts::headed_some))]
fn put_common(alloc: Global, text: &mut String, shown: SweepShown<'_>) -> Result<(), AllocError>
    ensures { OnOk result (string_bytes text.new ≡ string_bytes text.old ++ spec.common_text (table_of shown.entry)) }
{
    let common = common(alloc, first_told(shown), shown)?;
    let common = common.as_str();
    if common.is_empty() {
        Ok(())
    } else {
        write!(text, "\nin all of them:\n{common}")
    }
}

/// What is asked for: what follows notices, and the parts of the script.
fn put_asked(alloc: Global, text: &mut String, shown: SweepShown<'_>) -> Result<(), AllocError>
    ensures { OnOk result (string_bytes text.new ≡ string_bytes text.old ++ spec.asked_text (table_of shown.entry)) }
{
    let SweepShown {
        script,
        parts,
        reactions,
        ..
    } = shown;
    put_reactions(text, script, reactions)?;
    put_part(alloc, text, "swept", script, parts.swept)?;
    put_second(alloc, text, script, parts.second)?;
    put_part(alloc, text, "over", script, parts.block)
}

/// What is printed of a sweep.
pub fn sweep_text(alloc: Global, shown: SweepShown<'_>) -> Result<String, AllocError>
    ensures { IfOk result (λ text. string_bytes text ≡ spec.page (table_of shown.entry)) }
{
    let mut text = String::new(alloc);
    put_asked(alloc, &mut text, shown)?;
    put_counts(alloc, &mut text, shown.swept, shown.groups.len())?;
    put_groups(alloc, &mut text, shown)?;
    put_common(alloc, &mut text, shown)?;
    Ok(text)
}
