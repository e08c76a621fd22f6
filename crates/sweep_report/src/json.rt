ghost use Rattle.std.specs.Prelude.{◌≡◌, ◌++◌, false, IfOk, OnOk, codes, flat_map, map, string_bytes};
ghost use Rattle.serde_json.specs.Data.{array, string};
ghost use Rattle.serde_json.specs.View.{items_of, view};
ghost use Rattle.serde_json.specs.Written.{compact_text, has_float};
ghost use Rattle.sweep_report.specs.Json as spec;
ghost use Rattle.sweep_report.specs.Table.{asked_on, table_of};

use crate::listed::asked_on;
use crate::page::first_told;
use crate::shown::{SweepShown, is_common, is_listed, longest_wait, outcome_at, waiting};
use bench_sweep::Told;
use mcal_base::Directive;
use serde_json::{Value, json};
use std::alloc::{AllocError, Global};
use sweep_trials::{Group, Reaction, Row};

/// A text as a value.
fn text_value(alloc: Global, text: &str) -> Result<Value, AllocError>
    ensures { IfOk result (λ v. view v ≡ string text.now) }
{
    Ok(Value::String(String::from_str(alloc, text)?))
}

/// What some directives ask for.
fn part_value(alloc: Global, script: &[u8], directives: &[Directive]) -> Result<Value, AllocError>
    ensures { IfOk result (λ v. view v ≡ spec.part_data script.now directives.now) }
{
    let mut all = Vec::new(alloc);
    for directive in directives {
        all.push(text_value(alloc, asked_on(script, directive.line))?)?;
    }
    Ok(Value::Array(all))
}

/// What follows notices.
fn reactions_value(
    alloc: Global,
    script: &[u8],
    reactions: &[Reaction],
) -> Result<Value, AllocError>
    ensures { IfOk result (λ v. view v ≡ spec.reactions_data script.now reactions.now) }
{
    let mut all = Vec::new(alloc);
    for reaction in reactions {
        all.push(text_value(alloc, asked_on(script, reaction.directive.line))?)?;
    }
    Ok(Value::Array(all))
}

/// A row of places.
fn row_value(alloc: Global, row: &Row) -> Result<Value, AllocError>
    ensures { IfOk result (λ v. view v ≡ spec.row_data row.now) }
{
    json!(in alloc; {
        "first": row.first,
        "last": row.last,
        "first_name": row.first_name.as_str(),
        "last_name": row.last_name.as_str(),
        "longest_wait": row.wait,
    })
}

/// The rows of an outcome.
fn rows_value(alloc: Global, rows: &[Row]) -> Result<Value, AllocError>
    ensures { IfOk result (λ v. view v ≡ array (items_of (map spec.row_data rows.now))) }
{
    let mut all = Vec::new(alloc);
    for row in rows {
        all.push(row_value(alloc, row)?)?;
    }
    Ok(Value::Array(all))
}

/// A printed line, beside the number of the line of the file.
fn line_value(alloc: Global, line: u32, text: &str) -> Result<Value, AllocError>
    ensures { IfOk result (λ v. view v ≡ spec.line_data line text.now) }
{
    json!(in alloc; {"line": line, "text": text})
}

/// Puts what a directive printed behind what others did, line by line.
fn put_told(alloc: Global, all: &mut Vec<Value>, told: &Told) -> Result<(), AllocError>
    ensures { OnOk result (map view all.new.items ≡ map view all.old.items ++ spec.told_data told.now) }
{
    for text in told.text.as_str().lines() {
        all.push(line_value(alloc, told.line, text)?)?;
    }
    Ok(())
}

/// Puts what is told, unless all outcomes tell it.
fn put_unshared(
    alloc: Global,
    all: &mut Vec<Value>,
    told: &Told,
    shown: SweepShown<'_>,
) -> Result<(), AllocError>
    ensures { OnOk result (map view all.new.items ≡ map view all.old.items ++ spec.unshared_data shown.entry.swept.now.outcomes.items shown.entry.groups.now told.now) }
{
    if is_common(shown.swept, shown.groups, told) {
        Ok(())
    } else {
        put_told(alloc, all, told)
    }
}

/// The lines of an outcome in which outcomes differ.
fn lines_value(alloc: Global, told: &[Told], shown: SweepShown<'_>) -> Result<Value, AllocError>
    ensures { IfOk result (λ v. view v ≡ array (items_of (flat_map (spec.unshared_data shown.entry.swept.now.outcomes.items shown.entry.groups.now) told.now))) }
{
    let mut all = Vec::new(alloc);
    for told in told {
        put_unshared(alloc, &mut all, told, shown)?;
    }
    Ok(Value::Array(all))
}

/// An outcome.
fn group_value(alloc: Global, group: &Group, shown: SweepShown<'_>) -> Result<Value, AllocError>
    ensures { IfOk result (λ v. view v ≡ spec.group_data (table_of shown.entry) group.now) }
{
    let told = outcome_at(shown.swept, group.outcome);
    json!(in alloc; {
        "standing": group.standing.text(),
        "places": group.places,
        "ranges": rows_value(alloc, &group.rows)?,
        "lines": lines_value(alloc, told, shown)?,
    })
}

/// The outcomes.
fn groups_value(alloc: Global, shown: SweepShown<'_>) -> Result<Value, AllocError>
    ensures { IfOk result (λ v. view v ≡ array (items_of (map (spec.group_data (table_of shown.entry)) shown.entry.groups.now))) }
{
    let mut all = Vec::new(alloc);
    for group in shown.groups {
        all.push(group_value(alloc, group, shown)?)?;
    }
    Ok(Value::Array(all))
}

/// Puts what is told, where all outcomes tell it, and its line is one of which that is told.
fn put_shared(
    alloc: Global,
    all: &mut Vec<Value>,
    told: &Told,
    shown: SweepShown<'_>,
) -> Result<(), AllocError>
    ensures { OnOk result (map view all.new.items ≡ map view all.old.items ++ spec.shared_data (table_of shown.entry) told.now) }
{
    if is_listed(shown, told.line) && is_common(shown.swept, shown.groups, told) {
        put_told(alloc, all, told)
    } else {
        Ok(())
    }
}

/// What is told in all outcomes, of the lines of which that is told.
fn common_value(alloc: Global, told: &[Told], shown: SweepShown<'_>) -> Result<Value, AllocError>
    ensures { IfOk result (λ v. view v ≡ array (items_of (flat_map (spec.shared_data (table_of shown.entry)) told.now))) }
{
    let mut all = Vec::new(alloc);
    for told in told {
        put_shared(alloc, &mut all, told, shown)?;
    }
    Ok(Value::Array(all))
}

/// A sweep as a value.
fn sweep_value(alloc: Global, shown: SweepShown<'_>) -> Result<Value, AllocError>
    ensures { IfOk result (λ v. view v ≡ spec.sweep_data (table_of shown.entry)) }
{
    let swept = shown.swept;
    json!(in alloc; {
        "on": reactions_value(alloc, shown.script, shown.reactions)?,
        "swept": part_value(alloc, shown.script, shown.parts.swept)?,
        "and": part_value(alloc, shown.script, shown.parts.second)?,
        "over": part_value(alloc, shown.script, shown.parts.block)?,
        "places": swept.settled.len(),
        "waiting": waiting(&swept.settled),
        "longest_wait": longest_wait(&swept.settled),
        "skipped": swept.skipped,
        "outcomes": groups_value(alloc, shown)?,
        "common": common_value(alloc, first_told(shown), shown)?,
    })
}

/// A value none of whose numbers has a point, as a line.
fn line_of(alloc: Global, value: &Value) -> Result<String, AllocError>
    ensures { has_float (view value.now) ≡ false → IfOk result (λ text. string_bytes text ≡ compact_text (view value.now) ++ codes "\n") }
{
    let mut text = value.to_string(alloc)?;
    text.push_str("\n")?;
    Ok(text)
}

/// What is printed of a sweep for other tools: one line of JSON.
pub fn sweep_json(alloc: Global, shown: SweepShown<'_>) -> Result<String, AllocError>
    ensures { IfOk result (λ text. string_bytes text ≡ spec.json_line (table_of shown.entry)) }
{
    let value = sweep_value(alloc, shown)?;
    line_of(alloc, &value)
}
