ghost use Rattle.std.specs.Prelude.{◌≡◌, ◌++◌, [], false, true, IfOk, OnOk, map, option_to_list, string_bytes};
ghost use Rattle.std.specs.List.{filter_map};
ghost use Rattle.run_model.specs.Packing.{item_of};
ghost use Rattle.sweep_top.specs.Reported as spec;

use bench_report::Line;
use irq_control::Held;
use mcal_base::{Move, Notice};
use run_model::{Item, JournalLists, Logged, What};
use std::alloc::{AllocError, Global};
use sweep_trials::StepSeen;

/// The notice that a move gives.
fn notice_of(made: Move) -> Option<Notice>
    ensures { result ≡ spec.notice_of made }
{
    match made {
        Move::Note(notice) => Some(notice),
        _ => None,
    }
}

/// The step that an item is.
fn step_on(item: &Item) -> Option<StepSeen>
    ensures { result ≡ spec.step_on item.now }
{
    match item.what {
        What::Stepped(logged) => Some(StepSeen {
            line: item.line,
            notice: notice_of(logged.made),
        }),
        _ => None,
    }
}

/// Keeps the step that an item is.
fn keep_step(steps: &mut Vec<StepSeen>, item: &Item) -> Result<(), AllocError>
    ensures { OnOk result (steps.new.items ≡ steps.old.items ++ option_to_list (spec.step_on item.now)) }
{
    if let Some(step) = step_on(item) {
        steps.push(step)?;
    }
    Ok(())
}

/// The steps of a journal.
pub(crate) fn steps_among(
    alloc: Global,
    lists: &JournalLists<'_>,
) -> Result<Vec<StepSeen>, AllocError>
    ensures { IfOk result (λ steps. steps.items ≡ filter_map (λ k. spec.step_on (item_of lists.now.rests.now k)) lists.now.items.now) }
{
    let mut steps = Vec::new(alloc);
    for kept in lists.items {
        keep_step(&mut steps, &kept.item(lists.rests))?;
    }
    Ok(steps)
}

/// The move of a step, as a trace prints it.
#[tactic(auto, using(crate::proofs::Watched::move_behind, crate::proofs::Watched::move_there))]
fn move_text(alloc: Global, logged: &Logged) -> Result<String, AllocError>
    ensures { IfOk result (λ text. string_bytes text ≡ spec.made_text logged.now.made logged.now.value logged.now.received logged.now.event) }
{
    let line = Line::Makes(0, logged.made, logged.value, logged.received, logged.event);
    let text = format!(in alloc; "{line}")?;
    match text.as_str().strip_prefix("step 0 ") {
        Some(made) => String::from_str(alloc, made),
        None => Ok(text),
    }
}

/// The moves of the steps of a journal, where they are to be named.
pub(crate) fn moves_named(
    alloc: Global,
    lists: &JournalLists<'_>,
    named: bool,
) -> Result<Vec<String>, AllocError>
    ensures none { named ≡ false → IfOk result (λ moves. moves.items ≡ []) }
    ensures all { named ≡ true → IfOk result (λ moves. map string_bytes moves.items ≡ filter_map (λ k. spec.move_on (item_of lists.now.rests.now k)) lists.now.items.now) }
{
    if named {
        moves_among(alloc, lists)
    } else {
        Ok(Vec::new(alloc))
    }
}

/// Keeps the move of the step that an item is.
fn keep_move(alloc: Global, moves: &mut Vec<String>, item: &Item) -> Result<(), AllocError>
    ensures { OnOk result (map string_bytes moves.new.items ≡ map string_bytes moves.old.items ++ option_to_list (spec.move_on item.now)) }
{
    if let What::Stepped(logged) = &item.what {
        moves.push(move_text(alloc, logged)?)?;
    }
    Ok(())
}

/// The moves of the steps of a journal.
fn moves_among(alloc: Global, lists: &JournalLists<'_>) -> Result<Vec<String>, AllocError>
    ensures { IfOk result (λ moves. map string_bytes moves.items ≡ filter_map (λ k. spec.move_on (item_of lists.now.rests.now k)) lists.now.items.now) }
{
    let mut moves = Vec::new(alloc);
    for kept in lists.items {
        keep_move(alloc, &mut moves, &kept.item(lists.rests))?;
    }
    Ok(moves)
}

/// The line of the directive that is held by an item, and waits: what is masked, of too low a level or must not nest may begin
/// later.
fn wait_on(item: &Item) -> Option<u32>
    ensures { result ≡ spec.wait_on item.now }
{
    match item.what {
        What::Held(Held::Masked | Held::Level | Held::Reentry) => Some(item.line),
        _ => None,
    }
}

/// Keeps the line of the directive that is held by an item, and waits.
fn keep_wait(lines: &mut Vec<u32>, item: &Item) -> Result<(), AllocError>
    ensures { OnOk result (lines.new.items ≡ lines.old.items ++ option_to_list (spec.wait_on item.now)) }
{
    if let Some(line) = wait_on(item) {
        lines.push(line)?;
    }
    Ok(())
}

/// The lines of the directives of a journal that were held, and wait.
pub(crate) fn waiting_among(alloc: Global, lists: &JournalLists<'_>) -> Result<Vec<u32>, AllocError>
    ensures { IfOk result (λ lines. lines.items ≡ filter_map (λ k. spec.wait_on (item_of lists.now.rests.now k)) lists.now.items.now) }
{
    let mut lines = Vec::new(alloc);
    for kept in lists.items {
        keep_wait(&mut lines, &kept.item(lists.rests))?;
    }
    Ok(lines)
}
