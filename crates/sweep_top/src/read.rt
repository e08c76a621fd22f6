ghost use Rattle.std.specs.Prelude.{◌≡◌, ◌≤◌, [], Ok, length, map};
ghost use Rattle.std.specs.List.{All};
ghost use Rattle.bench_script.specs.Script.{script};
ghost use Rattle.bench_sweep.specs.Reactions.{IsWithin, found_on};
ghost use Rattle.bench_top.specs.Judged.{configuration_of};
ghost use Rattle.sweep_trials.specs.Follows.{reaction_to};
ghost use Rattle.sweep_top.specs.Reads as spec;
ghost use Rattle.sweep_top.specs.Sweeps.{GivesSo, KeepsSo};

use crate::ends::SweepEnd;
use crate::words::number_between;
use bench_script::{ScriptFault, read_script};
use bench_sweep::{ReactionLine, SweepFault, reaction_lines, without_marks};
use bench_top::Refusal;
use mcal_base::{Config, Directive, Notice, NoticeKind, Order};
use mcal_config::{ConfigFault, read_config};
use std::alloc::Global;
use sweep_report::text_of;
use sweep_trials::{Reaction, reaction_to};

/// The greatest number of an object.
const MOST_OBJECT: usize = 4_294_967_295;

/// The callbacks.
const KINDS: [NoticeKind; 9] = [
    NoticeKind::GptNotification,
    NoticeKind::EcuMCheckWakeup,
    NoticeKind::EcuMSetWakeupEvent,
    NoticeKind::PwmNotification,
    NoticeKind::IcuSignalNotification,
    NoticeKind::IcuTimestampNotification,
    NoticeKind::AdcNotification,
    NoticeKind::SpiJobEndNotification,
    NoticeKind::SpiSeqEndNotification,
];

/// The callback that a word names.
fn kind_named(word: &[u8]) -> Option<NoticeKind>
    ensures { result ≡ spec.kind_named word.now }
{
    KINDS
        .iter()
        .copied()
        .find(|kind| kind.text().as_bytes() == word)
}

/// The number that a word writes in decimal digits.
fn object_number(word: &[u8]) -> Option<u32>
    ensures { result ≡ spec.object_number word.now }
{
    match number_between(0, MOST_OBJECT, text_of(word)) {
        Some(number) => Some(number as u32),
        None => None,
    }
}

/// The notice that a line names.
fn notice_on(found: ReactionLine<'_>) -> Option<Notice>
    ensures { result ≡ spec.notice_on (found_on found.entry) }
{
    let kind = kind_named(found.callback)?;
    let id = object_number(found.object)?;
    Some(Notice { kind, id })
}

/// The fault of a text of one line, on the line of the file.
fn on_line(fault: ScriptFault, line: u32) -> ScriptFault
    ensures { result ≡ spec.on_line fault line }
{
    match fault {
        ScriptFault::NotText(_) => ScriptFault::NotText(line),
        ScriptFault::Word(_) => ScriptFault::Word(line),
        ScriptFault::Count(_) => ScriptFault::Count(line),
        ScriptFault::Number(_) => ScriptFault::Number(line),
        ScriptFault::Long(_) => ScriptFault::Long(line),
        ScriptFault::NoMemory => ScriptFault::NoMemory,
    }
}

/// The end at a script that is refused.
fn end_of(fault: ScriptFault) -> SweepEnd
    ensures { result ≡ spec.script_end fault }
{
    match fault {
        ScriptFault::NoMemory => SweepEnd::NoMemory,
        fault => SweepEnd::Refused(Refusal::Script(fault)),
    }
}

/// A call to its end, on the line of the file.
fn call_by(line: u32, order: Order) -> Result<Directive, SweepEnd>
    ensures { result ≡ spec.call_by line order }
{
    if matches!(order, Order::Do(..)) {
        Ok(Directive { line, order })
    } else {
        Err(SweepEnd::Fault(SweepFault::Reaction(line)))
    }
}

/// The one call of a text's directives, on the line of the file.
#[tactic(auto, using(crate::proofs::Reading::call_alone, crate::proofs::Reading::call_crowded))]
fn only_call(directives: Vec<Directive>, line: u32) -> Result<Directive, SweepEnd>
    ensures { result ≡ spec.call_from line (Ok directives.items) }
{
    let mut directives = directives;
    match directives.pop() {
        Some(directive) if directives.is_empty() => call_by(line, directive.order),
        _ => Err(SweepEnd::Fault(SweepFault::Reaction(line))),
    }
}

/// The call that a text of one line asks for, on the line of the file.
fn call_of(alloc: Global, text: &[u8], line: u32) -> Result<Directive, SweepEnd>
    requires { length text.now ≤ 1048576 }
    ensures { GivesSo (λ d. d) result (spec.call_from line (script text.now)) }
{
    match read_script(alloc, text) {
        Ok(directives) => only_call(directives, line),
        Err(fault) => Err(end_of(on_line(fault, line))),
    }
}

/// What a line says that follows a notice.
fn reaction_of(alloc: Global, found: ReactionLine<'_>) -> Result<Reaction, SweepEnd>
    requires { length found.order.now ≤ 1048576 }
    ensures { GivesSo (λ r. r) result (spec.reaction_of (found_on found.entry)) }
{
    let line = found.line;
    let Some(notice) = notice_on(found) else {
        return Err(SweepEnd::Fault(SweepFault::Notice(line)));
    };
    if found.lacks_level() {
        return Err(SweepEnd::Fault(SweepFault::Level(line)));
    }
    match call_of(alloc, found.order, line) {
        Ok(directive) => Ok(Reaction { notice, directive }),
        Err(end) => Err(end),
    }
}

/// Keeps what follows a notice, unless another line names that already.
#[tactic(auto, using(crate::proofs::Reading::doubled_at))]
fn keep_reaction(reactions: &mut Vec<Reaction>, reaction: Reaction) -> Result<(), SweepEnd>
    ensures { KeepsSo result reactions.new.items (spec.undoubled reactions.old.items reaction (reaction_to reactions.old.items reaction.notice)) }
{
    if let Some(first) = reaction_to(reactions, reaction.notice) {
        return Err(SweepEnd::Fault(SweepFault::Doubled(
            reaction.directive.line,
            reactions[first].directive.line,
        )));
    }
    reactions.push(reaction)?;
    Ok(())
}

/// All that follows notices, by what lines say: one call at most behind each.
#[tactic(auto, using(crate::proofs::Reading::one_refused, crate::proofs::Reading::one_doubled, crate::proofs::Reading::one_kept))]
fn reactions_by(alloc: Global, lines: &[ReactionLine<'_>]) -> Result<Vec<Reaction>, SweepEnd>
    requires { All (IsWithin 1048576) lines.now }
    ensures { GivesSo (λ v. v.items) result (spec.reactions_behind [] (map (λ r. found_on r) lines.now)) }
{
    let mut reactions = Vec::new(alloc);
    for found in lines {
        let reaction = match reaction_of(alloc, *found) {
            Ok(reaction) => reaction,
            Err(end) => return Err(end),
        };
        if let Err(end) = keep_reaction(&mut reactions, reaction) {
            return Err(end);
        }
    }
    Ok(reactions)
}

/// All that follows notices, by a script.
#[tactic(auto, using(crate::proofs::Reading::all_within))]
pub(crate) fn reactions_of(alloc: Global, script: &[u8]) -> Result<Vec<Reaction>, SweepEnd>
    requires { length script.now ≤ 1048576 }
    ensures { GivesSo (λ v. v.items) result (spec.reactions_of script.now) }
{
    match reaction_lines(alloc, script) {
        Ok(lines) => reactions_by(alloc, &lines),
        Err(_) => Err(SweepEnd::NoMemory),
    }
}

/// The directives of a sweep's script.
pub(crate) fn directives_of(alloc: Global, script: &[u8]) -> Result<Vec<Directive>, SweepEnd>
    requires { length script.now ≤ 1048576 }
    ensures { GivesSo (λ v. v.items) result (spec.directives_of script.now) }
{
    let Ok(text) = without_marks(alloc, script) else {
        return Err(SweepEnd::NoMemory);
    };
    match read_script(alloc, &text) {
        Ok(directives) => Ok(directives),
        Err(fault) => Err(end_of(fault)),
    }
}

/// The configuration of a text.
#[tactic(auto, using(bench_top::proofs::Configurations::record_is, bench_top::proofs::Configurations::fault_is))]
pub(crate) fn configuration_of(alloc: Global, text: &[u8]) -> Result<Config, SweepEnd>
    ensures { GivesSo (λ config. config) result (spec.configured (configuration_of text.now)) }
{
    match read_config(alloc, text) {
        Ok(config) => Ok(config),
        Err(ConfigFault::NoMemory) => Err(SweepEnd::NoMemory),
        Err(fault) => Err(SweepEnd::Refused(Refusal::Configuration(fault))),
    }
}
