ghost use Rattle.std.specs.Prelude.{◌≡◌, ◌++◌, OnOk, IfOk, Some, string_bytes};
ghost use Rattle.trace_waves.specs.File as spec;

use crate::board::{Board, Change};
use crate::settings::{Clock, put_signs};
use crate::signal::Signal;
use crate::value::first_at;
use std::alloc::{AllocError, Global};
use std::fmt;
use trace_forms::kinds::Sign;

/// What a file begins with.
const HEAD: &str = "$version trace_view $end\n$timescale 1 ns $end\n";

/// What time is, for a reader of the file.
fn clock_text(clock: Clock) -> &'static str
    ensures { result.now ≡ spec.clock_text clock }
{
    match clock {
        Clock::Steps => "$comment Time is the number of the step. $end\n",
        Clock::Ticks => "$comment A tick takes 1 us, a step 1 ns more. $end\n",
    }
}

/// The group of a signal.
#[derive(Clone, Copy)]
pub enum Scope {
    /// The run as a whole.
    Run,
    /// The levels and lines where frames run.
    Frames,
    /// Pins, analog inputs and pulse outputs.
    Pins,
    /// What is told in words.
    Words,
}

/// The name of a group.
fn scope_name(scope: Scope) -> &'static str
    ensures { result.now ≡ spec.scope_name scope }
{
    match scope {
        Scope::Run => "run",
        Scope::Frames => "frames",
        Scope::Pins => "pins",
        Scope::Words => "words",
    }
}

/// Whether a signal is of a group.
fn is_in(scope: Scope, signal: Signal) -> bool
    ensures { result ≡ spec.is_in scope signal }
{
    let slot = signal.slot();
    match scope {
        Scope::Run => slot < 5,
        Scope::Words => slot >= 5 && slot < 10,
        Scope::Frames => slot >= 10 && slot < 120,
        Scope::Pins => slot >= 120,
    }
}

/// The type of a signal, and how wide it is.
fn type_text(signal: Signal) -> &'static str
    ensures { result.now ≡ spec.type_text signal }
{
    let slot = signal.slot();
    if slot < 2 {
        "real 64"
    } else if slot < 5 {
        "wire 1"
    } else if slot < 20 {
        "string 1"
    } else if slot < 210 {
        "wire 1"
    } else {
        "real 64"
    }
}

/// The declaration of a signal.
#[derive(Clone, Copy)]
struct Declared(Signal);

impl fmt::Display for Declared {
    ghost output = { λ d. Some (spec.declared d.0) };

    fn fmt<W: fmt::Write>(&self, f: &mut fmt::Formatter<W>) -> fmt::Result {
        let signal = self.0;
        let kind = type_text(signal);
        write!(f, "$var {kind} {signal} {signal} $end\n")
    }
}

/// The declarations of the signals of a group.
fn declarations(alloc: Global, scope: Scope, signals: &[Signal]) -> Result<String, AllocError>
    ensures { IfOk result (λ text. string_bytes text ≡ spec.declarations scope signals.now) }
{
    let mut text = String::new(alloc);
    let mut rest = signals;
    while let [signal, later @ ..] = rest {
        if is_in(scope, *signal) {
            let declared = Declared(*signal);
            write!(text, "{declared}")?;
        }
        rest = later;
    }
    Ok(text)
}

/// A group with its declarations.
#[tactic(auto, unfolding(crate::specs::File::group))]
fn group(alloc: Global, scope: Scope, declarations: &str) -> Result<String, AllocError>
    ensures { IfOk result (λ text. string_bytes text ≡ spec.group scope declarations.now) }
{
    let name = scope_name(scope);
    format!(in alloc; "$scope module {name} $end\n{declarations}$upscope $end\n")
}

/// The declarations of a group, if it has any.
#[tactic(auto, using(crate::proofs::Groups::full_group, crate::proofs::Groups::no_group))]
fn scope_text(alloc: Global, scope: Scope, signals: &[Signal]) -> Result<String, AllocError>
    ensures { IfOk result (λ text. string_bytes text ≡ spec.scope_text scope signals.now) }
{
    let declarations = declarations(alloc, scope, signals)?;
    if declarations.is_empty() {
        return Ok(declarations);
    }
    let text = group(alloc, scope, declarations.as_str())?;
    Ok(text)
}

/// The declarations of all groups.
#[tactic(auto, unfolding(crate::specs::File::scopes))]
fn scopes(alloc: Global, signals: &[Signal]) -> Result<String, AllocError>
    ensures { IfOk result (λ text. string_bytes text ≡ spec.scopes signals.now) }
{
    let run = scope_text(alloc, Scope::Run, signals)?;
    let run = run.as_str();
    let frames = scope_text(alloc, Scope::Frames, signals)?;
    let frames = frames.as_str();
    let pins = scope_text(alloc, Scope::Pins, signals)?;
    let pins = pins.as_str();
    let words = scope_text(alloc, Scope::Words, signals)?;
    let words = words.as_str();
    format!(in alloc; "{run}{frames}{pins}{words}")
}

/// Puts what a signal is before it changes; nothing of a number that nothing has told yet.
fn put_first(text: &mut String, signal: Signal) -> Result<(), AllocError>
    ensures { OnOk result (string_bytes text.new ≡ string_bytes text.old ++ spec.first_text signal) }
{
    let slot = signal.slot();
    if slot >= 210 {
        return Ok(());
    }
    let value = first_at(slot);
    write!(text, "{value}{signal}\n")
}

/// What the signals are before they change.
fn firsts(alloc: Global, signals: &[Signal]) -> Result<String, AllocError>
    ensures { IfOk result (λ text. string_bytes text ≡ spec.firsts signals.now) }
{
    let mut text = String::new(alloc);
    let mut rest = signals;
    while let [signal, later @ ..] = rest {
        put_first(&mut text, *signal)?;
        rest = later;
    }
    Ok(text)
}

/// Puts a time, where it is another than the last.
fn put_time(text: &mut String, last: u64, at: u64) -> Result<(), AllocError>
    ensures { OnOk result (string_bytes text.new ≡ string_bytes text.old ++ spec.time_text last at) }
{
    if at == last {
        Ok(())
    } else {
        write!(text, "#{at}\n")
    }
}

/// Puts a change.
fn put_change(text: &mut String, last: u64, change: Change) -> Result<(), AllocError>
    ensures { OnOk result (string_bytes text.new ≡ string_bytes text.old ++ spec.change_text last change) }
{
    put_time(text, last, change.at)?;
    let value = change.value;
    let signal = change.signal;
    write!(text, "{value}{signal}\n")
}

/// Puts changes from time 0 on, and the time of the end.
fn put_changes(text: &mut String, changes: &[Change], end: u64) -> Result<(), AllocError>
    ensures { OnOk result (string_bytes text.new ≡ string_bytes text.old ++ spec.changes 0 changes.now end) }
{
    let mut last: u64 = 0;
    let mut rest = changes;
    while let [change, later @ ..] = rest {
        put_change(text, last, *change)?;
        last = change.at;
        rest = later;
    }
    put_time(text, last, end)
}

/// What a file begins with, and what its time is.
#[tactic(auto, unfolding(crate::specs::File::intro))]
fn intro(alloc: Global, clock: Clock) -> Result<String, AllocError>
    ensures { IfOk result (λ text. string_bytes text ≡ spec.intro clock) }
{
    let clock = clock_text(clock);
    format!(in alloc; "{HEAD}{clock}")
}

/// The end of the declarations, and what the signals are at first.
#[tactic(auto, unfolding(crate::specs::File::dump))]
fn dump(alloc: Global, signals: &[Signal]) -> Result<String, AllocError>
    ensures { IfOk result (λ text. string_bytes text ≡ spec.dump signals.now) }
{
    let firsts = firsts(alloc, signals)?;
    let firsts = firsts.as_str();
    format!(in alloc; "$enddefinitions $end\n#0\n$dumpvars\n{firsts}$end\n")
}

/// What stands ahead of the changes.
#[tactic(auto, unfolding(crate::specs::File::head))]
fn head(alloc: Global, clock: Clock, signals: &[Signal]) -> Result<String, AllocError>
    ensures { IfOk result (λ text. string_bytes text ≡ spec.head clock signals.now) }
{
    let intro = intro(alloc, clock)?;
    let intro = intro.as_str();
    let scopes = scopes(alloc, signals)?;
    let scopes = scopes.as_str();
    let dump = dump(alloc, signals)?;
    let dump = dump.as_str();
    format!(in alloc; "{intro}{scopes}{dump}")
}

/// The text of the signals and the changes of a board, up to a time.
fn text_of(alloc: Global, clock: Clock, end: u64, board: &Board) -> Result<String, AllocError>
    ensures { IfOk result (λ text. string_bytes text ≡ spec.file clock end board.now) }
{
    let mut text = head(alloc, clock, board.signals())?;
    put_changes(&mut text, board.changes(), end)?;
    Ok(text)
}

/// The signs of a trace of so many steps as value changes: the signals that change, and each change of them. What a step
/// changes stands at its time, and what happens between two steps at that of the later one.
pub fn waves_of(
    alloc: Global,
    clock: Clock,
    steps: usize,
    signs: &[Sign],
) -> Result<String, AllocError>
    ensures { IfOk result (λ text. string_bytes text ≡ spec.waves clock steps signs.now) }
{
    let mut board = Board::empty(alloc);
    let before = put_signs(&mut board, alloc, clock, signs)?;
    let end = clock.time(before.ticks, steps.saturating_add(1));
    text_of(alloc, clock, end, &board)
}
