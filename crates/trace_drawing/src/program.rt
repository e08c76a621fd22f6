ghost use Rattle.std.specs.Prelude.{◌≡◌, ◌≢◌, ◌≤◌, [], None, IfOk, codes, map, string_bytes};
ghost use Rattle.std.specs.Option.{IfSome};
ghost use Rattle.std.specs.Io.KnownBytes.{Appends, IsAtEnd};
ghost use Rattle.mcal_base.specs.Causes.{Rose};
ghost use Rattle.bench_script.specs.Lines.{file};
ghost use Rattle.trace_reader.specs.Reading.{Ends};
ghost use Rattle.trace_drawing.specs.Judged as judged;
ghost use Rattle.trace_drawing.specs.Outcomes.{Concludes, EndsOnSome, FrontOf, IsEnded};
ghost use Rattle.trace_drawing.specs.Program as spec;

use crate::input::{Given, InputEnd, parts_of};
use crate::signs::{Drawing, drawing_of, moments_of};
use crate::transfer::{ReadEnd, read_all, write_all};
use mcal_base::{Directive, Sink, Source};
use std::alloc::{AllocError, Global};
use trace_forms::rows_of;
use trace_lanes::{InputName, page_of};
use trace_reader::{TraceFault, read_trace};
use trace_waves::{Clock, waves_of};

/// What is printed where the words are of no form.
const USAGE: &str = "usage: trace_view vcd [--time] | svg [--title NAME] | text\n";

/// What is drawn.
#[derive(Clone, Copy)]
pub enum Form {
    /// Value changes, whose time is the number of the step.
    Changes,
    /// Value changes, whose time is in ticks.
    Times,
    /// A page, with the name of its input in its title, if it has one.
    Page(Option<InputName>),
    /// Rows of characters.
    Rows,
}

/// The form that a word asks for.
fn one_word(word: &str) -> Option<Form>
    ensures { result ≡ judged.one_word word.now }
{
    match word {
        "vcd" => Some(Form::Changes),
        "svg" => Some(Form::Page(None)),
        "text" => Some(Form::Rows),
        _ => None,
    }
}

/// The form that a word with an option asks for.
fn with_option(word: &str, option: &str) -> Option<Form>
    ensures { result ≡ judged.with_option word.now option.now }
{
    if word == "vcd" && option == "--time" {
        Some(Form::Times)
    } else {
        None
    }
}

/// A name; an empty one is none.
fn named(text: &str) -> Option<InputName>
    ensures { result ≡ judged.named text.now }
{
    if text.is_empty() {
        None
    } else {
        Some(InputName::of(text))
    }
}

/// The form that a word with an option and a title asks for.
fn with_title(word: &str, option: &str, title: &str) -> Option<Form>
    ensures { result ≡ judged.with_title word.now option.now title.now }
{
    if word == "svg" && option == "--title" {
        Some(Form::Page(named(title)))
    } else {
        None
    }
}

/// The form that the words of a command line ask for.
fn form_of(words: &[String]) -> Option<Form>
    ensures { result ≡ judged.form_of (map string_bytes words.now) }
{
    match words {
        [word] => one_word(word.as_str()),
        [word, option] => with_option(word.as_str(), option.as_str()),
        [word, option, title] => with_title(word.as_str(), option.as_str(), title.as_str()),
        _ => None,
    }
}

/// The signs in a form.
fn printed(alloc: Global, form: Form, drawing: &Drawing) -> Result<String, AllocError>
    ensures { IfOk result (λ text. string_bytes text ≡ spec.printed form drawing.now) }
{
    match form {
        Form::Changes => waves_of(alloc, Clock::Steps, drawing.steps(), drawing.signs()),
        Form::Times => waves_of(alloc, Clock::Ticks, drawing.steps(), drawing.signs()),
        Form::Page(name) => page_of(alloc, name, drawing.steps(), drawing.signs()),
        Form::Rows => rows_of(alloc, drawing.signs()),
    }
}

/// Draws a report under its script.
fn drawn(
    alloc: Global,
    form: Form,
    script: &[Directive],
    report: &[u8],
) -> Result<String, TraceFault>
    ensures { Ends (λ text. string_bytes text) result (spec.text_under form script.now report.now) }
{
    let lines = read_trace(alloc, report)?;
    let moments = moments_of(alloc, script, lines.as_slice())?;
    let drawing = drawing_of(alloc, moments.as_slice())?;
    Ok(printed(alloc, form, &drawing)?)
}

/// Writes all of a text. Where the sink meets a fault the status is 3.
#[tactic(auto, using(crate::proofs::Judging::concludes_of))]
fn finish<K: Sink>(out: &mut K, status: u8, text: &[u8]) -> u8
    requires fault { status ≢ 3 }
    requires memory { status ≢ 4 }
    requires known { status ≤ 9 }
    ensures remembers { result ≢ 4 }
    ensures concludes { Concludes (record { status = status; text = text.now }) result (K.taken out.old) (K.taken out.new) (K.faults out.old) (K.faults out.new) }
{
    match write_all(out, text) {
        Ok(()) => status,
        Err(_) => 3,
    }
}

/// Writes the line of an input of which nothing is drawn.
#[tactic(auto, using(crate::proofs::Judging::nothing_written))]
fn refuse<K: Sink>(alloc: Global, out: &mut K, end: InputEnd) -> u8
    ensures { Concludes (judged.ending_of end) result (K.taken out.old) (K.taken out.new) (K.faults out.old) (K.faults out.new) }
{
    match end.text(alloc) {
        Ok(text) => finish(out, end.status(), text.as_bytes()),
        Err(_) => 4,
    }
}

/// The line where a line of the report is none of a trace of the script.
fn fault_text(alloc: Global, before: usize, line: usize) -> Result<String, AllocError>
    ensures { IfOk result (λ text. string_bytes text ≡ spec.written before (spec.none_at line)) }
{
    let line = before.saturating_add(line);
    format!(in alloc; "trace fault {line}\n")
}

/// Writes the drawing of a report under its script, or the line where it is none of a trace.
#[tactic(auto, using(crate::proofs::Judging::nothing_written))]
fn show<K: Sink>(alloc: Global, out: &mut K, form: Form, given: &Given) -> u8
    ensures { Concludes (judged.drawn form given.now.before given.now.script.items given.now.report.items) result (K.taken out.old) (K.taken out.new) (K.faults out.old) (K.faults out.new) }
{
    match drawn(
        alloc,
        form,
        given.script.as_slice(),
        given.report.as_slice(),
    ) {
        Ok(text) => finish(out, 0, text.as_bytes()),
        Err(TraceFault::Line(line)) => match fault_text(alloc, given.before, line) {
            Ok(text) => finish(out, 9, text.as_bytes()),
            Err(_) => 4,
        },
        Err(TraceFault::NoMemory) => 4,
    }
}

/// Draws an input that was read, or writes why nothing is drawn.
#[tactic(auto, using(crate::proofs::Judging::nothing_written))]
fn conclude<K: Sink>(alloc: Global, out: &mut K, form: Form, bytes: &[u8]) -> u8
    ensures { Concludes (judged.judged_file form bytes.now (file bytes.now)) result (K.taken out.old) (K.taken out.new) (K.faults out.old) (K.faults out.new) }
{
    match parts_of(alloc, bytes) {
        Ok(Ok(given)) => show(alloc, out, form, &given),
        Ok(Err(end)) => refuse(alloc, out, end),
        Err(_) => 4,
    }
}

/// Draws the trace that stands behind its bench file and a line that is exactly `===`, by the word `vcd`, `svg` or
/// `text` and its option, `vcd --time` or `svg --title NAME`, and gives the status: 0 where the drawing was written; 1
/// where the words are others; 2 where a read failed; 3 where a write failed; 4 where memory was not found; 5 where
/// the input is too long; 6 and 7 where the configuration or the script is refused; 8 where there is no report; 9
/// where a line of it is none of a trace of the script.
pub fn view<S: Source, K: Sink>(alloc: Global, words: &[String], input: &mut S, out: &mut K) -> u8
    // Where no fault was met and memory was found, the status and the output are those of the definition.
    ensures exact { result ≢ 2 → result ≢ 3 → result ≢ 4 → IfSome (S.left input.old) (λ bytes. IsEnded (judged.judged (judged.form_of (map string_bytes words.now)) bytes) result (K.taken out.old) (K.taken out.new)) }
    // Whatever the source tells of its bytes, the call ends as it is to end on some bytes.
    ensures on_some { result ≢ 2 → result ≢ 3 → result ≢ 4 → EndsOnSome (judged.form_of (map string_bytes words.now)) result (K.taken out.old) (K.taken out.new) }
    // Where no fault was met the status is that of the definition, or memory was not found.
    ensures complete { (Rose (S.faults input.old) (S.faults input.new) → ⊥) → (Rose (K.faults out.old) (K.faults out.new) → ⊥) → IfSome (S.left input.old) (λ bytes. result ≢ 4 → result ≡ (judged.judged (judged.form_of (map string_bytes words.now)) bytes).status) }
    // There are no other statuses.
    ensures known { result ≤ 9 }
    // The words alone decide on status 1.
    ensures refused { judged.form_of (map string_bytes words.now) ≡ None → result ≢ 3 → result ≡ 1 }
    ensures usage { result ≡ 1 → judged.form_of (map string_bytes words.now) ≡ None }
    // A fault of the source.
    ensures read { result ≡ 2 → Rose (S.faults input.old) (S.faults input.new) × Appends (K.taken out.old) (K.taken out.new) (codes "read fault\n") }
    ensures read_only { S.faults input.new ≢ S.faults input.old → result ≢ 2 → result ≢ 3 → result ≡ 4 }
    ensures later { S.faults input.old ≤ S.faults input.new }
    // A fault of the sink: a front of the whole output was written.
    ensures write { result ≡ 3 → Rose (K.faults out.old) (K.faults out.new) }
    ensures write_only { result ≢ 3 → K.faults out.new ≡ K.faults out.old }
    ensures front { result ≡ 3 → IfSome (S.left input.old) (λ bytes. FrontOf (judged.judged (judged.form_of (map string_bytes words.now)) bytes) (Rose (S.faults input.old) (S.faults input.new)) (K.taken out.old) (K.taken out.new)) }
    // Want of memory: nothing is written.
    ensures nothing { result ≡ 4 → Appends (K.taken out.old) (K.taken out.new) [] }
    // Status 0 comes only where all was read.
    ensures ended { result ≡ 0 → IsAtEnd (S.left input.new) }
{
    let Some(form) = form_of(words) else {
        return finish(out, 1, USAGE.as_bytes());
    };
    match read_all(alloc, input) {
        Ok(bytes) => conclude(alloc, out, form, bytes.as_slice()),
        Err(ReadEnd::Fault) => refuse(alloc, out, InputEnd::Fault),
        Err(ReadEnd::TooLong) => refuse(alloc, out, InputEnd::TooLong),
        Err(ReadEnd::NoMemory) => 4,
    }
}
