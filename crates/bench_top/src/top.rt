ghost use Rattle.std.specs.Prelude.{◌≡◌, ◌≢◌, ◌≤◌, ℕ, List, [], IfOk, Some, length, map, string_bytes, vec_len};
ghost use Rattle.config_facts.specs.Valid.{IsValid};
ghost use Rattle.run_model.specs.Exchanges.{AreToldBy};
ghost use Rattle.serial_devices.specs.Lines.{Line};
ghost use Rattle.bench_script.specs.Lines.{file};
ghost use Rattle.mcal_system.specs.Setting.{has_service};
ghost use Rattle.script_runner.specs.Scripts.{IsScript, AllOffered};
ghost use Rattle.bench_top.specs.Calls.{stream_of};
ghost use Rattle.bench_top.specs.Contract.{KeepsContract};
ghost use Rattle.bench_top.specs.Judged as spec;
ghost use Rattle.bench_top.specs.Judged.{Generates, IsRead, Judgement, Prints, Runs, judged_input, verdict_ending};
ghost use Rattle.bench_top.specs.Outcomes.{Concludes, Ends, Keeps};
ghost use Rattle.bench_top.specs.Words.{form_of};
ghost use Rattle.bench_top.specs.declared.words.Form.TheVariants.{Audit};

use crate::audited::{NoVerdict, audited, verdict_status, verdict_text};
use crate::file::{BenchFile, FileEnd, read_whole};
use crate::generated::generated_text;
use crate::input::{LIMIT, ReadEnd, read_most};
use crate::output::write_all;
use crate::refusal::Refusal;
use crate::run::run;
use crate::tail::{printed, ring_for};
use crate::words::{Form, Printing, Task, form_of};
use bench_generator::board;
use bench_report::{ReportEnd, report};
use mcal_base::{Config, Directive, Sink, Source};
use report_text::reading::Verdict;
use run_model::Journal;
use serial_devices::SerialDevice;
use std::alloc::{AllocError, Global};

/// What is printed where the words are of no form.
const USAGE: &str =
    "usage: mcal_bench check | run | run --trace | run --tail N | gen SEED COUNT | audit\n";

/// What is printed where the source met a fault.
const READ_FAULT: &str = "read fault\n";

/// What is printed where more bytes came than an input may have.
const TOO_MANY_BYTES: &str = "too long: more than 1048576 bytes\n";

/// The most bytes that the input of an audit may have.
const AUDIT_LIMIT: usize = 268_435_456;

/// What is printed where more bytes came than the input of an audit may have.
const TOO_MANY_AUDITED: &str = "too long: more than 268435456 bytes\n";

/// What is printed where no mark of a report stands behind a bench file.
const NO_REPORT: &str = "script fault 0 NoReport\n";

/// What is printed where the report would be longer than it may be.
const TOO_LONG_REPORT: &str = "too long: more than 268435456 bytes of report\n";

/// What is printed where one more step than the most would be taken.
const TOO_MANY_STEPS: &str = "too long: more than 1000000 steps\n";

/// How a call ended.
#[derive(Drop)]
pub struct Outcome {
    /// The status.
    pub status: u8,
    /// The journal of the run, empty where no run began.
    pub journal: Journal,
}

/// Writes all of a text. Where the sink meets a fault the status is 3.
#[tactic(auto, using(crate::proofs::Judging::concludes_of))]
fn finish<K: Sink>(out: &mut K, status: u8, text: &[u8], journal: Journal) -> Outcome
    requires fault { status ≢ 3 }
    requires memory { status ≢ 4 }
    requires known { status ≤ 8 }
    ensures remembers { result.status ≢ 4 }
    ensures journal { result.journal ≡ journal }
    // It ends as it was judged, where the call is to end with this status and this text.
    ensures concludes { (devices : ℕ) (judgement : Judgement) → Ends devices judgement (record { status = status; text = text.now }) journal.entries →
        Keeps devices judgement journal.entries → Concludes devices judgement result (stream_of K.taken K.faults out.old out.new) }
{
    match write_all(out, text) {
        Ok(()) => Outcome { status, journal },
        Err(_) => Outcome { status: 3, journal },
    }
}

/// The outcome where memory was not found: nothing is written.
fn no_memory(alloc: Global) -> Outcome
    ensures status { result.status ≡ 4 }
    ensures journal { result.journal.entries ≡ [] }
    ensures keeps { (devices : ℕ) (judgement : Judgement) → Keeps devices judgement result.journal.entries }
{
    Outcome {
        status: 4,
        journal: Journal::empty(alloc),
    }
}

/// The outcome where memory was not found for what is to be told of a run: nothing is written, and its journal is left.
fn no_room(journal: Journal) -> Outcome
    ensures status { result.status ≡ 4 }
    ensures journal { result.journal ≡ journal }
{
    Outcome { status: 4, journal }
}

/// Writes a text, where nothing runs.
fn print<K: Sink>(alloc: Global, out: &mut K, status: u8, text: &str) -> Outcome
    requires fault { status ≢ 3 }
    requires memory { status ≢ 4 }
    requires known { status ≤ 8 }
    ensures remembers { result.status ≢ 4 }
    ensures concludes { (devices : ℕ) →
        Concludes devices (Prints (record { status = status; text = text.now })) result (stream_of K.taken K.faults out.old out.new) }
    ensures keeps { (devices : ℕ) (judgement : Judgement) → Keeps devices judgement result.journal.entries }
{
    finish(out, status, text.as_bytes(), Journal::empty(alloc))
}

/// Writes the line of a file that is refused.
fn refuse<K: Sink>(alloc: Global, out: &mut K, refusal: Refusal) -> Outcome
    ensures { (devices : ℕ) → Concludes devices (Prints (spec.ending_of refusal)) result (stream_of K.taken K.faults out.old out.new) }
{
    match refusal.text(alloc) {
        Ok(text) => print(alloc, out, refusal.status(), text.as_str()),
        Err(_) => no_memory(alloc),
    }
}

/// The lines of a file that was read.
fn checked_text(alloc: Global, directives: usize) -> Result<String, AllocError>
    ensures { IfOk result (λ text. string_bytes text ≡ (spec.checked directives).text) }
{
    format!(in alloc; "configuration ok\nscript ok {directives}\n")
}

/// Says that a file was read.
fn check<K: Sink>(alloc: Global, out: &mut K, script: &[Directive]) -> Outcome
    ensures { (devices : ℕ) →
        Concludes devices (Prints (spec.checked (length script.now))) result (stream_of K.taken K.faults out.old out.new) }
{
    match checked_text(alloc, script.len()) {
        Ok(text) => print(alloc, out, 0, text.as_str()),
        Err(_) => no_memory(alloc),
    }
}

/// Runs a script, and writes what is asked for of the report, or that the run or the report was too long.
fn run_and_report<K: Sink>(
    alloc: Global,
    out: &mut K,
    printing: Printing,
    config: Config,
    script: &[Directive],
    rack: &mut Vec<Box<dyn SerialDevice>>,
) -> Outcome
    requires valid { IsValid config }
    requires script { IsScript script.now }
    requires offered { AllOffered has_service script.now }
    ensures concludes { Concludes (vec_len rack.old) (Runs printing config script.now) result (stream_of K.taken K.faults out.old out.new) }
    // The devices were called by the steps of its journal.
    ensures told { AreToldBy (vec_len rack.old) result.journal.entries (map (λ d. line d) rack.old.items) (map (λ d. line d) rack.new.items) }
{
    let Ok(mut starts) = ring_for(alloc, printing) else {
        return no_memory(alloc);
    };
    let Ok(ran) = run(alloc, config, script, rack) else {
        return no_memory(alloc);
    };
    if ran.too_long {
        return finish(out, 5, TOO_MANY_STEPS.as_bytes(), ran.journal);
    }
    if ran.lost {
        return no_room(ran.journal);
    }
    match report(
        alloc,
        script,
        &ran.journal,
        &ran.shown,
        printing.is_traced(),
    ) {
        Ok(text) => {
            let part = printed(printing, &mut starts, text.as_bytes());
            finish(out, 0, part, ran.journal)
        }
        Err(ReportEnd::TooLong) => finish(out, 5, TOO_LONG_REPORT.as_bytes(), ran.journal),
        Err(ReportEnd::NoMemory) => no_room(ran.journal),
    }
}

/// Does what is asked for with a file that was read.
fn act<K: Sink>(
    alloc: Global,
    out: &mut K,
    task: Task,
    read: BenchFile,
    rack: &mut Vec<Box<dyn SerialDevice>>,
) -> Outcome
    requires valid { IsValid read.config }
    requires script { IsRead read.script.items }
    ensures concludes { Concludes (vec_len rack.old) (spec.judged_whole task read.config read.script.items) result (stream_of K.taken K.faults out.old out.new) }
    ensures told { AreToldBy (vec_len rack.old) result.journal.entries (map (λ d. line d) rack.old.items) (map (λ d. line d) rack.new.items) }
{
    let BenchFile { config, script } = read;
    match task {
        Task::Check => check(alloc, out, &script),
        Task::Run(printing) => run_and_report(alloc, out, printing, config, &script, rack),
    }
}

/// Does what is asked for with a bench file.
fn conclude<K: Sink>(
    alloc: Global,
    out: &mut K,
    task: Task,
    bytes: Vec<u8>,
    rack: &mut Vec<Box<dyn SerialDevice>>,
) -> Outcome
    requires { vec_len bytes ≤ 1048576 }
    ensures concludes { Concludes (vec_len rack.old) (spec.judged_file task (file bytes.items)) result (stream_of K.taken K.faults out.old out.new) }
    ensures told { AreToldBy (vec_len rack.old) result.journal.entries (map (λ d. line d) rack.old.items) (map (λ d. line d) rack.new.items) }
{
    match read_whole(alloc, bytes) {
        Ok(read) => act(alloc, out, task, read, rack),
        Err(FileEnd::Refused(refusal)) => refuse(alloc, out, refusal),
        Err(FileEnd::NoMemory) => no_memory(alloc),
    }
}

/// Generates a bench from a seed, runs it, and writes the two lines that tell of it. It comes to its end, for the bounds of
/// its frames are within the limit of steps.
fn generate<K: Sink>(
    alloc: Global,
    out: &mut K,
    seed: u32,
    count: u32,
    rack: &mut Vec<Box<dyn SerialDevice>>,
) -> Outcome
    requires { count ≤ 20000 }
    ensures concludes { Concludes (vec_len rack.old) (Generates seed count) result (stream_of K.taken K.faults out.old out.new) }
    ensures told { AreToldBy (vec_len rack.old) result.journal.entries (map (λ d. line d) rack.old.items) (map (λ d. line d) rack.new.items) }
{
    let Ok(script) = bench_generator::script(alloc, seed, count) else {
        return no_memory(alloc);
    };
    let Ok(ran) = run(alloc, board(), &script, rack) else {
        return no_memory(alloc);
    };
    match generated_text(alloc, seed, count, &script, &ran.journal) {
        Ok(text) => finish(out, 0, text.as_bytes(), ran.journal),
        Err(_) => no_room(ran.journal),
    }
}

/// Says what a report was found to be.
fn say_verdict<K: Sink>(alloc: Global, out: &mut K, verdict: Verdict) -> Outcome
    ensures concludes { (devices : ℕ) (judgement : Judgement) → Ends devices judgement (verdict_ending verdict) [] →
        Concludes devices judgement result (stream_of K.taken K.faults out.old out.new) }
    ensures journal { result.journal.entries ≡ [] }
{
    match verdict_text(alloc, verdict) {
        Ok(text) => finish(
            out,
            verdict_status(verdict),
            text.as_str().as_bytes(),
            Journal::empty(alloc),
        ),
        Err(_) => no_memory(alloc),
    }
}

/// Judges the report behind a bench file, for a rack of so many devices, and says what it was found to be.
fn conclude_audit<K: Sink>(alloc: Global, out: &mut K, bytes: &[u8], devices: usize) -> Outcome
    requires { length bytes.now ≤ 268435456 }
    ensures concludes { Concludes devices (judged_input bytes.now) result (stream_of K.taken K.faults out.old out.new) }
    ensures journal { result.journal.entries ≡ [] }
{
    match audited(alloc, bytes, devices) {
        Ok(verdict) => say_verdict(alloc, out, verdict),
        Err(NoVerdict::Refused(refusal)) => refuse(alloc, out, refusal),
        Err(NoVerdict::NoReport) => print(alloc, out, 7, NO_REPORT),
        Err(NoVerdict::TooLong) => print(alloc, out, 5, TOO_MANY_BYTES),
        Err(NoVerdict::NoMemory) => no_memory(alloc),
    }
}

/// Reads a bench file with a report behind it, and judges the report for a rack of so many devices.
fn audit_input<S: Source, K: Sink>(
    alloc: Global,
    input: &mut S,
    out: &mut K,
    devices: usize,
) -> Outcome
    // The devices aren't called.
    ensures { (lines : List Line) → length lines ≡ devices → KeepsContract (record {
      form = Some Audit;
      source = stream_of S.left S.faults input.old input.new;
      sink = stream_of K.taken K.faults out.old out.new;
      devices = devices;
      lines_before = lines;
      lines_after = lines;
      outcome = result;
    }) }
{
    match read_most(alloc, input, AUDIT_LIMIT) {
        Ok(bytes) => conclude_audit(alloc, out, &bytes, devices),
        Err(ReadEnd::Fault) => print(alloc, out, 2, READ_FAULT),
        Err(ReadEnd::TooLong) => print(alloc, out, 5, TOO_MANY_AUDITED),
        Err(ReadEnd::NoMemory) => no_memory(alloc),
    }
}

/// Does what the words ask for, with the input and the sink.
pub fn bench<S: Source, K: Sink>(
    alloc: Global,
    words: &[String],
    input: &mut S,
    out: &mut K,
    rack: &mut Vec<Box<dyn SerialDevice>>,
) -> Outcome
    // The call as it is seen from outside keeps the contract of `specs/Contract.antt`. Its groups: `known` and `faults`, the
    // statuses that there are; `exact`, where nothing failed; `usage`, `source`, `sink` and `memory`, for statuses 1 to 4; `journal` and
    // `devices`, whatever the status; `complete`, that nothing else fails; and `generated`, for benches from a seed.
    ensures { KeepsContract (record {
      form = form_of (map string_bytes words.now);
      source = stream_of S.left S.faults input.old input.new;
      sink = stream_of K.taken K.faults out.old out.new;
      devices = vec_len rack.old;
      lines_before = map (λ d. line d) rack.old.items;
      lines_after = map (λ d. line d) rack.new.items;
      outcome = result;
    }) }
{
    let Some(form) = form_of(words) else {
        return print(alloc, out, 1, USAGE);
    };
    let task = match form {
        Form::File(task) => task,
        Form::Gen(seed, count) => return generate(alloc, out, seed, count, rack),
        Form::Audit => return audit_input(alloc, input, out, rack.len()),
    };
    match read_most(alloc, input, LIMIT) {
        Ok(bytes) => conclude(alloc, out, task, bytes, rack),
        Err(ReadEnd::Fault) => print(alloc, out, 2, READ_FAULT),
        Err(ReadEnd::TooLong) => print(alloc, out, 5, TOO_MANY_BYTES),
        Err(ReadEnd::NoMemory) => no_memory(alloc),
    }
}
