ghost use Rattle.std.specs.Prelude.{◌≡◌, ◌≢◌, ◌<◌, ◌≤◌, [], None, Ok, Some, true, IfOk, codes, length, map, string_bytes};
ghost use Rattle.std.specs.Option.{IfSome};
ghost use Rattle.std.specs.Io.KnownBytes.{Appends};
ghost use Rattle.mcal_base.specs.Causes.{Rose};
ghost use Rattle.bench_script.specs.Lines.{file};
ghost use Rattle.bench_sweep.specs.Parts.{pieces_of};
ghost use Rattle.bench_sweep.specs.declared.marking.Marks as records;
ghost use Rattle.bench_top.specs.Judged.{read_fault};
ghost use Rattle.sweep_trials.specs.Trials.{has_steps};
ghost use Rattle.sweep_top.specs.Endings.{ended};
ghost use Rattle.sweep_top.specs.Reads as reads;
ghost use Rattle.sweep_top.specs.Sweeps as spec;
ghost use Rattle.sweep_report.specs.Table.{table_of};
ghost use Rattle.sweep_top.specs.Sweeps.{EndsFile, EndsSo, IsEnding, IsOpenOf, IsPrinted, IsSweepEnded, IsTold, IsWritten, PrintsSo};
ghost use Rattle.sweep_top.specs.Wishes.{asked_by};

use crate::board::Board;
use crate::ends::SweepEnd;
use crate::read::{configuration_of, directives_of, reactions_of};
use crate::words::{Asked, asked_by};
use bench_script::split_file;
use bench_sweep::{Marks, Parts, SweepFault, marks_of, parts_of};
use bench_top::{ReadEnd, Refusal, read_all, write_all};
use mcal_base::{Sink, Source};
use std::alloc::{AllocError, Global};
use sweep_report::{SweepShown, flat_text, sweep_json, sweep_text};
use sweep_trials::{
    Bench, Followed, Following, Opened, Progress, Reaction, Sweep, Swept, Wish, groups_of,
    make_sweep,
};

/// All that is printed, and the status.
#[derive(Drop)]
pub(crate) struct Printed {
    /// What is printed.
    pub text: String,
    /// The status.
    pub status: u8,
}

/// The status where an outcome is neither as before nor as behind.
const NEITHER: u8 = 8;

/// How many ranges of places are printed of an outcome, where not all are asked for.
const MOST_RANGES: usize = 4;

/// The bench file of a flat script that was run.
fn shown_flat(
    alloc: Global,
    configuration: &[u8],
    script: &[u8],
    found: &Followed,
) -> Result<Printed, SweepEnd>
    ensures { PrintsSo result (spec.flat_ending configuration.now script.now found.now) }
{
    match flat_text(alloc, configuration, script, &found.flat) {
        Ok(text) => Ok(Printed { text, status: 0 }),
        Err(_) => Err(SweepEnd::NoMemory),
    }
}

/// The bench file of a place.
fn shown_place(
    alloc: Global,
    sweep: &Sweep<'_, Board<'_>>,
    opened: &Opened,
    script: &[u8],
    asked: Asked,
    place: usize,
) -> Result<Printed, SweepEnd>
    requires { asked.show ≡ Some place }
    ensures { (marks : records.Marks) → let f = spec.file_of sweep.now.bench.runs.now.configuration.now script.now marks sweep.now.parts sweep.now.bench.following in
        IsOpenOf f sweep.now.bench.following opened.now → has_steps opened.now ≡ true → EndsSo asked (Ok f) result }
{
    match sweep.run_at(alloc, opened, place.saturating_sub(1)) {
        Ok(found) => shown_flat(alloc, sweep.bench.runs.configuration, script, &found),
        Err(stop) => Err(SweepEnd::Stopped(stop)),
    }
}

/// The status of a sweep.
fn status_of(swept: &Swept) -> u8
    ensures is { result ≡ spec.status_of swept.now }
    ensures told { IsTold result }
{
    if swept.has_neither() { NEITHER } else { 0 }
}

/// How many ranges of places are printed of an outcome.
fn most_of(asked: Asked) -> usize
    ensures { result ≡ spec.most_of asked }
{
    if asked.all || asked.json {
        usize::MAX
    } else {
        MOST_RANGES
    }
}

/// The text of a sweep, as it is asked for.
fn text_of(alloc: Global, shown: SweepShown<'_>, asked: Asked) -> Result<String, AllocError>
    ensures { IfOk result (λ text. string_bytes text ≡ spec.text_of asked (table_of shown.entry)) }
{
    if asked.json {
        sweep_json(alloc, shown)
    } else {
        sweep_text(alloc, shown)
    }
}

/// What is printed of a sweep, as it is asked for.
fn told(alloc: Global, shown: SweepShown<'_>, asked: Asked) -> Result<Printed, SweepEnd>
    ensures { PrintsSo result (spec.told_of asked shown.entry.swept.now (table_of shown.entry)) }
{
    match text_of(alloc, shown, asked) {
        Ok(text) => Ok(Printed {
            text,
            status: status_of(shown.swept),
        }),
        Err(_) => Err(SweepEnd::NoMemory),
    }
}

/// Makes a sweep, and says what came of it.
fn made<P: Progress>(
    alloc: Global,
    sweep: &Sweep<'_, Board<'_>>,
    opened: &Opened,
    script: &[u8],
    asked: Asked,
    progress: &mut P,
) -> Result<Printed, SweepEnd>
    requires { asked.show ≡ None }
    ensures { (marks : records.Marks) → let f = spec.file_of sweep.now.bench.runs.now.configuration.now script.now marks sweep.now.parts sweep.now.bench.following in
        IsOpenOf f sweep.now.bench.following opened.now → has_steps opened.now ≡ true → EndsSo asked (Ok f) result }
{
    let wish = Wish {
        first: asked.first,
        part: asked.part,
        parts: asked.parts,
    };
    let swept = match make_sweep(alloc, sweep, opened, wish, progress) {
        Ok(swept) => swept,
        Err(stop) => return Err(SweepEnd::Stopped(stop)),
    };
    match groups_of(alloc, sweep, opened, &swept, most_of(asked)) {
        Ok(groups) => {
            let shown = SweepShown {
                script,
                parts: sweep.parts,
                reactions: sweep.bench.following.calls,
                swept: &swept,
                groups: &groups,
            };
            told(alloc, shown, asked)
        }
        Err(stop) => Err(SweepEnd::Stopped(stop)),
    }
}

/// What stays the same in all runs of a sweep with these marks.
fn bench_of<'a, 'b>(
    board: &'a Board<'b>,
    calls: &'a [Reaction],
    marks: Marks,
) -> Bench<'a, Board<'b>>
    ensures runs { result.runs.now ≡ board.now }
    ensures calls { result.following.calls.now ≡ calls.now }
    ensures sweep { result.following.sweep ≡ marks.sweep }
    ensures over { result.following.over ≡ marks.over }
{
    Bench {
        runs: board,
        following: Following {
            calls,
            sweep: marks.sweep,
            over: marks.over,
        },
    }
}

/// Opens the block of a file that was read, and does what is asked for with it.
fn sweep_read<P: Progress>(
    alloc: Global,
    configuration: &[u8],
    script: &[u8],
    marks: Marks,
    parts: Parts<'_>,
    reactions: &[Reaction],
    asked: Asked,
    progress: &mut P,
) -> Result<Printed, SweepEnd>
    requires swept { 0 < length parts.swept.now }
    requires block { 0 < length parts.block.now }
    ensures { EndsSo asked (Ok (record { configuration = configuration.now; script = script.now; marks = marks; pieces = pieces_of parts.entry; reactions = reactions.now })) result }
{
    let board = Board { configuration };
    let sweep = Sweep {
        bench: bench_of(&board, reactions, marks),
        parts,
    };
    let opened = match sweep.open(alloc) {
        Ok(opened) => opened,
        Err(stop) => return Err(SweepEnd::Stopped(stop)),
    };
    if !opened.has_steps() {
        return Err(SweepEnd::Fault(SweepFault::NoStep(marks.over)));
    }
    match asked.show {
        Some(place) => shown_place(alloc, &sweep, &opened, script, asked, place),
        None => made(alloc, &sweep, &opened, script, asked, progress),
    }
}

/// Does what is asked for with the parts of a script.
fn with_parts<P: Progress>(
    alloc: Global,
    configuration: &[u8],
    script: &[u8],
    marks: Marks,
    parts: Parts<'_>,
    asked: Asked,
    progress: &mut P,
) -> Result<Printed, SweepEnd>
    requires few { length script.now ≤ 1048576 }
    requires swept { 0 < length parts.swept.now }
    requires block { 0 < length parts.block.now }
    ensures { EndsSo asked (reads.with_reactions configuration.now script.now marks (pieces_of parts.entry)) result }
{
    match reactions_of(alloc, script) {
        Ok(reactions) => sweep_read(
            alloc,
            configuration,
            script,
            marks,
            parts,
            &reactions,
            asked,
            progress,
        ),
        Err(end) => Err(end),
    }
}

/// Does what is asked for with a script that has these marks.
fn with_marks<P: Progress>(
    alloc: Global,
    configuration: &[u8],
    script: &[u8],
    marks: Marks,
    asked: Asked,
    progress: &mut P,
) -> Result<Printed, SweepEnd>
    requires { length script.now ≤ 1048576 }
    ensures { EndsSo asked (reads.with_marks configuration.now script.now marks) result }
{
    let directives = match directives_of(alloc, script) {
        Ok(directives) => directives,
        Err(end) => return Err(end),
    };
    match parts_of(&directives, marks) {
        Ok(parts) => with_parts(alloc, configuration, script, marks, parts, asked, progress),
        Err(fault) => Err(SweepEnd::Fault(fault)),
    }
}

/// Does what is asked for with the configuration and the script of a sweep.
fn with_script<P: Progress>(
    alloc: Global,
    configuration: &[u8],
    script: &[u8],
    asked: Asked,
    progress: &mut P,
) -> Result<Printed, SweepEnd>
    requires { length script.now ≤ 1048576 }
    ensures { EndsSo asked (reads.read_parts configuration.now script.now) result }
{
    let _config = match configuration_of(alloc, configuration) {
        Ok(config) => config,
        Err(end) => return Err(end),
    };
    match marks_of(script) {
        Ok(marks) => with_marks(alloc, configuration, script, marks, asked, progress),
        Err(fault) => Err(SweepEnd::Fault(fault)),
    }
}

/// Does what is asked for with a sweep.
fn conclude<P: Progress>(
    alloc: Global,
    bytes: &[u8],
    asked: Asked,
    progress: &mut P,
) -> Result<Printed, SweepEnd>
    requires { length bytes.now ≤ 1048576 }
    ensures { EndsSo asked (reads.read_file (file bytes.now)) result }
{
    match split_file(bytes) {
        Some((configuration, script)) => {
            with_script(alloc, configuration, script, asked, progress)
        }
        None => Err(SweepEnd::Refused(Refusal::NoSeparator)),
    }
}

/// What is printed where no outcomes are told.
#[tactic(auto, using(crate::proofs::Calling::ending_same))]
fn refused(alloc: Global, end: SweepEnd) -> Option<Printed>
    ensures { IfSome result (λ printed. spec.ending_of printed ≡ ended end) }
{
    match end.text(alloc) {
        Ok(text) => Some(Printed {
            text,
            status: end.status(),
        }),
        Err(_) => None,
    }
}

/// What is printed where the source meets a fault.
fn read_failed(alloc: Global) -> Option<Printed>
    ensures { IfSome result (λ printed. spec.ending_of printed ≡ read_fault) }
{
    match String::from_str(alloc, "read fault\n") {
        Ok(text) => Some(Printed { text, status: 2 }),
        Err(_) => None,
    }
}

/// What is printed of the bytes of a sweep.
fn printed_of<P: Progress>(
    alloc: Global,
    bytes: &[u8],
    asked: Asked,
    progress: &mut P,
) -> Option<Printed>
    requires { length bytes.now ≤ 1048576 }
    ensures { IfSome result (IsEnding (EndsFile asked (reads.read_file (file bytes.now)))) }
{
    match conclude(alloc, bytes, asked, progress) {
        Ok(printed) => Some(printed),
        Err(end) => refused(alloc, end),
    }
}

/// What is printed, unless memory was wanting for the line of a refusal.
fn printed_by<S: Source, P: Progress>(
    alloc: Global,
    words: &[String],
    input: &mut S,
    progress: &mut P,
) -> Option<Printed>
    ensures printed { IfSome result (IsPrinted (S.left input.old) (asked_by (map string_bytes words.now)) (Rose (S.faults input.old) (S.faults input.new))) }
    ensures still { IfSome result (λ p. p.status ≢ 2 → S.faults input.new ≡ S.faults input.old) }
{
    let Some(asked) = asked_by(words) else {
        return refused(alloc, SweepEnd::Usage);
    };
    match read_all(alloc, input) {
        Ok(bytes) => printed_of(alloc, &bytes, asked, progress),
        Err(ReadEnd::Fault) => read_failed(alloc),
        Err(ReadEnd::TooLong) => refused(alloc, SweepEnd::TooManyBytes),
        Err(ReadEnd::NoMemory) => None,
    }
}

/// Writes what is printed, and gives the status: 3 where the sink meets a fault.
fn put<K: Sink>(out: &mut K, printed: &Printed) -> u8
    requires { printed.now.status ≢ 3 }
    ensures written { result ≢ 3 → (result ≡ printed.now.status) × Appends (K.taken out.old) (K.taken out.new) (string_bytes printed.now.text) }
    ensures fault { result ≡ 3 → Rose (K.faults out.old) (K.faults out.new) }
    ensures still { result ≢ 3 → K.faults out.new ≡ K.faults out.old }
{
    match write_all(out, printed.text.as_bytes()) {
        Ok(()) => printed.status,
        Err(_) => 3,
    }
}

/// Writes what is printed, and gives the status: 4 where memory was wanting, and nothing is printed.
fn written<K: Sink>(out: &mut K, printed: Option<Printed>) -> u8
    requires { IfSome printed (λ p. p.status ≢ 3) }
    ensures written { IsWritten result (K.taken out.old) (K.taken out.new) printed }
    ensures memory { printed ≡ None → (result ≡ 4) × Appends (K.taken out.old) (K.taken out.new) [] }
    ensures fault { result ≡ 3 → Rose (K.faults out.old) (K.faults out.new) }
    ensures still { result ≢ 3 → K.faults out.new ≡ K.faults out.old }
{
    match printed {
        Some(printed) => put(out, &printed),
        None => 4,
    }
}

/// Does what the words ask for with the sweep that the input holds, and gives the status.
pub fn sweep<S: Source, K: Sink, P: Progress>(
    alloc: Global,
    words: &[String],
    input: &mut S,
    out: &mut K,
    progress: &mut P,
) -> u8
    // Where no fault was met and memory was found, the status and the output are those of the definition.
    ensures exact { result ≢ 2 → result ≢ 3 → result ≢ 4 → IfSome (S.left input.old) (λ bytes. IsSweepEnded (asked_by (map string_bytes words.now)) bytes result (K.taken out.old) (K.taken out.new)) }
    // A fault of the source.
    ensures read { result ≡ 2 → Rose (S.faults input.old) (S.faults input.new) × Appends (K.taken out.old) (K.taken out.new) (codes "read fault\n") }
    // A fault of the sink.
    ensures write { result ≡ 3 → Rose (K.faults out.old) (K.faults out.new) }
    ensures write_only { result ≢ 3 → K.faults out.new ≡ K.faults out.old }
    // Each fault of the source gives status 2, unless its line finds no memory or can't be written.
    ensures read_only { result ≢ 2 → result ≢ 3 → result ≢ 4 → S.faults input.new ≡ S.faults input.old }
    // Want of memory: nothing is written.
    ensures nothing { result ≡ 4 → Appends (K.taken out.old) (K.taken out.new) [] }
{
    let printed = printed_by(alloc, words, input, progress);
    written(out, printed)
}
