//! The bench program: standard input, standard output and the words of the command line.
#![tactic(auto)]

ghost use Rattle.std.specs.Prelude.{◌≡◌, ◌≢◌, ◌≤◌, [], map, string_bytes, vec_len};
ghost use Rattle.std.specs.Io.KnownBytes.{Appends};
ghost use Rattle.std.specs.Option.{IfSome};
ghost use Rattle.std.specs.Process.{exit_status};
ghost use Rattle.bench_top.specs.Calls.{stream_of};
ghost use Rattle.bench_top.specs.Judged.{judged};
ghost use Rattle.bench_top.specs.Words.{form_of};
ghost use Rattle.mcal_base.specs.Causes.{Rose};
ghost use Rattle.mcal_bench.specs.Ends.{HasEnded, HasEndedOnSome};

use bench_top::bench;
use mcal_base::{NoMemory, Sink, Source, StdSink, StdSource};
use serial_devices::{PlainDevice, SerialDevice};
use std::alloc::Global;
use std::env;
use std::io::ErrorKind;
use std::process::ExitCode;

/// The words of the command line, without the program's name. Words that are not text are of no form, as no words are.
fn words(rt: &HostRuntime) -> Result<Vec<String>, NoMemory> {
    match env::args(rt) {
        Ok(words) => match words.skip(1).collect(rt.alloc()) {
            Ok(words) => Ok(words),
            Err(_) => Err(NoMemory),
        },
        Err(error) => match error.kind() {
            ErrorKind::OutOfMemory => Err(NoMemory),
            _ => Ok(Vec::new(rt.alloc())),
        },
    }
}

/// Has the bench do what the words ask for, with the two devices of a rack, and ends as it ends.
fn ended_on<S: Source, K: Sink>(
    alloc: Global,
    words: &[String],
    input: &mut S,
    out: &mut K,
    rack: &mut Vec<Box<dyn SerialDevice>>,
) -> ExitCode
    requires { vec_len rack.old ≡ 2 }
    ensures exact { exit_status result ≢ 2 → exit_status result ≢ 3 → exit_status result ≢ 4 → IfSome (S.left input.old) (λ bytes.
        HasEnded 2 (judged (form_of (map string_bytes words.now)) bytes) (exit_status result) (stream_of K.taken K.faults out.old out.new)) }
    ensures on_some { exit_status result ≢ 2 → exit_status result ≢ 3 → exit_status result ≢ 4 →
        HasEndedOnSome 2 (form_of (map string_bytes words.now)) (exit_status result) (stream_of K.taken K.faults out.old out.new) }
    ensures known { exit_status result ≤ 8 }
    ensures read { exit_status result ≡ 2 → Rose (S.faults input.old) (S.faults input.new) }
    ensures write { exit_status result ≡ 3 → Rose (K.faults out.old) (K.faults out.new) }
    ensures nothing { exit_status result ≡ 4 → Appends (K.taken out.old) (K.taken out.new) [] }
{
    ExitCode::from(bench(alloc, words, input, out, rack).status)
}

/// Has the bench do what the words ask for, with two devices, of which the first answers each word's complement and the
/// second the word that it was sent before. It ends as the bench ends, and with 4 too where memory for the devices is
/// wanting.
fn ended<S: Source, K: Sink>(
    alloc: Global,
    words: &[String],
    input: &mut S,
    out: &mut K,
) -> ExitCode
    // Where no fault was met and memory was found, the status and the output are those of the definition, on two devices.
    ensures exact { exit_status result ≢ 2 → exit_status result ≢ 3 → exit_status result ≢ 4 → IfSome (S.left input.old) (λ bytes.
        HasEnded 2 (judged (form_of (map string_bytes words.now)) bytes) (exit_status result) (stream_of K.taken K.faults out.old out.new)) }
    // Whatever the source tells of its bytes, it ends as it is to end on some bytes.
    ensures on_some { exit_status result ≢ 2 → exit_status result ≢ 3 → exit_status result ≢ 4 →
        HasEndedOnSome 2 (form_of (map string_bytes words.now)) (exit_status result) (stream_of K.taken K.faults out.old out.new) }
    // There are no other statuses.
    ensures known { exit_status result ≤ 8 }
    // A fault of the source, one of the sink, and want of memory, where nothing is written.
    ensures read { exit_status result ≡ 2 → Rose (S.faults input.old) (S.faults input.new) }
    ensures write { exit_status result ≡ 3 → Rose (K.faults out.old) (K.faults out.new) }
    ensures nothing { exit_status result ≡ 4 → Appends (K.taken out.old) (K.taken out.new) [] }
{
    let Ok(complement) = Box::new(alloc, PlainDevice::new(false)) else {
        return ExitCode::from(4);
    };
    let Ok(echo) = Box::new(alloc, PlainDevice::new(true)) else {
        return ExitCode::from(4);
    };
    let mut rack: Vec<Box<dyn SerialDevice>> = Vec::new(alloc);
    if rack.push(complement).is_err() || rack.push(echo).is_err() {
        return ExitCode::from(4);
    }
    ended_on(alloc, words, input, out, &mut rack)
}

fn main(rt: HostRuntime) -> ExitCode {
    let Ok(words) = words(&rt) else {
        return ExitCode::from(4);
    };
    let mut input = StdSource::new(rt.stdin());
    let mut out = StdSink::new(rt.stdout());
    ended(rt.alloc(), &words, &mut input, &mut out)
}
