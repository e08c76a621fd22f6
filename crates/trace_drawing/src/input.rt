ghost use Rattle.std.specs.Prelude.{◌≡◌, ◌≢◌, ◌==◌, ◌+◌, ◌<◌, ◌≤◌, ◌^◌, IfOk, IfSome, length, option_map, string_bytes};
ghost use Rattle.std.specs.List.{position};
ghost use Rattle.std.specs.Str.Lines.{strip_carriage_return};
ghost use Rattle.bench_script.specs.Lines.{file};
ghost use Rattle.bench_script.specs.Script.{script};
ghost use Rattle.mcal_config.specs.Whole.{fault_of};
ghost use Rattle.trace_drawing.specs.Judged as spec;
ghost use Rattle.trace_drawing.specs.declared.program.Form.{Form};

use bench_script::{ScriptFault, read_script, split_file};
use mcal_base::Directive;
use mcal_config::{ConfigFault, Printed, read_config};
use std::alloc::{AllocError, Global};

/// The most bytes that a bench file may have.
const MOST_BYTES: usize = 1_048_576;

/// The line that stands before a report.
const MARK: &[u8] = b"===";

/// What is given to be drawn.
#[derive(Drop)]
pub(crate) struct Given {
    /// The script.
    pub(crate) script: Vec<Directive>,
    /// The report.
    pub(crate) report: Vec<u8>,
    /// How many lines of the input stand before the report.
    pub(crate) before: usize,
}

/// Why nothing is drawn.
#[derive(Clone, Copy)]
pub(crate) enum InputEnd {
    /// The source met a fault.
    Fault,
    /// The input is too long.
    TooLong,
    /// The bench file is too long.
    LongFile,
    /// No line is the separator.
    NoSeparator,
    /// The configuration has this fault.
    Configuration(ConfigFault),
    /// The script has this fault.
    Script(ScriptFault),
    /// No line behind the separator begins a report; the input has so many lines.
    NoReport(usize),
}

impl InputEnd {
    /// The status.
    pub(crate) fn status(self) -> u8
        ensures status { result ≡ (spec.ending_of self).status }
        ensures known { result ≤ 9 }
        ensures fault { result ≢ 3 }
        ensures memory { result ≢ 4 }
    {
        match self {
            InputEnd::Fault => 2,
            InputEnd::TooLong | InputEnd::LongFile => 5,
            InputEnd::Script(ScriptFault::Long(_)) => 5,
            InputEnd::Configuration(_) => 6,
            InputEnd::NoSeparator | InputEnd::Script(_) => 7,
            InputEnd::NoReport(_) => 8,
        }
    }

    /// The line that is printed.
    pub(crate) fn text(self, alloc: Global) -> Result<String, AllocError>
        ensures { IfOk result (λ text. string_bytes text ≡ (spec.ending_of self).text) }
    {
        match self {
            InputEnd::Fault => String::from_str(alloc, "read fault\n"),
            InputEnd::TooLong => {
                String::from_str(alloc, "too long: more than 268435456 bytes\n")
            }
            InputEnd::LongFile => String::from_str(alloc, "too long: more than 1048576 bytes\n"),
            InputEnd::NoSeparator => String::from_str(alloc, "script fault 0 NoSeparator\n"),
            InputEnd::Configuration(fault) => {
                let fault = Printed(fault);
                format!(in alloc; "configuration fault {fault}\n")
            }
            InputEnd::Script(ScriptFault::Long(_)) => {
                String::from_str(alloc, "too long: more than 50000 directives\n")
            }
            InputEnd::Script(fault) => {
                let line = fault.line();
                let kind = fault.kind_text();
                format!(in alloc; "script fault {line} {kind}\n")
            }
            InputEnd::NoReport(lines) => {
                format!(in alloc; "no report: no line is === up to line {lines}\n")
            }
        }
    }
}

/// The place of the first such byte.
fn place_of(byte: u8, text: &[u8]) -> Option<usize>
    ensures place { result ≡ position (λ b. b == byte) text.now }
    ensures within { IfSome result (λ n. n < length text.now) }
{
    text.iter().position(|b| *b == byte)
}

/// A line without the carriage return at its end.
fn without_return(line: &[u8]) -> &[u8]
    ensures { result.now ≡ strip_carriage_return line.now }
{
    match line {
        [front @ .., b'\r'] => front,
        _ => line,
    }
}

/// How many line feeds a text has.
fn lines_in(text: &[u8]) -> usize
    ensures { result ≡ spec.lines_in text.now }
{
    text.iter().filter(|byte| **byte == b'\n').count()
}

/// The text before the first line that is the mark of a report, and the one behind that line.
fn split_report(text: &[u8]) -> Option<(&[u8], &[u8])>
    ensures parts { option_map (λ p. (p.0.now, p.1.now)) result ≡ spec.split_report text.now }
    ensures within { IfSome result (λ p. length p.0.now + length p.1.now ≤ length text.now) }
{
    let mut start = 0;
    while let Some(feed) = place_of(b'\n', &text[start..]) {
        let end = start + feed;
        if without_return(&text[start..end]) == MARK {
            return Some((&text[..start], &text[end + 1..]));
        }
        start = end + 1;
    }
    None
}

/// The fault of a configuration, if it has one.
#[tactic(auto, using(crate::proofs::Parts::no_fault))]
fn configuration_fault(alloc: Global, text: &[u8]) -> Result<Option<ConfigFault>, AllocError>
    ensures { IfOk result (λ fault. fault ≡ fault_of text.now) }
{
    match read_config(alloc, text) {
        Ok(_) => Ok(None),
        Err(ConfigFault::NoMemory) => Err(AllocError),
        Err(fault) => Ok(Some(fault)),
    }
}

/// The directives of a script, or its fault.
fn directives(alloc: Global, text: &[u8]) -> Result<Result<Vec<Directive>, ScriptFault>, AllocError>
    requires { length text.now < 2 ^ 32 }
    ensures { IfOk result (λ read. spec.script_of (λ script. script.items) read ≡ script text.now) }
{
    match read_script(alloc, text) {
        Ok(script) => Ok(Ok(script)),
        Err(ScriptFault::NoMemory) => Err(AllocError),
        Err(fault) => Ok(Err(fault)),
    }
}

/// What a configuration, a script and a report give to be drawn, with so many lines before the report.
fn read_parts(
    alloc: Global,
    before: usize,
    configuration: &[u8],
    script: &[u8],
    report: &[u8],
) -> Result<Result<Given, InputEnd>, AllocError>
    requires { length script.now < 2 ^ 32 }
    ensures { IfOk result (λ r. (form : Form) → spec.judged_parts form before script.now report.now (fault_of configuration.now) ≡ spec.ended form (spec.found r)) }
{
    if let Some(fault) = configuration_fault(alloc, configuration)? {
        return Ok(Err(InputEnd::Configuration(fault)));
    }
    match directives(alloc, script)? {
        Ok(script) => Ok(Ok(Given {
            script,
            report: Vec::from_slice(alloc, report)?,
            before,
        })),
        Err(fault) => Ok(Err(InputEnd::Script(fault))),
    }
}

/// What is given by an input whose configuration stands before its separator, and this behind it.
fn read_behind(
    alloc: Global,
    bytes: &[u8],
    configuration: &[u8],
    behind: &[u8],
) -> Result<Result<Given, InputEnd>, AllocError>
    requires { length behind.now ≤ length bytes.now }
    ensures { IfOk result (λ r. (form : Form) → spec.judged_report form bytes.now configuration.now behind.now (spec.split_report behind.now) ≡ spec.ended form (spec.found r)) }
{
    let Some((script, report)) = split_report(behind) else {
        return Ok(Err(InputEnd::NoReport(lines_in(bytes))));
    };
    let size = bytes.len() - (behind.len() - script.len());
    if size > MOST_BYTES {
        return Ok(Err(InputEnd::LongFile));
    }
    let before = lines_in(&bytes[..bytes.len() - report.len()]);
    read_parts(alloc, before, configuration, script, report)
}

/// What an input gives to be drawn, or why nothing is drawn.
pub(crate) fn parts_of(alloc: Global, bytes: &[u8]) -> Result<Result<Given, InputEnd>, AllocError>
    ensures { IfOk result (λ r. (form : Form) → spec.judged_file form bytes.now (file bytes.now) ≡ spec.ended form (spec.found r)) }
{
    match split_file(bytes) {
        Some((configuration, behind)) => read_behind(alloc, bytes, configuration, behind),
        None => Ok(Err(InputEnd::NoSeparator)),
    }
}
