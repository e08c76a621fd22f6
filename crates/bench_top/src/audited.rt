ghost use Rattle.std.specs.Prelude.{◌≡◌, ◌≢◌, ◌≤◌, [], IfOk, IfErr, length, string_bytes};
ghost use Rattle.bench_top.specs.Audited as spec;
ghost use Rattle.bench_top.specs.Judged.{IsRefusedBy, IsUnread, Judgement, Prints, audited_config, configuration_of, judged_input, parts_ending, verdict_ending};
ghost use Rattle.bench_top.specs.Outcomes.{Ends};

use crate::file::{FileEnd, configuration, directives};
use crate::parts::{NoParts, Parts, parts_of};
use crate::refusal::Refusal;
use mcal_base::NoMemory;
use report_modules::audit;
use report_text::reading::Verdict;
use std::alloc::{AllocError, Global};

/// Why bytes have no verdict.
#[derive(Clone, Copy)]
pub(crate) enum NoVerdict {
    /// The bench file is refused.
    Refused(Refusal),
    /// No line behind its separator is the mark of a report.
    NoReport,
    /// It is longer than it may be.
    TooLong,
    /// Memory was not found.
    NoMemory,
}

/// Why bytes have no verdict that have no parts.
fn no_verdict(end: NoParts) -> NoVerdict
    ensures { IsRefusedBy result (Prints (parts_ending end)) }
{
    match end {
        NoParts::NoSeparator => NoVerdict::Refused(Refusal::NoSeparator),
        NoParts::NoReport => NoVerdict::NoReport,
        NoParts::TooLong => NoVerdict::TooLong,
    }
}

/// Why bytes have no verdict whose bench file wasn't read.
fn not_read(end: FileEnd) -> NoVerdict
    ensures { (judgement : Judgement) → IsUnread end judgement → IsRefusedBy result judgement }
{
    match end {
        FileEnd::Refused(refusal) => NoVerdict::Refused(refusal),
        FileEnd::NoMemory => NoVerdict::NoMemory,
    }
}

/// The verdict on parts: the configuration is read first, then the script, and then the report is judged.
fn verdict_on(alloc: Global, parts: Parts<'_>, devices: usize) -> Result<Verdict, NoVerdict>
    requires script { length parts.script.now ≤ 1048576 }
    requires report { length parts.report.now ≤ 268435456 }
    ensures judged { IfOk result (λ verdict. Ends devices (audited_config (configuration_of parts.entry.configuration.now) parts.entry.script.now parts.entry.report.now) (verdict_ending verdict) []) }
    ensures refused { IfErr result (λ end. IsRefusedBy end (audited_config (configuration_of parts.entry.configuration.now) parts.entry.script.now parts.entry.report.now)) }
{
    let config = match configuration(alloc, parts.configuration) {
        Ok(config) => config,
        Err(end) => return Err(not_read(end)),
    };
    let script = match directives(alloc, parts.script) {
        Ok(script) => script,
        Err(end) => return Err(not_read(end)),
    };
    match audit(alloc, &config, &script, devices, parts.report) {
        Ok(verdict) => Ok(verdict),
        Err(NoMemory) => Err(NoVerdict::NoMemory),
    }
}

/// The verdict on bytes: a bench file, the mark of a report, and a report, with so many serial devices in the rack.
pub(crate) fn audited(alloc: Global, bytes: &[u8], devices: usize) -> Result<Verdict, NoVerdict>
    requires { length bytes.now ≤ 268435456 }
    ensures judged { IfOk result (λ verdict. Ends devices (judged_input bytes.now) (verdict_ending verdict) []) }
    ensures refused { IfErr result (λ end. IsRefusedBy end (judged_input bytes.now)) }
{
    match parts_of(bytes) {
        Ok(parts) => verdict_on(alloc, parts, devices),
        Err(end) => Err(no_verdict(end)),
    }
}

/// The line that tells of a verdict.
pub(crate) fn verdict_text(alloc: Global, verdict: Verdict) -> Result<String, AllocError>
    ensures { IfOk result (λ text. string_bytes text ≡ spec.verdict_text verdict) }
{
    match verdict {
        Verdict::Passed(lines) => format!(in alloc; "audit ok {lines}\n"),
        Verdict::Fault(line) => format!(in alloc; "audit fault {line}\n"),
    }
}

/// The status of a verdict: none of those of a fault of the sink and of want of memory.
pub(crate) fn verdict_status(verdict: Verdict) -> u8
    ensures status { result ≡ spec.verdict_status verdict }
    ensures fault { result ≢ 3 }
    ensures memory { result ≢ 4 }
    ensures known { result ≤ 8 }
{
    match verdict {
        Verdict::Passed(_) => 0,
        Verdict::Fault(_) => 8,
    }
}
