ghost use Rattle.std.specs.Prelude.{◌≡◌, ◌+◌, ◌<◌, IfOk, List, [], length, true};
ghost use Rattle.bench_report.specs.Report.{report_lines};
ghost use Rattle.bench_report.specs.Showing.{shows_from};
ghost use Rattle.chip_model.specs.Chip.{hung};
ghost use Rattle.run_model.specs.Entry.{Entry};
ghost use Rattle.run_model.specs.Moment.{start_moment};
ghost use Rattle.script_runner.specs.Scripts.{words_given};
ghost use Rattle.report_text.specs.reading.Audits.{AuditsReport, IsReportOf};
ghost use Rattle.report_text.specs.declared.reading.verdict.Verdict.TheVariants.{Passed};
ghost use Rattle.report_audit.specs.Judged as spec;

use crate::judging::judges;
use audit_base::Outside;
use audit_frames::Frames;
use bench_report::Tally;
use chip_model::Bus;
use mcal_base::{Directive, NoMemory};
use report_auditor::{Auditor, Seen, Whole, used_lines};
use report_text::Report;
use report_text::reading::Verdict;
use std::alloc::Global;

/// A bench at power on: its modules, what stands outside, the chip, and how many serial devices hang on it.
#[derive(Drop)]
pub struct Bench<P: Whole> {
    /// The modules, after power on.
    pub parts: P,
    /// What stands outside then.
    pub outside: Outside,
    /// The chip, with room for the words that the script gives.
    pub bus: Bus,
    pub devices: usize,
}

/// Judges the bytes of a report, from power on: how many lines it has, where it is the traced report of a run of the script
/// on this bench; else the number, from 1, of the line with which the first part begins that is refused. The script is one
/// that was read, so its lines rise, and what it names is there.
pub fn audit<P: Whole>(
    alloc: Global,
    bench: Bench<P>,
    configuration: &P::Configuration,
    script: &[Directive],
    report: &[u8],
) -> Result<Verdict, NoMemory>
    requires valid { P.valid configuration.now }
    requires modules { spec.ArePoweredOn P.setting P.table P.stands P.fits P.within (P.table_of configuration.now) bench.parts bench.outside }
    requires chip { spec.IsFresh bench.bus (words_given script.now) }
    requires script { spec.CanAudit P.has_service script.now }
    requires few { length report.now < 4294967295 }
    // What is answered, block by block.
    ensures audits { IfOk result (λ verdict.
        AuditsReport (P.setting (P.table_of configuration.now)) P.call_of (P.showing configuration.now) (hung bench.devices bench.bus) script.now report.now verdict) }
    // What is passed is the traced report of a run, whose journal it tells.
    ensures passed { IfOk result (λ verdict. spec.IsPassed verdict →
        spec.IsAudited (P.setting (P.table_of configuration.now)) P.call_of (P.showing configuration.now) (hung bench.devices bench.bus) script.now report.now) }
    // The traced report of each run is passed.
    ensures runs { (journal : List Entry) →
        IsReportOf (P.setting (P.table_of configuration.now)) P.call_of (P.showing configuration.now) (hung bench.devices bench.bus) script.now report.now journal →
        IfOk result (λ verdict. verdict ≡ Passed (1 + length (report_lines true [] (shows_from (P.setting (P.table_of configuration.now)) P.call_of (P.showing configuration.now) script.now
        (start_moment (P.setting (P.table_of configuration.now)) (hung bench.devices bench.bus)) journal) script.now journal))) }
{
    let Bench {
        parts,
        outside,
        mut bus,
        devices,
    } = bench;
    let Ok(mut report) = Report::new(alloc, report) else {
        return Err(NoMemory);
    };
    bus.hang(devices);
    let frames = Frames::new(alloc);
    let origins = Vec::new(alloc);
    let tally = Tally::default();
    let seen = Seen::nothing(used_lines(&parts));
    let mut auditor = Auditor {
        alloc,
        bus,
        parts,
        outside,
        devices,
        frames,
        origins,
        tally,
        seen,
    };
    judges(&mut auditor, &mut report, configuration, script)
}
