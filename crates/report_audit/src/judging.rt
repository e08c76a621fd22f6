ghost use Rattle.std.specs.Prelude.{◌≡◌, ◌+◌, ℕ, IfOk};
ghost use Rattle.std.specs.Bool.{OnTrue};
ghost use Rattle.run_model.specs.Legal.{IsServed};
ghost use Rattle.report_text.specs.reading.Blocks.{AuditState};
ghost use Rattle.report_text.specs.Unread.{own_text};
ghost use Rattle.script_runner.specs.Scripts.{words_given};
ghost use Rattle.script_runner.specs.Standing.{words_by};
ghost use Rattle.trace_reader.specs.Reading.{parts_of};
ghost use Rattle.report_auditor.specs.Auditing.{IsReady, IsSound, Stands};
ghost use Rattle.report_text.specs.reading.Audits.{Audits};
ghost use Rattle.report_audit.specs.Obeying as spec;
ghost use Rattle.report_steps.specs.Lines.{Advances};
ghost use Rattle.report_steps.specs.Taking.{Takes};
ghost use Rattle.report_audit.specs.Obeying.{PrintsItems};

use crate::directives::{call, enter, goes, hardware, show, ticks};
use mcal_base::{Directive, NoMemory, Order};
use report_auditor::{Auditor, Whole};
use report_steps::says_reset;
use report_text::reading::Verdict;
use report_text::{Ending, Report};
use run_model::StopCondition;

/// Whether the lines of a directive are those of a legal run; then they are taken.
fn obeys<P: Whole>(
    auditor: &mut Auditor<P>,
    report: &mut Report<'_>,
    configuration: &P::Configuration,
    directive: &Directive,
) -> Result<bool, NoMemory>
    requires ready { IsReady P.fits P.within P.ticks (words_by directive.now.order) auditor.old }
    requires valid { P.valid configuration.now }
    requires table { P.table auditor.old.parts ≡ P.table_of configuration.now }
    requires can { spec.CanObey P.has_service directive.now }
    requires number { report.old.number ≡ directive.now.line }
    ensures obeys { (t : P.Table) (p : AuditState P.State P.Call) → Stands P.agrees P.setting P.table P.stands t auditor.old p → IsServed (P.setting t) p.moment →
        IfOk result (λ right. Takes right (PrintsItems (P.setting t) P.call_of (P.showing configuration.now) p directive.now) (Stands P.agrees P.setting P.table P.stands t auditor.new) report.old.number (own_text report.old) (own_text report.new)) }
    ensures ready { (given : ℕ) → IsReady P.fits P.within P.ticks (words_by directive.now.order + given) auditor.old → IfOk result (λ right. OnTrue right (IsReady P.fits P.within P.ticks given auditor.new)) }
    ensures on { (t : P.Table) (p : AuditState P.State P.Call) → Stands P.agrees P.setting P.table P.stands t auditor.old p → IfOk result (λ _. Advances report.old report.new) }
{
    let line = directive.line;
    match &directive.order {
        Order::Call(level, request) => call(auditor, report, line, *level, request, false),
        Order::Do(level, request) => call(auditor, report, line, *level, request, true),
        Order::Enter(irq) => enter(auditor, report, line, *irq, false),
        Order::Serve(irq) => enter(auditor, report, line, *irq, true),
        Order::Run(steps) => goes(auditor, report, line, StopCondition::Count(*steps)),
        Order::Upto(stop) => goes(auditor, report, line, StopCondition::Until(*stop)),
        Order::Finish => goes(auditor, report, line, StopCondition::Whole),
        Order::Tick(count) => ticks(auditor, report, line, *count),
        Order::Reset(reason) => says_reset(auditor, report, *reason),
        Order::Show(what) => show(auditor, report, configuration, line, *what),
        Order::Level(..)
        | Order::Analog(..)
        | Order::Trigger(_)
        | Order::Miso(..)
        | Order::SpiFault(_)
        | Order::Detach
        | Order::Fill(..) => hardware(auditor, report, directive),
    }
}

/// Whether the block of a directive is that of a legal run; then it is taken.
fn block<P: Whole>(
    auditor: &mut Auditor<P>,
    report: &mut Report<'_>,
    configuration: &P::Configuration,
    directive: &Directive,
) -> Result<bool, NoMemory>
    requires ready { IsReady P.fits P.within P.ticks (words_by directive.now.order) auditor.old }
    requires valid { P.valid configuration.now }
    requires table { P.table auditor.old.parts ≡ P.table_of configuration.now }
    requires can { spec.CanObey P.has_service directive.now }
    ensures block { (t : P.Table) (p : AuditState P.State P.Call) → Stands P.agrees P.setting P.table P.stands t auditor.old p → IsServed (P.setting t) p.moment →
        IfOk result (λ right. spec.BlockRight (P.setting t) P.call_of (P.showing configuration.now) p directive.now (Stands P.agrees P.setting P.table P.stands t auditor.new) report.old report.new right) }
    ensures ready { (given : ℕ) → IsReady P.fits P.within P.ticks (words_by directive.now.order + given) auditor.old → IfOk result (λ right. OnTrue right (IsReady P.fits P.within P.ticks given auditor.new)) }
{
    let Ok(()) = report.begin(directive.line) else {
        return Err(NoMemory);
    };
    let right = obeys(auditor, report, configuration, directive)?;
    if !right {
        return Ok(false);
    }
    Ok(report.block_is_over())
}

/// What is answered of what is left where the last line must come, which is the line of this number.
fn verdict(ending: Ending, last: u32) -> Result<Verdict, NoMemory>
    ensures { IfOk result (λ verdict. verdict ≡ spec.verdict_at last ending) }
{
    match ending {
        Ending::Alone => Ok(Verdict::Passed(last)),
        Ending::Followed => match last.checked_add(1) {
            Some(next) => Ok(Verdict::Fault(next)),
            None => Err(NoMemory),
        },
        Ending::Missing => Ok(Verdict::Fault(last)),
    }
}

/// Judges a report, block by block, and its last line, from a moment on that is served.
fn judges_on<P: Whole>(
    auditor: &mut Auditor<P>,
    report: &mut Report<'_>,
    configuration: &P::Configuration,
    script: &[Directive],
) -> Result<Verdict, NoMemory>
    requires ready { IsReady P.fits P.within P.ticks (words_given script.now) auditor.old }
    requires valid { P.valid configuration.now }
    requires stands { spec.StandsServed P.agrees P.setting P.table P.stands (P.table_of configuration.now) auditor.old }
    requires can { spec.CanObeyAll P.has_service script.now }
    ensures { (p : AuditState P.State P.Call) → Stands P.agrees P.setting P.table P.stands (P.table_of configuration.now) auditor.old p → IsServed (P.setting (P.table_of configuration.now)) p.moment →
        IfOk result (λ verdict. Audits (P.setting (P.table_of configuration.now)) P.call_of (P.showing configuration.now) p script.now (report.old.read + 1) (parts_of report.old.left) verdict) }
{
    for directive in script {
        let line = report.next_line();
        let right = block(auditor, report, configuration, directive)?;
        if !right {
            return Ok(Verdict::Fault(line));
        }
    }
    let last = report.next_line();
    let Ok(ending) = report.end(&auditor.tally) else {
        return Err(NoMemory);
    };
    verdict(ending, last)
}

/// Judges a report, from its first moment on.
pub(crate) fn judges<P: Whole>(
    auditor: &mut Auditor<P>,
    report: &mut Report<'_>,
    configuration: &P::Configuration,
    script: &[Directive],
) -> Result<Verdict, NoMemory>
    requires sound { IsSound P.fits P.within (words_given script.now) auditor.old }
    requires valid { P.valid configuration.now }
    requires stands { spec.StandsSomewhere P.agrees P.setting P.table P.stands (P.table_of configuration.now) auditor.old }
    requires can { spec.CanObeyAll P.has_service script.now }
    requires first { report.old.read ≡ 0 }
    ensures { (p : AuditState P.State P.Call) → Stands P.agrees P.setting P.table P.stands (P.table_of configuration.now) auditor.old p →
        IfOk result (λ verdict. Audits (P.setting (P.table_of configuration.now)) P.call_of (P.showing configuration.now) p script.now 1 (parts_of report.old.left) verdict) }
{
    if auditor.is_served() {
        judges_on(auditor, report, configuration, script)
    } else {
        Ok(Verdict::Fault(1))
    }
}
