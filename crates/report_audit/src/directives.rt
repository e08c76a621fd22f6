ghost use Rattle.std.specs.Prelude.{◌≡◌, ◌+◌, ◌-◌, ◌<◌, ◌≤◌, ℕ, IfOk, true};
ghost use Rattle.std.specs.Bool.{OnTrue};
ghost use Rattle.run_model.specs.Legal.{IsServed};
ghost use Rattle.report_text.specs.reading.Blocks.{AuditState};
ghost use Rattle.report_text.specs.Unread.{own_text};
ghost use Rattle.script_runner.specs.Standing.{makes_no_step, words_by};
ghost use Rattle.report_auditor.specs.Auditing.{IsReady, Stands};
ghost use Rattle.report_audit.specs.Directives as spec;
ghost use Rattle.report_audit.specs.Obeying.{NamesKnown};
ghost use Rattle.report_steps.specs.Lines.{Advances};
ghost use Rattle.report_steps.specs.Taking.{Takes};

use bench_report::Line;
use irq_control::Held;
use mcal_base::{Directive, NoMemory, Reason, Request, Shown};
use report_auditor::{Auditor, Whole};
use report_steps::{one_more, says_reset, steps, takes};
use report_text::Report;
use run_model::StopCondition;

/// Whether the block says that the directive is held so.
fn stays<P: Whole>(
    auditor: &mut Auditor<P>,
    report: &mut Report<'_>,
    cause: Held,
) -> Result<bool, NoMemory>
    ensures stays { IfOk result (λ right. spec.Stays right cause auditor.old auditor.new report.old report.new) }
    ensures on { IfOk result (λ _. Advances report.old report.new) }
{
    let held = one_more(auditor.tally.held)?;
    auditor.tally.held = held;
    takes(report, Line::Holds(cause))
}

/// A frame that began makes its steps where it is to be run whole, and waits for them else.
fn has_begun<P: Whole>(
    auditor: &mut Auditor<P>,
    report: &mut Report<'_>,
    line: u32,
    whole: bool,
) -> Result<bool, NoMemory>
    requires ready { IsReady P.fits P.within P.ticks 0 auditor.old }
    ensures goes { (t : P.Table) (p : AuditState P.State P.Call) → Stands P.agrees P.setting P.table P.stands t auditor.old p → IsServed (P.setting t) p.moment →
        IfOk result (λ right. Takes right (spec.PrintsBegun (P.setting t) whole p) (Stands P.agrees P.setting P.table P.stands t auditor.new) report.old.number (own_text report.old) (own_text report.new)) }
    ensures ready { (given : ℕ) → IsReady P.fits P.within P.ticks given auditor.old → IfOk result (λ right. OnTrue right (IsReady P.fits P.within P.ticks given auditor.new)) }
    ensures on { IfOk result (λ _. Advances report.old report.new) }
{
    if whole {
        steps(auditor, report, line, StopCondition::Whole)
    } else {
        takes(report, Line::Done)
    }
}

/// A call begins, and makes its steps where it is to be run whole.
pub(crate) fn call<P: Whole>(
    auditor: &mut Auditor<P>,
    report: &mut Report<'_>,
    line: u32,
    level: u32,
    request: &Request,
    whole: bool,
) -> Result<bool, NoMemory>
    requires ready { IsReady P.fits P.within P.ticks 0 auditor.old }
    requires has { P.has_service request.now.service ≡ true }
    ensures call { (t : P.Table) (p : AuditState P.State P.Call) → Stands P.agrees P.setting P.table P.stands t auditor.old p → IsServed (P.setting t) p.moment →
        IfOk result (λ right. Takes right (spec.PrintsCall (P.setting t) P.call_of p line level request.now whole) (Stands P.agrees P.setting P.table P.stands t auditor.new) report.old.number (own_text report.old) (own_text report.new)) }
    ensures ready { (given : ℕ) → IsReady P.fits P.within P.ticks given auditor.old → IfOk result (λ right. OnTrue right (IsReady P.fits P.within P.ticks given auditor.new)) }
    ensures on { IfOk result (λ _. Advances report.old report.new) }
{
    let call = auditor.parts.call(request);
    match auditor.call_held(&call, level) {
        Some(cause) => stays(auditor, report, cause),
        None => {
            let begun = auditor.begins_call(call, level)?;
            if !begun {
                return Ok(false);
            }
            has_begun(auditor, report, line, whole)
        }
    }
}

/// The handler of a line begins, and makes its steps where it is to be run whole.
pub(crate) fn enter<P: Whole>(
    auditor: &mut Auditor<P>,
    report: &mut Report<'_>,
    line: u32,
    irq: u32,
    whole: bool,
) -> Result<bool, NoMemory>
    requires ready { IsReady P.fits P.within P.ticks 0 auditor.old }
    requires there { irq < 64 }
    ensures enter { (t : P.Table) (p : AuditState P.State P.Call) → Stands P.agrees P.setting P.table P.stands t auditor.old p → IsServed (P.setting t) p.moment →
        IfOk result (λ right. Takes right (spec.PrintsEnter (P.setting t) p line irq whole) (Stands P.agrees P.setting P.table P.stands t auditor.new) report.old.number (own_text report.old) (own_text report.new)) }
    ensures ready { (given : ℕ) → IsReady P.fits P.within P.ticks given auditor.old → IfOk result (λ right. OnTrue right (IsReady P.fits P.within P.ticks given auditor.new)) }
    ensures on { IfOk result (λ _. Advances report.old report.new) }
{
    match auditor.line_held(irq) {
        Some(cause) => stays(auditor, report, cause),
        None => {
            let begun = auditor.begins_line(irq)?;
            if !begun {
                return Ok(false);
            }
            has_begun(auditor, report, line, whole)
        }
    }
}

/// Whether a directive asks for no step at all.
fn is_no_step(reach: StopCondition) -> bool
    ensures { result ≡ makes_no_step reach }
{
    matches!(reach, StopCondition::Count(0))
}

/// The newest frame goes on, where there is one.
pub(crate) fn goes<P: Whole>(
    auditor: &mut Auditor<P>,
    report: &mut Report<'_>,
    line: u32,
    reach: StopCondition,
) -> Result<bool, NoMemory>
    requires ready { IsReady P.fits P.within P.ticks 0 auditor.old }
    ensures goes { (t : P.Table) (p : AuditState P.State P.Call) → Stands P.agrees P.setting P.table P.stands t auditor.old p → IsServed (P.setting t) p.moment →
        IfOk result (λ right. Takes right (spec.PrintsGoing (P.setting t) reach p) (Stands P.agrees P.setting P.table P.stands t auditor.new) report.old.number (own_text report.old) (own_text report.new)) }
    ensures ready { (given : ℕ) → IsReady P.fits P.within P.ticks given auditor.old → IfOk result (λ right. OnTrue right (IsReady P.fits P.within P.ticks given auditor.new)) }
    ensures on { IfOk result (λ _. Advances report.old report.new) }
{
    let none = auditor.frames.depth() == 0;
    if none {
        return stays(auditor, report, Held::Empty);
    }
    if is_no_step(reach) {
        takes(report, Line::Done)
    } else {
        steps(auditor, report, line, reach)
    }
}

/// A directive of the hardware.
pub(crate) fn hardware<P: Whole>(
    auditor: &mut Auditor<P>,
    report: &mut Report<'_>,
    directive: &Directive,
) -> Result<bool, NoMemory>
    requires ready { IsReady P.fits P.within P.ticks (words_by directive.now.order) auditor.old }
    requires there { NamesKnown directive.now.order }
    ensures hardware { (t : P.Table) (p : AuditState P.State P.Call) → Stands P.agrees P.setting P.table P.stands t auditor.old p → IsServed (P.setting t) p.moment →
        IfOk result (λ right. Takes right (spec.PrintsHardware (P.setting t) p directive.now.order) (Stands P.agrees P.setting P.table P.stands t auditor.new) report.old.number (own_text report.old) (own_text report.new)) }
    ensures ready { (given : ℕ) → IsReady P.fits P.within P.ticks (words_by directive.now.order + given) auditor.old → IfOk result (λ right. OnTrue right (IsReady P.fits P.within P.ticks given auditor.new)) }
    ensures on { IfOk result (λ _. Advances report.old report.new) }
{
    match auditor.hardware_held(&directive.order) {
        Some(cause) => stays(auditor, report, cause),
        None => {
            let came = auditor.happens(directive)?;
            if !came {
                return Ok(false);
            }
            takes(report, Line::Done)
        }
    }
}

/// Ticks in which the watchdog's time ends: those up to there, its reset, and those that are left.
fn ticks_through<P: Whole>(
    auditor: &mut Auditor<P>,
    report: &mut Report<'_>,
    line: u32,
    left: u32,
    ticks: u32,
) -> Result<bool, NoMemory>
    requires ready { IsReady P.fits P.within P.ticks 0 auditor.old }
    requires within { left ≤ ticks }
    ensures through { (t : P.Table) (p : AuditState P.State P.Call) → Stands P.agrees P.setting P.table P.stands t auditor.old p → IsServed (P.setting t) p.moment →
        IfOk result (λ right. Takes right (spec.PrintsThrough (P.setting t) p left (ticks - left)) (Stands P.agrees P.setting P.table P.stands t auditor.new) report.old.number (own_text report.old) (own_text report.new)) }
    ensures ready { (given : ℕ) → IsReady P.fits P.within P.ticks given auditor.old → IfOk result (λ right. OnTrue right (IsReady P.fits P.within P.ticks given auditor.new)) }
    ensures on { IfOk result (λ _. Advances report.old report.new) }
{
    let came = auditor.tick(line, left)?;
    if !came {
        return Ok(false);
    }
    let said = says_reset(auditor, report, Reason::Watchdog)?;
    if !said {
        return Ok(false);
    }
    let done = left == ticks;
    if done {
        return Ok(true);
    }
    auditor.tick(line, ticks - left)
}

/// Ticks that go by before the watchdog's time ends.
fn ticks_on<P: Whole>(
    auditor: &mut Auditor<P>,
    report: &mut Report<'_>,
    line: u32,
    ticks: u32,
) -> Result<bool, NoMemory>
    requires ready { IsReady P.fits P.within P.ticks 0 auditor.old }
    ensures on { (t : P.Table) (p : AuditState P.State P.Call) → Stands P.agrees P.setting P.table P.stands t auditor.old p → IsServed (P.setting t) p.moment →
        IfOk result (λ right. Takes right (spec.PrintsTicksOn (P.setting t) p ticks) (Stands P.agrees P.setting P.table P.stands t auditor.new) report.old.number (own_text report.old) (own_text report.new)) }
    ensures ready { (given : ℕ) → IsReady P.fits P.within P.ticks given auditor.old → IfOk result (λ right. OnTrue right (IsReady P.fits P.within P.ticks given auditor.new)) }
    ensures advances { IfOk result (λ _. Advances report.old report.new) }
{
    let came = auditor.tick(line, ticks)?;
    if !came {
        return Ok(false);
    }
    takes(report, Line::Done)
}

/// The directive of ticks, in which the watchdog's time may end.
pub(crate) fn ticks<P: Whole>(
    auditor: &mut Auditor<P>,
    report: &mut Report<'_>,
    line: u32,
    ticks: u32,
) -> Result<bool, NoMemory>
    requires ready { IsReady P.fits P.within P.ticks 0 auditor.old }
    ensures ticks { (t : P.Table) (p : AuditState P.State P.Call) → Stands P.agrees P.setting P.table P.stands t auditor.old p → IsServed (P.setting t) p.moment →
        IfOk result (λ right. Takes right (spec.PrintsTicks (P.setting t) p line ticks) (Stands P.agrees P.setting P.table P.stands t auditor.new) report.old.number (own_text report.old) (own_text report.new)) }
    ensures ready { (given : ℕ) → IsReady P.fits P.within P.ticks given auditor.old → IfOk result (λ right. OnTrue right (IsReady P.fits P.within P.ticks given auditor.new)) }
    ensures on { IfOk result (λ _. Advances report.old report.new) }
{
    match auditor.parts.expires(&auditor.outside) {
        Some(left) => {
            let ends = left <= ticks as u64;
            if ends {
                ticks_through(auditor, report, line, left as u32, ticks)
            } else {
                ticks_on(auditor, report, line, ticks)
            }
        }
        None => ticks_on(auditor, report, line, ticks),
    }
}

/// The directive of a show.
pub(crate) fn show<P: Whole>(
    auditor: &mut Auditor<P>,
    report: &mut Report<'_>,
    configuration: &P::Configuration,
    line: u32,
    what: Shown,
) -> Result<bool, NoMemory>
    requires valid { P.valid configuration.now }
    requires table { P.table auditor.old.parts ≡ P.table_of configuration.now }
    requires number { report.old.number ≡ line }
    ensures show { (t : P.Table) (p : AuditState P.State P.Call) → Stands P.agrees P.setting P.table P.stands t auditor.old p → IsServed (P.setting t) p.moment →
        IfOk result (λ right. Takes right (spec.PrintsShow (P.setting t) (P.showing configuration.now) p line what) (Stands P.agrees P.setting P.table P.stands t auditor.new) report.old.number (own_text report.old) (own_text report.new)) }
    ensures ready { (given : ℕ) → IsReady P.fits P.within P.ticks given auditor.old → IfOk result (λ right. OnTrue right (IsReady P.fits P.within P.ticks given auditor.new)) }
    ensures on { (t : P.Table) (p : AuditState P.State P.Call) → Stands P.agrees P.setting P.table P.stands t auditor.old p → IfOk result (λ _. Advances report.old report.new) }
{
    let none = auditor.frames.depth() == 0;
    if !none {
        return stays(auditor, report, Held::Frames);
    }
    let Ok(text) = auditor
        .parts
        .shown(auditor.alloc, configuration, &auditor.outside, line, what)
    else {
        return Err(NoMemory);
    };
    let lines = text.as_str();
    if lines.is_empty() {
        takes(report, Line::Done)
    } else {
        Ok(report.takes_text(lines))
    }
}
