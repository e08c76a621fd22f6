ghost use Rattle.std.specs.Prelude.{◌≡◌, ◌<◌, ℕ, IfOk, false, true};
ghost use Rattle.std.specs.Bool.{OnTrue};
ghost use Rattle.run_model.specs.Follows.{ends_within};
ghost use Rattle.run_model.specs.Legal.{IsServed};
ghost use Rattle.audit_frames.specs.Decides.{Decides};
ghost use Rattle.report_text.specs.reading.Blocks.{AuditState};
ghost use Rattle.report_text.specs.Unread.{own_text};
ghost use Rattle.report_auditor.specs.Auditing.{IsReady, Stands};
ghost use Rattle.report_steps.specs.Going as spec;
ghost use Rattle.report_steps.specs.Lines.{Advances, TakesLines};
ghost use Rattle.report_steps.specs.StepRules.{MakesStep};
ghost use Rattle.report_steps.specs.Taking.{PrintsOn, Takes};

use crate::lines::{next, one_more, takes};
use crate::made::Made;
use crate::single::step;
use audit_subject::{Heard, names_own};
use bench_report::Line;
use mcal_base::{Move, NoMemory, Reason, Reg};
use report_auditor::{Auditor, Whole};
use report_text::Report;
use run_model::StopCondition;
use trace_reader::{Step, Told};

/// What came of a line of a block of steps.
#[derive(Clone, Copy)]
pub enum Came {
    /// It isn't right.
    Wrong,
    /// A step was made.
    Step(Made),
    /// The watchdog's time ended, and the chip was reset.
    Reset,
}

/// The step that a line tells, where it tells one.
fn told_step(told: &Told) -> Option<Step>
    ensures { result ≡ spec.told_step told.now }
{
    match *told {
        Told::Step(step) => Some(step),
        _ => None,
    }
}

/// How many ticks the next step waited, where a line tells that.
fn told_wait(told: &Told) -> Option<u32>
    ensures { result ≡ spec.told_wait told.now }
{
    match *told {
        Told::Waited(ticks) => Some(ticks),
        _ => None,
    }
}

/// How many frames a reset of the watchdog dropped, where a line tells one.
fn told_reset(told: &Told) -> Option<u32>
    ensures { result ≡ spec.told_reset told.now }
{
    match *told {
        Told::Reset(Reason::Watchdog, dropped) => Some(dropped),
        _ => None,
    }
}

/// The unit that a move waits for, where it waits for one.
fn unit_of(made: &Move) -> Option<u32>
    ensures { result ≡ spec.unit_of made.now }
{
    match *made {
        Move::Read(Reg::SerialWait(unit)) => Some(unit),
        _ => None,
    }
}

/// Whether the newest frame may wait for a unit, which it may with the mask open.
fn waits_on<P: Whole>(auditor: &Auditor<P>, unit: u32) -> bool
    ensures { (t : P.Table) (p : AuditState P.State P.Call) → Stands P.agrees P.setting P.table P.stands t auditor.now p →
        Decides result (spec.WaitsOn (P.setting t) p.moment unit) }
{
    let Some(origin) = auditor.origins.as_slice().first() else {
        return false;
    };
    if auditor.bus.masked() {
        return false;
    }
    names_own(&auditor.parts, origin, &Move::Read(Reg::SerialWait(unit)))
}

/// Whether it may wait with a move.
fn may_wait<P: Whole>(auditor: &Auditor<P>, made: &Move) -> bool
    ensures { (t : P.Table) (p : AuditState P.State P.Call) → Stands P.agrees P.setting P.table P.stands t auditor.now p →
        Decides result (spec.WaitsOpen (P.setting t) p.moment made.now) }
{
    match unit_of(made) {
        Some(unit) => waits_on(auditor, unit),
        None => false,
    }
}

/// Whether the watchdog's time ends within so many ticks.
fn ends_within<P: Whole>(auditor: &Auditor<P>, ticks: u64) -> bool
    ensures { (t : P.Table) (p : AuditState P.State P.Call) → Stands P.agrees P.setting P.table P.stands t auditor.now p →
        result ≡ ends_within ticks ((P.setting t).machine.expires p.moment.world p.moment.state) }
{
    match auditor.parts.expires(&auditor.outside) {
        Some(left) => left <= ticks,
        None => false,
    }
}

/// Whether the newest frame may wait for a unit, and the watchdog's time ends in that wait.
fn ends_in_a_wait<P: Whole>(auditor: &Auditor<P>, unit: u32) -> bool
    ensures ends { (t : P.Table) (p : AuditState P.State P.Call) → Stands P.agrees P.setting P.table P.stands t auditor.now p →
        Decides result (spec.EndsWaiting (P.setting t) p.moment unit) }
    ensures few { result ≡ true → (t : P.Table) (p : AuditState P.State P.Call) → Stands P.agrees P.setting P.table P.stands t auditor.now p →
        spec.IsShort ((P.setting t).machine.expires p.moment.world p.moment.state) }
{
    let made = Move::Read(Reg::SerialWait(unit));
    let wait = auditor.bus.stall(&made);
    if wait == 0 {
        return false;
    }
    if !ends_within(auditor, wait) {
        return false;
    }
    waits_on(auditor, unit)
}

/// Whether it does so for one of the two units.
fn ends_waiting<P: Whole>(auditor: &Auditor<P>) -> bool
    ensures ends { (t : P.Table) (p : AuditState P.State P.Call) → Stands P.agrees P.setting P.table P.stands t auditor.now p →
        Decides result ((unit : ℕ) × (unit < 2) × spec.EndsWaiting (P.setting t) p.moment unit) }
    ensures few { result ≡ true → (t : P.Table) (p : AuditState P.State P.Call) → Stands P.agrees P.setting P.table P.stands t auditor.now p →
        spec.IsShort ((P.setting t).machine.expires p.moment.world p.moment.state) }
{
    if ends_in_a_wait(auditor, 0) {
        return true;
    }
    ends_in_a_wait(auditor, 1)
}

/// A step that waits for nothing, whose line was read.
fn comes<P: Whole>(
    auditor: &mut Auditor<P>,
    report: &mut Report<'_>,
    read: &Step,
    heard: &mut Heard,
) -> Result<Came, NoMemory>
    requires ready { IsReady P.fits P.within P.ticks 0 auditor.old }
    ensures comes { (t : P.Table) (p : AuditState P.State P.Call) → Stands P.agrees P.setting P.table P.stands t auditor.old p → IsServed (P.setting t) p.moment →
        IfOk result (λ came. MakesStep (P.setting t) p read.now (Stands P.agrees P.setting P.table P.stands t auditor.new) report.old.number (own_text report.old) (own_text report.new) (spec.step_in came)) }
    ensures ready { (given : ℕ) → IsReady P.fits P.within P.ticks given auditor.old → IfOk result (λ came. spec.OnRight came (IsReady P.fits P.within P.ticks given auditor.new)) }
    ensures never { IfOk result (λ came. spec.is_reset came ≡ false) }
    ensures on { IfOk result (λ _. Advances report.old report.new) }
{
    match step(auditor, report, read, heard)? {
        Some(made) => Ok(Came::Step(made)),
        None => Ok(Came::Wrong),
    }
}

/// Whether a step may wait so many ticks, which don't pass the end of the watchdog's time.
fn waits_right<P: Whole>(auditor: &Auditor<P>, step: &Step, ticks: u32) -> bool
    ensures { (t : P.Table) (p : AuditState P.State P.Call) → Stands P.agrees P.setting P.table P.stands t auditor.now p →
        Decides result (spec.WaitsRight (P.setting t) p.moment step.now.made ticks) }
{
    if ticks == 0 {
        return false;
    }
    if !may_wait(auditor, &step.made) {
        return false;
    }
    let wait = auditor.bus.stall(&step.made);
    if wait != ticks as u64 {
        return false;
    }
    !ends_within(auditor, wait)
}

/// A step that waits so many ticks, as the line before it told.
fn waits<P: Whole>(
    auditor: &mut Auditor<P>,
    report: &mut Report<'_>,
    line: u32,
    ticks: u32,
    heard: &mut Heard,
) -> Result<Came, NoMemory>
    requires ready { IsReady P.fits P.within P.ticks 0 auditor.old }
    ensures waits { (t : P.Table) (p : AuditState P.State P.Call) → Stands P.agrees P.setting P.table P.stands t auditor.old p → IsServed (P.setting t) p.moment →
        IfOk result (λ came. spec.MakesAwaited (P.setting t) p ticks (Stands P.agrees P.setting P.table P.stands t auditor.new) report.old.number (own_text report.old) (own_text report.new) (spec.step_in came)) }
    ensures ready { (given : ℕ) → IsReady P.fits P.within P.ticks given auditor.old → IfOk result (λ came. spec.OnRight came (IsReady P.fits P.within P.ticks given auditor.new)) }
    ensures never { IfOk result (λ came. spec.is_reset came ≡ false) }
    ensures on { IfOk result (λ _. Advances report.old report.new) }
{
    let Some(told) = next(report, auditor.alloc)? else {
        return Ok(Came::Wrong);
    };
    let Some(step) = told_step(&told) else {
        return Ok(Came::Wrong);
    };
    if !waits_right(auditor, &step, ticks) {
        return Ok(Came::Wrong);
    }
    let came = auditor.tick(line, ticks)?;
    if !came {
        return Ok(Came::Wrong);
    }
    comes(auditor, report, &step, heard)
}

/// The watchdog's time ends in a wait, and its reset drops so many frames, as its line told.
fn runs_out<P: Whole>(auditor: &mut Auditor<P>, line: u32, dropped: u32) -> Result<bool, NoMemory>
    requires ready { IsReady P.fits P.within P.ticks 0 auditor.old }
    ensures out { (t : P.Table) (p : AuditState P.State P.Call) → Stands P.agrees P.setting P.table P.stands t auditor.old p → IsServed (P.setting t) p.moment →
        IfOk result (λ right. spec.RunsOutRight (P.setting t) p dropped (Stands P.agrees P.setting P.table P.stands t auditor.new) right) }
    ensures ready { (given : ℕ) → IsReady P.fits P.within P.ticks given auditor.old → IfOk result (λ right. OnTrue right (IsReady P.fits P.within P.ticks given auditor.new)) }
{
    let Some(left) = auditor.parts.expires(&auditor.outside) else {
        return Ok(false);
    };
    if dropped != auditor.depth() {
        return Ok(false);
    }
    if !ends_waiting(auditor) {
        return Ok(false);
    }
    // A wait is at most 8 ticks.
    let left = left.min(8) as u32;
    let came = auditor.tick(line, left)?;
    if !came {
        return Ok(false);
    }
    auditor.resets(Reason::Watchdog)
}

/// The next step, with its wait; or the watchdog's reset in its place.
fn step_or_reset<P: Whole>(
    auditor: &mut Auditor<P>,
    report: &mut Report<'_>,
    line: u32,
    heard: &mut Heard,
) -> Result<Came, NoMemory>
    requires ready { IsReady P.fits P.within P.ticks 0 auditor.old }
    ensures came { (t : P.Table) (p : AuditState P.State P.Call) → Stands P.agrees P.setting P.table P.stands t auditor.old p → IsServed (P.setting t) p.moment →
        IfOk result (λ came. spec.ComesNext (P.setting t) p (Stands P.agrees P.setting P.table P.stands t auditor.new) report.old report.new came) }
    ensures ready { (given : ℕ) → IsReady P.fits P.within P.ticks given auditor.old → IfOk result (λ came. spec.OnRight came (IsReady P.fits P.within P.ticks given auditor.new)) }
    ensures on { IfOk result (λ _. Advances report.old report.new) }
{
    let Some(told) = next(report, auditor.alloc)? else {
        return Ok(Came::Wrong);
    };
    if let Some(step) = told_step(&told) {
        return comes(auditor, report, &step, heard);
    }
    if let Some(ticks) = told_wait(&told) {
        return waits(auditor, report, line, ticks, heard);
    }
    let Some(dropped) = told_reset(&told) else {
        return Ok(Came::Wrong);
    };
    let right = runs_out(auditor, line, dropped)?;
    if !right {
        return Ok(Came::Wrong);
    }
    Ok(Came::Reset)
}

/// The chip is reset, as the block's next line says.
pub fn says_reset<P: Whole>(
    auditor: &mut Auditor<P>,
    report: &mut Report<'_>,
    reason: Reason,
) -> Result<bool, NoMemory>
    requires ready { IsReady P.fits P.within P.ticks 0 auditor.old }
    ensures resets { (t : P.Table) (p : AuditState P.State P.Call) → Stands P.agrees P.setting P.table P.stands t auditor.old p → IsServed (P.setting t) p.moment →
        IfOk result (λ right. Takes right (spec.PrintsReset (P.setting t) p reason) (Stands P.agrees P.setting P.table P.stands t auditor.new) report.old.number (own_text report.old) (own_text report.new)) }
    ensures ready { (given : ℕ) → IsReady P.fits P.within P.ticks given auditor.old → IfOk result (λ right. OnTrue right (IsReady P.fits P.within P.ticks given auditor.new)) }
    ensures on { IfOk result (λ _. Advances report.old report.new) }
{
    let said = takes(report, Line::Restarts(reason, auditor.depth()))?;
    if !said {
        return Ok(false);
    }
    auditor.resets(reason)
}

/// Whether ok comes where a directive printed nothing else; then it is taken.
fn says_done(report: &mut Report<'_>, silent: bool) -> Result<bool, NoMemory>
    ensures says { IfOk result (λ right. TakesLines right (spec.ok_where silent) report.old report.new) }
    ensures on { IfOk result (λ _. Advances report.old report.new) }
{
    if silent {
        takes(report, Line::Done)
    } else {
        Ok(true)
    }
}

/// Steps of the newest frame, each after its wait, as far as a directive reaches, or to the frame's end, or to a reset.
pub fn steps<P: Whole>(
    auditor: &mut Auditor<P>,
    report: &mut Report<'_>,
    line: u32,
    reach: StopCondition,
) -> Result<bool, NoMemory>
    requires ready { IsReady P.fits P.within P.ticks 0 auditor.old }
    ensures steps { (t : P.Table) (p : AuditState P.State P.Call) → Stands P.agrees P.setting P.table P.stands t auditor.old p → IsServed (P.setting t) p.moment →
        IfOk result (λ right. Takes right (PrintsOn (P.setting t) reach 0 true p) (Stands P.agrees P.setting P.table P.stands t auditor.new) report.old.number (own_text report.old) (own_text report.new)) }
    ensures ready { (given : ℕ) → IsReady P.fits P.within P.ticks given auditor.old → IfOk result (λ right. OnTrue right (IsReady P.fits P.within P.ticks given auditor.new)) }
    ensures on { IfOk result (λ _. Advances report.old report.new) }
{
    let mut heard = Heard::new();
    let mut count = 0_u64;
    let mut silent = true;
    'steps: loop {
        let made = match step_or_reset(auditor, report, line, &mut heard)? {
            Came::Wrong => return Ok(false),
            Came::Reset => return Ok(true),
            Came::Step(made) => made,
        };
        count = one_more(count)?;
        silent = made.keeps_silent(silent);
        if made.resets() {
            return says_reset(auditor, report, Reason::Software);
        }
        if made.is_last(reach, count) {
            return says_done(report, silent);
        }
    }
}
