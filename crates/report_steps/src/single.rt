ghost use Rattle.std.specs.Prelude.{◌≡◌, ◌<◌, ◌==◌, ◌&&◌, [], ◌∷◌, ℕ, IfOk, List, None, Some, length, option_copied, option_map, option_to_list, if◌then◌else◌};
ghost use Rattle.std.specs.Option.{IfSome};
ghost use Rattle.std.specs.Bool.{OnTrue};
ghost use Rattle.bench_report.specs.Lines.{line_of};
ghost use Rattle.bench_report.specs.Numbers.{AnswerFits};
ghost use Rattle.bench_report.specs.Report.{end_lines, move_lines};
ghost use Rattle.bench_report.specs.declared.frames.Purpose.{Purpose};
ghost use Rattle.mcal_base.specs.Reach.{CanApply};
ghost use Rattle.run_model.specs.Frame.{Open, is_act};
ghost use Rattle.run_model.specs.Legal.{IsServed};
ghost use Rattle.audit_frames.specs.Decides.{Decides};
ghost use Rattle.audit_frames.specs.FrameRules.{answer_after};
ghost use Rattle.audit_frames.specs.Told.{answer_of};
ghost use Rattle.audit_subject.specs.Hearings.{heard_in};
ghost use Rattle.report_text.specs.reading.Blocks.{AuditState};
ghost use Rattle.report_text.specs.Unread.{own_text};
ghost use Rattle.trace_reader.specs.Trace.{HasLineNumbers};
ghost use Rattle.report_auditor.specs.Auditing.{HasTime, IsReady, IsSound, Stands, StillSeen, purpose_by};
ghost use Rattle.report_steps.specs.Lines.{Advances, TakesLines};
ghost use Rattle.report_steps.specs.StepParts as spec;
ghost use Rattle.report_steps.specs.StepRules.{MakesStep};

use crate::lines::{one_more, takes};
use crate::made::Made;
use crate::numbers::{event_fits, move_fits, notice_fits, values_fit, words_fit};
use audit_base::Told;
use audit_frames::{Frame, Step, Task};
use audit_subject::{Heard, hear, names_own};
use bench_report::{Line, Tally};
use mcal_base::{Answer, Event, Move, NoMemory};
use report_auditor::{
    Auditor, Whole, event_of, received_right, sends_right, shows_right, starts_right,
};
use report_text::Report;
use trace_reader::Step as Read;

/// The event of a step that a line tells: none within where no event is marked, and none at all where the marked one can't
/// stand at its move.
fn event_at(read: &Read) -> Option<Option<Event>>
    ensures { result ≡ spec.event_at read.now }
{
    match read.mark {
        None => Some(None),
        Some(mark) => match event_of(&read.made, mark) {
            Some(event) => Some(Some(event)),
            None => None,
        },
    }
}

/// The line with which a frame ends that answers this, where it has an answer.
fn end_line<'t>(task: Task, answer: Option<&'t Answer>) -> Option<Line<'t>>
    ensures line { (frames : List Purpose) → option_to_list (option_map line_of result) ≡ end_lines (purpose_by task ∷ frames) (answer_of task (option_copied answer.entry)) }
    ensures numbers { IfSome result (λ line. HasLineNumbers (line_of line)) }
    ensures fits { AnswerFits (answer_of task (option_copied answer.entry)) }
{
    match (task, answer) {
        (Task::Line(line), _) => Some(Line::Leaves(line)),
        (Task::Call(caller), Some(answer)) => {
            let words = answer.words.as_slice();
            words_fit(words);
            Some(Line::Returns(caller.service, answer.head, words))
        }
        (Task::Call(_), None) => None,
    }
}

/// Whether a step stands at this depth, and waits for nothing.
fn is_at(told: u32, depth: u32, wait: u64) -> bool
    ensures { result ≡ (told == depth && wait == 0) }
{
    told == depth && wait == 0
}

/// Whether the step of a line may come, by what chip and module say of its move: there are as many frames, the register or the
/// word is there and the frame's module's, the move waits for nothing, the word that comes in is right, and a notice of a
/// serving comes with its arrays.
fn may_come<P: Whole>(auditor: &Auditor<P>, read: &Read) -> bool
    requires ready { IsReady P.fits P.within P.ticks 0 auditor.now }
    ensures right { (t : P.Table) (p : AuditState P.State P.Call) → Stands P.agrees P.setting P.table P.stands t auditor.now p →
        Decides result (spec.MayCome (P.setting t) p.moment p.moment.opens read.now) }
    ensures there { OnTrue result (CanApply read.now.made) }
    ensures frame { OnTrue result (spec.HasTop auditor.now.frames) }
{
    let Some(frame) = auditor.frames.top() else {
        return false;
    };
    let Some(origin) = auditor.origins.as_slice().first() else {
        return false;
    };
    if !read.made.is_there() {
        return false;
    }
    if !names_own(&auditor.parts, origin, &read.made) {
        return false;
    }
    if !received_right(&auditor.bus, &read.made, read.received) {
        return false;
    }
    if !shows_right(&auditor.parts, &auditor.bus, frame, origin, &read.made) {
        return false;
    }
    let depth = auditor.depth();
    let wait = auditor.bus.stall(&read.made);
    is_at(read.depth, depth, wait)
}

/// The machines are told the event of a step, and what they say is written down. Answers whether they allow it.
fn hears<P: Whole>(
    auditor: &mut Auditor<P>,
    read: &Read,
    event: Option<Event>,
    heard: &mut Heard,
) -> Result<bool, NoMemory>
    requires ready { IsReady P.fits P.within P.ticks 0 auditor.old }
    requires time { HasTime auditor.old.outside }
    requires there { CanApply read.now.made }
    ensures hears { (t : P.Table) (p : AuditState P.State P.Call) (o : Open P.Call) (os : List (Open P.Call)) → Stands P.agrees P.setting P.table P.stands t auditor.old p → p.moment.opens ≡ o ∷ os →
        IfOk result (λ allowed. spec.HearsStep P.agrees P.setting P.table P.stands t auditor.new p o (spec.step_told read.now event None) (heard_in allowed heard.new)) }
    ensures sound { IfOk result (λ _. (given : ℕ) → IsReady P.fits P.within P.ticks given auditor.old → IsSound P.fits P.within given auditor.new) }
    ensures now { IfOk result (λ allowed. IfSome (heard_in allowed heard.new) (λ h. h.around.time ≡ auditor.new.outside.time)) }
{
    let Some(frame) = auditor.frames.top() else {
        return Ok(false);
    };
    let Some(origin) = auditor.origins.as_slice().first() else {
        return Ok(false);
    };
    if !starts_right(&auditor.parts, &auditor.outside, frame, event) {
        return Ok(false);
    }
    let step = Step {
        made: read.made,
        value: read.value,
        event,
        ends: false,
    };
    let (parts, outside) = (&mut auditor.parts, &mut auditor.outside);
    let Ok(allowed) = hear(parts, outside, origin, frame, &step, read.received, heard) else {
        return Err(NoMemory);
    };
    Ok(allowed)
}

/// Whether the line of a move comes, where it has one; then it is taken.
fn says<P: Whole>(
    auditor: &mut Auditor<P>,
    report: &mut Report<'_>,
    made: &Move,
) -> Result<bool, NoMemory>
    ensures says { IfOk result (λ right. TakesLines right (move_lines made.now) report.old report.new) }
    ensures counted { IfOk result (λ _. auditor.new ≡ spec.counting (move_lines made.now) auditor.old) }
    ensures on { IfOk result (λ _. Advances report.old report.new) }
{
    match *made {
        Move::Note(notice) => {
            notice_fits(notice);
            auditor.tally.notes = one_more(auditor.tally.notes)?;
            takes(report, Line::Notes(notice))
        }
        Move::Report(error) => {
            auditor.tally.errors = one_more(auditor.tally.errors)?;
            takes(report, Line::Errs(error))
        }
        _ => Ok(true),
    }
}

fn is_act(event: Option<Event>) -> bool
    ensures { result ≡ is_act event }
{
    matches!(event, Some(Event::Act))
}

/// The answer that a frame has behind a step with this event.
fn answer_by<'t>(frame: &'t Frame, event: Option<Event>, told: &'t Told) -> Option<&'t Answer>
    ensures { option_copied result ≡ answer_after frame.now.answer event told.now.answer }
{
    if is_act(event) {
        Some(told.answer())
    } else {
        frame.answer()
    }
}

/// The end of a frame is counted.
fn counts(tally: &mut Tally, task: Task) -> Result<(), NoMemory>
    ensures { IfOk result (λ _. tally.new ≡ spec.with_end task tally.old) }
{
    match task {
        Task::Call(_) => {
            tally.calls = one_more(tally.calls)?;
            Ok(())
        }
        Task::Line(_) => {
            tally.handlers = one_more(tally.handlers)?;
            Ok(())
        }
    }
}

/// Whether the line of the newest frame's end comes, with the answer of its act, where it has one; then it is taken.
fn ends<P: Whole>(
    auditor: &mut Auditor<P>,
    report: &mut Report<'_>,
    event: Option<Event>,
    told: &Told,
) -> Result<bool, NoMemory>
    ensures ends { IfOk result (λ right. spec.TakesEnd auditor.old.frames event told.now right report.old report.new) }
    ensures counted { IfOk result (λ right. auditor.new ≡ spec.counting (if right then spec.end_by auditor.old.frames event told.now else []) auditor.old) }
    ensures fits { IfOk result (λ _. AnswerFits (spec.end_answer auditor.old.frames event told.now)) }
    ensures on { IfOk result (λ _. Advances report.old report.new) }
{
    let Some(frame) = auditor.frames.top() else {
        return Ok(false);
    };
    let task = frame.terms().task;
    let Some(line) = end_line(task, answer_by(frame, event, told)) else {
        return Ok(false);
    };
    let right = takes(report, line)?;
    if !right {
        return Ok(false);
    }
    counts(&mut auditor.tally, task)?;
    Ok(true)
}

/// The newest frame is gone.
fn leaves<P: Whole>(auditor: &mut Auditor<P>)
    requires begun { 0 < length auditor.old.origins }
    ensures { auditor.new ≡ spec.without_top auditor.old }
{
    auditor.frames.end();
    auditor.origins.remove(0);
}

/// The newest frame makes a step, and the chip its move. Answers whether the frame may make it, the move gave what was
/// read, and the moment after it is served.
fn makes<P: Whole>(
    auditor: &mut Auditor<P>,
    read: &Read,
    step: &Step,
    heard: &Heard,
) -> Result<bool, NoMemory>
    requires there { CanApply read.now.made }
    requires same { step.now.made ≡ read.now.made }
    requires counted { length auditor.old.origins ≡ length auditor.old.frames }
    ensures moves { IfOk result (λ right. spec.Moves auditor.old auditor.new read.now step.now heard.now right) }
    ensures seen { IfOk result (λ right. OnTrue right ((t : P.Table) → P.table auditor.old.parts ≡ t → StillSeen P.agrees P.setting t auditor.old auditor.new read.now.made read.now.received step.now.event)) }
{
    let (told, polls) = (&heard.told, heard.polls.as_slice());
    let right = auditor.frames.step(step, told, polls, &heard.around)?;
    if !right {
        return Ok(false);
    }
    let value = auditor.replays(&read.made, step.event, read.received);
    if value != read.value {
        return Ok(false);
    }
    if !step.ends {
        return Ok(true);
    }
    leaves(auditor);
    Ok(true)
}

/// Lines behind a step's own are taken, and the step is made whose event the machines were told. Answers the step, and
/// none where it isn't right.
fn goes_on<P: Whole>(
    auditor: &mut Auditor<P>,
    report: &mut Report<'_>,
    read: &Read,
    event: Option<Event>,
    heard: &Heard,
) -> Result<Option<Made>, NoMemory>
    requires sound { IsSound P.fits P.within 0 auditor.old }
    requires there { CanApply read.now.made }
    requires now { heard.now.around.time ≡ auditor.old.outside.time }
    ensures makes { (t : P.Table) (p : AuditState P.State P.Call) (o : Open P.Call) (os : List (Open P.Call)) → p.moment.opens ≡ o ∷ os → spec.ComesNow (P.setting t) p.moment o read.now →
        spec.IsEarly (P.setting t) p.moment →
        spec.event_at read.now ≡ Some event → spec.IsHeard P.agrees P.setting P.table P.stands t auditor.old p o (spec.step_told read.now event None) heard.now →
        IfOk result (λ made. MakesStep (P.setting t) p read.now (Stands P.agrees P.setting P.table P.stands t auditor.new) report.old.number (own_text report.old) (own_text report.new) made) }
    ensures ready { (given : ℕ) → IsSound P.fits P.within given auditor.old → IfOk result (λ made. IfSome made (λ _. IsReady P.fits P.within P.ticks given auditor.new)) }
    ensures on { IfOk result (λ _. Advances report.old report.new) }
{
    let made = read.made;
    move_fits(made);
    event_fits(event);
    values_fit(read);
    if !sends_right(&auditor.bus, heard.begins, &made) {
        return Ok(None);
    }
    let said = says(auditor, report, &made)?;
    if !said {
        return Ok(None);
    }
    let ended = ends(auditor, report, event, &heard.told)?;
    let step = Step {
        made,
        value: read.value,
        event,
        ends: ended,
    };
    let right = makes(auditor, read, &step, heard)?;
    if !right {
        return Ok(None);
    }
    if !auditor.is_served() {
        return Ok(None);
    }
    Ok(Some(Made { made, event, ended }))
}

/// A step of the newest frame that waits for nothing, whose line was read; the lines behind it are taken. Answers none
/// where it isn't right. What the machines say of it is written to a place, which the caller keeps from step to step.
pub fn step<P: Whole>(
    auditor: &mut Auditor<P>,
    report: &mut Report<'_>,
    read: &Read,
    heard: &mut Heard,
) -> Result<Option<Made>, NoMemory>
    requires ready { IsReady P.fits P.within P.ticks 0 auditor.old }
    ensures makes { (t : P.Table) (p : AuditState P.State P.Call) → Stands P.agrees P.setting P.table P.stands t auditor.old p → IsServed (P.setting t) p.moment →
        IfOk result (λ made. MakesStep (P.setting t) p read.now (Stands P.agrees P.setting P.table P.stands t auditor.new) report.old.number (own_text report.old) (own_text report.new) made) }
    ensures ready { (given : ℕ) → IsReady P.fits P.within P.ticks given auditor.old → IfOk result (λ made. IfSome made (λ _. IsReady P.fits P.within P.ticks given auditor.new)) }
    ensures on { IfOk result (λ _. Advances report.old report.new) }
{
    if !auditor.has_time() {
        return Err(NoMemory);
    }
    if auditor.is_over() {
        return Ok(None);
    }
    if !may_come(auditor, read) {
        return Ok(None);
    }
    let Some(event) = event_at(read) else {
        return Ok(None);
    };
    let allowed = hears(auditor, read, event, heard)?;
    if !allowed {
        return Ok(None);
    }
    goes_on(auditor, report, read, event, heard)
}
