ghost use Rattle.std.specs.Prelude.{◌≡◌, ◌∷◌, ◌<◌, ℕ, IfOk, None, length};
ghost use Rattle.std.specs.Bool.{OnTrue};
ghost use Rattle.bench_report.specs.declared.frames.Purpose.TheVariants.{Call, Handler};
ghost use Rattle.run_model.specs.Frame.{Called, Entered};
ghost use Rattle.run_model.specs.Follows.{call_held, line_held};
ghost use Rattle.run_model.specs.Legal.{IsLegalDeed, IsServed};
ghost use Rattle.run_model.specs.Moment.{after};
ghost use Rattle.audit_frames.specs.StandsFor.{IsBegun};
ghost use Rattle.audit_subject.specs.Origins.{origin_of};
ghost use Rattle.report_text.specs.reading.Blocks.{AuditState};
ghost use Rattle.report_text.specs.reading.Steps.{Comes};
ghost use Rattle.report_auditor.specs.Auditing.{IsReady, Stands, purpose_by};
ghost use Rattle.report_auditor.specs.Deeds.{Judges, beginning, opening};

use crate::auditor::Auditor;
use audit_frames::Terms;
use audit_subject::{Origin, call_terms, line_terms};
use audit_whole::Whole;
use irq_control::Held;
use mcal_base::{NoMemory, Request};

/// Keeps what a new frame was begun for.
fn keep_origin<C: Drop>(origins: &mut Vec<Origin<C>>, origin: Origin<C>) -> Result<(), NoMemory>
    ensures { IfOk result (λ _. origins.new.items ≡ origin ∷ origins.old.items) }
{
    match origins.insert(0, origin) {
        Ok(()) => Ok(()),
        Err(_) => Err(NoMemory),
    }
}

impl<P: Whole> Auditor<P> {
    /// A frame begins that is judged by these terms. Answers whether it may now, and the moment after it is served.
    fn begins(&mut self, terms: Terms, origin: Origin<P::Call>) -> Result<bool, NoMemory>
        requires ready { IsReady P.fits P.within P.ticks 0 self.old }
        requires free { length self.old.frames < 8 }
        ensures comes { (t : P.Table) (p : AuditState P.State P.Call) (level : ℕ) → Stands P.agrees P.setting P.table P.stands t self.old p → IsServed (P.setting t) p.moment →
            IsBegun (P.setting t) terms (opening (P.setting t) (origin_of origin) level) →
            IsLegalDeed (P.setting t) p.moment (beginning (origin_of origin) level) →
            IfOk result (λ right. let deed = beginning (origin_of origin) level in
            Judges right (Comes (P.setting t) p.moment deed) (Stands P.agrees P.setting P.table P.stands t self.new
            (record { moment = after (P.setting t) p.moment deed; frames = purpose_by terms.task ∷ p.frames; tally = p.tally }))) }
        ensures ready { (given : ℕ) → IsReady P.fits P.within P.ticks given self.old → IfOk result (λ right. OnTrue right (IsReady P.fits P.within P.ticks given self.new)) }
    {
        if self.is_over() {
            return Ok(false);
        }
        self.frames.begin(self.alloc, terms)?;
        keep_origin(&mut self.origins, origin)?;
        Ok(self.is_served())
    }

    /// Why a call that a request asks for is held at a level, where it is.
    pub fn call_held(&self, call: &P::Call, level: u32) -> Option<Held>
        ensures free { result ≡ None → length self.now.frames < 8 }
        ensures held { (t : P.Table) (p : AuditState P.State P.Call) → Stands P.agrees P.setting P.table P.stands t self.now p →
            result ≡ call_held (P.setting t) p.moment call.now level }
    {
        let class = self.parts.class(call);
        self.frames.call_held(self.bus.masked(), &class, level)
    }

    /// Why the handler of a line is held, where it is.
    pub fn line_held(&self, line: u32) -> Option<Held>
        ensures free { result ≡ None → length self.now.frames < 8 }
        ensures held { (t : P.Table) (p : AuditState P.State P.Call) → Stands P.agrees P.setting P.table P.stands t self.now p →
            result ≡ line_held (P.setting t) p.moment line }
    {
        let level = self.parts.level(line);
        let pending = self.bus.pending(line);
        self.frames.line_held(self.bus.masked(), level, pending)
    }

    /// What the frame of a call is judged by.
    fn call_terms(&self, call: &P::Call, level: u32) -> Terms
        ensures { (t : P.Table) (p : AuditState P.State P.Call) → Stands P.agrees P.setting P.table P.stands t self.now p →
            IsBegun (P.setting t) result (opening (P.setting t) (Called call.now) level) }
    {
        call_terms(&self.parts, call, level)
    }

    /// What the frame of the handler of a line is judged by.
    fn line_terms(&self, line: u32) -> Terms
        requires { line < 64 }
        ensures { (t : P.Table) (p : AuditState P.State P.Call) → Stands P.agrees P.setting P.table P.stands t self.now p →
            IsBegun (P.setting t) result (opening (P.setting t) (Entered line) 0) }
    {
        line_terms(&self.parts, line)
    }

    /// A call that isn't held begins. Answers whether it may now, and the moment after it is served.
    pub fn begins_call(&mut self, call: P::Call, level: u32) -> Result<bool, NoMemory>
        requires ready { IsReady P.fits P.within P.ticks 0 self.old }
        requires free { length self.old.frames < 8 }
        ensures comes { (t : P.Table) (p : AuditState P.State P.Call) → Stands P.agrees P.setting P.table P.stands t self.old p → IsServed (P.setting t) p.moment →
            call_held (P.setting t) p.moment call level ≡ None →
            IfOk result (λ right. let deed = beginning (Called call) level in
            Judges right (Comes (P.setting t) p.moment deed) (Stands P.agrees P.setting P.table P.stands t self.new
            (record { moment = after (P.setting t) p.moment deed; frames = Call ((P.setting t).machine.service_of call) ∷ p.frames; tally = p.tally }))) }
        ensures ready { (given : ℕ) → IsReady P.fits P.within P.ticks given self.old → IfOk result (λ right. OnTrue right (IsReady P.fits P.within P.ticks given self.new)) }
    {
        let terms = self.call_terms(&call, level);
        self.begins(terms, Origin::Call(call))
    }

    /// The handler of a line, of 32, that isn't held begins. Answers whether it may now, and the moment after it is served.
    pub fn begins_line(&mut self, line: u32) -> Result<bool, NoMemory>
        requires ready { IsReady P.fits P.within P.ticks 0 self.old }
        requires free { length self.old.frames < 8 }
        requires there { line < 64 }
        ensures comes { (t : P.Table) (p : AuditState P.State P.Call) → Stands P.agrees P.setting P.table P.stands t self.old p → IsServed (P.setting t) p.moment →
            line_held (P.setting t) p.moment line ≡ None →
            IfOk result (λ right. let deed = beginning (Entered line) 0 in
            Judges right (Comes (P.setting t) p.moment deed) (Stands P.agrees P.setting P.table P.stands t self.new
            (record { moment = after (P.setting t) p.moment deed; frames = Handler line ∷ p.frames; tally = p.tally }))) }
        ensures ready { (given : ℕ) → IsReady P.fits P.within P.ticks given self.old → IfOk result (λ right. OnTrue right (IsReady P.fits P.within P.ticks given self.new)) }
    {
        let terms = self.line_terms(line);
        self.begins(terms, Origin::Line(line))
    }
}
