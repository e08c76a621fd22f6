ghost use Rattle.std.specs.Prelude.{◌≡◌, ℕ, false};
ghost use Rattle.std.specs.Bool.{OnTrue};
ghost use Rattle.mcal_base.specs.Bits.{bits_of};
ghost use Rattle.mcal_base.specs.declared.moves.Unit.{Unit};
ghost use Rattle.audit_frames.specs.Decides.{Decides};
ghost use Rattle.report_text.specs.reading.Blocks.{AuditState};
ghost use Rattle.report_auditor.specs.Auditing.{IsSound, Stands, seeing};
ghost use Rattle.report_auditor.specs.Seeing.{IsSeen};

use crate::auditor::Auditor;
use crate::seen::Seen;
use crate::served::{due_lines, units_rest};
use audit_whole::{Aspect, Whole};

/// The lines of serial units, as the bits of a mask: one that nothing configured uses may be due.
const SERIAL_LINES: u64 = 0xc00_0000;

impl<P: Whole> Auditor<P> {
    /// The lines that are due.
    pub(crate) fn due(&self) -> u64
        requires fits { P.fits self.now.parts self.now.outside }
        ensures { (t : P.Table) (p : AuditState P.State P.Call) → Stands P.agrees P.setting P.table P.stands t self.now p →
            result ≡ bits_of ((P.setting t).machine.due p.moment.world p.moment.state) 32 }
    {
        match self.seen.due {
            Some(due) => due,
            None => due_lines(&self.parts, &self.outside, self.seen.used | SERIAL_LINES),
        }
    }

    /// Whether no unit may start or abort: they are asked where that isn't known.
    pub(crate) fn units_rest(&self) -> bool
        requires fits { P.fits self.now.parts self.now.outside }
        ensures { (t : P.Table) (p : AuditState P.State P.Call) → Stands P.agrees P.setting P.table P.stands t self.now p →
            Decides result ((u : Unit) → (P.setting t).machine.startable p.moment.world p.moment.state u ≡ false) }
    {
        let known = self.seen.units;
        if known {
            return true;
        }
        units_rest(&self.parts, &self.outside)
    }

    /// Whether chip and machines agree in an aspect: it is looked at where that isn't known.
    fn is_seen(&self, aspect: Aspect) -> bool
        requires fits { P.fits self.now.parts self.now.outside }
        requires within { P.within self.now.parts }
        ensures { (t : P.Table) (p : AuditState P.State P.Call) → Stands P.agrees P.setting P.table P.stands t self.now p →
            OnTrue result (P.agrees aspect t p.moment.chip p.moment.world p.moment.state) }
    {
        if self.seen.knows(aspect) {
            return true;
        }
        self.parts.agrees_in(aspect, &self.outside, &self.bus)
    }

    /// What is known after all was looked at that has to be so wherever the mask is open.
    fn sees_open(&self) -> Seen
        requires fits { P.fits self.now.parts self.now.outside }
        requires within { P.within self.now.parts }
        ensures { (t : P.Table) (p : AuditState P.State P.Call) → Stands P.agrees P.setting P.table P.stands t self.now p →
            IsSeen P.agrees P.setting t result p.moment.chip p.moment.world p.moment.state }
    {
        let seen = self.seen;
        let due = self.due();
        let outputs = self.is_seen(Aspect::Outputs);
        let pins = self.is_seen(Aspect::Pins);
        let arrays = self.is_seen(Aspect::Arrays);
        Seen {
            used: seen.used,
            due: Some(due),
            units: seen.units,
            outputs,
            pins,
            ram: seen.ram,
            stamps: seen.stamps,
            results: seen.results,
            arrays,
        }
    }

    /// What is known after all was looked at.
    fn sees_all(&self) -> Seen
        requires fits { P.fits self.now.parts self.now.outside }
        requires within { P.within self.now.parts }
        ensures { (t : P.Table) (p : AuditState P.State P.Call) → Stands P.agrees P.setting P.table P.stands t self.now p →
            IsSeen P.agrees P.setting t result p.moment.chip p.moment.world p.moment.state }
    {
        let seen = self.seen;
        let due = self.due();
        let units = self.units_rest();
        let outputs = self.is_seen(Aspect::Outputs);
        let pins = self.is_seen(Aspect::Pins);
        let ram = self.is_seen(Aspect::Ram);
        let stamps = self.is_seen(Aspect::Stamps);
        let results = self.is_seen(Aspect::Results);
        let arrays = self.is_seen(Aspect::Arrays);
        Seen {
            used: seen.used,
            due: Some(due),
            units,
            outputs,
            pins,
            ram,
            stamps,
            results,
            arrays,
        }
    }

    /// Whether no frame is under way.
    fn is_at_rest(&self) -> bool {
        self.frames.depth() == 0
    }

    /// What is known after that was looked at which has to be so now.
    fn sees(&self) -> Seen
        requires fits { P.fits self.now.parts self.now.outside }
        requires within { P.within self.now.parts }
        ensures { (t : P.Table) (p : AuditState P.State P.Call) → Stands P.agrees P.setting P.table P.stands t self.now p →
            IsSeen P.agrees P.setting t result p.moment.chip p.moment.world p.moment.state }
    {
        if self.is_at_rest() {
            return self.sees_all();
        }
        if self.bus.masked() {
            return self.seen;
        }
        self.sees_open()
    }

    /// That is looked at which has to be so now and isn't known.
    pub(crate) fn looks(&mut self)
        requires fits { P.fits self.old.parts self.old.outside }
        requires within { P.within self.old.parts }
        ensures same { self.new ≡ seeing self.new.seen self.old }
        ensures stands { (t : P.Table) (p : AuditState P.State P.Call) → Stands P.agrees P.setting P.table P.stands t self.old p → Stands P.agrees P.setting P.table P.stands t self.new p }
        ensures sound { (given : ℕ) → IsSound P.fits P.within given self.old → IsSound P.fits P.within given self.new }
    {
        self.seen = self.sees();
    }
}
