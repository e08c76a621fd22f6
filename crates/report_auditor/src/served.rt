ghost use Rattle.std.specs.Prelude.{◌≡◌, ◌≢◌, ◌<◌, ◌||◌, ℕ, false, not, true};
ghost use Rattle.chip_model.specs.Chip.{is_pending};
ghost use Rattle.std.specs.Bool.{OnTrue};
ghost use Rattle.mcal_base.specs.Bits.{bits_of, has_bit};
ghost use Rattle.mcal_base.specs.declared.moves.Unit as units;
ghost use Rattle.run_model.specs.Legal.{AreGoing, IsQuiet, IsServed, QuietAtRest};
ghost use Rattle.run_model.specs.World.{World};
ghost use Rattle.audit_base.specs.Outside.{IsWorld};
ghost use Rattle.audit_frames.specs.Decides.{Decides};
ghost use Rattle.audit_frames.specs.Masks as masks;
ghost use Rattle.report_text.specs.reading.Blocks.{AuditState};
ghost use Rattle.report_auditor.specs.Auditing.{IsSound, Stands, seeing};
ghost use Rattle.report_auditor.specs.Serving.{KeepsTime, LinesAgree, OpenRight};

use crate::auditor::{Auditor, same_left};
use audit_base::{Outside, Part};
use audit_frames::with_bit;
use audit_whole::Whole;
use mcal_base::Unit;

/// How many lines there are.
const LINES: u32 = 32;

/// The lowest line of a mask.
fn lowest(mask: u64) -> u32
    requires some { 0 < mask }
    ensures within { result < 64 }
    ensures set { has_bit mask result ≡ true }
{
    mask.trailing_zeros()
}

/// A mask without a line that it has.
fn without_bit(mask: u64, line: u32) -> u64
    requires within { line < 64 }
    requires set { has_bit mask line ≡ true }
    ensures smaller { result < mask }
    ensures clear { has_bit result line ≡ false }
    ensures kept { (k : ℕ) → k ≢ line → has_bit result k ≡ has_bit mask k }
{
    mask & !(1 << line)
}

/// The lines that are due, as the bits of a mask, where no others are than those of a mask, below 32: these are asked one by
/// one. It isn't inlined, so that whoever knows the lines makes no room for it.
#[inline(never)]
pub(crate) fn due_lines<P: Part>(part: &P, outside: &Outside, asked: u64) -> u64
    ensures { (w : World) (s : P.State) → P.fits part.now outside.now → IsWorld outside.now w → P.stands part.now s →
        ((l : ℕ) → (P.member (P.table part.now)).machine.due w s l ≡ true → has_bit asked l ≡ true) →
        ((l : ℕ) → (P.member (P.table part.now)).machine.due w s l ≡ true → l < 32) →
        result ≡ bits_of ((P.member (P.table part.now)).machine.due w s) 32 }
{
    let mut left = asked;
    let mut found = 0;
    while left != 0 {
        let line = lowest(left);
        left = without_bit(left, line);
        if part.due(outside, line) {
            found = with_bit(found, line);
        }
    }
    found
}

/// The lines that configured objects use.
pub fn used_lines<P: Part>(part: &P) -> u64
    ensures { result ≡ bits_of (P.member (P.table part.now)).lines 32 }
{
    let mut found = 0;
    for line in 0..LINES {
        if part.has_line(line) {
            found = with_bit(found, line);
        }
    }
    found
}

/// Whether each bit of the first mask is one of the second.
fn includes(need: u64, have: u64) -> bool
    ensures { result ≡ masks.includes need have }
{
    need & have == need
}

/// Whether none of four is so.
fn none_is(one: bool, two: bool, three: bool, four: bool) -> bool
    ensures { result ≡ not (one || two || three || four) }
{
    !(one || two || three || four)
}

/// Whether no unit may start or abort.
pub(crate) fn units_rest<P: Part>(part: &P, outside: &Outside) -> bool
    requires fits { P.fits part.now outside.now }
    ensures { (w : World) (s : P.State) → IsWorld outside.now w → P.stands part.now s →
        Decides result ((u : units.Unit) → (P.member (P.table part.now)).machine.startable w s u ≡ false) }
{
    let one = part.startable(outside, Unit::Adc0);
    let two = part.startable(outside, Unit::Adc1);
    let three = part.startable(outside, Unit::Spi0);
    let four = part.startable(outside, Unit::Spi1);
    none_is(one, two, three, four)
}

impl<P: Whole> Auditor<P> {
    /// Whether time goes on at the machines' rate.
    fn keeps_rate(&self) -> bool
        ensures right { (t : P.Table) (p : AuditState P.State P.Call) → Stands P.agrees P.setting P.table P.stands t self.now p →
            Decides result (p.moment.chip.clock.rate ≡ (P.setting t).machine.rate p.moment.state) }
        ensures rate { OnTrue result (self.now.chip.clock.rate ≡ P.ticks self.now.parts) }
    {
        let shown = self.bus.rate();
        let asked = self.parts.rate();
        shown == asked
    }

    /// Whether it does, and the watchdog has as much of it left as they say.
    fn keeps_time(&self) -> bool
        ensures time { (t : P.Table) (p : AuditState P.State P.Call) → Stands P.agrees P.setting P.table P.stands t self.now p →
            Decides result (KeepsTime (P.setting t) p.moment) }
        ensures rate { OnTrue result (self.now.chip.clock.rate ≡ P.ticks self.now.parts) }
    {
        if !self.keeps_rate() {
            return false;
        }
        same_left(self.bus.expiry(), self.parts.expires(&self.outside))
    }

    /// Whether each line that is due is pending, and each that is pending is used.
    fn lines_agree(&self, pending: u64) -> bool
        requires fits { P.fits self.now.parts self.now.outside }
        requires pending { (l : ℕ) → has_bit pending l ≡ is_pending self.now.chip l }
        ensures { (t : P.Table) (p : AuditState P.State P.Call) → Stands P.agrees P.setting P.table P.stands t self.now p →
            Decides result (LinesAgree (P.setting t) p.moment) }
    {
        if !includes(self.due(), pending) {
            return false;
        }
        includes(pending, self.seen.used)
    }

    /// Whether chip and machines agree in what they do wherever the mask is open, where it is.
    fn is_open_right(&self, pending: u64) -> bool
        requires fits { P.fits self.now.parts self.now.outside }
        requires pending { (l : ℕ) → has_bit pending l ≡ is_pending self.now.chip l }
        ensures { (t : P.Table) (p : AuditState P.State P.Call) → Stands P.agrees P.setting P.table P.stands t self.now p →
            Decides result (OpenRight (P.setting t) p.moment) }
    {
        if self.bus.masked() {
            return true;
        }
        if !self.lines_agree(pending) {
            return false;
        }
        if self.seen.knows_open() {
            return true;
        }
        let origins = self.origins.as_slice();
        self.parts.agrees_open(&self.outside, &self.bus, origins)
    }

    /// Whether those lines are pending that are due, and no others.
    fn has_due_lines(&self, pending: u64) -> bool
        requires fits { P.fits self.now.parts self.now.outside }
        requires pending { (l : ℕ) → has_bit pending l ≡ is_pending self.now.chip l }
        ensures { (t : P.Table) (p : AuditState P.State P.Call) → Stands P.agrees P.setting P.table P.stands t self.now p →
            Decides result ((l : ℕ) → is_pending p.moment.chip l ≡ (P.setting t).machine.due p.moment.world p.moment.state l) }
    {
        let due = self.due();
        pending == due
    }

    /// Whether they agree in what they do with no frame under way.
    fn is_quiet(&self, pending: u64) -> bool
        requires fits { P.fits self.now.parts self.now.outside }
        requires within { P.within self.now.parts }
        requires pending { (l : ℕ) → has_bit pending l ≡ is_pending self.now.chip l }
        ensures { (t : P.Table) (p : AuditState P.State P.Call) → Stands P.agrees P.setting P.table P.stands t self.now p →
            Decides result (IsQuiet (P.setting t) p.moment) }
    {
        if !self.units_rest() {
            return false;
        }
        if !self.has_due_lines(pending) {
            return false;
        }
        if self.seen.knows_rest() {
            return true;
        }
        self.parts.agrees_at_rest(&self.outside, &self.bus)
    }

    /// Whether they do so, where no frame is under way.
    fn is_quiet_at_rest(&self, pending: u64) -> bool
        requires fits { P.fits self.now.parts self.now.outside }
        requires within { P.within self.now.parts }
        requires pending { (l : ℕ) → has_bit pending l ≡ is_pending self.now.chip l }
        ensures { (t : P.Table) (p : AuditState P.State P.Call) → Stands P.agrees P.setting P.table P.stands t self.now p →
            Decides result (QuietAtRest (P.setting t) p.moment p.moment.opens) }
    {
        match self.frames.top() {
            Some(_) => true,
            None => self.is_quiet(pending),
        }
    }

    /// Whether neither lines nor outputs are asked: the mask is closed, with a frame under way.
    fn is_shut(&self) -> bool
        ensures { (t : P.Table) (p : AuditState P.State P.Call) → Stands P.agrees P.setting P.table P.stands t self.now p →
            OnTrue result (OpenRight (P.setting t) p.moment × QuietAtRest (P.setting t) p.moment p.moment.opens) }
    {
        if !self.bus.masked() {
            return false;
        }
        match self.frames.top() {
            Some(_) => true,
            None => false,
        }
    }

    /// Whether each frame can go on within its bounds. Those below the newest one can.
    fn are_going(&self) -> bool
        ensures { (t : P.Table) (p : AuditState P.State P.Call) → Stands P.agrees P.setting P.table P.stands t self.now p →
            Decides result (AreGoing (P.setting t) p.moment.opens) }
    {
        self.frames.is_going()
    }

    /// Whether the moment is one of a legal run, with what is known of it.
    fn is_right(&self) -> bool
        requires fits { P.fits self.now.parts self.now.outside }
        requires within { P.within self.now.parts }
        ensures served { (t : P.Table) (p : AuditState P.State P.Call) → Stands P.agrees P.setting P.table P.stands t self.now p →
            Decides result (IsServed (P.setting t) p.moment) }
        ensures rate { OnTrue result (self.now.chip.clock.rate ≡ P.ticks self.now.parts) }
    {
        if !self.keeps_time() {
            return false;
        }
        if !self.are_going() {
            return false;
        }
        if self.is_shut() {
            return true;
        }
        let pending = self.bus.pending_lines() as u64;
        if !self.is_open_right(pending) {
            return false;
        }
        self.is_quiet_at_rest(pending)
    }

    /// Whether the moment is one of a legal run: chip and machine agree as far as they have to. What of it is known isn't
    /// looked at, and what is seen is known from now on.
    pub fn is_served(&mut self) -> bool
        requires fits { P.fits self.old.parts self.old.outside }
        requires within { P.within self.old.parts }
        ensures served { (t : P.Table) (p : AuditState P.State P.Call) → Stands P.agrees P.setting P.table P.stands t self.old p →
            Decides result (IsServed (P.setting t) p.moment) }
        ensures rate { OnTrue result (self.new.chip.clock.rate ≡ P.ticks self.new.parts) }
        ensures same { self.new ≡ seeing self.new.seen self.old }
        ensures stands { (t : P.Table) (p : AuditState P.State P.Call) → Stands P.agrees P.setting P.table P.stands t self.old p → Stands P.agrees P.setting P.table P.stands t self.new p }
        ensures sound { (given : ℕ) → IsSound P.fits P.within given self.old → IsSound P.fits P.within given self.new }
    {
        self.looks();
        self.is_right()
    }
}
