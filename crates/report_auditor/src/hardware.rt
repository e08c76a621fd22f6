ghost use Rattle.std.specs.Prelude.{◌≡◌, ◌+◌, ◌^◌, ◌<◌, ◌≤◌, ◌&&◌, ◌||◌, ℕ, IfOk, List, None, nat_le, nat_lt};
ghost use Rattle.std.specs.Bool.{OnTrue};
ghost use Rattle.std.specs.List.{list_any};
ghost use Rattle.chip_model.specs.Chip.{is_masked};
ghost use Rattle.mcal_base.specs.declared.directive.Order.TheVariants.{Fill, Tick};
ghost use Rattle.run_model.specs.Causes.{fill_cause, origins_of};
ghost use Rattle.run_model.specs.Legal.{InTime, IsServed, hardware_held};
ghost use Rattle.run_model.specs.Moment.{Happens, Resets, after, is_busy, reads_from};
ghost use Rattle.run_model.specs.World.{World};
ghost use Rattle.audit_base.specs.Outside.{IsWorld};
ghost use Rattle.audit_frames.specs.Decides.{Decides};
ghost use Rattle.audit_subject.specs.Origins.{origin_of};
ghost use Rattle.report_text.specs.reading.Blocks.{AuditState};
ghost use Rattle.report_text.specs.reading.Steps.{Comes};
ghost use Rattle.script_runner.specs.Standing.{words_by};
ghost use Rattle.report_auditor.specs.Auditing.{HasTime, IsReady, IsSound, NamesThere, Stands, moved_to};
ghost use Rattle.report_auditor.specs.Deeds as spec;
ghost use Rattle.report_auditor.specs.Deeds.{Judges, Moves, restarted};

use crate::auditor::Auditor;
use crate::seen::Seen;
use audit_subject::{Origin, Subject};
use audit_whole::Whole;
use irq_control::Held;
use mcal_base::{Directive, NoMemory, Order, Reason};
use run_model::reads_source;
use std::alloc::AllocError;

/// The most peripheral ticks of a tick of the oscillator.
const MOST_RATE: u32 = 16;

/// Whether a frame that was begun for this reads the source array of a serial channel.
fn reads_from<S: Subject>(subject: &S, channel: u32, origin: &Origin<S::Call>) -> bool
    ensures { result ≡ reads_from (S.setting (S.table subject.now)) channel (origin_of origin.now) }
{
    match origin {
        Origin::Call(call) => reads_source(channel, Some(subject.class(call))),
        Origin::Line(_) => false,
    }
}

/// Whether one of them does.
fn one_reads<S: Subject>(subject: &S, channel: u32, origins: &[Origin<S::Call>]) -> bool
    ensures { result ≡ list_any (λ o. reads_from (S.setting (S.table subject.now)) channel (origin_of o)) origins.now }
{
    origins
        .iter()
        .any(|origin| reads_from(subject, channel, origin))
}

/// The channel whose source array an order fills, where it fills one.
fn filled(order: &Order) -> Option<u32>
    ensures { result ≡ spec.filled order.now }
{
    match order {
        Order::Fill(channel, _) => Some(*channel),
        _ => None,
    }
}

/// Why a fill is held, by whether the mask is closed, the array is there, the machine has it in use, and a frame reads it.
fn fill_cause(masked: bool, there: bool, used: bool, read: bool) -> Option<Held>
    ensures { result ≡ fill_cause masked there (used || read) }
{
    if !there {
        Some(Held::Unknown)
    } else if masked || used || read {
        Some(Held::Busy)
    } else {
        None
    }
}

/// Why an order that fills no array is held, with so many devices: none of them is dropped where there is none.
fn other_cause(devices: usize, order: &Order) -> Option<Held>
    ensures { result ≡ spec.other_cause devices order.now }
{
    match order {
        Order::Detach => {
            if devices == 0 {
                Some(Held::Unknown)
            } else {
                None
            }
        }
        _ => None,
    }
}

/// The ticks of the oscillator that an order brings.
fn ticks_by(order: &Order) -> u32
    ensures { result ≡ spec.ticks_by order.now }
{
    match order {
        Order::Tick(ticks) => *ticks,
        _ => 0,
    }
}

/// How many devices there are after it.
fn devices_after(devices: usize, order: &Order) -> usize
    ensures { result ≡ spec.devices_after devices order.now }
{
    match order {
        Order::Detach => devices.saturating_sub(1),
        _ => devices,
    }
}

/// Whether time is left for so many ticks, where this is left of it.
fn lasts(left: u64, ticks: u32) -> bool
    ensures { result ≡ (nat_lt 0 left && nat_le ticks left) }
{
    0 < left && ticks as u64 <= left
}

impl<P: Whole> Auditor<P> {
    /// Why a directive of the hardware is held, where it is.
    pub fn hardware_held(&self, order: &Order) -> Option<Held>
        requires within { P.within self.now.parts }
        ensures filled { result ≡ None → (c : ℕ) (words : List ℕ) → order.now ≡ Fill c words → c < 16 }
        ensures held { (t : P.Table) (p : AuditState P.State P.Call) → Stands P.agrees P.setting P.table P.stands t self.now p →
            result ≡ hardware_held (P.setting t) p.moment order.now }
    {
        match filled(order) {
            Some(channel) => self.fill_held(channel),
            None => other_cause(self.devices, order),
        }
    }

    /// Why a fill of a serial channel's source array is held, where it is.
    fn fill_held(&self, channel: u32) -> Option<Held>
        requires within { P.within self.now.parts }
        ensures there { result ≡ None → channel < 16 }
        ensures held { (t : P.Table) (p : AuditState P.State P.Call) → Stands P.agrees P.setting P.table P.stands t self.now p →
            result ≡ fill_cause (is_masked p.moment.chip) ((P.setting t).fills channel) (is_busy (P.setting t) p.moment.world p.moment.state (origins_of p.moment.opens) channel) }
    {
        let masked = self.bus.masked();
        let there = self.parts.fills(channel);
        let used = self.parts.in_use(channel);
        let read = one_reads(&self.parts, channel, self.origins.as_slice());
        fill_cause(masked, there, used, read)
    }

    /// Whether what the hardware does may come now: while the watchdog's time runs no tick passes its end, and there nothing
    /// comes.
    fn is_in_time(&self, order: &Order) -> bool
        ensures time { (w : World) (s : P.State) → IsWorld self.now.outside w → P.stands self.now.parts s →
            Decides result (InTime {Call = P.Call} ((P.member (P.table self.now.parts)).machine.expires w s) (Happens order.now)) }
        ensures few { spec.ticks_by order.now < 2 ^ 32 }
    {
        let ticks = ticks_by(order);
        match self.parts.expires(&self.outside) {
            Some(left) => lasts(left, ticks),
            None => true,
        }
    }

    /// The peripheral ticks of a tick of the oscillator.
    fn rate(&self) -> u32
        ensures ticks { result ≡ P.ticks self.now.parts }
        ensures is { (s : P.State) → P.stands self.now.parts s → result ≡ (P.member (P.table self.now.parts)).machine.rate s }
    {
        self.parts.rate()
    }

    /// Chip, machines and what stands outside move.
    fn moves(&mut self, directive: &Directive, rate: u32) -> Result<(), AllocError>
        requires ready { IsReady P.fits P.within P.ticks (words_by directive.now.order) self.old }
        requires there { NamesThere directive.now.order }
        requires time { HasTime self.old.outside }
        requires few { spec.ticks_by directive.now.order < 2 ^ 32 }
        requires rate { (rate ≡ P.ticks self.old.parts) × (rate ≤ 16) }
        requires is { (s : P.State) → P.stands self.old.parts s → rate ≡ (P.member (P.table self.old.parts)).machine.rate s }
        ensures moved { (t : P.Table) (p : AuditState P.State P.Call) → Stands P.agrees P.setting P.table P.stands t self.old p →
            IfOk result (λ _. Moves (P.setting t) p.moment directive.now.order
            (Stands P.agrees P.setting P.table P.stands t self.new (moved_to (after (P.setting t) p.moment (Happens directive.now.order)) p))) }
        ensures sound { (given : ℕ) → IsReady P.fits P.within P.ticks (words_by directive.now.order + given) self.old → IfOk result (λ _. IsSound P.fits P.within given self.new) }
    {
        self.parts.moved(&self.outside, &directive.order)?;
        self.outside.move_by(&directive.order, rate)?;
        self.bus.hardware(directive);
        self.devices = devices_after(self.devices, &directive.order);
        self.seen.happens(&directive.order);
        Ok(())
    }

    /// The hardware moves. Answers whether it may now, and the moment after it is served. It isn't held.
    pub fn happens(&mut self, directive: &Directive) -> Result<bool, NoMemory>
        requires ready { IsReady P.fits P.within P.ticks (words_by directive.now.order) self.old }
        requires there { NamesThere directive.now.order }
        ensures comes { (t : P.Table) (p : AuditState P.State P.Call) → Stands P.agrees P.setting P.table P.stands t self.old p → IsServed (P.setting t) p.moment →
            hardware_held (P.setting t) p.moment directive.now.order ≡ None →
            IfOk result (λ right. let deed = Happens directive.now.order in
            Judges right (Comes (P.setting t) p.moment deed) (Stands P.agrees P.setting P.table P.stands t self.new (moved_to (after (P.setting t) p.moment deed) p))) }
        ensures ready { (given : ℕ) → IsReady P.fits P.within P.ticks (words_by directive.now.order + given) self.old → IfOk result (λ right. OnTrue right (IsReady P.fits P.within P.ticks given self.new)) }
    {
        if !self.has_time() {
            return Err(NoMemory);
        }
        let rate = self.rate();
        if rate > MOST_RATE {
            return Err(NoMemory);
        }
        if !self.is_in_time(&directive.order) {
            return Ok(false);
        }
        match self.moves(directive, rate) {
            Ok(()) => Ok(self.is_served()),
            Err(_) => Err(NoMemory),
        }
    }

    /// So many ticks of the oscillator come. Answers whether they may now, and the moment after them is served.
    pub fn tick(&mut self, line: u32, ticks: u32) -> Result<bool, NoMemory>
        requires ready { IsReady P.fits P.within P.ticks 0 self.old }
        ensures comes { (t : P.Table) (p : AuditState P.State P.Call) → Stands P.agrees P.setting P.table P.stands t self.old p → IsServed (P.setting t) p.moment →
            IfOk result (λ right. let deed = Happens (Tick ticks) in
            Judges right (Comes (P.setting t) p.moment deed) (Stands P.agrees P.setting P.table P.stands t self.new (moved_to (after (P.setting t) p.moment deed) p))) }
        ensures ready { (given : ℕ) → IsReady P.fits P.within P.ticks given self.old → IfOk result (λ right. OnTrue right (IsReady P.fits P.within P.ticks given self.new)) }
    {
        self.happens(&Directive {
            line,
            order: Order::Tick(ticks),
        })
    }

    /// Whether a reset may come now: when the watchdog's time has ended, its own alone may.
    fn may_reset(&self, reason: Reason) -> bool
        ensures { (w : World) (s : P.State) → IsWorld self.now.outside w → P.stands self.now.parts s →
            Decides result (InTime {Call = P.Call} ((P.member (P.table self.now.parts)).machine.expires w s) (Resets reason)) }
    {
        match reason {
            Reason::Watchdog => true,
            _ => !self.is_over(),
        }
    }

    /// The chip is reset, and every frame is dropped. Answers whether it may be now, and the moment after it is served.
    pub fn resets(&mut self, reason: Reason) -> Result<bool, NoMemory>
        requires ready { IsReady P.fits P.within P.ticks 0 self.old }
        ensures comes { (t : P.Table) (p : AuditState P.State P.Call) → Stands P.agrees P.setting P.table P.stands t self.old p → IsServed (P.setting t) p.moment →
            IfOk result (λ right. Judges right (Comes (P.setting t) p.moment (Resets reason)) (Stands P.agrees P.setting P.table P.stands t self.new (restarted (P.setting t) p reason))) }
        ensures ready { (given : ℕ) → IsReady P.fits P.within P.ticks given self.old → IfOk result (λ right. OnTrue right (IsReady P.fits P.within P.ticks given self.new)) }
    {
        if !self.has_time() {
            return Err(NoMemory);
        }
        if !self.may_reset(reason) {
            return Ok(false);
        }
        self.bus.reset(reason);
        self.parts.reset(&self.outside, reason);
        self.outside.count();
        self.frames.clear();
        self.origins.clear();
        self.seen = Seen::nothing(self.seen.used);
        Ok(self.is_served())
    }
}
