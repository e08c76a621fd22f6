ghost use Rattle.std.specs.Prelude.{◌≡◌, ◌<◌, ◌+◌, ◌^◌, ℕ, IfOk, option_copied};
ghost use Rattle.mcal_base.specs.Reach.{CanApply};
ghost use Rattle.mcal_base.specs.declared.moves.Event.TheVariants.{Act};
ghost use Rattle.run_model.specs.Frame as frame;
ghost use Rattle.run_model.specs.Frame.{happening_of, happening_at, outcome_of, caller_of};
ghost use Rattle.run_model.specs.World.{World};
ghost use Rattle.audit_base.specs.Deeds.{Follows};
ghost use Rattle.audit_base.specs.Outside.{IsWorld, IsAfter, AreTimes, ArePast};
ghost use Rattle.audit_frames.specs.FrameRules.{committed_at};
ghost use Rattle.audit_subject.specs.Origins.{origin_of};
ghost use Rattle.audit_subject.specs.Tellings as spec;

use crate::hearing::Heard;
use crate::origin::Origin;
use audit_base::{Done, Outside, Part};
use audit_frames::{Frame, Step};
use mcal_base::{Event, Move};
use std::alloc::AllocError;

/// A time, and now where there is none.
fn time_or(time: Option<u64>, now: u64) -> u64
    ensures { result ≡ frame.time_or now time }
{
    match time {
        Some(time) => time,
        None => now,
    }
}

/// When a frame wrote the commit register of each pulse channel last, and now where it didn't.
pub fn times_at(times: [Option<u64>; 8], now: u64) -> [u64; 8]
    ensures { result ≡ spec.times_at times now }
{
    [
        time_or(times[0], now),
        time_or(times[1], now),
        time_or(times[2], now),
        time_or(times[3], now),
        time_or(times[4], now),
        time_or(times[5], now),
        time_or(times[6], now),
        time_or(times[7], now),
    ]
}

/// The call of a frame, where it is one of a call.
fn caller<C>(origin: &Origin<C>) -> Option<&C>
    ensures { option_copied result ≡ caller_of (origin_of origin.now) }
{
    match origin {
        Origin::Call(call) => Some(call),
        Origin::Line(_) => None,
    }
}

/// The call of a frame acts, where it is one of a call.
fn act<P: Part>(
    part: &mut P,
    outside: &Outside,
    origin: &Origin<P::Call>,
    times: [u64; 8],
) -> Result<Option<Done>, AllocError>
    requires fits { P.fits part.old outside.now }
    requires count { outside.now.told + 1 < 2 ^ 32 }
    requires short { outside.now.osc < 2 ^ 63 }
    requires past { ArePast times outside.now.time }
    ensures follows { (w : World) (s : P.State) (received : ℕ) (committed : ℕ → ℕ) → IsWorld outside.now w → AreTimes times committed → P.stands part.old s →
        IfOk result (λ done. Follows (P.stands part.new) s done (outcome_of (P.member (P.table part.old)).machine w s (happening_of (origin_of origin.now) (record { received = received; committed = committed }) Act))) }
    ensures fits { IfOk result (λ _. (o : Outside) → IsAfter outside.now o → P.fits part.new o) }
    ensures table { P.table part.new ≡ P.table part.old }
{
    match origin {
        Origin::Call(call) => part.act(outside, call, times),
        Origin::Line(_) => Ok(None),
    }
}

/// The machine is told an event of a frame, where it may be; a word that begins there has this incoming word. None where the
/// machine doesn't allow it, which then changes nothing.
fn tell_event<P: Part>(
    part: &mut P,
    outside: &Outside,
    origin: &Origin<P::Call>,
    times: [u64; 8],
    received: u32,
    event: Event,
) -> Result<Option<Done>, AllocError>
    requires fits { P.fits part.old outside.now }
    requires count { outside.now.told + 1 < 2 ^ 32 }
    requires short { outside.now.osc < 2 ^ 63 }
    requires past { ArePast times outside.now.time }
    ensures follows { (w : World) (s : P.State) (committed : ℕ → ℕ) → IsWorld outside.now w → AreTimes times committed → P.stands part.old s →
        IfOk result (λ done. Follows (P.stands part.new) s done (outcome_of (P.member (P.table part.old)).machine w s (happening_of (origin_of origin.now) (record { received = received; committed = committed }) event))) }
    ensures fits { IfOk result (λ _. (o : Outside) → IsAfter outside.now o → P.fits part.new o) }
    ensures table { P.table part.new ≡ P.table part.old }
{
    match event {
        Event::Act => act(part, outside, origin, times),
        Event::Serve(line) => part.serve(outside, line, received),
        Event::Start(unit) => part.start(outside, unit, caller(origin), received),
        Event::Abort(unit) => part.abort(outside, unit),
    }
}

/// The machine is told an event of a frame's step, and what it tells is written down. Answers whether the machine allows it;
/// where it doesn't, nothing changes. It stands in a function of its own, since few steps have an event and what an act
/// tells is long.
#[inline(never)]
fn tell_into<P: Part>(
    part: &mut P,
    outside: &Outside,
    origin: &Origin<P::Call>,
    frame: &Frame,
    made: &Move,
    received: u32,
    event: Event,
    heard: &mut Heard,
) -> Result<bool, AllocError>
    requires fits { P.fits part.old outside.now }
    requires count { outside.now.told + 1 < 2 ^ 32 }
    requires short { outside.now.osc < 2 ^ 63 }
    requires there { CanApply made.now }
    requires past { ArePast (spec.times_at (committed_at frame.now made.now outside.now.time) outside.now.time) outside.now.time }
    ensures follows { (w : World) (s : P.State) (committed : ℕ → ℕ) → IsWorld outside.now w → AreTimes (spec.times_at (committed_at frame.now made.now outside.now.time) outside.now.time) committed → P.stands part.old s →
        IfOk result (λ allowed. Follows (P.stands part.new) s (spec.done_in allowed heard.new) (outcome_of (P.member (P.table part.old)).machine w s (happening_of (origin_of origin.now) (record { received = received; committed = committed }) event))) }
    ensures fits { IfOk result (λ _. (o : Outside) → IsAfter outside.now o → P.fits part.new o) }
    ensures table { P.table part.new ≡ P.table part.old }
{
    let time = outside.time;
    let times = times_at(frame.committed(made, time), time);
    let done = tell_event(part, outside, origin, times, received, event)?;
    match done {
        Some(done) => {
            heard.told = done.told;
            heard.begins = done.begins;
            Ok(true)
        }
        None => Ok(false),
    }
}

/// The machine is told the event of a frame's step, where one stands there, and what it tells is written down: without an
/// event no word begins, and what was told before stays there. Answers whether the machine allows it.
pub(crate) fn tell<P: Part>(
    part: &mut P,
    outside: &Outside,
    origin: &Origin<P::Call>,
    frame: &Frame,
    step: &Step,
    received: u32,
    heard: &mut Heard,
) -> Result<bool, AllocError>
    requires fits { P.fits part.old outside.now }
    requires count { outside.now.told + 1 < 2 ^ 32 }
    requires short { outside.now.osc < 2 ^ 63 }
    requires there { CanApply step.now.made }
    requires past { ArePast (spec.times_at (committed_at frame.now step.now.made outside.now.time) outside.now.time) outside.now.time }
    ensures came { (w : World) (s : P.State) (committed : ℕ → ℕ) → IsWorld outside.now w → AreTimes (spec.times_at (committed_at frame.now step.now.made outside.now.time) outside.now.time) committed → P.stands part.old s →
        IfOk result (λ allowed. spec.Came (P.stands part.new) s step.now.event (spec.done_in allowed heard.new) (outcome_of (P.member (P.table part.old)).machine w s (happening_at (origin_of origin.now) (record { received = received; committed = committed }) step.now.event))) }
    ensures fits { IfOk result (λ _. (o : Outside) → IsAfter outside.now o → P.fits part.new o) }
    ensures table { P.table part.new ≡ P.table part.old }
{
    match step.event {
        Some(event) => {
            tell_into(
                part, outside, origin, frame, &step.made, received, event, heard,
            )
        }
        None => {
            heard.begins = None;
            Ok(true)
        }
    }
}
