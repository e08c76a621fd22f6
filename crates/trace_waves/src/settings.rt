ghost use Rattle.std.specs.Prelude.{◌≡◌, OnOk, IfOk};
ghost use Rattle.trace_waves.specs.Board.{put_all as all_put};
ghost use Rattle.trace_waves.specs.Settings as spec;

use crate::board::Board;
use crate::signal::{Context, Signal};
use crate::value::Value;
use bench_report::Purpose;
use irq_control::Held;
use mcal_base::{Move, Reason, Reg};
use std::alloc::{AllocError, Global};
use trace_forms::kinds::{Asked, Frame, Sign, What, may_begin};
use trace_reader::{Mark, Step};

/// What time is counted in.
#[derive(Clone, Copy)]
pub enum Clock {
    /// Steps.
    Steps,
    /// Ticks, of 1,000 each, and the steps so far.
    Ticks,
}

impl Clock {
    /// The time behind so many ticks and steps.
    pub(crate) fn time(self, ticks: u64, steps: usize) -> u64
        ensures { result ≡ spec.time self ticks steps }
    {
        match self {
            Clock::Steps => steps as u64,
            Clock::Ticks => ticks.saturating_mul(1000).saturating_add(steps as u64),
        }
    }
}

/// What was told last: what a directive asks for, and the ticks so far.
#[derive(Clone, Copy)]
pub(crate) struct Before {
    /// What the directive asks for.
    pub(crate) asked: Asked,
    /// The ticks so far.
    pub(crate) ticks: u64,
}

impl Before {
    /// Nothing was told yet.
    pub(crate) fn nothing() -> Before
        ensures { result ≡ spec.nothing }
    {
        Before {
            asked: Asked::Nothing,
            ticks: 0,
        }
    }

    /// The same behind one more sign.
    #[tactic(auto, unfolding(crate::specs::Settings::behind))]
    pub(crate) fn behind(self, what: What) -> Before
        ensures { result ≡ spec.behind self what }
    {
        match what {
            What::Turn(asked) => Before {
                asked,
                ticks: self.ticks,
            },
            What::Ticked(_, ticks) | What::Waited(_, ticks) => Before {
                asked: self.asked,
                ticks,
            },
            _ => self,
        }
    }
}

/// Where a frame runs, by what it was begun for and the level of its call.
fn context_of(purpose: Purpose, level: u32) -> Context
    ensures { result ≡ spec.context_of purpose level }
{
    match purpose {
        Purpose::Call(_) => Context::Level(level),
        Purpose::Handler(line) => Context::Line(line),
    }
}

/// What is written of a register, or read from it, that is of a pulse output.
fn pulse_of(made: Move, value: u32) -> Option<(Signal, Value)>
    ensures { result ≡ spec.pulse_of made value }
{
    match made {
        Move::Write(Reg::PulsePeriod(output), period) => {
            Some((Signal::Period(output), Value::Number(period as u64)))
        }
        Move::Write(Reg::PulseDuty(output), duty) => {
            Some((Signal::Duty(output), Value::Number(duty as u64)))
        }
        Move::Write(Reg::PulsePolarity(output), polarity) => {
            Some((Signal::Polarity(output), Value::Bit(polarity > 0)))
        }
        Move::Read(Reg::PulseOut(output)) => Some((Signal::Output(output), Value::Bit(value > 0))),
        _ => None,
    }
}

/// Sets what a directive asks for at once: the level of a pin, or the value of an analog input.
fn put_asked(board: &mut Board, alloc: Global, at: u64, asked: Asked) -> Result<(), AllocError>
    ensures { OnOk result (board.new ≡ all_put board.old (spec.asked at asked)) }
{
    match asked {
        Asked::Pin(pin, level) => board.set(alloc, at, Signal::Pin(pin), Value::Bit(level)),
        Asked::Analog(input, value) => {
            board.set(
                alloc,
                at,
                Signal::Analog(input),
                Value::Number(value as u64),
            )
        }
        _ => Ok(()),
    }
}

/// Sets what the first line of a directive shows.
fn put_turn(
    board: &mut Board,
    alloc: Global,
    at: u64,
    number: u32,
    asked: Asked,
) -> Result<(), AllocError>
    ensures { OnOk result (board.new ≡ all_put board.old (spec.turn at number asked)) }
{
    board.set(alloc, at, Signal::ScriptLine, Value::Number(number as u64))?;
    put_asked(board, alloc, at, asked)
}

/// Sets the service of a call at its level.
fn put_call(
    board: &mut Board,
    alloc: Global,
    at: u64,
    frame: Frame,
    value: Value,
) -> Result<(), AllocError>
    ensures { OnOk result (board.new ≡ all_put board.old (spec.call at frame.purpose frame.level value)) }
{
    match frame.purpose {
        Purpose::Call(_) => board.set(alloc, at, Signal::Call(frame.level), value),
        Purpose::Handler(_) => Ok(()),
    }
}

/// The word of a frame: its service, if it is of a call.
fn word_of(purpose: Purpose) -> Value
    ensures { result ≡ spec.word_of purpose }
{
    match purpose {
        Purpose::Call(service) => Value::Call(service),
        Purpose::Handler(_) => Value::Nothing,
    }
}

/// Sets that a frame begins.
fn put_begins(board: &mut Board, alloc: Global, at: u64, frame: Frame) -> Result<(), AllocError>
    ensures { OnOk result (board.new ≡ all_put board.old (spec.begins at frame)) }
{
    let context = context_of(frame.purpose, frame.level);
    board.set(alloc, at, Signal::Runs(context), Value::Bit(true))?;
    board.set(alloc, at, Signal::Waits(context), Value::Bit(false))?;
    put_call(board, alloc, at, frame, word_of(frame.purpose))
}

/// Sets that a frame is gone.
fn put_gone(board: &mut Board, alloc: Global, at: u64, frame: Frame) -> Result<(), AllocError>
    ensures { OnOk result (board.new ≡ all_put board.old (spec.gone at frame)) }
{
    let context = context_of(frame.purpose, frame.level);
    board.set(alloc, at, Signal::Runs(context), Value::Bit(false))?;
    put_call(board, alloc, at, frame, Value::Nothing)
}

/// Sets whether a frame that was asked for waits.
fn put_waits(
    board: &mut Board,
    alloc: Global,
    at: u64,
    asked: Asked,
    cause: Held,
) -> Result<(), AllocError>
    ensures { OnOk result (board.new ≡ all_put board.old (spec.waits at asked cause)) }
{
    match asked {
        Asked::Frame(purpose, level, _) => {
            let signal = Signal::Waits(context_of(purpose, level));
            board.set(alloc, at, signal, Value::Bit(may_begin(cause)))
        }
        _ => Ok(()),
    }
}

/// Sets that a directive was held.
fn put_held(
    board: &mut Board,
    alloc: Global,
    at: u64,
    asked: Asked,
    cause: Held,
) -> Result<(), AllocError>
    ensures { OnOk result (board.new ≡ all_put board.old (spec.held at asked cause)) }
{
    board.set(alloc, at, Signal::Held, Value::Held(cause))?;
    board.set(alloc, at, Signal::Reset, Value::Nothing)?;
    put_waits(board, alloc, at, asked, cause)
}

/// Sets what a move makes of the mask.
#[tactic(auto, unfolding(crate::specs::Settings::mask))]
fn put_mask(board: &mut Board, alloc: Global, at: u64, made: Move) -> Result<(), AllocError>
    ensures { OnOk result (board.new ≡ all_put board.old (spec.mask at made)) }
{
    match made {
        Move::Mask => board.set(alloc, at, Signal::Masked, Value::Bit(true)),
        Move::Unmask => board.set(alloc, at, Signal::Masked, Value::Bit(false)),
        _ => Ok(()),
    }
}

/// The word of an event.
fn event_of(mark: Option<Mark>) -> Value
    ensures { result ≡ spec.event_of mark }
{
    match mark {
        Some(mark) => Value::Event(mark),
        None => Value::Nothing,
    }
}

/// Sets the event of a step.
#[tactic(auto, unfolding(crate::specs::Settings::event))]
fn put_event(
    board: &mut Board,
    alloc: Global,
    at: u64,
    mark: Option<Mark>,
) -> Result<(), AllocError>
    ensures { OnOk result (board.new ≡ all_put board.old (spec.event at mark)) }
{
    let acts = matches!(mark, Some(Mark::Act));
    let serves = matches!(mark, Some(Mark::Serve(_)));
    board.set(alloc, at, Signal::Act, Value::Bit(acts))?;
    board.set(alloc, at, Signal::Serve, Value::Bit(serves))?;
    board.set(alloc, at, Signal::Event, event_of(mark))
}

/// Sets that what was told between two steps is told no more, where it wasn't told just before this one.
fn put_stale(board: &mut Board, alloc: Global, at: u64, fresh: bool) -> Result<(), AllocError>
    ensures { OnOk result (board.new ≡ all_put board.old (spec.stale at fresh)) }
{
    if fresh {
        return Ok(());
    }
    board.set(alloc, at, Signal::Held, Value::Nothing)?;
    board.set(alloc, at, Signal::Reset, Value::Nothing)
}

/// Sets what a step tells of a pulse output.
#[tactic(auto, unfolding(crate::specs::Settings::pulse))]
fn put_pulse(
    board: &mut Board,
    alloc: Global,
    at: u64,
    told: Option<(Signal, Value)>,
) -> Result<(), AllocError>
    ensures { OnOk result (board.new ≡ all_put board.old (spec.pulse at told)) }
{
    match told {
        Some((signal, value)) => board.set(alloc, at, signal, value),
        None => Ok(()),
    }
}

/// Sets what is told no more at a step.
#[tactic(auto, unfolding(crate::specs::Settings::cleared))]
fn put_cleared(board: &mut Board, alloc: Global, at: u64, fresh: bool) -> Result<(), AllocError>
    ensures { OnOk result (board.new ≡ all_put board.old (spec.cleared at fresh)) }
{
    board.set(alloc, at, Signal::Notice, Value::Nothing)?;
    board.set(alloc, at, Signal::Error, Value::Nothing)?;
    put_stale(board, alloc, at, fresh)
}

/// Sets what a step shows.
#[tactic(auto, using(crate::proofs::Steps::put_all_append), unfolding(crate::specs::Settings::stepped))]
fn put_step(
    board: &mut Board,
    alloc: Global,
    at: u64,
    step: Step,
    fresh: bool,
) -> Result<(), AllocError>
    ensures { OnOk result (board.new ≡ all_put board.old (spec.stepped at step fresh)) }
{
    put_mask(board, alloc, at, step.made)?;
    put_event(board, alloc, at, step.mark)?;
    put_cleared(board, alloc, at, fresh)?;
    put_pulse(board, alloc, at, pulse_of(step.made, step.value))
}

/// Sets that no handler waits, of so many lines.
#[tactic(auto, using(crate::proofs::Steps::put_all_append), unfolding(crate::specs::Settings::idle_lines))]
fn put_idle_lines(board: &mut Board, alloc: Global, at: u64, count: u32) -> Result<(), AllocError>
    ensures { OnOk result (board.new ≡ all_put board.old (spec.idle_lines at count)) }
{
    for line in 0..count {
        board.set(
            alloc,
            at,
            Signal::Waits(Context::Line(line)),
            Value::Bit(false),
        )?;
    }
    Ok(())
}

/// Sets that no call waits, of so many levels.
#[tactic(auto, using(crate::proofs::Steps::put_all_append), unfolding(crate::specs::Settings::idle_levels))]
fn put_idle_levels(board: &mut Board, alloc: Global, at: u64, count: u32) -> Result<(), AllocError>
    ensures { OnOk result (board.new ≡ all_put board.old (spec.idle_levels at count)) }
{
    for level in 0..count {
        board.set(
            alloc,
            at,
            Signal::Waits(Context::Level(level)),
            Value::Bit(false),
        )?;
    }
    Ok(())
}

/// Sets that the chip was reset.
#[tactic(auto, using(crate::proofs::Steps::put_all_append), unfolding(crate::specs::Settings::reset))]
fn put_reset(board: &mut Board, alloc: Global, at: u64, reason: Reason) -> Result<(), AllocError>
    ensures { OnOk result (board.new ≡ all_put board.old (spec.reset at reason)) }
{
    board.set(alloc, at, Signal::Reset, Value::Reset(reason))?;
    board.set(alloc, at, Signal::Held, Value::Nothing)?;
    board.set(alloc, at, Signal::Masked, Value::Bit(false))?;
    put_idle_levels(board, alloc, at, 8)?;
    put_idle_lines(board, alloc, at, 32)
}

/// Sets what a sign shows, behind what was told before it.
#[tactic(auto, unfolding(crate::specs::Settings::shown))]
fn put_what(
    board: &mut Board,
    alloc: Global,
    at: u64,
    before: Before,
    sign: Sign,
) -> Result<(), AllocError>
    ensures { OnOk result (board.new ≡ all_put board.old (spec.shown at before sign.number sign.what)) }
{
    match sign.what {
        What::Turn(asked) => put_turn(board, alloc, at, sign.number, asked),
        What::Ticked(_, ticks) | What::Waited(_, ticks) => {
            board.set(alloc, at, Signal::Ticks, Value::Number(ticks))
        }
        What::Begins(frame) => put_begins(board, alloc, at, frame),
        What::Stepped(step, fresh) => put_step(board, alloc, at, step, fresh),
        What::Held(cause) => put_held(board, alloc, at, before.asked, cause),
        What::Noted(notice) => board.set(alloc, at, Signal::Notice, Value::Notice(notice)),
        What::Erred(error) => board.set(alloc, at, Signal::Error, Value::Error(error)),
        What::Gone(frame, _) => put_gone(board, alloc, at, frame),
        What::Reset(reason, _) => put_reset(board, alloc, at, reason),
        What::Window(_) | What::Shown | What::Done => Ok(()),
    }
}

/// Sets what a sign shows at its time.
#[tactic(auto, unfolding(crate::specs::Settings::set_by))]
fn put_sign(
    board: &mut Board,
    alloc: Global,
    clock: Clock,
    before: Before,
    sign: Sign,
) -> Result<(), AllocError>
    ensures { OnOk result (board.new ≡ all_put board.old (spec.set_by clock before sign)) }
{
    let at = clock.time(before.ticks, sign.step);
    put_what(board, alloc, at, before, sign)
}

/// Sets what signs show, and gives what was told last.
#[tactic(auto, using(crate::proofs::Steps::put_all_append))]
pub(crate) fn put_signs(
    board: &mut Board,
    alloc: Global,
    clock: Clock,
    signs: &[Sign],
) -> Result<Before, AllocError>
    ensures board { OnOk result (board.new ≡ all_put board.old (spec.settings clock spec.nothing signs.now)) }
    ensures before { IfOk result (λ before. before ≡ spec.behind_all spec.nothing signs.now) }
{
    let mut before = Before::nothing();
    let mut rest = signs;
    while let [sign, later @ ..] = rest {
        before = before.behind(sign.what);
        put_sign(board, alloc, clock, before, *sign)?;
        rest = later;
    }
    Ok(before)
}
