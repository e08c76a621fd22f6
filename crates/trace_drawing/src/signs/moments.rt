ghost use Rattle.std.specs.Prelude.{◌≡◌, ◌++◌, OnOk, IfOk};
ghost use Rattle.trace_reader.specs.Reading.{Ends};
ghost use Rattle.trace_drawing.specs.signs.Moments as spec;

use bench_report::{Purpose, purpose_of};
use mcal_base::{Directive, Order};
use std::alloc::{AllocError, Global};
use trace_forms::kinds::Asked;
use trace_reader::{Told, TraceFault, TraceLine};

/// A line of a trace, with what its directive began there.
#[derive(Clone, Copy)]
pub struct Moment {
    /// The number of its script line.
    pub number: u32,
    /// What it tells.
    pub told: Told,
    /// Whether it is the first line of its directive.
    pub first: bool,
    /// What its directive asks for, at its first line.
    pub asked: Asked,
    /// What its directive began a frame for, at the first line of one that did.
    pub begins: Option<Purpose>,
    /// The ticks that its directive asked for, at its first line.
    pub ticks: u32,
}

/// What a directive asks for.
fn asked_of(order: &Order) -> Asked
    ensures { result ≡ spec.asked_of order.now }
{
    match order {
        Order::Call(level, request) => {
            Asked::Frame(Purpose::Call(request.service), *level, false)
        }
        Order::Do(level, request) => Asked::Frame(Purpose::Call(request.service), *level, true),
        Order::Enter(line) => Asked::Frame(Purpose::Handler(*line), 0, false),
        Order::Serve(line) => Asked::Frame(Purpose::Handler(*line), 0, true),
        Order::Run(steps) => Asked::Run(*steps),
        Order::Upto(stop) => Asked::Upto(*stop),
        Order::Finish => Asked::Finish,
        Order::Tick(ticks) => Asked::Tick(*ticks),
        Order::Level(pin, level) => Asked::Pin(*pin, *level),
        Order::Analog(input, value) => Asked::Analog(*input, *value),
        Order::Trigger(input) => Asked::Trigger(*input),
        Order::Miso(unit, _) => Asked::Miso(*unit),
        Order::SpiFault(unit) => Asked::SpiFault(*unit),
        Order::Detach => Asked::Detach,
        Order::Fill(channel, _) => Asked::Fill(*channel),
        Order::Reset(reason) => Asked::Reset(*reason),
        Order::Show(shown) => Asked::Show(*shown),
    }
}

/// The ticks that a directive asks for.
fn ticks_of(order: &Order) -> u32
    ensures { result ≡ spec.ticks_of order.now }
{
    match order {
        Order::Tick(ticks) => *ticks,
        _ => 0,
    }
}

/// What a directive begins a frame for, where its first line doesn't say that it was held.
fn begins_of(order: &Order, told: Told) -> Option<Purpose>
    ensures { result ≡ spec.begins_of order.now told }
{
    match told {
        Told::Held(_) => None,
        _ => purpose_of(order),
    }
}

/// The first line of a directive.
fn first_of(directive: &Directive, line: TraceLine) -> Moment
    ensures { result ≡ spec.first_of directive.now line }
{
    Moment {
        number: line.number,
        told: line.told,
        first: true,
        asked: asked_of(&directive.order),
        begins: begins_of(&directive.order, line.told),
        ticks: ticks_of(&directive.order),
    }
}

/// A later line of a directive.
fn later_of(line: TraceLine) -> Moment
    ensures { result ≡ spec.later_of line }
{
    Moment {
        number: line.number,
        told: line.told,
        first: false,
        asked: Asked::Nothing,
        begins: None,
        ticks: 0,
    }
}

/// Adds the later lines of a directive, and gives those behind them.
fn later_lines<'a>(
    moments: &mut Vec<Moment>,
    number: u32,
    lines: &'a [TraceLine],
) -> Result<&'a [TraceLine], AllocError>
    ensures own { OnOk result (moments.new.items ≡ moments.old.items ++ spec.own_lines number lines.now) }
    ensures behind { IfOk result (λ rest. rest.now ≡ spec.lines_behind number lines.now) }
{
    let mut rest = lines;
    while let [line, behind @ ..] = rest {
        if line.number != number {
            break;
        }
        moments.push(later_of(*line))?;
        rest = behind;
    }
    Ok(rest)
}

/// The lines of a trace as they belong to the directives of its script, each of which has at least one; else the first
/// that belongs to none, or that comes where another directive has none.
pub fn moments_of(
    alloc: Global,
    script: &[Directive],
    lines: &[TraceLine],
) -> Result<Vec<Moment>, TraceFault>
    ensures { Ends (λ v. v.items) result (spec.moments_of script.now lines.now) }
{
    let mut moments = Vec::new(alloc);
    let mut later = script;
    let mut rest = lines;
    while let [directive, others @ ..] = later {
        let [line, behind @ ..] = rest else {
            return Err(TraceFault::Line(moments.len() + 1));
        };
        if line.number != directive.line {
            return Err(TraceFault::Line(moments.len() + 1));
        }
        moments.push(first_of(directive, *line))?;
        rest = later_lines(&mut moments, directive.line, behind)?;
        later = others;
    }
    if rest.is_empty() {
        Ok(moments)
    } else {
        Err(TraceFault::Line(moments.len() + 1))
    }
}
