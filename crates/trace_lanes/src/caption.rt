ghost use Rattle.std.specs.Prelude.{◌≡◌, Some};
ghost use Rattle.trace_lanes.specs.Captions as spec;

use crate::input_name::InputName;
use crate::rows::Row;
use bench_report::Purpose;
use std::fmt;
use trace_forms::kinds::{Asked, What};
use trace_forms::{Answered, Named, Request, Sentence};
use trace_reader::Reply;

/// What the colors stand for.
const COLORS: &str = "\
blue: call; orange: handler; dashed: under way at the end; red edge: dropped by a reset; black bar: the mask is closed";

/// What the symbols stand for.
const SYMBOLS: &str = "\
dot: act; diamond: serve; square: abort; triangle: start; cross: held; red line: waits to begin; grey: ticks pass";

/// How many signs were drawn, how many shapes were left out, and how many labels.
#[derive(Clone, Copy)]
struct Counts(usize, usize, usize);

impl fmt::Display for Counts {
    ghost output = { λ c. Some (spec.counts_text c.0 c.1 c.2) };

    fn fmt<W: fmt::Write>(&self, f: &mut fmt::Formatter<W>) -> fmt::Result {
        let Counts(drawn, left, unnamed) = *self;
        write!(
            f,
            "drawn: {drawn} signs; left out: {left} behind step 20000, {unnamed} labels without room (point at a shape to read its own)"
        )
    }
}

/// What a label says.
#[derive(Clone, Copy)]
pub enum Caption {
    /// The name of a row.
    Name(Row),
    /// A directive, with the number of its script line.
    Turn(u32, Asked),
    /// What a sign stands for.
    Says(What),
    /// So many ticks passed.
    Time(u64),
    /// What a frame was begun for.
    Frame(Purpose),
    /// What a frame was begun for, and its answer.
    Answer(Purpose, Reply),
    /// A frame waited for so many steps and so many ticks.
    Waits(usize, u64),
    /// A value.
    Value(u32),
    /// A run of so many steps and so many ticks.
    Run(usize, u64),
    /// A run of so many steps and so many ticks, of an input that has a name.
    NamedRun(InputName, usize, u64),
    /// So many signs were drawn, so many shapes left out, and so many labels.
    Tally(usize, usize, usize),
    /// What the colors stand for.
    Colors,
    /// What the symbols stand for.
    Symbols,
}

impl fmt::Display for Caption {
    ghost output = { λ c. Some (spec.caption_text c) };

    fn fmt<W: fmt::Write>(&self, f: &mut fmt::Formatter<W>) -> fmt::Result {
        match *self {
            Caption::Name(row) => write!(f, "{row}"),
            Caption::Turn(number, asked) => {
                let request = Request(asked);
                write!(f, "{number} {request}")
            }
            Caption::Says(what) => {
                let sentence = Sentence(what);
                write!(f, "{sentence}")
            }
            Caption::Time(ticks) => write!(f, "t={ticks}"),
            Caption::Frame(purpose) => {
                let name = Named(purpose);
                write!(f, "{name}")
            }
            Caption::Answer(purpose, reply) => {
                let name = Named(purpose);
                let answer = Answered(reply);
                write!(f, "{name}{answer}")
            }
            Caption::Waits(steps, ticks) => write!(f, "waits {steps} steps, {ticks} ticks"),
            Caption::Value(value) => write!(f, "{value}"),
            Caption::Run(steps, ticks) => write!(f, "A run of {steps} steps and {ticks} ticks"),
            Caption::NamedRun(name, steps, ticks) => {
                write!(f, "{name}: {steps} steps and {ticks} ticks")
            }
            Caption::Tally(drawn, left, unnamed) => {
                let counts = Counts(drawn, left, unnamed);
                write!(f, "{counts}")
            }
            Caption::Colors => f.write_str(COLORS),
            Caption::Symbols => f.write_str(SYMBOLS),
        }
    }
}
