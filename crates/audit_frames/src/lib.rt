//! Frames as a checker of reports keeps them: of what a frame has done a few bits, and whether a step is one that it may make.
#![tactic(auto)]

mod accesses;
mod act;
mod bits;
mod frame;
mod frames;
mod laws;
mod lines;
mod owing;
mod pace;
mod rules;
mod same;
mod terms;

pub use accesses::Accesses;
pub use act::Acted;
pub use bits::{has_bit, with_bit};
pub use frame::Frame;
pub use frames::Frames;
pub use laws::{Run, steps_are_judged};
pub use lines::Lines;
pub use owing::Owing;
pub use pace::Pace;
pub use terms::{Around, Caller, Counter, Step, Task, Terms};
