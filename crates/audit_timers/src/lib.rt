//! The timers' machine as a program: what each call, each serving and a reset do to its state, and what they tell.
#![tactic(auto)]

mod checks;
mod course;
mod may;
mod part;
mod subject;
mod timers;
mod timing;

pub use course::Course;
pub use part::TimersState;
pub use timers::{Mode, Timers};
pub use timing::Timing;
