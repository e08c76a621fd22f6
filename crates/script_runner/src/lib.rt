//! Obeys the directives of a script over any driver, and keeps the journal.
#![tactic(auto)]

mod beginnings;
mod caller;
mod engine;
mod hardware;
mod obeying;
mod parts;
mod sizes;
mod steps;
mod ticks;
mod union;
mod within;

pub use caller::Caller;
pub use engine::Engine;
pub use sizes::words_given;
pub use steps::TooLong;
pub use within::{Ran, run_within};
