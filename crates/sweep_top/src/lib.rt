//! The top call of a sweep: its words, its input, its refusals, the runs, and what is written.
#![tactic(auto)]

mod board;
mod ends;
mod lines;
mod may_run;
mod read;
mod seeing;
mod top;
mod words;

pub use board::Board;
pub use ends::SweepEnd;
pub use lines::ProgressLines;
pub use top::sweep;
pub use words::{Asked, asked_by};
