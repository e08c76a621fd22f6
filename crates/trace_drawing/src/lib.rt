//! Draws the trace of a run: as value changes, as a page, and as rows of characters.
#![tactic(auto)]

mod input;
mod program;
pub mod signs;
mod transfer;

pub use program::{Form, view};
