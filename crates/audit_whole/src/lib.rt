//! All modules as a checker of printed reports asks them: where chip and machines have to agree, by what a run of all modules is
//! over, and what their shows print.
#![tactic(auto)]

mod agreeing;
mod aspects;
mod at_rest;
mod laws;
mod modules;
mod origins;
mod sizes;
mod whole;

pub use agreeing::{agrees_at, agrees_at_rest, agrees_in, agrees_open};
pub use aspects::{Aspect, Touched};
pub use laws::{calls_serve, channels_are_few, lines_are_few, tables_are_within, waits_are_there};
pub use whole::Whole;
