//! The trace of each run that the bench prints is drawn, and passed by its audit; and what the audit passes is of a run:
//! laws, for no program to call.
#![tactic(auto)]

pub mod audits;
mod laws;
pub mod traces;

pub use laws::{brings_numbers, draws_printed_runs, fits_traces};
