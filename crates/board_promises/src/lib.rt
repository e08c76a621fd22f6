//! What is promised of a whole run of a board: whole rounds, the standard's order, one end, the words of calls that wait,
//! the watchdog's time.
#![tactic(auto)]

pub mod generator;
pub mod run_laws;
pub mod whole_runs;
