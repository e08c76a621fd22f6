//! Judges the report of a traced run: whether it is that of a legal run of its script. It shares no code with the drivers'
//! frames: the lines of steps are read, and all others are printed again and compared, byte by byte.
#![tactic(auto)]

mod directives;
mod entry;
mod judging;
mod laws;

pub use entry::{Bench, audit};
pub use laws::read_scripts_can_be_audited;
pub use report_auditor::{Whole, tables_are_within};
