//! The end line of a report, without the report: what a journal says of a script is counted, item by item, and no other
//! line is written.
#![tactic(auto)]

mod counting;
mod ending;

pub use ending::end_line;
