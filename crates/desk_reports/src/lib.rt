//! What a person reads of reports: each beside its script, two of them line by line, and counts.
#![tactic(auto)]

mod beside;
mod differing;
mod parts;
mod rows;
mod tallied;
mod waits;

pub use beside::{Listing, listed};
pub use differing::{Difference, differences, put_difference};
pub use parts::{ReportLine, report_lines};
pub use rows::stats_page;
pub use tallied::{FrameName, FrameTally, Tallies, tally};
pub use waits::{Wait, waits_in};
