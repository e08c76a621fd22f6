//! Which journal a printed report tells: the items of each directive's block are read back from its lines.

mod laws;
mod verdict;

pub use laws::{Run, reports_are_judged, reports_are_read};
pub use verdict::Verdict;
