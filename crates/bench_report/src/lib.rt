//! The text of a report: what a journal says of a script, line by line.
#![tactic(auto)]

mod course;
mod frames;
mod limit;
mod lines;
mod page;
mod registers;
mod rows;
mod shown;
mod tally;
mod texts;
mod whole;

pub use frames::{Purpose, purpose_of};
pub use limit::{MOST_BYTES, ReportEnd};
pub use lines::Line;
pub use registers::RegisterName;
pub use rows::{RowName, Value, Values, write_row};
pub use shown::ShownTexts;
pub use tally::Tally;
pub use texts::{MoveMade, reason_text};
pub use whole::report;
