//! Reads the report of a traced run back: what each of its lines tells.
#![tactic(auto)]

mod front;
mod guess;
mod laws;
mod line;
mod lists;
mod names;
mod numbers;
mod read;
mod registers;
mod scan;
mod tally;
mod told;

pub use laws::{MOST_MOVING, reads_traces};
pub use read::{TraceFault, read_line, read_trace};
pub use told::{Mark, Reply, Step, Told, TraceLine};
