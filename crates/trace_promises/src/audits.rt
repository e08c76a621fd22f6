//! What holds of the reports that the bench passes, and that it passes each that it printed: laws, for no program to call.

mod laws;

pub use laws::{passed_reports_are_of_runs, printed_traces_pass};
