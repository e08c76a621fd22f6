//! What holds of the traces of all runs: laws, for no program to call.

mod drawn;
mod numbers;
mod traces;

pub use drawn::draws_runs;
pub use numbers::{few_steps, journal_fits};
pub use traces::reads_journals;
