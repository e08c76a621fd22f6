//! The top call of the bench: its words, its input, its refusals, the run and what is written.
#![tactic(auto)]

mod audited;
mod file;
mod generated;
mod input;
mod output;
mod parts;
mod refusal;
pub mod run;
mod tail;
mod top;
mod words;

pub use file::{BenchFile, FileEnd, read_file};
pub use input::{LIMIT, ReadEnd, read_all, read_most};
pub use output::write_all;
pub use refusal::Refusal;
pub use top::{Outcome, bench};
pub use words::{Form, Printing, Task, form_of};
