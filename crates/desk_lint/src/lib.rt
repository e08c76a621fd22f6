//! All that a person may want to be told of a bench file: its errors at once, and what the bench takes without a word.
#![tactic(auto)]

mod combinations;
mod config;
mod explained;
mod found;
mod linted;
mod members;
mod numbers;
mod objects;
mod references;
mod rules;
mod script;
mod separator;
mod split;
mod values;
mod verdicts;

pub use linted::{Lint, lint_file};
pub use separator::script_line;
pub use verdicts::{Verdict, verdict_on};
