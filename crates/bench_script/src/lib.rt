//! Reads a bench file: where its configuration ends, and which directives its script holds.
#![tactic(auto)]

mod arguments;
mod fault;
mod grammar;
mod lines;
mod numbers;
mod orders;
mod script;
mod services;
mod spelled;
mod tables;
mod words;

pub use fault::ScriptFault;
pub use grammar::reads_the_grammar;
pub use lines::{split_at, split_file};
pub use script::read_script;
pub use services::service_named;
