//! The rows of a configuration's tables: arrays of tables with their ids, references and rules, and the tables of modules.

mod arrays;
mod modules;
mod rules;

pub use arrays::{Element, elements};
pub use modules::{Module, read_module};
pub use rules::{Rule, check_reference, check_references, check_rule};
