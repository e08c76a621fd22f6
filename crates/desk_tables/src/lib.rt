//! What may stand in a bench file, as tables that a program can walk through: the keys of a configuration with their
//! kinds, and the words of a script.
#![tactic(auto)]

mod all_tables;
mod keys;
mod rows;
mod service_rows;
mod words;

pub use all_tables::tables;
pub use keys::{KeyRow, Kind, Need, Range, Table, table_of};
pub use service_rows::{ServiceRow, services};
pub use words::{DirectiveRow, Operand, directives};
