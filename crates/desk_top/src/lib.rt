//! What the desk does with files that were read: each form gives a status and the text to print.
#![tactic(auto)]

mod as_json;
mod bounds;
mod comparing;
mod counting;
mod forms;
mod junit;
mod laws;
mod linting;
mod listing;
mod mapping;
mod running;
mod told;

pub use comparing::{Comparison, compared, expected};
pub use counting::stats;
pub use forms::command;
pub use laws::agrees_with_check;
pub use linting::lint_told;
pub use listing::list;
pub use mapping::map;
pub use running::run_bench;
pub use told::{Style, Told};
