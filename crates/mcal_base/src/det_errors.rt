//! Which error a service finds and whether it is reported: the errors of each service in their order, the rule of
//! reports, and their spelling.

mod laws;
mod reports;
mod rows;
mod spelling;

pub use laws::{what_is_named, what_stands_behind};
pub use reports::reported;
pub use rows::{Facts, first_error};
pub use spelling::text;
