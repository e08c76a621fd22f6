//! The driver of the clock, the RAM sections and resets: its calls as frames of single steps.
//!
//! The clock block and the RAM words hold the module's state, and two driver words the rest: whether it is initialised,
//! and the mode. A section is filled with the mask open, and until the act its words are nobody else's.
#![tactic(auto)]

mod asked;
mod bounds;
mod caller;
mod driver;
mod frames;
mod service;
mod words;

pub use asked::Asked;
pub use driver::McuDriver;
pub use frames::{McuFrame, McuMachine};
pub use service::clock::ClockBody;
pub use service::fill::{Fill, FilledBody};
pub use service::query::QueryBody;
pub use service::reset::ResetBody;
pub use service::state::StateBody;
pub use service::{FillBody, McuBody, PlainBody};
