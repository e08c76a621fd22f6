//! The watchdog driver: its calls as frames of single steps.
//!
//! The driver keeps its mode and its timeout in driver words. The watchdog's time runs in the chip: each call that
//! starts it anew writes `W.LOAD` at the step of its act, and the chip resets itself where that time ends.
#![tactic(auto)]

mod asked;
mod caller;
mod driver;
mod frames;
mod service;
mod timing;
mod words;

pub use asked::Asked;
pub use driver::WdgDriver;
pub use frames::{WdgFrame, WdgMachine};
pub use service::{Says, WdgBody};
