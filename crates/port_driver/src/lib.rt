//! The driver of the pins: its calls as frames of single steps.
//!
//! The pins' registers are the machine's pins, but while `Port_Init` writes them, and one driver word says whether the
//! module is initialised.
#![tactic(auto)]

mod asked;
mod bounds;
mod caller;
mod driver;
mod frames;
mod service;
mod words;
mod writes;

pub use asked::Asked;
pub use driver::PortDriver;
pub use frames::{PortFrame, PortMachine};
pub use service::PortBody;
pub use service::init::{InitDone, Setup};
pub use service::pin::PinBody;
pub use service::refresh::RefreshBody;
pub use writes::Side;
