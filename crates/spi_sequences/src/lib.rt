//! The serial driver's services and handlers: their bodies, step by step.
#![tactic(auto)]

mod asked;
mod service;
mod words;

pub use asked::Asked;
pub use service::serve::ServePlace;
pub use service::unit::{FrameRole, UnitBody, UnitPlace};
pub use service::{SpiBody, unit_body};
pub use words::{PENDING, STATE, sequence_word};
