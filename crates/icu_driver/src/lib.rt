//! The capture driver: its calls and handlers as frames of single steps.
//!
//! The capture registers hold gates, waiting edges and counts, and driver words the rest: whether the module is
//! initialised, the notifications and active marks, how far stamps came, and what a measurement has seen.
#![tactic(auto)]

mod asked;
mod caller;
mod driver;
mod frames;
mod handler;
mod service;
mod shown;
mod words;

pub use asked::Asked;
pub use driver::IcuDriver;
pub use frames::{IcuFrame, IcuMachine};
pub use service::IcuBody;
pub use service::change::ChangeBody;
pub use service::count::CountBody;
pub use service::deinit::DeInitBody;
pub use service::detect::DetectBody;
pub use service::duty::DutyBody;
pub use service::gate::GateBody;
pub use service::init::InitBody;
pub use service::keep::{KeepBody, Kept};
pub use service::measure::MeasureBody;
pub use service::sample::{SampleBody, Sampled};
pub use service::stamp::{StampBody, Stamping};
