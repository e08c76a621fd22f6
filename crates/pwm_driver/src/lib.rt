//! The pulse driver: its calls and handlers as frames of single steps.
//!
//! The pulse registers hold what the outputs do, and driver words the rest: whether the module is initialised, which
//! changes are notified, and the period of each channel that was set last.
#![tactic(auto)]

mod asked;
mod caller;
mod driver;
mod frames;
mod service;
mod words;

pub use asked::Asked;
pub use driver::PwmDriver;
pub use frames::{PwmFrame, PwmMachine};
pub use service::PwmBody;
pub use service::deinit::DeInitBody;
pub use service::init::{InitBody, Setup};
pub use service::notify::NotifyBody;
pub use service::output::{OutputBody, Want};
pub use service::rest::RestBody;
pub use service::serve::ServeBody;
