//! The timer driver: its calls and handlers as frames of single steps.
//!
//! The driver keeps its state in driver words, and the timers' registers hold the rest: a channel's counter is its
//! elapsed value in every state, and its flag is the mark of an expiry that wasn't served.
#![tactic(auto)]

mod asked;
mod caller;
mod driver;
mod frames;
mod service;
mod switches;
mod words;

pub use asked::Asked;
pub use driver::GptDriver;
pub use frames::{GptFrame, GptMachine};
pub use service::GptBody;
pub use service::count::CountBody;
pub use service::deinit::DeInitBody;
pub use service::init::InitBody;
pub use service::mode::ModeBody;
pub use service::serve::ServeBody;
pub use service::start::{Start, StartBody};
pub use service::stop::StopBody;
pub use service::switch::SwitchBody;
