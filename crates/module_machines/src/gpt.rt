//! The machine of the timers: its calls and what they are about, what the driver keeps of a configuration, and what calls,
//! servings and resets do.

mod call;
mod request;
mod switches;
mod table;

pub use call::{Call, Change, ChannelCall, GptMode};
pub use request::call_of;
pub use switches::Switches;
pub use table::{Channel, GptTable};
