//! The machine of the pulse outputs: its calls and what they are about, what the driver keeps of a configuration, and what
//! calls, servings and resets do.

mod call;
pub mod laws;
mod request;
mod table;

pub use call::{Call, ChannelCall, PwmEdge};
pub use request::call_of;
pub use table::{Channel, PwmTable};
