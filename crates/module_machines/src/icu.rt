//! The machine of the capture channels: its calls and what they are about, what the driver keeps of a configuration, and
//! what calls, servings, edges and resets do.

mod call;
pub mod laws;
mod request;
mod table;

pub use call::{Call, ChannelCall};
pub use request::call_of;
pub use table::{Channel, IcuTable};
