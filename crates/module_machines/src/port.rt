//! The machine of the pins: its calls and what they are about, what the driver keeps of a configuration, and what calls,
//! guests and resets do.

mod call;
pub mod laws;
mod request;
mod table;

pub use call::{Call, PinCall};
pub use request::call_of;
pub use table::{Modes, Pin, PortTable};
