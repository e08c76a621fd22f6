//! The machine of the clock, the RAM sections and resets: its calls and what they are about, what the driver keeps of a
//! configuration, and what calls and resets do.

mod call;
pub mod laws;
mod request;
mod table;

pub use call::{Call, ClockCall};
pub use request::call_of;
pub use table::{McuTable, Section};
