//! The machine of the watchdog: its calls and what they are about, what the driver keeps of a configuration, and what calls
//! and resets do.

mod call;
mod request;
mod table;

pub use call::Call;
pub use request::call_of;
pub use table::{Timing, WdgTable, narrow};
