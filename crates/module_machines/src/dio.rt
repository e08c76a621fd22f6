//! The machine of channels, ports and channel groups: its calls and what they are about, what the driver keeps of a
//! configuration, and what calls do to the pins of a host.

mod call;
mod request;
mod table;

pub use call::Call;
pub use request::call_of;
pub use table::{DioTable, PortPins};
