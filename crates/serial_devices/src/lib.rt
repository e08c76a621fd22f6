//! What hangs on the serial bus: devices that answer word by word and may fail, in a rack of boxes.
#![tactic(auto)]

mod device;
mod kept;
mod plain;
mod rack;

pub use device::SerialDevice;
pub use kept::ListDevice;
pub use plain::PlainDevice;
pub use rack::{call, drop_last};
