//! The serial, clock and pin blocks of the reference chip, and its RAM words, by times: what each register reads
//! is computed when it is read, so that a tick of any length is one addition.

mod bits;
mod clock;
pub mod laws;
mod pins;
mod ram;
mod serial;
mod serials;
mod watchdog;

pub use clock::ClockBlock;
pub use pins::PinBlock;
pub use ram::RamBlock;
pub use serials::SerialBlock;
pub use watchdog::WatchdogBlock;
