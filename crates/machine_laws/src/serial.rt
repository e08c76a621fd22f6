//! What the machine of the serial driver does with sequences, jobs, words and buffers: laws over it.

pub mod alone;
pub mod buffers;
pub mod ends;
pub mod faults;
pub mod progress;
