//! The machine of the serial units: its calls and what they are about, what the serial driver keeps of a configuration,
//! and what calls, servings, starts and hardware do.
#![tactic(auto)]

mod bounds;
mod call;
mod kept;
pub mod laws;
mod request;
mod table;

pub use bounds::SERIAL_STEPS;
pub use call::{AsyncMode, Call, ChannelCall, Pointer, Query, SequenceCall};
pub use request::call_of;
pub use table::{ChannelList, Job, JobList, NO_CHANNEL, NOWHERE, Sequence, SpiTable};
