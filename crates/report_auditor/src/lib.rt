//! A moment of a run, as its report tells it: the chip, the machines of all modules and the frames under way, with what is
//! asked of each deed. It shares no code with the drivers' frames.
#![tactic(auto)]

mod asking;
mod auditor;
mod begins;
mod chip_rules;
mod hardware;
mod looks;
mod replays;
mod seen;
mod served;

pub use asking::{event_of, shows_right, starts_right};
pub use audit_whole::{Whole, tables_are_within};
pub use auditor::Auditor;
pub use chip_rules::{received_right, sends_right};
pub use seen::Seen;
pub use served::used_lines;
