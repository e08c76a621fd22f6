//! The trials of a sweep: the runs of its flat scripts, the calls that follow notices, the places that are tried, and
//! what came of them.
#![tactic(auto)]

mod followed;
mod laws;
mod opened;
mod opening;
mod progress;
mod reactions;
mod seen;
mod stop;
mod summary;
mod sweeping;
mod swept;
mod trials;

pub use followed::{Followed, run_followed};
pub use laws::without_reactions_is_plain;
pub use opened::Opened;
pub use progress::Progress;
pub use reactions::{Bench, Following, Reaction, reaction_to};
pub use seen::{RunSeen, Runs, StepSeen};
pub use stop::Stop;
pub use summary::{Group, Row, Standing, groups_of};
pub use sweeping::{Moment, Sweep};
pub use swept::{Swept, make_sweep};
pub use trials::Wish;
