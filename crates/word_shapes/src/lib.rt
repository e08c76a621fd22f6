//! Two shapes that stand in driver words, as routines of loads and stores: an order of entries of which some wait, and
//! three banks of words of which one is the newest; and, made of these, the streams of converter groups and the channels of
//! serial jobs.
#![tactic(auto)]

mod add;
mod again;
mod choosing;
mod dropped;
pub mod jobs;
pub mod laws;
mod packed;
mod part;
mod priority_queue;
mod put;
mod search;
pub mod streams;
mod take;
mod triple_buffer;

pub use add::Add;
pub use again::Again;
pub use choosing::{Front, Next};
pub use dropped::Dropped;
pub use packed::{Packed, Places};
pub use priority_queue::PriorityQueue;
pub use put::{Put, PutPart};
pub use search::{Search, Sought};
pub use take::{Take, TakePart};
pub use triple_buffer::TripleBuffer;
