//! A sweep: a block of a script and what is placed in it, the places that there are, the flat script of each, and what
//! comes of them.
#![tactic(auto)]

mod copies;
mod cuts;
mod fault;
mod flattening;
mod groups;
mod laws;
mod lines;
mod marking;
mod outcomes;
mod parting;
mod places;
mod spoken;

pub use copies::{copied, copy_behind};
pub use cuts::{Cut, cut_block};
pub use fault::SweepFault;
pub use flattening::{Flat, flatten};
pub use groups::{Range, Settled, Tried, count_with, numbers_in, ranges, settle};
pub use laws::{counts_sum_up, cut_between_keeps_all, outcomes_differ};
pub use lines::line_text;
pub use marking::{
    Mark, Marks, Part, ReactionLine, marks_of, reaction_lines, reaction_on, without_marks,
};
pub use outcomes::{Outcome, Told, number_among, outcome_of};
pub use parting::{Parts, parts_of};
pub use places::{BlockPlace, Spot, begins_frame, places_in};
pub use spoken::{directive_text, spot_text};
