//! The machine of the converter groups as a program: what each call, each start and abort, each serving, each pulse and a
//! reset do to its state, and what they tell; and what its frames are judged by.
#![tactic(auto)]

mod calls;
mod checks;
mod converters;
mod group;
mod groups;
mod may;
mod options;
mod part;
mod results;
mod rounds;
mod servings;
mod sizes;
mod subject;
mod triggers;
mod truths;
mod turns;
mod values;

pub use converters::Converters;
pub use part::ConvertersState;
