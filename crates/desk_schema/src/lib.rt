//! The tables of a configuration as a JSON schema, by which editors complete and check.
#![tactic(auto)]

mod kinds;
mod order;
mod schemas;
mod writing;

pub use schemas::schema;
