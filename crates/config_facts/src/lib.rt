//! What a configuration that was read meets, in `specs/`: ranges, lengths, ids that stand once, references and the
//! combination rules. Crates that take a `Config` require `IsValid` of it.
#![tactic(auto)]

mod ids;

pub use ids::are_same;
