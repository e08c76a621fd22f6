//! Laws over whole runs, by the events of a run alone: which result the end of a sequence gives, what a call that waits
//! has sent, and which rounds of converter groups are served.

pub mod results;
pub mod rounds;
