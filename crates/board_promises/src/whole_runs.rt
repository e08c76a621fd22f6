//! Promises over whole runs of the machines of converter and serial driver: whole rounds, the standard's order, one end.

pub mod ends;
pub mod journals;
pub mod rounds;
