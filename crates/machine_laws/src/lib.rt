//! Laws over the machines and the chip, in the subject's own words: how timers count, how converters convert, and what the
//! machine of the serial driver does with sequences, jobs, words and buffers. For no program to call.
#![tactic(auto)]

pub mod converters;
pub mod serial;
pub mod timers;
