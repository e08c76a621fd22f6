//! The machines of seven modules, each by itself: its calls and what they are about, what the driver keeps of a
//! configuration, and what calls, servings and resets do. Those of converter groups and of sequences are crates of their own.
#![tactic(auto)]

pub mod dio;
pub mod gpt;
pub mod icu;
pub mod mcu;
pub mod port;
pub mod pwm;
pub mod wdg;
