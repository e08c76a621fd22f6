//! Small runs of the modules' machines, small reports, beginnings and exchanges, computed from their definitions.
#![tactic(auto)]

pub mod adc;
pub mod beginnings;
pub mod board;
pub mod exchanged;
pub mod gpt;
pub mod icu;
pub mod mcu;
pub mod port;
pub mod printed;
pub mod pwm;
pub mod spi;
