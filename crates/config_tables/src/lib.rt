//! The tables of a configuration's modules: what their keys and the elements of their arrays are read to. Of six modules
//! the references and rules stand here too; those of `Mcu`, `Adc` and `Dio` stand above.
#![tactic(auto)]

pub mod adc;
pub mod dio;
mod faults;
mod gpt;
mod icu;
pub mod mcu;
mod port;
mod pwm;
pub mod rows;
mod spi;
mod spi_rules;
mod spi_tables;
mod wdg;

pub use gpt::Gpt;
pub use icu::Icu;
pub use port::Port;
pub use pwm::Pwm;
pub use spi::{Spi, both_at_one};
pub use wdg::Wdg;
