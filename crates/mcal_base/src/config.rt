//! A configuration, a record a module. A field stands for the parameter of its name.

pub mod adc;
pub mod dio;
pub mod gpt;
pub mod icu;
pub mod mcu;
pub mod port;
pub mod pwm;
pub mod spi;
pub mod wdg;
pub mod whole;
