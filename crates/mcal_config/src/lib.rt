//! Reads a configuration: TOML text to a typed record, or the fault that comes first.
#![tactic(auto)]

mod adc;
mod bare;
mod dio;
mod laws;
mod mcu;
mod whole;

pub use bare::default_board;
pub use config_keys::{ConfigFault, KeyName, Path, Printed};
pub use laws::faultless_has_record;
pub use whole::read_config;
