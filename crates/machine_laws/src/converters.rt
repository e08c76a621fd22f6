//! What converter units and groups do: laws over the converter block and over the machine of the converter driver.

pub mod chip;
pub mod groups;
pub mod triggers;
