//! The machines of clock, RAM and resets, of the pins with their channels and ports, and of the watchdog as programs: what
//! each call and a reset do to their states, and what they tell.
#![tactic(auto)]

mod around;
mod clock;
mod clock_checks;
mod clock_part;
mod clock_subject;
mod configured;
mod latches;
mod may;
mod pin_state;
mod pins;
mod pins_part;
mod pins_subject;
mod port_values;
mod ports;
mod watchdog;
mod watchdog_part;
mod watchdog_subject;

pub use around::Around;
pub use clock::{Clock, Pll};
pub use clock_part::ClockState;
pub use pin_state::PinState;
pub use pins::Pins;
pub use pins_part::PinsState;
pub use ports::Ports;
pub use watchdog::Watchdog;
pub use watchdog_part::WatchdogState;
