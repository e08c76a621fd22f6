//! What timers do, by times: laws over the timer block and over the machine of the timer driver.

pub mod channels;
pub mod chip;
pub mod counts;
