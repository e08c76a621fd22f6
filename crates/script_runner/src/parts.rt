use crate::caller::Caller;
use chip_model::Bus;
use mcal_base::{Config, Directive};
use run_model::Journal;
use step_runner::Stack;

/// What stays the same through a run.
#[derive(Drop)]
pub(crate) struct RunSetup<'s, M: Caller> {
    /// The driver.
    pub(crate) driver: M,
    /// The configuration.
    pub(crate) config: Config,
    /// The script.
    pub(crate) script: &'s [Directive],
    /// How many devices hung on the serial units at power on.
    pub(crate) devices: usize,
    /// The most steps: the limit, or the most of the script's frames where that is less.
    pub(crate) most: u32,
}

/// What a directive works on.
#[derive(Drop)]
pub(crate) struct RunState<M: Caller> {
    /// The frames under way.
    pub(crate) stack: Stack<M>,
    /// The chip.
    pub(crate) bus: Bus,
    /// What was done.
    pub(crate) journal: Journal,
}
