ghost use Rattle.std.specs.Prelude.{◌≡◌};
ghost use Rattle.chip_blocks.specs.units.Watchdogs.{fresh, left_of, expiry, loaded, after_write};

use mcal_base::{Config, Reg};

/// The watchdog's time.
#[derive(Clone, Copy)]
pub struct Watch {
    /// The time of the oscillator at which `W.LOAD` was written.
    pub started: u64,
    /// After how many ticks of the oscillator it ends.
    pub ticks: u32,
}

impl Watch {
    fn left(&self, osc: u64) -> u64
        ensures { result ≡ left_of osc self.now }
    {
        u64::from(self.ticks).saturating_sub(osc.saturating_sub(self.started))
    }
}

/// The watchdog: the register `W.LOAD`. It counts the ticks of the oscillator, which the clock block keeps.
#[derive(Drop)]
pub struct WatchdogBlock {
    pub watch: Option<Watch>,
}

impl WatchdogBlock {
    /// As after power on: it stands. The block is the same under every configuration.
    pub fn new(_config: &Config) -> WatchdogBlock
        ensures { result ≡ fresh }
    {
        WatchdogBlock { watch: None }
    }

    /// A reset: it stands.
    pub fn reset(&mut self)
        ensures { self.new ≡ fresh }
    {
        self.watch = None;
    }

    /// Writes a register at this time of the oscillator. A register without a stated write ignores it.
    pub fn write(&mut self, osc: u64, reg: Reg, value: u32)
        ensures { self.new ≡ after_write self.old osc reg value }
    {
        if let Reg::WatchdogLoad = reg {
            self.watch = loaded(osc, value);
        }
    }

    /// The ticks of the oscillator that are left until its time ends, where it runs.
    pub fn expiry(&self, osc: u64) -> Option<u64>
        ensures { result ≡ expiry self.now osc }
    {
        match &self.watch {
            Some(watch) => Some(watch.left(osc)),
            None => None,
        }
    }
}

/// The watchdog's time after a write of `W.LOAD`.
fn loaded(osc: u64, value: u32) -> Option<Watch>
    ensures { result ≡ loaded osc value }
{
    if value == 0 {
        None
    } else {
        Some(Watch {
            started: osc,
            ticks: value,
        })
    }
}
