ghost use Rattle.std.specs.Prelude.{◌≡◌, ◌<◌};
ghost use Rattle.module_machines.specs.icu.Shown.{size_of};
ghost use Rattle.icu_driver.specs.Refinement.{settled, IcuRepresents};
ghost use Rattle.module_machines.specs.icu.Machine.{IcuState};
ghost use Rattle.icu_driver.specs.laws.Shown as spec;
ghost use Rattle.run_model.specs.World.{World};

use crate::driver::IcuDriver;
use crate::words::SIZES;
use chip_model::Bus;
use mcal_base::IcuMeasurementMode;
use module_machines::icu::Channel;

impl IcuDriver {
    /// How many places of a channel's stamps are shown: the size of its last start, none without one since the last
    /// reset. It is the machine's wherever no service is under way.
    pub fn stamps(&self, bus: &Bus, channel: u32) -> Option<u32>
        ensures { (w : World) (s : IcuState) → channel < 8 → IcuRepresents self.now settled bus.now w s → result ≡ size_of s channel }
    {
        if channel < 8 {
            shown(self.channel(channel), bus.word(SIZES + channel))
        } else {
            None
        }
    }
}

/// The size that a word has, of a channel that stamps.
fn shown(channel: Option<Channel>, size: u32) -> Option<u32>
    ensures { result ≡ spec.shown_by channel size }
{
    match channel {
        Some(found) => match found.mode {
            IcuMeasurementMode::Timestamp if size != 0 => Some(size),
            _ => None,
        },
        None => None,
    }
}
