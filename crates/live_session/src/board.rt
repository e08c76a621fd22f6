ghost use Rattle.std.specs.Prelude.{◌≡◌, []};
ghost use Rattle.config_facts.specs.Valid.{IsValid};

use crate::frames::Frames;
use crate::places::Places;
use crate::sights::Sights;
use crate::wires::Wire;
use live_board::Live;
use mcal_base::{Config, NoMemory};
use std::alloc::Global;

/// A driver on the chip, from power on.
#[derive(Drop)]
pub(crate) struct Board<B: Sights> {
    /// What shows ask of the configuration.
    pub(crate) places: Places,
    /// The driver on the chip.
    pub(crate) live: Live<B::Driver>,
    /// The frames under way.
    pub(crate) frames: Frames,
    /// What went over the first serial unit's wire.
    pub(crate) first_wire: Wire,
    /// And over the second's.
    pub(crate) second_wire: Wire,
}

impl<B: Sights> Board<B> {
    /// A board at power on.
    pub(crate) fn new(alloc: Global, config: &Config, devices: usize) -> Result<Board<B>, NoMemory>
        requires valid { IsValid config.now }
    {
        let live = B::powered(alloc, config, devices)?;
        match Places::new(alloc, config) {
            Ok(places) => Ok(Board {
                places,
                live,
                frames: Frames::new(alloc),
                first_wire: Wire::new(alloc),
                second_wire: Wire::new(alloc),
            }),
            Err(_) => Err(NoMemory),
        }
    }

    /// No frame is there, and nothing went over the wires, since the chip was reset.
    pub(crate) fn forget(&mut self)
        ensures frames { self.new.frames ≡ [] }
        ensures live { self.new.live ≡ self.old.live }
    {
        self.frames.clear();
        self.first_wire.clear();
        self.second_wire.clear();
    }
}
