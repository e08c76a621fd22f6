ghost use Rattle.std.specs.Prelude.{◌≤◌};
ghost use Rattle.std.specs.Option.{IfSome};

use crate::board::Board;
use crate::places::Section;
use crate::sights::Sights;
use crate::wires::Wire;
use mcal_base::WORDS;

/// What a show asks of a board. What writes rows sees no more of it, and doesn't pay in its proof for a board's layout.
pub(crate) trait ShownBoard {
    /// A driver word; 0 where there is none.
    fn word(&self, number: u32) -> u32;

    /// A RAM word; 0 where there is none.
    fn ram(&self, number: u32) -> u32;

    /// The level of a pin, where it is configured.
    fn level(&self, pin: u32) -> Option<bool>;

    /// The sections of the RAM, in their order.
    fn sections(&self) -> &[Section];

    /// How many places of a capture channel's stamps are shown, where it was started since the last reset.
    fn stamps(&self, channel: u32) -> Option<u32>;

    /// The number of the chosen buffer of a converter group, and its places.
    fn results(&self, group: u32) -> Option<(u32, u32)>
        ensures { IfSome result (λ found. found.0 ≤ 1) };

    /// Whether a serial channel is internal, and its words, where it is configured.
    fn channel(&self, number: u32) -> Option<(bool, u32)>;

    /// A word that an internal serial channel sends, or that may be read of it.
    fn internal(&self, channel: u32, received: bool, place: u32) -> u32;

    /// What went over the first serial unit's wire.
    fn first_wire(&self) -> &Wire;

    /// And over the second's.
    fn second_wire(&self) -> &Wire;
}

impl<B: Sights> ShownBoard for Board<B> {
    fn word(&self, number: u32) -> u32 {
        if number < WORDS {
            self.live.bus().word(number)
        } else {
            0
        }
    }

    fn ram(&self, number: u32) -> u32 {
        if number < 512 {
            self.live.bus().ram(number)
        } else {
            0
        }
    }

    fn level(&self, pin: u32) -> Option<bool> {
        if self.places.has_pin(pin) {
            Some(self.live.bus().pin(pin))
        } else {
            None
        }
    }

    fn sections(&self) -> &[Section] {
        self.places.sections()
    }

    fn stamps(&self, channel: u32) -> Option<u32> {
        B::stamps(self.live.driver(), self.live.bus(), channel)
    }

    fn results(&self, group: u32) -> Option<(u32, u32)> {
        B::results(self.live.driver(), self.live.bus(), group)
    }

    fn channel(&self, number: u32) -> Option<(bool, u32)> {
        B::channel(self.live.driver(), number)
    }

    fn internal(&self, channel: u32, received: bool, place: u32) -> u32 {
        B::internal(
            self.live.driver(),
            self.live.bus(),
            channel,
            received,
            place,
        )
    }

    fn first_wire(&self) -> &Wire {
        &self.first_wire
    }

    fn second_wire(&self) -> &Wire {
        &self.second_wire
    }
}
