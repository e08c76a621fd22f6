ghost use Rattle.std.specs.Prelude.{◌≡◌, ◌≤◌};
ghost use Rattle.word_shapes.specs.jobs.Placing as spec;

use mcal_base::{DESTINATIONS, SOURCES};

/// The first driver word of the serial driver.
pub const START: u32 = 49_152;

/// A configured channel.
#[derive(Clone, Copy)]
pub struct Channel {
    /// `SpiChannelType` is `IB`.
    pub internal: bool,
    /// `SpiIbNBuffers` of an internal channel, `SpiEbMaxLength` of an external one.
    pub length: u8,
    /// `SpiDataWidth` in bits.
    pub width: u8,
    /// `SpiDefaultData`.
    pub default_data: u32,
}

/// A channel with its number and the place of its driver words. They are the control words of what it sends and of what
/// it received, the word that a running job holds, its set-up, and three banks of each.
#[derive(Clone, Copy)]
pub struct Placed {
    /// Its number.
    pub number: u8,
    /// How many driver words of the module stand before it.
    pub block: u16,
    /// What is configured.
    pub channel: Channel,
}

/// Three banks of a channel's words.
#[derive(Clone, Copy)]
pub enum Side {
    /// Those that it sends.
    Sent,
    /// Those that it received.
    Received,
}

impl Placed {
    /// The control word of three banks.
    pub fn control(&self, side: Side) -> u32
        ensures { result ≡ spec.control_word self.now side }
    {
        match side {
            Side::Sent => self.first(),
            Side::Received => self.first() + 1,
        }
    }

    /// The word of a place of a bank.
    pub fn word(&self, side: Side, bank: u8, place: u8) -> u32
        ensures { result ≡ spec.bank_word self.now side bank place }
    {
        let length = u32::from(self.channel.length);
        let banks = match side {
            Side::Sent => self.first() + 4,
            Side::Received => self.first() + 4 + 3 * length,
        };
        banks + u32::from(bank) * length + u32::from(place)
    }

    /// The word that a running job holds: the bank that takes the received words of an internal channel, or the set-up of
    /// an external one.
    pub fn held(&self) -> u32
        ensures { result ≡ spec.held_word self.now }
    {
        self.first() + 2
    }

    /// The word of the set-up.
    pub fn set_up(&self) -> u32
        ensures { result ≡ spec.set_up_word self.now }
    {
        self.first() + 3
    }

    /// The word of a place of the user's source array.
    pub fn source(&self, place: u8) -> u32
        ensures { result ≡ spec.source_word self.now place }
    {
        SOURCES + 64 * u32::from(self.number) + u32::from(place)
    }

    /// The word of a place of the user's destination array.
    pub fn destination(&self, place: u8) -> u32
        ensures { result ≡ spec.destination_word self.now place }
    {
        DESTINATIONS + 64 * u32::from(self.number) + u32::from(place)
    }

    /// A word, masked to the channel's width.
    pub fn masked(&self, word: u32) -> u32
        ensures { result ≡ spec.masked_by self.now.channel word }
    {
        if self.channel.width < 32 {
            word % (1 << u32::from(self.channel.width))
        } else {
            word
        }
    }

    fn first(&self) -> u32
        ensures is { result ≡ spec.first_word self.now }
        ensures within { result ≤ 114687 }
    {
        START + u32::from(self.block)
    }
}
