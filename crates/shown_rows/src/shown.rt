ghost use Rattle.std.specs.Prelude.{◌≡◌, ◌+◌, ◌<◌, ◌≤◌, IfOk};
ghost use Rattle.std.specs.Option.{IfSome};
ghost use Rattle.mcal_base.specs.Layout.{length_of};
ghost use Rattle.mcal_base.specs.declared.layout.Array.TheVariants.{Round, Source, Stamps};
ghost use Rattle.mcal_base.specs.declared.config.whole.Config as configs;
ghost use Rattle.mcal_drivers.specs.Setting.{SystemState};
ghost use Rattle.mcal_drivers.specs.Shows.{level_at, results_at, serial_channel, size_at, wire_at};
ghost use Rattle.run_model.specs.World.{World};
ghost use Rattle.shown_rows.specs.Places.{HasPlaces, word_at};
ghost use Rattle.shown_rows.specs.Wires.{pairs};

use mcal_base::{Array, Config};
use std::alloc::{AllocError, Global};
use word_shapes::jobs::Channel;

/// What is shown word by word.
#[derive(Clone, Copy)]
pub enum Words {
    /// The RAM.
    Ram,
    /// An array of the users.
    User(Array),
    /// The words that an internal serial channel sends.
    Sent(u32),
    /// The words that may be read of an internal serial channel.
    Received(u32),
}

/// A word that was sent on a serial unit, and what came in with it.
#[derive(Clone, Copy)]
pub struct Exchange {
    /// The word, masked by the unit's width.
    pub sent: u32,
    /// The word that came in, masked too, and 65,536 where the device refused the exchange.
    pub received: u32,
}

/// What a show asks of a board, while no frame is under way. Where several states of the modules are possible, all of them show
/// the same.
pub trait ShownBoard {
    /// The configuration.
    ghost configured: { Self → configs.Config };

    /// What stands outside, and the state of all modules, may be these.
    ghost shows: { Self → World → SystemState → Type 0 };

    /// The configuration.
    fn config(&self) -> &Config
        ensures { result.now ≡ configured self.now };

    /// The level of a pin.
    fn pin(&self, pin: u32) -> bool
        requires there { pin < 64 }
        ensures { (w : World) (s : SystemState) → shows self.now w s → result ≡ level_at (configured self.now) w s pin };

    /// A word by its place.
    fn word(&self, words: Words, place: u32) -> u32
        requires there { HasPlaces (configured self.now) words (place + 1) }
        ensures { (w : World) (s : SystemState) → shows self.now w s → result ≡ word_at s words place };

    /// How many places of a capture channel's stamps are shown: the size of its last start, none without one since the
    /// last reset.
    fn stamps(&self, channel: u32) -> Option<u32>
        requires there { channel < 8 }
        ensures size { (w : World) (s : SystemState) → shows self.now w s → result ≡ size_at s channel }
        ensures few { IfSome result (λ n. n ≤ length_of (configured self.now) (Stamps channel)) };

    /// The buffer that was last chosen for a converter group, and how many places it has.
    fn results(&self, group: u32) -> Option<(u32, u32)>
        ensures is { (w : World) (s : SystemState) → shows self.now w s → result ≡ results_at (configured self.now) s group }
        ensures few { IfSome result (λ found. found.1 ≤ length_of (configured self.now) (Round group found.0)) };

    /// The serial channel of a number, where it is configured.
    fn serial_channel(&self, number: u32) -> Option<Channel>
        ensures is { result ≡ serial_channel (configured self.now) number }
        ensures words { IfSome result (λ channel. channel.length ≡ length_of (configured self.now) (Source number)) };

    /// The words on the wire of a serial unit since the last reset, each with what came in.
    fn wire(&self, alloc: Global, unit: u32) -> Result<Vec<Exchange>, AllocError>
        requires there { unit < 2 }
        ensures { (w : World) (s : SystemState) → shows self.now w s → IfOk result (λ words. pairs words.items ≡ wire_at s unit) };
}
