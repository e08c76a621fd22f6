ghost use Rattle.std.specs.Prelude.{◌≡◌};
ghost use Rattle.word_shapes.specs.jobs.Parts as spec;

use crate::Take;
use crate::jobs::banks::pin;
use crate::jobs::channel::{Placed, Side};
use crate::jobs::set_up::SetUp;
use mcal_base::{Move, Routine};

/// A channel is made ready for a job that starts: what an internal one sends is pinned, and the set-up of an external one is
/// held.
#[derive(Clone, Copy)]
pub enum Prepare {
    /// It pins the newest bank.
    Pin(Take),
    /// It loads the set-up.
    Load(Placed),
    /// It holds the set-up, or that of a channel that wasn't set up.
    Hold(Placed, SetUp),
}

impl Prepare {
    /// The beginning, for a channel.
    pub fn of(placed: Placed) -> Prepare
        ensures { result ≡ spec.preparing placed }
    {
        if placed.channel.internal {
            Prepare::Pin(pin(placed, Side::Sent))
        } else {
            Prepare::Load(placed)
        }
    }

    /// The next move.
    pub fn next(&self) -> Move
        ensures { result ≡ spec.prepare_move self.now }
    {
        match self {
            Prepare::Pin(take) => take.next(),
            Prepare::Load(placed) => Move::Load(placed.set_up()),
            Prepare::Hold(placed, set_up) => Move::Store(placed.held(), set_up.packed()),
        }
    }

    /// Takes what the move gave, and tells whether it was the last one.
    pub fn took(&mut self, value: u32) -> bool
        ensures state { self.new ≡ spec.prepare_left self.old value }
        ensures ended { result ≡ spec.prepare_ends self.old value }
    {
        match self {
            Prepare::Pin(take) => take.took(value).ended.is_some(),
            Prepare::Load(placed) => {
                let placed = *placed;
                *self = Prepare::Hold(placed, SetUp::or_none(value, placed.channel));
                false
            }
            Prepare::Hold(..) => true,
        }
    }
}
