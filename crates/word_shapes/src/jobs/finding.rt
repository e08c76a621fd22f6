ghost use Rattle.std.specs.Prelude.{◌≡◌};
ghost use Rattle.word_shapes.specs.jobs.Placing as placing;
ghost use Rattle.word_shapes.specs.jobs.Parts as spec;

use crate::jobs::banks::bank_of;
use crate::jobs::channel::{Placed, Side};
use crate::jobs::set_up::SetUp;
use mcal_base::Move;

/// The word of a job that begins next is found: of an internal channel in the bank that the job sends, of an external one in
/// its source, or it is default data. It gives the word, masked to the width.
#[derive(Clone, Copy)]
pub enum Find {
    /// Before the job: it loads the control word of its first channel, an internal one, to see which bank is the newest.
    Newest(Placed),
    /// Before the job: it loads the set-up of its first channel, an external one.
    SetUp(Placed),
    /// It loads the control word of an internal channel, to see which bank is pinned.
    Pinned(Placed, u8),
    /// It loads the set-up that is held of an external channel.
    Held(Placed, u8),
    /// It loads the word of the bank.
    Bank(Placed, u8, u8),
    /// It loads the word of the source.
    Source(Placed, u8),
    /// It loads what doesn't count: default data is sent.
    Default(Placed),
}

impl Find {
    /// The beginning, for the first word of a job that starts, whose first channel this is.
    pub fn first(placed: Placed) -> Find
        ensures { result ≡ spec.finding_first placed }
    {
        if placed.channel.internal {
            Find::Newest(placed)
        } else {
            Find::SetUp(placed)
        }
    }

    /// The beginning, for a word of a channel of the running job, by its place there.
    pub fn of(placed: Placed, place: u8) -> Find
        ensures { result ≡ spec.finding placed place }
    {
        if placed.channel.internal {
            Find::Pinned(placed, place)
        } else {
            Find::Held(placed, place)
        }
    }

    /// The next move.
    pub fn next(&self) -> Move
        ensures { result ≡ spec.find_move self.now }
    {
        match self {
            Find::Newest(placed) | Find::Pinned(placed, _) => {
                Move::Load(placed.control(Side::Sent))
            }
            Find::SetUp(placed) => Move::Load(placed.set_up()),
            Find::Held(placed, _) | Find::Default(placed) => Move::Load(placed.held()),
            Find::Bank(placed, place, bank) => Move::Load(placed.word(Side::Sent, *bank, *place)),
            Find::Source(placed, place) => Move::Load(placed.source(*place)),
        }
    }

    /// Takes what the move gave, and tells the word where it was the last one.
    pub fn took(&mut self, value: u32) -> Option<u32>
        ensures state { self.new ≡ spec.find_left self.old value }
        ensures word { result ≡ spec.find_gave self.old value }
    {
        let after = match *self {
            Find::Newest(placed) => Find::Bank(placed, 0, bank_of(value)),
            Find::SetUp(placed) => { found_in(placed, 0, SetUp::or_none(value, placed.channel)) }
            Find::Pinned(placed, place) => Find::Bank(placed, place, pinned(value)),
            Find::Held(placed, place) => found_in(placed, place, SetUp::unpacked(value)),
            Find::Bank(placed, ..) | Find::Source(placed, _) => {
                return Some(placed.masked(value));
            }
            Find::Default(placed) => return Some(placed.masked(placed.channel.default_data)),
        };
        *self = after;
        None
    }
}

/// A word of an external channel with this set-up.
fn found_in(placed: Placed, place: u8, set_up: SetUp) -> Find
    ensures { result ≡ spec.found_in placed place set_up }
{
    if set_up.source {
        Find::Source(placed, place)
    } else {
        Find::Default(placed)
    }
}

/// The bank that a control word has pinned.
fn pinned(control: u32) -> u8
    ensures { result ≡ placing.pinned_bank control }
{
    ((control / 4).saturating_sub(1) % 4) as u8
}
