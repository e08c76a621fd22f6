ghost use Rattle.std.specs.Prelude.{◌≡◌, ◌≤◌};
ghost use Rattle.word_shapes.specs.jobs.Placing as spec;

use crate::jobs::channel::Channel;

/// A set-up of an external channel.
#[derive(Clone, Copy)]
pub struct SetUp {
    /// Words are sent from the user's source array.
    pub source: bool,
    /// Words are stored in the user's destination array.
    pub destination: bool,
    /// The number of words.
    pub length: u8,
}

impl SetUp {
    /// As a driver word has it.
    pub fn packed(self) -> u32
        ensures { result ≡ spec.packed self }
    {
        flag(self.source) + 2 * flag(self.destination) + 4 * u32::from(self.length)
    }

    /// The set-up that a driver word has.
    pub fn unpacked(word: u32) -> SetUp
        ensures { result ≡ spec.unpacked word }
    {
        SetUp {
            source: word % 2 == 1,
            destination: word / 2 % 2 == 1,
            length: (word / 4 % 256) as u8,
        }
    }

    /// The set-up that a driver word has, where it has one, and else that of a channel that wasn't set up: no source, no
    /// destination, the greatest length.
    pub fn or_none(word: u32, channel: Channel) -> SetUp
        ensures { result ≡ spec.or_none word channel }
    {
        if word == 0 {
            SetUp {
                source: false,
                destination: false,
                length: channel.length,
            }
        } else {
            SetUp::unpacked(word)
        }
    }
}

fn flag(is: bool) -> u32
    ensures is { result ≡ spec.flag is }
    ensures within { result ≤ 1 }
{
    if is { 1 } else { 0 }
}
