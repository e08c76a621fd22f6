ghost use Rattle.std.specs.Prelude.{◌≡◌};
ghost use Rattle.word_shapes.specs.streams.Rounds as spec;

use mcal_base::USERS;

/// The places of a round in a user's buffer: one for each input, as far from one another as the stream has rounds.
#[derive(Clone, Copy)]
pub struct Column {
    /// The group.
    pub group: u8,
    /// Whether the buffer is its second one.
    pub second: bool,
    /// How many rounds the stream has.
    pub samples: u8,
    /// Which of them it is.
    pub place: u8,
}

impl Column {
    /// The word of an input's place.
    pub fn word(&self, input: u8) -> u32
        ensures { result ≡ spec.column_word self.now input }
    {
        let buffer = 2 * u32::from(self.group) + u32::from(self.second);
        USERS + 2_048 * buffer + u32::from(input) * u32::from(self.samples) + u32::from(self.place)
    }
}
