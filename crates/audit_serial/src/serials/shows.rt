ghost use Rattle.std.specs.Prelude.{◌≡◌, length, slice_get};
ghost use Rattle.spi_machine.specs.Numbered.{word_at};
ghost use Rattle.spi_machine.specs.State as state;
ghost use Rattle.audit_serial.specs.Stands.{job_of_run, job_on, state_of};

use super::Serials;

impl Serials {
    /// A word of a user's source array.
    pub fn source(&self, channel: u32, place: u32) -> u32
        ensures { result ≡ word_at (state.channel_at (state_of self.now) channel).source place }
    {
        self.channels.source(channel, place)
    }

    /// A word of a user's destination array.
    pub fn destination(&self, channel: u32, place: u32) -> u32
        ensures { result ≡ word_at (state.channel_at (state_of self.now) channel).destination place }
    {
        self.channels.destination(channel, place)
    }

    /// A word of an internal channel: of those that may be read, or of those that are sent.
    pub fn internal(&self, channel: u32, received: bool, place: u32) -> u32
        ensures { result ≡ state.internal_word (state_of self.now) channel received place }
    {
        self.channels.internal(channel, received, place)
    }

    /// How many words were begun on a unit since the last reset.
    pub fn wire_len(&self, unit: u32) -> usize
        ensures { result ≡ length (state.wire_at (state_of self.now) unit) }
    {
        self.units.wire_len(unit)
    }

    /// A word that was begun on a unit since the last reset: what was sent, and what came in.
    pub fn wire(&self, unit: u32, word: usize) -> Option<(u32, u32)>
        ensures { result ≡ slice_get (state.wire_at (state_of self.now) unit) word }
    {
        self.units.wire(unit, word)
    }

    /// The job that a unit runs, or carries out for a call.
    pub fn job(&self, unit: u32) -> Option<u32>
        ensures { result ≡ job_on self.now.configured.table (state_of self.now) unit }
    {
        match self.units.entry(unit) {
            Some(entry) => Some(entry.next_job(&self.configured.table)),
            None => self.job_run(unit),
        }
    }

    /// The job that a unit runs.
    fn job_run(&self, unit: u32) -> Option<u32>
        ensures { result ≡ job_of_run self.now.configured.table (state_of self.now) (state.run_at (state_of self.now) unit) }
    {
        match self.units.sequence(unit) {
            Some(sequence) => match self.queue.find(sequence) {
                Some(entry) => Some(entry.next_job(&self.configured.table)),
                None => None,
            },
            None => None,
        }
    }
}
