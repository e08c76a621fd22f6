ghost use Rattle.std.specs.Prelude.{◌≡◌, ◌≤◌, ◌<◌, length, List, ℕ, slice_index, slice_set};
ghost use Rattle.chip_blocks.specs.converter.Converters.{unused, level_at, with_level, listed, result as result_of, settled, gone, aborted, acknowledged};

use crate::converter::round::Round;

/// How many analog inputs there are.
const INPUTS: u32 = 32;

/// How many list registers and results a unit has.
const LISTS: u32 = 8;

const PLACES: u32 = 32;

/// A unit.
#[derive(Clone, Copy)]
pub struct Converter {
    /// `A<u>.LIST0` to `A<u>.LIST7`
    pub list: [u32; 8],
    /// The round begun last, or one without inputs that is over.
    pub round: Round,
    /// The results of the inputs that ended before the levels were set last.
    pub results: [u32; 32],
}

/// The levels of the analog inputs, and the time at which one of them was set last.
#[derive(Drop)]
pub struct Levels {
    /// The levels by input.
    pub values: [u32; 32],
    /// When one of them was set last.
    pub since: u64,
}

impl Levels {
    /// The level of an input. An input that isn't there has level 0.
    pub fn at(&self, input: u32) -> u32
        ensures { result ≡ level_at self.now input }
    {
        if input < INPUTS {
            self.values[input as usize]
        } else {
            0
        }
    }

    /// Sets the level of an input. One that isn't there is ignored.
    pub fn set(&mut self, input: u32, value: u32, now: u64)
        ensures { self.new ≡ with_level self.old input value now }
    {
        if input < INPUTS {
            self.values[input as usize] = value;
        }
        self.since = now;
    }
}

impl Converter {
    #[tactic(auto, unfolding(crate::specs::converter::Converters::unused))]
    /// A unit before its first round.
    pub fn new() -> Converter
        ensures { result ≡ unused }
    {
        Converter {
            list: [0; 8],
            round: Round::none(),
            results: [0; 32],
        }
    }

    /// `A<u>.LIST<place>`
    pub fn set_list(&mut self, place: u32, value: u32)
        ensures { self.new ≡ listed place value self.old }
    {
        if place < LISTS {
            self.list[place as usize] = value;
        }
    }

    /// `A<u>.RESULT<place>`
    pub fn result(&self, levels: &Levels, now: u64, place: u32) -> u32
        ensures { result ≡ result_of levels.now now self.now place }
    {
        if self.round.ended(levels.since) <= place && place < self.round.ended(now) {
            levels.at(self.round.input(place))
        } else if place < PLACES {
            self.results[place as usize]
        } else {
            0
        }
    }

    /// Keeps the results of the inputs that ended since the levels were set last.
    pub fn settle(&mut self, levels: &Levels, now: u64)
        ensures { self.new ≡ settled levels.now now self.old }
    {
        for place in self.round.ended(levels.since)..self.round.ended(now) {
            self.results[place as usize] = levels.at(self.round.input(place));
        }
    }

    /// Begins a round of 1 to 32 inputs where the unit is idle.
    pub fn go(&mut self, levels: &Levels, count: u32, now: u64)
        ensures { self.new ≡ gone levels.now count now self.old }
    {
        if self.round.idle() && 1 <= count && count <= PLACES {
            self.settle(levels, now);
            self.round = Round::new(now, count, self.list);
        }
    }

    /// Stops a running round.
    pub fn abort(&mut self, now: u64)
        ensures { self.new ≡ aborted now self.old }
    {
        if self.round.running(now) {
            self.round.close(now);
        }
    }

    /// Takes a finished round away.
    pub fn acknowledge(&mut self, now: u64)
        ensures { self.new ≡ acknowledged now self.old }
    {
        if self.round.finished(now) {
            self.round.close(now);
        }
    }
}
