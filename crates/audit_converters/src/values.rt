ghost use Rattle.std.specs.Prelude.{◌≡◌, ◌+◌, ◌*◌, ◌<◌, ◌≤◌, ◌^◌, ◌++◌, ◌∷◌, [], List, length, slice_index_or};
ghost use Rattle.adc_machine.specs.Groups.{levels_from};
ghost use Rattle.run_model.specs.World.{Sample};
ghost use Rattle.audit_base.specs.Inputs.{Took};
ghost use Rattle.audit_converters.specs.Listed.{listed};

use audit_base::Samples;
use mcal_base::Words;

/// Values of a group's inputs in their order, at most 32. What stands behind them is of no effect.
#[derive(Clone, Copy)]
pub struct Values {
    items: [u32; 32],
    count: u32,
}

/// No values.
pub(crate) const NO_VALUES: Values = Values {
    items: [0; 32],
    count: 0,
};

impl Values {
    /// How many they are.
    pub(crate) fn len(self) -> u32
        ensures is { result ≡ length (listed self) }
        ensures within { result ≤ 32 }
    {
        self.count.min(32)
    }

    /// One of them.
    pub(crate) fn at(self, place: u32) -> u32
        requires { place < length (listed self) }
        ensures { result ≡ slice_index_or (listed self) place 0 }
    {
        self.items[place as usize]
    }

    /// With one more value behind them.
    pub(crate) fn with(self, value: u32) -> Values
        requires { length (listed self) < 32 }
        ensures { listed result ≡ listed self ++ value ∷ [] }
    {
        let mut items = self.items;
        items[self.count as usize] = value;
        Values {
            items,
            count: self.count + 1,
        }
    }

    /// With the levels of these inputs behind them, the first one 4 ticks after a time, and each further one 4 ticks later.
    pub(crate) fn with_levels(self, samples: &Samples, inputs: &[u8], start: u64) -> Values
        requires room { length (listed self) + length inputs.now ≤ 32 }
        requires time { start + 4 * length inputs.now < 2 ^ 64 }
        ensures { (taken : List Sample) → Took samples.now taken → listed result ≡ listed self ++ levels_from taken start inputs.now }
    {
        let mut values = self;
        let mut time = start;
        for input in inputs {
            time += 4;
            let level = samples.at(*input as u32, time);
            values = values.with(level);
        }
        values
    }

    /// The numbers of an answer.
    pub(crate) fn words(self) -> Words
        ensures { result ≡ listed self }
    {
        let mut words = Words::new();
        for place in 0..self.len() {
            words.push(self.at(place));
        }
        words
    }
}
