//! What only the driver's words hold, for the layers above.

ghost use Rattle.std.specs.Prelude.{◌≡◌, ◌*◌, [], ℕ, None};
ghost use Rattle.chip_model.specs.Chip.{word_of};
ghost use Rattle.run_model.specs.World.{World};
ghost use Rattle.adc_machine.specs.Turns.{AdcState, group_at};
ghost use Rattle.adc_machine.specs.Words.{place_count};
ghost use Rattle.adc_groups.specs.Refinement.{AdcRepresents, FitsAdc};
ghost use Rattle.adc_driver.specs.laws.words.WordsToState as spec;

use crate::driver::AdcDriver;
use adc_groups::{Word, word_number};
use adc_machine::ResultBuffer;
use chip_model::Bus;
use mcal_base::WORDS;

impl AdcDriver {
    /// The buffer of a group that was set up last, where there is one. It is the machine's wherever no service is under
    /// way.
    pub fn chosen(&self, bus: &Bus, group: u32) -> Option<ResultBuffer>
        ensures { (w : World) (s : AdcState) → FitsAdc self.now.table → AdcRepresents self.now.table [] None bus.now w s → result ≡ (group_at s group).chosen }
    {
        self.chosen_told(bus, group)
    }

    /// The buffer that the word of a configured group names.
    fn chosen_told(&self, bus: &Bus, group: u32) -> Option<ResultBuffer>
        ensures { result ≡ spec.chosen_told self.now.table (word_of bus.now) group }
    {
        if group < 16 && self.table.group(group).is_some() {
            buffer_in(word(bus, word_number(&self.table, Word::Chosen(group as u8))))
        } else {
            None
        }
    }

    /// How many places each of the two buffers of a group has.
    pub fn places(&self, group: u32) -> u32
        ensures { result ≡ place_count self.now.table group }
    {
        match self.table.group(group) {
            Some(found) => product(found.inputs.len() as u8, found.samples),
            None => 0,
        }
    }
}

/// The product of two numbers.
fn product(inputs: u8, samples: u8) -> u32
    ensures { result ≡ inputs * samples }
{
    u32::from(inputs) * u32::from(samples)
}

/// The buffer that a word names.
fn buffer_in(value: u32) -> Option<ResultBuffer>
    ensures { result ≡ spec.buffer_in value }
{
    if value == 1 {
        Some(ResultBuffer::Zero)
    } else if value == 2 {
        Some(ResultBuffer::One)
    } else {
        None
    }
}

/// A driver word, 0 where there is none of that number.
fn word(bus: &Bus, number: u32) -> u32
    ensures { result ≡ spec.word_or (word_of bus.now) number }
{
    if number < WORDS { bus.word(number) } else { 0 }
}
