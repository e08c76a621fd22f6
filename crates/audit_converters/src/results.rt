ghost use Rattle.std.specs.Prelude.{◌≡◌, ◌<◌, ◌∷◌, [], IfOk, length};
ghost use Rattle.adc_machine.specs.Groups as machine;
ghost use Rattle.adc_machine.specs.Groups.{held_in};
ghost use Rattle.adc_machine.specs.Table.{group_of};
ghost use Rattle.audit_converters.specs.Listed.{listed};
ghost use Rattle.audit_converters.specs.Stands.{HoldResults, put_at, result_at};

use crate::group::Group;
use crate::options::{place_in, samples_of};
use crate::values::Values;
use adc_machine::{AdcTable, ResultBuffer};
use std::alloc::{AllocError, Global};
use std::marker::Model;

/// How many places there are: 2,048 for each buffer of 16 groups.
const PLACES: usize = 65_536;

/// What was stored in the buffers of the groups.
#[derive(Drop)]
pub struct Results {
    words: Vec<u32>,
}

impl Model for Results {
    ghost use Rattle.std.specs.Prelude.{◌≡◌, List, ℕ, length};

    ghost Value = { List ℕ };

    ghost view = { λ t. t.words.items };

    ghost invariant = { λ t. length t.words.items ≡ 65536 };
}

/// The place of a result among the words.
fn place_of(group: u32, buffer: ResultBuffer, place: u32) -> usize
    requires group { group < 16 }
    requires place { place < 2048 }
    ensures is { result ≡ result_at group buffer place }
    ensures small { result < 65536 }
{
    let half = match buffer {
        ResultBuffer::Zero => 0,
        ResultBuffer::One => 1,
    };
    (2_048 * (2 * group + half) + place) as usize
}

impl Results {
    /// Nothing was stored.
    pub(crate) fn new(alloc: Global) -> Result<Results, AllocError>
        ensures { IfOk result (λ results. HoldResults results []) }
    {
        let words = vec![in alloc; 0u32; PLACES]?;
        Ok(Results { words })
    }

    /// Nothing is stored any more.
    pub(crate) fn clear(&mut self)
        ensures { HoldResults self.new [] }
    {
        self.words.fill(0);
    }

    /// What a place of a group's buffer holds.
    pub(crate) fn at(&self, group: u32, buffer: ResultBuffer, place: u32) -> u32
        requires group { group < 16 }
        requires place { place < 2048 }
        ensures { (results : machine.Results) → HoldResults self.now results → result ≡ held_in results group buffer place }
    {
        self.words[place_of(group, buffer, place)]
    }

    /// A value is stored at a place, of 2,048.
    fn put(&mut self, group: u32, buffer: ResultBuffer, place: u64, value: u32)
        requires { group < 16 }
        ensures is { self.new ≡ put_at self.old group buffer place value }
        ensures size { length self.old ≡ 65536 }
    {
        if place < 2_048 {
            self.words[place_of(group, buffer, place as u32)] = value;
        }
    }

    /// A round's values are stored: the first one at a place, and each further one so many places on.
    pub(crate) fn store(
        &mut self,
        group: u32,
        buffer: ResultBuffer,
        place: u32,
        step: u32,
        values: Values,
    )
        requires { group < 16 }
        ensures { (results : machine.Results) → HoldResults self.old results →
            HoldResults self.new (record { group = group; buffer = buffer; place = place; step = step; values = listed values } ∷ results) }
    {
        let mut at = place as u64;
        for number in 0..values.len() {
            self.put(group, buffer, at, values.at(number));
            at += step as u64;
        }
    }

    /// The values of a group's round go to their places in the buffer that the group has chosen.
    pub(crate) fn keep(&mut self, table: &AdcTable, number: u32, group: Group, values: Values)
        ensures { (results : machine.Results) → HoldResults self.old results →
            HoldResults self.new (machine.with_round_of (group_of table.now number) group.count number group.chosen (listed values) results) }
    {
        if let Some(buffer) = group.chosen {
            if number < 16 {
                let place = place_in(table, number, group.count);
                self.store(number, buffer, place, samples_of(table, number), values);
            }
        }
    }
}
