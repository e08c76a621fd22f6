ghost use Rattle.std.specs.Prelude.{◌≡◌, ◌≤◌, is_some, slice_index_or};
ghost use Rattle.adc_machine.specs.Table.{group_of};
ghost use Rattle.adc_groups.specs.laws.services.InitSteps as spec;

use adc_machine::AdcTable;
use mcal_base::Short;
use std::marker::Model;

/// A driver's table, beside the numbers of its configured groups in their order. Contracts see the table.
#[derive(Drop)]
pub struct ListedTable {
    table: AdcTable,
    configured: Short<u8, 16>,
}

impl Model for ListedTable {
    ghost use Rattle.std.specs.Prelude.{◌≡◌};
    ghost use Rattle.adc_machine.specs.declared.table.AdcTable.{AdcTable};

    ghost Value = { AdcTable };

    ghost use Rattle.adc_groups.specs.laws.services.InitSteps.{configured_from};

    ghost view = { λ listed. listed.table };

    ghost invariant = { λ listed. listed.configured ≡ configured_from listed.table 16 0 };
}

impl ListedTable {
    /// The same table.
    pub fn new(table: AdcTable) -> ListedTable
        ensures { result ≡ table }
    {
        let configured = configured(&table);
        ListedTable { table, configured }
    }

    /// The table.
    pub fn table(&self) -> &AdcTable
        ensures { result.now ≡ self.now }
    {
        &self.table
    }

    /// How many groups are configured.
    pub fn many(&self) -> u16
        ensures is { result ≡ spec.many_from self.now 16 0 }
        ensures few { result ≤ 16 }
    {
        self.configured.len() as u16
    }

    /// The number of the configured group at a place among them, 16 where there is none.
    pub fn group(&self, place: u8) -> u8
        ensures { result ≡ spec.cleared_group self.now place }
    {
        number_at(self.configured.as_slice(), place)
    }
}

/// The number at a place, 16 where there is none.
fn number_at(numbers: &[u8], place: u8) -> u8
    ensures { result ≡ slice_index_or numbers.now place 16 }
{
    match numbers.get(place as usize) {
        Some(number) => *number,
        None => 16,
    }
}

/// The numbers of the configured groups, in their order.
fn configured(table: &AdcTable) -> Short<u8, 16>
    ensures { result ≡ spec.configured_from table.now 16 0 }
{
    let mut numbers = Short::new();
    for number in 0..16 {
        if is_there(table, number) {
            numbers.push(number);
        }
    }
    numbers
}

/// Whether a group is configured.
fn is_there(table: &AdcTable, number: u8) -> bool
    ensures { result ≡ is_some (group_of table.now number) }
{
    table.at(number).is_some()
}
