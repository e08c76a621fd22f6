ghost use Rattle.std.specs.Prelude.{IfOk, ◌≡◌, Some, ◌∷◌, []};
ghost use Rattle.toml.specs.View.{table_view};
ghost use Rattle.config_keys.specs.Checks.{Gives};
ghost use Rattle.config_facts.specs.Ids.{IsList};
ghost use Rattle.config_facts.specs.Valid as valid;
ghost use Rattle.config_tables.specs.Spi as spec;

use crate::faults::FirstFault;
use crate::rows::{Module, elements};
use crate::spi_rules::{references, rules};
use crate::spi_tables::{Channels, HERE, Jobs, Sequences};
use config_keys::{ConfigFault, KeyName, numbers_or, truth_or, whole_or};
use mcal_base::{ModuleName, Short, SpiConfig};
use toml::Table;

/// The levels that the lines of the two units have where they are not given.
pub fn both_at_one() -> Short<u32, 2>
    ensures value { result ≡ 1 ∷ 1 ∷ [] }
    ensures list { IsList 2 2 1 7 result }
{
    let mut levels = Short::new();
    levels.push(1);
    levels.push(1);
    levels
}

/// The keys and arrays of the module.
fn keys(table: &Table) -> Result<SpiConfig, ConfigFault>
    ensures gives { Gives result (spec.key_checks (table_view table.now)) (spec.value_of (table_view table.now)) }
    ensures tables { IfOk result valid.HasSpiTables }
{
    let mut faults = FirstFault::none();
    let dev_error_detect = faults.keep(truth_or(table, HERE, KeyName::SpiDevErrorDetect, true));
    let classification = faults.keep(whole_or(table, HERE, KeyName::Classification, 1, 2, 1));
    let levels = faults.keep(numbers_or(table, HERE, KeyName::Levels, 2, 1, 7, both_at_one()));
    let sync_units = faults.keep(numbers_or(
        table,
        HERE,
        KeyName::SyncUnits,
        0,
        0,
        1,
        Short::new(),
    ));
    let channels = faults.keep(elements::<Channels, 16>(table));
    let jobs = faults.keep(elements::<Jobs, 16>(table));
    let sequences = faults.keep(elements::<Sequences, 8>(table));
    faults.finish(SpiConfig {
        dev_error_detect,
        classification,
        levels,
        sync_units,
        channels,
        jobs,
        sequences,
    })
}

/// The table `Spi`.
pub struct Spi;

impl Module for Spi {
    type Value = SpiConfig;

    ghost part = { spec.part };

    ghost is_valid = { valid.IsSpi };

    fn name() -> ModuleName {
        ModuleName::Spi
    }

    #[tactic(auto, unfolding(crate::specs::Spi::checks, crate::specs::SpiRules::across))]
    fn read(table: &Table) -> Result<SpiConfig, ConfigFault> {
        let spi = keys(table)?;
        references(&spi)?;
        rules(&spi)?;
        Ok(spi)
    }
}
