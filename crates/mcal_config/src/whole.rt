ghost use Rattle.std.specs.Prelude.{◌≡◌, IfOk};
ghost use Rattle.toml.specs.View.{table_view};
ghost use Rattle.config_facts.specs.Valid.{IsValid};
ghost use Rattle.config_keys.specs.Checks.{Gives};
ghost use Rattle.mcal_config.specs.Whole as spec;

use crate::adc::Adc;
use crate::bare::default_board;
use crate::dio::across;
use crate::mcu::Mcu;
use config_keys::ConfigFault;
use config_tables::dio::Dio;
use config_tables::rows::read_module;
use config_tables::{Gpt, Icu, Port, Pwm, Spi, Wdg};
use mcal_base::Config;
use std::alloc::Global;
use toml::Table;

/// Whether a tree has no key at all.
fn is_bare(table: &Table) -> bool
    ensures { result ≡ spec.is_bare (table_view table.now) }
{
    table.is_empty()
}

/// The modules of a tree.
#[tactic(auto, unfolding(crate::specs::Whole::modules_checks, crate::specs::Whole::modules_value))]
fn modules(alloc: Global, table: &Table) -> Result<Config, ConfigFault>
    ensures gives { Gives result (spec.modules_checks (table_view table.now)) (spec.modules_value (table_view table.now)) }
    ensures valid { IfOk result IsValid }
{
    let mcu = read_module::<Mcu>(alloc, table)?;
    let port = read_module::<Port>(alloc, table)?;
    let gpt = read_module::<Gpt>(alloc, table)?;
    let pwm = read_module::<Pwm>(alloc, table)?;
    let icu = read_module::<Icu>(alloc, table)?;
    let adc = read_module::<Adc>(alloc, table)?;
    let spi = read_module::<Spi>(alloc, table)?;
    let dio = read_module::<Dio>(alloc, table)?;
    across(&port, &dio)?;
    let wdg = read_module::<Wdg>(alloc, table)?;
    Ok(Config {
        mcu,
        port,
        gpt,
        pwm,
        icu,
        adc,
        spi,
        dio,
        wdg,
    })
}

/// The configuration of a tree.
fn of_table(alloc: Global, table: &Table) -> Result<Config, ConfigFault>
    ensures gives { Gives result (spec.tree_checks (table_view table.now)) (spec.tree_value (table_view table.now)) }
    ensures valid { IfOk result IsValid }
{
    if is_bare(table) {
        Ok(default_board())
    } else {
        modules(alloc, table)
    }
}

/// Reads a configuration: a table a module, with the keys, kinds, ranges and defaults of `specs/`. Keys that are not
/// listed are ignored; a text without any key is the default board. A fault is the one that comes first in the walk:
/// the modules in order; of a module its kind, its plain keys, its arrays, then its references, then its rules; of an
/// array its kind, its length, then its elements with their keys, each followed by its id. `NotToml` comes before all
/// others, and `NoMemory` where the tree can't be held.
pub fn read_config(alloc: Global, text: &[u8]) -> Result<Config, ConfigFault>
    ensures gives { let tree = spec.tree_of text.now in Gives result (spec.config_checks tree) (spec.config_of tree) }
    ensures valid { IfOk result IsValid }
{
    match toml::table_from_slice(alloc, text) {
        Ok(table) => of_table(alloc, &table),
        Err(error) => {
            if error.is_memory() {
                Err(ConfigFault::NoMemory)
            } else {
                Err(ConfigFault::NotToml)
            }
        }
    }
}
