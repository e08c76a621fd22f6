ghost use Rattle.std.specs.Prelude.{OnOk, ◌≡◌, ◌+◌, ◌&&◌, nat_lt, Some};
ghost use Rattle.std.specs.List.{list_any};
ghost use Rattle.toml.specs.View.{table_view};
ghost use Rattle.config_keys.specs.Checks.{Gives};
ghost use Rattle.config_facts.specs.Valid as valid;
ghost use Rattle.config_tables.specs.Mcu as spec;

use config_keys::ConfigFault;
use config_tables::mcu::{RamSections, keys};
use config_tables::rows::{Element, Module, Rule, check_rule};
use mcal_base::{McuConfig, McuRamSection, ModuleName};
use toml::Table;

/// Rule 1: a RAM section ends past word 512.
struct EndsPast;

impl Rule<McuRamSection> for EndsPast {
    ghost breaks = { λ r. spec.ends_past };

    fn breaks(&self, _earlier: &[McuRamSection], value: &McuRamSection) -> bool {
        512 < u64::from(value.base_address) + u64::from(value.size)
    }
}

/// Rule 2: a RAM section overlaps an earlier one.
struct Overlaps;

impl Rule<McuRamSection> for Overlaps {
    ghost breaks = { λ r. spec.overlaps };

    fn breaks(&self, earlier: &[McuRamSection], value: &McuRamSection) -> bool {
        earlier.iter().any(|other| overlap(other, value))
    }
}

/// The first word after a RAM section.
fn end_of(section: &McuRamSection) -> u64
    ensures { result ≡ section.now.base_address + section.now.size }
{
    u64::from(section.base_address) + u64::from(section.size)
}

/// Whether two RAM sections have a word in common.
fn overlap(one: &McuRamSection, other: &McuRamSection) -> bool
    ensures { result ≡ (nat_lt one.now.base_address (other.now.base_address + other.now.size) && nat_lt other.now.base_address (one.now.base_address + one.now.size)) }
{
    u64::from(one.base_address) < end_of(other) && u64::from(other.base_address) < end_of(one)
}

/// The rules of the module.
#[tactic(auto, unfolding(config_tables::specs::Mcu::across))]
fn rules(mcu: &McuConfig) -> Result<(), ConfigFault>
    ensures gives { Gives result (spec.across mcu.now) (Some tt) }
    ensures keeps { OnOk result (valid.KeepsMcuRules mcu.now) }
{
    let sections = mcu.ram_sections.as_slice();
    check_rule(&EndsPast, 1, RamSections::place(), sections)?;
    check_rule(&Overlaps, 2, RamSections::place(), sections)
}

/// The table `Mcu`.
pub struct Mcu;

impl Module for Mcu {
    type Value = McuConfig;

    ghost part = { spec.part };

    ghost is_valid = { valid.IsMcu };

    fn name() -> ModuleName {
        ModuleName::Mcu
    }

    #[tactic(auto, unfolding(config_tables::specs::Mcu::checks))]
    fn read(table: &Table) -> Result<McuConfig, ConfigFault> {
        let mcu = keys(table)?;
        rules(&mcu)?;
        Ok(mcu)
    }
}
