ghost use Rattle.std.specs.Prelude.{IfOk, OnOk, ◌≡◌, false, Some};
ghost use Rattle.toml.specs.View.{table_view};
ghost use Rattle.config_keys.specs.Checks.{Gives};
ghost use Rattle.config_facts.specs.Valid as valid;
ghost use Rattle.config_tables.specs.Wdg as spec;

use crate::faults::FirstFault;
use crate::rows::Module;
use config_keys::{ConfigFault, KeyName, Path, name_or, truth_or, whole_or};
use mcal_base::{ModuleName, WdgConfig, WdgMode};
use toml::Table;

/// The place of the module's table.
const HERE: Path = Path {
    module: ModuleName::Wdg,
    key: None,
    element: None,
    inner: None,
    item: None,
};

/// The keys of the module.
fn keys(table: &Table) -> Result<WdgConfig, ConfigFault>
    ensures gives { Gives result (spec.key_checks (table_view table.now)) (spec.value_of (table_view table.now)) }
    ensures tables { IfOk result valid.HasWdgTables }
{
    let mut faults = FirstFault::none();
    let dev_error_detect = faults.keep(truth_or(table, HERE, KeyName::WdgDevErrorDetect, true));
    let default_mode = faults.keep(name_or(table, HERE, KeyName::WdgDefaultMode, WdgMode::Off));
    let disable_allowed = faults.keep(truth_or(table, HERE, KeyName::WdgDisableAllowed, true));
    let initial_ticks = faults.keep(whole_or(table, HERE, KeyName::InitialTicks, 1, 65535, 1000));
    let max_ticks = faults.keep(whole_or(table, HERE, KeyName::MaxTicks, 1, 65535, 65535));
    faults.finish(WdgConfig {
        dev_error_detect,
        default_mode,
        disable_allowed,
        initial_ticks,
        max_ticks,
    })
}

/// Rule 14: the first timeout is above the largest.
#[tactic(auto, unfolding(crate::specs::Wdg::across))]
fn rules(wdg: &WdgConfig) -> Result<(), ConfigFault>
    ensures gives { Gives result (spec.across wdg.now) (Some tt) }
    ensures keeps { OnOk result (spec.initial_above_most wdg.now ≡ false) }
{
    if wdg.max_ticks < wdg.initial_ticks {
        Err(ConfigFault::Combination(HERE, 14))
    } else {
        Ok(())
    }
}

/// The table `Wdg`.
pub struct Wdg;

impl Module for Wdg {
    type Value = WdgConfig;

    ghost part = { spec.part };

    ghost is_valid = { valid.IsWdg };

    fn name() -> ModuleName {
        ModuleName::Wdg
    }

    #[tactic(auto, unfolding(crate::specs::Wdg::checks))]
    fn read(table: &Table) -> Result<WdgConfig, ConfigFault> {
        let wdg = keys(table)?;
        rules(&wdg)?;
        Ok(wdg)
    }
}
