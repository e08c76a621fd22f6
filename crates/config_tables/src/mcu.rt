ghost use Rattle.std.specs.Prelude.{IfOk, ◌≡◌, Some, None};
ghost use Rattle.toml.specs.View.{table_view};
ghost use Rattle.config_keys.specs.Checks.{Gives};
ghost use Rattle.config_facts.specs.Valid as valid;
ghost use Rattle.config_tables.specs.Mcu as spec;

use crate::faults::FirstFault;
use crate::rows::{Element, elements};
use config_keys::{ConfigFault, KeyName, Path, needed_whole, truth_or};
use mcal_base::{McuClockSetting, McuConfig, McuModeSetting, McuRamSection, ModuleName};
use toml::Table;

/// The place of the module's table.
const HERE: Path = Path {
    module: ModuleName::Mcu,
    key: None,
    element: None,
    inner: None,
    item: None,
};

/// `McuClockSettingConfig`.
struct ClockSettings;

impl Element for ClockSettings {
    type Value = McuClockSetting;

    ghost shape = { spec.clock_settings };

    ghost id_of = { valid.clock_setting_id };

    ghost is_valid = { valid.IsClockSetting };

    fn place() -> Path {
        HERE.of_key(KeyName::McuClockSettingConfig)
    }

    fn key() -> KeyName {
        KeyName::McuClockSettingConfig
    }

    fn id_key() -> Option<KeyName> {
        Some(KeyName::McuClockSettingId)
    }

    fn id(value: &McuClockSetting) -> Option<u32> {
        Some(value.id)
    }

    fn read(table: &Table, at: Path) -> Result<McuClockSetting, ConfigFault> {
        let mut faults = FirstFault::none();
        let id = faults.keep(needed_whole(table, at, KeyName::McuClockSettingId, 0, 7));
        let multiplier = faults.keep(needed_whole(table, at, KeyName::Multiplier, 1, 16));
        faults.finish(McuClockSetting { id, multiplier })
    }
}

/// `McuModeSettingConf`.
struct Modes;

impl Element for Modes {
    type Value = McuModeSetting;

    ghost shape = { spec.modes };

    ghost id_of = { valid.mode_id };

    ghost is_valid = { valid.IsMode };

    fn place() -> Path {
        HERE.of_key(KeyName::McuModeSettingConf)
    }

    fn key() -> KeyName {
        KeyName::McuModeSettingConf
    }

    fn id_key() -> Option<KeyName> {
        Some(KeyName::McuMode)
    }

    fn id(value: &McuModeSetting) -> Option<u32> {
        Some(value.mode)
    }

    #[tactic(auto, unfolding(crate::specs::Mcu::mode_checks, crate::specs::Mcu::mode_of))]
    fn read(table: &Table, at: Path) -> Result<McuModeSetting, ConfigFault> {
        let mode = needed_whole(table, at, KeyName::McuMode, 0, 7)?;
        Ok(McuModeSetting { mode })
    }
}

/// `McuRamSectorSettingConf`, whose elements have no ids.
pub struct RamSections;

impl Element for RamSections {
    type Value = McuRamSection;

    ghost shape = { spec.ram_sections };

    ghost id_of = { valid.no_id };

    ghost is_valid = { valid.IsRamSection };

    fn place() -> Path {
        HERE.of_key(KeyName::McuRamSectorSettingConf)
    }

    fn key() -> KeyName {
        KeyName::McuRamSectorSettingConf
    }

    fn id_key() -> Option<KeyName> {
        None
    }

    fn id(_value: &McuRamSection) -> Option<u32> {
        None
    }

    fn read(table: &Table, at: Path) -> Result<McuRamSection, ConfigFault> {
        let mut faults = FirstFault::none();
        let base_address = faults.keep(needed_whole(
            table,
            at,
            KeyName::McuRamSectionBaseAddress,
            0,
            511,
        ));
        let size = faults.keep(needed_whole(table, at, KeyName::McuRamSectionSize, 1, 64));
        let default_value = faults.keep(needed_whole(
            table,
            at,
            KeyName::McuRamDefaultValue,
            0,
            255,
        ));
        faults.finish(McuRamSection {
            base_address,
            size,
            default_value,
        })
    }
}

/// The keys and arrays of the module.
pub fn keys(table: &Table) -> Result<McuConfig, ConfigFault>
    ensures gives { Gives result (spec.key_checks (table_view table.now)) (spec.value_of (table_view table.now)) }
    ensures tables { IfOk result valid.HasMcuTables }
{
    let mut faults = FirstFault::none();
    let dev_error_detect = faults.keep(truth_or(table, HERE, KeyName::McuDevErrorDetect, true));
    let clock_settings = faults.keep(elements::<ClockSettings, 8>(table));
    let modes = faults.keep(elements::<Modes, 8>(table));
    let ram_sections = faults.keep(elements::<RamSections, 8>(table));
    faults.finish(McuConfig {
        dev_error_detect,
        clock_settings,
        modes,
        ram_sections,
    })
}
