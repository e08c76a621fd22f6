ghost use Rattle.std.specs.Prelude.{IfOk, ◌≡◌, Some};
ghost use Rattle.toml.specs.View.{table_view};
ghost use Rattle.config_keys.specs.Checks.{Gives};
ghost use Rattle.config_facts.specs.Valid as valid;
ghost use Rattle.config_tables.specs.Gpt as spec;

use crate::faults::FirstFault;
use crate::rows::{Element, Module, elements};
use config_keys::{
    ConfigFault, KeyName, Path, needed_name, needed_whole, text, truth_or, whole_or,
};
use mcal_base::{GptChannel, GptConfig, ModuleName};
use toml::Table;

/// The place of the module's table.
const HERE: Path = Path {
    module: ModuleName::Gpt,
    key: None,
    element: None,
    inner: None,
    item: None,
};

/// `GptChannelConfiguration`.
struct Channels;

impl Element for Channels {
    type Value = GptChannel;

    ghost shape = { spec.channels };

    ghost id_of = { valid.timer_id };

    ghost is_valid = { valid.IsTimer };

    fn place() -> Path {
        HERE.of_key(KeyName::GptChannelConfiguration)
    }

    fn key() -> KeyName {
        KeyName::GptChannelConfiguration
    }

    fn id_key() -> Option<KeyName> {
        Some(KeyName::GptChannelId)
    }

    fn id(value: &GptChannel) -> Option<u32> {
        Some(value.id)
    }

    fn read(table: &Table, at: Path) -> Result<GptChannel, ConfigFault> {
        let mut faults = FirstFault::none();
        let id = faults.keep(needed_whole(table, at, KeyName::GptChannelId, 0, 7));
        let mode = faults.keep(needed_name(table, at, KeyName::GptChannelMode));
        let tick_value_max = faults.keep(whole_or(
            table,
            at,
            KeyName::GptChannelTickValueMax,
            1,
            u32::MAX,
            u32::MAX,
        ));
        let enable_wakeup = faults.keep(truth_or(table, at, KeyName::GptEnableWakeup, false));
        let notification = faults.keep(text(table, at, KeyName::GptNotification));
        let prescaler = faults.keep(whole_or(table, at, KeyName::Prescaler, 1, 65535, 1));
        let level = faults.keep(whole_or(table, at, KeyName::Level, 1, 7, 1));
        faults.finish(GptChannel {
            id,
            mode,
            tick_value_max,
            enable_wakeup,
            notification,
            prescaler,
            level,
        })
    }
}

/// The keys and arrays of the module.
fn keys(table: &Table) -> Result<GptConfig, ConfigFault>
    ensures gives { Gives result (spec.checks (table_view table.now)) (spec.value_of (table_view table.now)) }
    ensures tables { IfOk result valid.IsGpt }
{
    let mut faults = FirstFault::none();
    let dev_error_detect = faults.keep(truth_or(table, HERE, KeyName::GptDevErrorDetect, true));
    let classification = faults.keep(whole_or(table, HERE, KeyName::Classification, 1, 2, 1));
    let channels = faults.keep(elements::<Channels, 8>(table));
    faults.finish(GptConfig {
        dev_error_detect,
        classification,
        channels,
    })
}

/// The table `Gpt`, which has no references and no rules.
pub struct Gpt;

impl Module for Gpt {
    type Value = GptConfig;

    ghost part = { spec.part };

    ghost is_valid = { valid.IsGpt };

    fn name() -> ModuleName {
        ModuleName::Gpt
    }

    fn read(table: &Table) -> Result<GptConfig, ConfigFault> {
        keys(table)
    }
}
