ghost use Rattle.std.specs.Prelude.{IfOk, ◌≡◌, Some};
ghost use Rattle.toml.specs.View.{table_view};
ghost use Rattle.config_keys.specs.Checks.{Gives};
ghost use Rattle.config_facts.specs.Valid as valid;
ghost use Rattle.config_tables.specs.Dio as spec;

use crate::faults::FirstFault;
use crate::rows::{Element, Module, elements};
use config_keys::{ConfigFault, KeyName, Path, needed_whole, truth_or};
use mcal_base::{DioChannelGroup, DioConfig, ModuleName};
use toml::Table;

/// The place of the module's table.
const HERE: Path = Path {
    module: ModuleName::Dio,
    key: None,
    element: None,
    inner: None,
    item: None,
};

/// `DioChannelGroup`.
pub struct Groups;

impl Element for Groups {
    type Value = DioChannelGroup;

    ghost shape = { spec.groups };

    ghost id_of = { valid.pin_group_id };

    ghost is_valid = { valid.IsPinGroup };

    fn place() -> Path {
        HERE.of_key(KeyName::DioChannelGroup)
    }

    fn key() -> KeyName {
        KeyName::DioChannelGroup
    }

    fn id_key() -> Option<KeyName> {
        Some(KeyName::DioChannelGroupId)
    }

    fn id(value: &DioChannelGroup) -> Option<u32> {
        Some(value.id)
    }

    fn read(table: &Table, at: Path) -> Result<DioChannelGroup, ConfigFault> {
        let mut faults = FirstFault::none();
        let id = faults.keep(needed_whole(table, at, KeyName::DioChannelGroupId, 0, 7));
        let port = faults.keep(needed_whole(table, at, KeyName::Port, 0, 7));
        let offset = faults.keep(needed_whole(table, at, KeyName::DioPortOffset, 0, 7));
        let mask = faults.keep(needed_whole(table, at, KeyName::DioPortMask, 1, 255));
        faults.finish(DioChannelGroup {
            id,
            port,
            offset,
            mask,
        })
    }
}

/// The keys and arrays of the module.
fn keys(table: &Table) -> Result<DioConfig, ConfigFault>
    ensures gives { Gives result (spec.checks (table_view table.now)) (spec.value_of (table_view table.now)) }
    ensures tables { IfOk result valid.HasDioTables }
{
    let mut faults = FirstFault::none();
    let dev_error_detect = faults.keep(truth_or(table, HERE, KeyName::DioDevErrorDetect, true));
    let groups = faults.keep(elements::<Groups, 8>(table));
    faults.finish(DioConfig {
        dev_error_detect,
        groups,
    })
}

/// The table `Dio`, without its references and its rule, which come where the pins are known.
pub struct Dio;

impl Module for Dio {
    type Value = DioConfig;

    ghost part = { spec.part };

    ghost is_valid = { valid.HasDioTables };

    fn name() -> ModuleName {
        ModuleName::Dio
    }

    fn read(table: &Table) -> Result<DioConfig, ConfigFault> {
        keys(table)
    }
}
