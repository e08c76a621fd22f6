ghost use Rattle.std.specs.Prelude.{IfOk, ◌≡◌, Some};
ghost use Rattle.toml.specs.View.{table_view};
ghost use Rattle.config_keys.specs.Checks.{Gives};
ghost use Rattle.config_facts.specs.Valid as valid;
ghost use Rattle.config_tables.specs.Icu as spec;

use crate::faults::FirstFault;
use crate::rows::{Element, Module, elements};
use config_keys::{
    ConfigFault, KeyName, Path, name_if, needed_name, needed_whole, text, truth_or, whole_or,
};
use mcal_base::{IcuChannel, IcuConfig, IcuMeasurementMode, ModuleName};
use toml::Table;

/// The place of the module's table.
const HERE: Path = Path {
    module: ModuleName::Icu,
    key: None,
    element: None,
    inner: None,
    item: None,
};

/// Whether a mode is that of measurements.
fn measures(mode: IcuMeasurementMode) -> bool
    ensures { result ≡ spec.measures (Some mode) }
{
    matches!(mode, IcuMeasurementMode::SignalMeasurement)
}

/// Whether a mode is that of timestamps.
fn stamps(mode: IcuMeasurementMode) -> bool
    ensures { result ≡ spec.stamps (Some mode) }
{
    matches!(mode, IcuMeasurementMode::Timestamp)
}

/// `IcuChannel`.
struct Channels;

impl Element for Channels {
    type Value = IcuChannel;

    ghost shape = { spec.channels };

    ghost id_of = { valid.input_id };

    ghost is_valid = { valid.IsInput };

    fn place() -> Path {
        HERE.of_key(KeyName::IcuChannel)
    }

    fn key() -> KeyName {
        KeyName::IcuChannel
    }

    fn id_key() -> Option<KeyName> {
        Some(KeyName::IcuChannelId)
    }

    fn id(value: &IcuChannel) -> Option<u32> {
        Some(value.id)
    }

    fn read(table: &Table, at: Path) -> Result<IcuChannel, ConfigFault> {
        let mut faults = FirstFault::none();
        let id = faults.keep(needed_whole(table, at, KeyName::IcuChannelId, 0, 7));
        let default_start_edge = faults.keep(needed_name(table, at, KeyName::IcuDefaultStartEdge));
        let measurement_mode = faults.keep(needed_name(table, at, KeyName::IcuMeasurementMode));
        let signal_measurement_property = faults.keep(name_if(
            measures(measurement_mode),
            table,
            at,
            KeyName::IcuSignalMeasurementProperty,
        ));
        let timestamp_measurement_property = faults.keep(name_if(
            stamps(measurement_mode),
            table,
            at,
            KeyName::IcuTimestampMeasurementProperty,
        ));
        let signal_notification = faults.keep(text(table, at, KeyName::IcuSignalNotification));
        let timestamp_notification = text(table, at, KeyName::IcuTimestampNotification);
        let timestamp_notification = faults.keep(timestamp_notification);
        let pin = faults.keep(needed_whole(table, at, KeyName::Pin, 0, 63));
        let level = faults.keep(whole_or(table, at, KeyName::Level, 1, 7, 1));
        faults.finish(IcuChannel {
            id,
            default_start_edge,
            measurement_mode,
            signal_measurement_property,
            timestamp_measurement_property,
            signal_notification,
            timestamp_notification,
            pin,
            level,
        })
    }
}

/// The keys and arrays of the module.
fn keys(table: &Table) -> Result<IcuConfig, ConfigFault>
    ensures gives { Gives result (spec.checks (table_view table.now)) (spec.value_of (table_view table.now)) }
    ensures tables { IfOk result valid.IsIcu }
{
    let mut faults = FirstFault::none();
    let dev_error_detect = faults.keep(truth_or(table, HERE, KeyName::IcuDevErrorDetect, true));
    let classification = faults.keep(whole_or(table, HERE, KeyName::Classification, 1, 2, 1));
    let channels = faults.keep(elements::<Channels, 8>(table));
    faults.finish(IcuConfig {
        dev_error_detect,
        classification,
        channels,
    })
}

/// The table `Icu`, which has no references and no rules.
pub struct Icu;

impl Module for Icu {
    type Value = IcuConfig;

    ghost part = { spec.part };

    ghost is_valid = { valid.IsIcu };

    fn name() -> ModuleName {
        ModuleName::Icu
    }

    fn read(table: &Table) -> Result<IcuConfig, ConfigFault> {
        keys(table)
    }
}
