ghost use Rattle.std.specs.Prelude.{IfOk, ◌≡◌, Some};
ghost use Rattle.toml.specs.View.{table_view};
ghost use Rattle.config_keys.specs.Checks.{Gives};
ghost use Rattle.config_facts.specs.Valid as valid;
ghost use Rattle.config_tables.specs.Adc as spec;

use crate::faults::FirstFault;
use crate::rows::{Element, elements};
use config_keys::{
    ConfigFault, KeyName, Path, name_or, needed_name, needed_numbers, needed_whole, text, truth_or,
    whole_if, whole_or,
};
use mcal_base::AdcGroupReplacement::AbortRestart;
use mcal_base::AdcStreamBufferMode::Linear;
use mcal_base::{
    AdcAccessMode, AdcConfig, AdcConversionMode, AdcGroup, AdcHwUnit, AdcPriorityImplementation,
    AdcTriggerSource, ModuleName,
};
use toml::Table;

/// The place of the module's table.
const HERE: Path = Path {
    module: ModuleName::Adc,
    key: None,
    element: None,
    inner: None,
    item: None,
};

/// `AdcHwUnit`.
pub struct Units;

impl Element for Units {
    type Value = AdcHwUnit;

    ghost shape = { spec.units };

    ghost id_of = { valid.unit_id };

    ghost is_valid = { valid.IsUnit };

    fn place() -> Path {
        HERE.of_key(KeyName::AdcHwUnit)
    }

    fn key() -> KeyName {
        KeyName::AdcHwUnit
    }

    fn id_key() -> Option<KeyName> {
        Some(KeyName::AdcHwUnitId)
    }

    fn id(value: &AdcHwUnit) -> Option<u32> {
        Some(value.id)
    }

    fn read(table: &Table, at: Path) -> Result<AdcHwUnit, ConfigFault> {
        let mut faults = FirstFault::none();
        let id = faults.keep(needed_whole(table, at, KeyName::AdcHwUnitId, 0, 1));
        let level = faults.keep(whole_or(table, at, KeyName::Level, 1, 7, 1));
        faults.finish(AdcHwUnit { id, level })
    }
}

/// Whether a trigger is a hardware one.
pub fn is_hardware(source: AdcTriggerSource) -> bool
    ensures { result ≡ spec.is_hardware (Some source) }
{
    matches!(source, AdcTriggerSource::Hardware)
}

/// Whether a conversion is continuous.
pub fn is_continuous(mode: AdcConversionMode) -> bool
    ensures { result ≡ spec.is_continuous mode }
{
    matches!(mode, AdcConversionMode::Continuous)
}

/// Whether an access is a single one.
pub fn is_single(mode: AdcAccessMode) -> bool
    ensures { result ≡ spec.is_single mode }
{
    matches!(mode, AdcAccessMode::Single)
}

/// `AdcGroup`.
pub struct Groups;

impl Element for Groups {
    type Value = AdcGroup;

    ghost shape = { spec.groups };

    ghost id_of = { valid.group_id };

    ghost is_valid = { valid.IsGroup };

    fn place() -> Path {
        HERE.of_key(KeyName::AdcGroup)
    }

    fn key() -> KeyName {
        KeyName::AdcGroup
    }

    fn id_key() -> Option<KeyName> {
        Some(KeyName::AdcGroupId)
    }

    fn id(value: &AdcGroup) -> Option<u32> {
        Some(value.id)
    }

    fn read(table: &Table, at: Path) -> Result<AdcGroup, ConfigFault> {
        let mut faults = FirstFault::none();
        let id = faults.keep(needed_whole(table, at, KeyName::AdcGroupId, 0, 15));
        let unit = faults.keep(needed_whole(table, at, KeyName::Unit, 0, 1));
        let definition = needed_numbers(table, at, KeyName::AdcGroupDefinition, 1, 0, 31);
        let definition = faults.keep(definition);
        let access_mode = faults.keep(needed_name(table, at, KeyName::AdcGroupAccessMode));
        let conversion_mode = faults.keep(needed_name(table, at, KeyName::AdcGroupConversionMode));
        let priority = faults.keep(whole_or(table, at, KeyName::AdcGroupPriority, 0, 255, 0));
        let replacement = name_or(table, at, KeyName::AdcGroupReplacement, AbortRestart);
        let replacement = faults.keep(replacement);
        let trigger_source = faults.keep(needed_name(table, at, KeyName::AdcGroupTriggSrc));
        let streaming_buffer_mode = name_or(table, at, KeyName::AdcStreamingBufferMode, Linear);
        let streaming_buffer_mode = faults.keep(streaming_buffer_mode);
        let streaming_num_samples = whole_or(table, at, KeyName::AdcStreamingNumSamples, 1, 64, 1);
        let streaming_num_samples = faults.keep(streaming_num_samples);
        let notification = faults.keep(text(table, at, KeyName::AdcNotification));
        let hardware = is_hardware(trigger_source);
        let trigger_input = faults.keep(whole_if(hardware, table, at, KeyName::TriggerInput, 0, 3));
        let level = faults.keep(whole_or(table, at, KeyName::Level, 1, 7, 1));
        faults.finish(AdcGroup {
            id,
            unit,
            definition,
            access_mode,
            conversion_mode,
            priority,
            replacement,
            trigger_source,
            streaming_buffer_mode,
            streaming_num_samples,
            notification,
            trigger_input,
            level,
        })
    }
}

/// The keys and arrays of the module.
pub fn keys(table: &Table) -> Result<AdcConfig, ConfigFault>
    ensures gives { Gives result (spec.key_checks (table_view table.now)) (spec.value_of (table_view table.now)) }
    ensures tables { IfOk result valid.HasAdcTables }
{
    let mut faults = FirstFault::none();
    let dev_error_detect = faults.keep(truth_or(table, HERE, KeyName::AdcDevErrorDetect, true));
    let classification = faults.keep(whole_or(table, HERE, KeyName::Classification, 1, 2, 1));
    let priority_implementation = faults.keep(name_or(
        table,
        HERE,
        KeyName::AdcPriorityImplementation,
        AdcPriorityImplementation::None,
    ));
    let enable_queuing = faults.keep(truth_or(table, HERE, KeyName::AdcEnableQueuing, false));
    let units = faults.keep(elements::<Units, 2>(table));
    let groups = faults.keep(elements::<Groups, 16>(table));
    faults.finish(AdcConfig {
        dev_error_detect,
        classification,
        priority_implementation,
        enable_queuing,
        units,
        groups,
    })
}
