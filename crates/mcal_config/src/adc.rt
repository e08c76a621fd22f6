ghost use Rattle.std.specs.Prelude.{OnOk, ◌≡◌, Some, ◌&&◌, true, false, not, nat_lt, length, ◌<◌, ◌^◌};
ghost use Rattle.std.specs.List.{list_any};
ghost use Rattle.toml.specs.View.{table_view};
ghost use Rattle.config_keys.specs.Checks.{Gives};
ghost use Rattle.config_facts.specs.Valid as valid;
ghost use Rattle.config_tables.specs.Adc as spec;

use config_facts::are_same;
use config_keys::{ConfigFault, KeyName};
use config_tables::adc::{Groups, Units, is_continuous, is_hardware, is_single, keys};
use config_tables::rows::{Element, Module, Rule, check_reference, check_rule};
use mcal_base::{AdcConfig, AdcGroup, AdcHwUnit, ModuleName};
use toml::Table;

/// Rule 5: a hardware-triggered group is continuous.
struct HardwareContinuous;

impl Rule<AdcGroup> for HardwareContinuous {
    ghost breaks = { λ r. spec.hardware_continuous };

    fn breaks(&self, _earlier: &[AdcGroup], value: &AdcGroup) -> bool {
        is_hardware(value.trigger_source) && is_continuous(value.conversion_mode)
    }
}

/// Whether a group is triggered by this hardware input.
fn is_triggered_by(group: &AdcGroup, input: Option<u32>) -> bool
    ensures { result ≡ spec.is_triggered_by group.now input }
{
    is_hardware(group.trigger_source) && are_same(group.trigger_input, input)
}

/// Whether one of these groups is triggered by this hardware input.
fn has_trigger(groups: &[AdcGroup], input: Option<u32>) -> bool
    ensures { result ≡ list_any (λ e. spec.is_triggered_by e input) groups.now }
{
    groups.iter().any(|group| is_triggered_by(group, input))
}

/// Rule 6: two hardware-triggered groups name one trigger input.
struct SharesTrigger;

impl Rule<AdcGroup> for SharesTrigger {
    ghost breaks = { λ r. spec.shares_trigger };

    fn breaks(&self, earlier: &[AdcGroup], value: &AdcGroup) -> bool {
        is_hardware(value.trigger_source) && has_trigger(earlier, value.trigger_input)
    }
}

/// Rule 7: a single-access group has more than one sample.
struct SingleWithSamples;

impl Rule<AdcGroup> for SingleWithSamples {
    ghost breaks = { λ r. spec.single_with_samples };

    fn breaks(&self, _earlier: &[AdcGroup], value: &AdcGroup) -> bool {
        is_single(value.access_mode) && 1 < value.streaming_num_samples
    }
}

/// Rule 8: a streaming software group is one-shot.
struct StreamingOnce;

impl Rule<AdcGroup> for StreamingOnce {
    ghost breaks = { λ r. spec.streaming_once };

    fn breaks(&self, _earlier: &[AdcGroup], value: &AdcGroup) -> bool {
        !is_single(value.access_mode)
            && !is_hardware(value.trigger_source)
            && !is_continuous(value.conversion_mode)
    }
}

/// The references of the groups to their units.
fn references(units: &[AdcHwUnit], groups: &[AdcGroup]) -> Result<(), ConfigFault>
    requires { length groups.now < 2 ^ 32 }
    ensures gives { Gives result (spec.unit_references units.now 0 groups.now) (Some tt) }
    ensures refer { OnOk result (valid.ReferToUnits units.now groups.now) }
{
    for (number, group) in groups.iter().enumerate() {
        let at = Groups::place()
            .of_element(number as u32)
            .of_key(KeyName::Unit);
        check_reference::<Units>(units, at, group.unit)?;
    }
    Ok(())
}

/// The rules of the module.
#[tactic(auto, unfolding(config_tables::specs::Adc::rule_checks))]
fn rules(adc: &AdcConfig) -> Result<(), ConfigFault>
    ensures gives { Gives result (spec.rule_checks adc.now) (Some tt) }
    ensures keeps { OnOk result (valid.KeepsAdcRules adc.now) }
{
    let groups = adc.groups.as_slice();
    check_rule(&HardwareContinuous, 5, Groups::place(), groups)?;
    check_rule(&SharesTrigger, 6, Groups::place(), groups)?;
    check_rule(&SingleWithSamples, 7, Groups::place(), groups)?;
    check_rule(&StreamingOnce, 8, Groups::place(), groups)
}

/// The table `Adc`.
pub struct Adc;

impl Module for Adc {
    type Value = AdcConfig;

    ghost part = { spec.part };

    ghost is_valid = { valid.IsAdc };

    fn name() -> ModuleName {
        ModuleName::Adc
    }

    #[tactic(auto, unfolding(config_tables::specs::Adc::checks, config_tables::specs::Adc::across))]
    fn read(table: &Table) -> Result<AdcConfig, ConfigFault> {
        let adc = keys(table)?;
        references(adc.units.as_slice(), adc.groups.as_slice())?;
        rules(&adc)?;
        Ok(adc)
    }
}
