ghost use Rattle.std.specs.Prelude.{OnOk, ◌≡◌, ◌==◌, ◌/◌, not, Some, true, length, ◌<◌, ◌^◌};
ghost use Rattle.toml.specs.View.{table_view};
ghost use Rattle.config_keys.specs.Checks.{Gives};
ghost use Rattle.config_facts.specs.Valid as valid;
ghost use Rattle.config_tables.specs.Dio as spec;

use config_keys::{ConfigFault, KeyName, Path};
use config_tables::dio::Groups;
use config_tables::rows::{Element, Rule, check_rule};
use mcal_base::{DioChannelGroup, DioConfig, PortConfig, PortPin};

/// Rule 13: the lowest one of a group's mask isn't at its offset.
struct MaskOffOffset;

impl Rule<DioChannelGroup> for MaskOffOffset {
    ghost breaks = { λ r. spec.mask_off_offset };

    fn breaks(&self, _earlier: &[DioChannelGroup], value: &DioChannelGroup) -> bool {
        value.mask.trailing_zeros() != value.offset
    }
}

/// Whether a port is there: one of its eight pins is.
fn has_port(pins: &[PortPin], port: u32) -> bool
    ensures { result ≡ spec.has_port pins.now port }
{
    pins.iter().any(|pin| pin.id / 8 == port)
}

/// Checks that a port is there: `Unknown` names the place that refers to it.
fn port_reference(pins: &[PortPin], at: Path, port: u32) -> Result<(), ConfigFault>
    ensures gives { Gives result (spec.port_reference pins.now at port) (Some tt) }
    ensures refers { OnOk result (spec.has_port pins.now port ≡ true) }
{
    if has_port(pins, port) {
        Ok(())
    } else {
        Err(ConfigFault::Unknown(at, port))
    }
}

/// The references of the groups to their ports.
fn references(pins: &[PortPin], groups: &[DioChannelGroup]) -> Result<(), ConfigFault>
    requires { length groups.now < 2 ^ 32 }
    ensures gives { Gives result (spec.port_references pins.now 0 groups.now) (Some tt) }
    ensures refer { OnOk result (valid.ReferToPorts pins.now groups.now) }
{
    for (number, group) in groups.iter().enumerate() {
        let at = Groups::place()
            .of_element(number as u32)
            .of_key(KeyName::Port);
        port_reference(pins, at, group.port)?;
    }
    Ok(())
}

/// The rules of the module.
fn rules(dio: &DioConfig) -> Result<(), ConfigFault>
    ensures gives { Gives result (spec.rules dio.now) (Some tt) }
    ensures keeps { OnOk result (valid.KeepsDioRules dio.now) }
{
    check_rule(&MaskOffOffset, 13, Groups::place(), dio.groups.as_slice())
}

/// The references and the rules of the module Dio, over the pins that the module Port has.
#[tactic(auto, unfolding(config_tables::specs::Dio::across))]
pub(crate) fn across(port: &PortConfig, dio: &DioConfig) -> Result<(), ConfigFault>
    ensures gives { Gives result (spec.across port.now dio.now) (Some tt) }
    ensures refer { OnOk result (valid.ReferToPorts port.now.pins dio.now.groups) }
    ensures keeps { OnOk result (valid.KeepsDioRules dio.now) }
{
    references(port.pins.as_slice(), dio.groups.as_slice())?;
    rules(dio)
}
