ghost use Rattle.std.specs.Prelude.{IfOk, OnOk, ◌≡◌, Some, ◌∷◌, []};
ghost use Rattle.std.specs.List.{list_any};
ghost use Rattle.toml.specs.View.{table_view};
ghost use Rattle.config_keys.specs.Checks.{Gives};
ghost use Rattle.config_facts.specs.Valid as valid;
ghost use Rattle.config_tables.specs.Port as spec;

use crate::faults::FirstFault;
use crate::rows::{Element, Module, Rule, check_rule, elements};
use config_keys::{
    ConfigFault, KeyName, Path, PinLevel, name_or, names_or, needed_name, needed_whole, truth_or,
};
use mcal_base::{ModuleName, PortConfig, PortPin, PortPinMode, Short};
use toml::Table;

/// The place of the module's table.
const HERE: Path = Path {
    module: ModuleName::Port,
    key: None,
    element: None,
    inner: None,
    item: None,
};

/// A mode alone.
fn alone(mode: PortPinMode) -> Short<PortPinMode, 5>
    ensures { result ≡ mode ∷ [] }
{
    let mut modes = Short::new();
    modes.push(mode);
    modes
}

/// Whether a level is high.
fn is_high(level: PinLevel) -> bool
    ensures { result ≡ spec.is_high level }
{
    match level {
        PinLevel::High => true,
        PinLevel::Low => false,
    }
}

/// `PortPin`.
struct Pins;

impl Element for Pins {
    type Value = PortPin;

    ghost shape = { spec.pins };

    ghost id_of = { valid.pin_id };

    ghost is_valid = { valid.IsPin };

    fn place() -> Path {
        HERE.of_key(KeyName::PortPin)
    }

    fn key() -> KeyName {
        KeyName::PortPin
    }

    fn id_key() -> Option<KeyName> {
        Some(KeyName::PortPinId)
    }

    fn id(value: &PortPin) -> Option<u32> {
        Some(value.id)
    }

    fn read(table: &Table, at: Path) -> Result<PortPin, ConfigFault> {
        let mut faults = FirstFault::none();
        let id = faults.keep(needed_whole(table, at, KeyName::PortPinId, 0, 63));
        let direction = faults.keep(needed_name(table, at, KeyName::PortPinDirection));
        let direction_changeable = truth_or(table, at, KeyName::PortPinDirectionChangeable, false);
        let direction_changeable = faults.keep(direction_changeable);
        let initial_mode = name_or(table, at, KeyName::PortPinInitialMode, PortPinMode::Dio);
        let initial_mode = faults.keep(initial_mode);
        let modes = faults.keep(names_or(table, at, KeyName::PortPinMode, 1, alone(initial_mode)));
        let mode_changeable = truth_or(table, at, KeyName::PortPinModeChangeable, false);
        let mode_changeable = faults.keep(mode_changeable);
        let level = faults.keep(name_or(table, at, KeyName::PortPinLevelValue, PinLevel::Low));
        faults.finish(PortPin {
            id,
            direction,
            direction_changeable,
            initial_mode,
            modes,
            mode_changeable,
            level_high: is_high(level),
        })
    }
}

/// Whether two modes are one.
fn same_mode(one: PortPinMode, other: PortPinMode) -> bool
    ensures { result ≡ spec.same_mode one other }
{
    one == other
}

/// Whether a mode is among these.
fn is_among(modes: &[PortPinMode], mode: PortPinMode) -> bool
    ensures { result ≡ list_any (λ m. spec.same_mode m mode) modes.now }
{
    modes.iter().any(|other| same_mode(*other, mode))
}

/// Rule 3: a pin's initial mode isn't among its modes.
struct InitialNotAllowed;

impl Rule<PortPin> for InitialNotAllowed {
    ghost breaks = { λ r. spec.initial_not_allowed };

    fn breaks(&self, _earlier: &[PortPin], value: &PortPin) -> bool {
        !is_among(value.modes.as_slice(), value.initial_mode)
    }
}

/// The keys and arrays of the module.
fn keys(table: &Table) -> Result<PortConfig, ConfigFault>
    ensures gives { Gives result (spec.key_checks (table_view table.now)) (spec.value_of (table_view table.now)) }
    ensures tables { IfOk result valid.HasPortTables }
{
    let mut faults = FirstFault::none();
    let dev_error_detect = faults.keep(truth_or(table, HERE, KeyName::PortDevErrorDetect, true));
    let pins = faults.keep(elements::<Pins, 64>(table));
    faults.finish(PortConfig {
        dev_error_detect,
        pins,
    })
}

/// The rules of the module.
#[tactic(auto, unfolding(crate::specs::Port::across))]
fn rules(port: &PortConfig) -> Result<(), ConfigFault>
    ensures gives { Gives result (spec.across port.now) (Some tt) }
    ensures keeps { OnOk result (valid.KeepsPortRules port.now) }
{
    check_rule(&InitialNotAllowed, 3, Pins::place(), port.pins.as_slice())
}

/// The table `Port`.
pub struct Port;

impl Module for Port {
    type Value = PortConfig;

    ghost part = { spec.part };

    ghost is_valid = { valid.IsPort };

    fn name() -> ModuleName {
        ModuleName::Port
    }

    #[tactic(auto, unfolding(crate::specs::Port::checks))]
    fn read(table: &Table) -> Result<PortConfig, ConfigFault> {
        let port = keys(table)?;
        rules(&port)?;
        Ok(port)
    }
}
