ghost use Rattle.std.specs.Prelude.{IfOk, OnOk, ◌≡◌, Some};
ghost use Rattle.toml.specs.View.{table_view};
ghost use Rattle.config_keys.specs.Checks.{Gives};
ghost use Rattle.config_facts.specs.Valid as valid;
ghost use Rattle.config_tables.specs.Pwm as spec;

use crate::faults::FirstFault;
use crate::rows::{Element, Module, Rule, check_rule, elements};
use config_facts::are_same;
use config_keys::{
    ConfigFault, KeyName, Path, needed_name, needed_whole, text, truth_or, whole, whole_or,
};
use mcal_base::{ModuleName, PwmChannel, PwmConfig};
use toml::Table;

/// The place of the module's table.
const HERE: Path = Path {
    module: ModuleName::Pwm,
    key: None,
    element: None,
    inner: None,
    item: None,
};

/// `PwmChannel`.
struct Channels;

impl Element for Channels {
    type Value = PwmChannel;

    ghost shape = { spec.channels };

    ghost id_of = { valid.pulse_id };

    ghost is_valid = { valid.IsPulse };

    fn place() -> Path {
        HERE.of_key(KeyName::PwmChannel)
    }

    fn key() -> KeyName {
        KeyName::PwmChannel
    }

    fn id_key() -> Option<KeyName> {
        Some(KeyName::PwmChannelId)
    }

    fn id(value: &PwmChannel) -> Option<u32> {
        Some(value.id)
    }

    fn read(table: &Table, at: Path) -> Result<PwmChannel, ConfigFault> {
        let mut faults = FirstFault::none();
        let id = faults.keep(needed_whole(table, at, KeyName::PwmChannelId, 0, 7));
        let class = faults.keep(needed_name(table, at, KeyName::PwmChannelClass));
        let duty_cycle_default = faults.keep(needed_whole(
            table,
            at,
            KeyName::PwmDutycycleDefault,
            0,
            32768,
        ));
        let idle_state = faults.keep(needed_name(table, at, KeyName::PwmIdleState));
        let polarity = faults.keep(needed_name(table, at, KeyName::PwmPolarity));
        let notification = faults.keep(text(table, at, KeyName::PwmNotification));
        let period_ticks = faults.keep(needed_whole(table, at, KeyName::PeriodTicks, 0, 65535));
        let pin = faults.keep(whole(table, at, KeyName::Pin, 0, 63));
        let level = faults.keep(whole_or(table, at, KeyName::Level, 1, 7, 1));
        faults.finish(PwmChannel {
            id,
            class,
            duty_cycle_default,
            idle_state,
            polarity,
            notification,
            period_ticks,
            pin,
            level,
        })
    }
}

/// Rule 4: two channels name one pin.
struct SharesPin;

impl Rule<PwmChannel> for SharesPin {
    ghost breaks = { λ r. spec.shares_pin };

    fn breaks(&self, earlier: &[PwmChannel], value: &PwmChannel) -> bool {
        earlier.iter().any(|other| are_same(other.pin, value.pin))
    }
}

/// The keys and arrays of the module.
fn keys(table: &Table) -> Result<PwmConfig, ConfigFault>
    ensures gives { Gives result (spec.key_checks (table_view table.now)) (spec.value_of (table_view table.now)) }
    ensures tables { IfOk result valid.HasPwmTables }
{
    let mut faults = FirstFault::none();
    let dev_error_detect = faults.keep(truth_or(table, HERE, KeyName::PwmDevErrorDetect, true));
    let channels = faults.keep(elements::<Channels, 8>(table));
    faults.finish(PwmConfig {
        dev_error_detect,
        channels,
    })
}

/// The rules of the module.
#[tactic(auto, unfolding(crate::specs::Pwm::across))]
fn rules(pwm: &PwmConfig) -> Result<(), ConfigFault>
    ensures gives { Gives result (spec.across pwm.now) (Some tt) }
    ensures keeps { OnOk result (valid.KeepsPwmRules pwm.now) }
{
    check_rule(&SharesPin, 4, Channels::place(), pwm.channels.as_slice())
}

/// The table `Pwm`.
pub struct Pwm;

impl Module for Pwm {
    type Value = PwmConfig;

    ghost part = { spec.part };

    ghost is_valid = { valid.IsPwm };

    fn name() -> ModuleName {
        ModuleName::Pwm
    }

    #[tactic(auto, unfolding(crate::specs::Pwm::checks))]
    fn read(table: &Table) -> Result<PwmConfig, ConfigFault> {
        let pwm = keys(table)?;
        rules(&pwm)?;
        Ok(pwm)
    }
}
