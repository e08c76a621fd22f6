use crate::config::ConfigPass;
use crate::found::key_at;
use crate::members::{elements_at, has_same, is_named, items_at, member, number_at};
use config_keys::KeyName;
use mcal_base::ModuleName;
use std::alloc::AllocError;
use toml::Value;

/// A rule over the elements of an array: its number, the module and the array.
#[derive(Clone, Copy)]
struct Rule(u32, ModuleName, KeyName);

/// The rules over elements.
static RULES: [Rule; 13] = [
    Rule(1, ModuleName::Mcu, KeyName::McuRamSectorSettingConf),
    Rule(2, ModuleName::Mcu, KeyName::McuRamSectorSettingConf),
    Rule(3, ModuleName::Port, KeyName::PortPin),
    Rule(4, ModuleName::Pwm, KeyName::PwmChannel),
    Rule(5, ModuleName::Adc, KeyName::AdcGroup),
    Rule(6, ModuleName::Adc, KeyName::AdcGroup),
    Rule(7, ModuleName::Adc, KeyName::AdcGroup),
    Rule(8, ModuleName::Adc, KeyName::AdcGroup),
    Rule(9, ModuleName::Spi, KeyName::SpiJob),
    Rule(10, ModuleName::Spi, KeyName::SpiSequence),
    Rule(11, ModuleName::Spi, KeyName::SpiSequence),
    Rule(12, ModuleName::Spi, KeyName::SpiJob),
    Rule(13, ModuleName::Dio, KeyName::DioChannelGroup),
];

/// What each rule refuses.
pub(crate) fn refusal(rule: u32) -> &'static str {
    match rule {
        1 => "this RAM section ends past word 512",
        2 => "this RAM section overlaps an earlier one",
        3 => "this pin's initial mode is not in its `PortPinMode`",
        4 => "an earlier Pwm channel names the same pin",
        5 => "this hardware-triggered group is continuous",
        6 => "an earlier hardware-triggered group names the same trigger input",
        7 => "this single-access group has more than one sample",
        8 => "this streaming software group is one-shot",
        9 => "this job names a channel twice",
        10 => "this sequence names a job twice",
        11 => "the jobs of this sequence have different units",
        12 => "this job and an earlier one share a channel and have different units",
        13 => "the lowest one of this group's `DioPortMask` is not at its `DioPortOffset`",
        14 => "`InitialTicks` is above `MaxTicks`",
        _ => "a rule is broken here",
    }
}

/// The number of a key, or what stands for it.
fn number_or(value: &Value, key: KeyName, default: i64) -> i64 {
    number_at(value, key).unwrap_or(default)
}

/// The first word of a RAM section, and the first one behind it.
fn words_of(section: &Value) -> (i64, i64) {
    let first = number_or(section, KeyName::McuRamSectionBaseAddress, 0);
    let size = number_or(section, KeyName::McuRamSectionSize, 0);
    (first, first.saturating_add(size))
}

/// Whether two RAM sections share a word.
fn overlap(one: &Value, other: &Value) -> bool {
    let (first, end) = words_of(one);
    let (other_first, other_end) = words_of(other);
    first < other_end && other_first < end
}

/// Whether a pin's modes lack its initial one.
fn lacks_its_mode(pin: &Value) -> bool {
    let initial = match member(pin, KeyName::PortPinInitialMode) {
        Some(value) => value.as_str().unwrap_or(""),
        None => "PORT_PIN_MODE_DIO",
    };
    let modes = items_at(pin, KeyName::PortPinMode);
    !modes.is_empty() && !has_name(modes, initial)
}

/// Whether a name is among some values.
fn has_name(values: &[Value], name: &str) -> bool {
    for value in values {
        if value.as_str() == Some(name) {
            return true;
        }
    }
    false
}

/// Whether a group is started by pulses.
fn is_triggered(group: &Value) -> bool {
    is_named(group, KeyName::AdcGroupTriggSrc, "ADC_TRIGG_SRC_HW")
}

/// Whether a group's conversions go on until a stop.
fn is_continuous(group: &Value) -> bool {
    is_named(
        group,
        KeyName::AdcGroupConversionMode,
        "ADC_CONV_MODE_CONTINUOUS",
    )
}

/// Whether a group has single access.
fn is_single(group: &Value) -> bool {
    is_named(group, KeyName::AdcGroupAccessMode, "ADC_ACCESS_MODE_SINGLE")
}

/// Whether a value is a whole number that is among some values.
fn is_among(item: &Value, values: &[Value]) -> bool {
    let Some(number) = item.as_integer() else {
        return false;
    };
    for value in values {
        if value.as_integer() == Some(number) {
            return true;
        }
    }
    false
}

/// Whether two arrays share a number.
fn share(one: &[Value], other: &[Value]) -> bool {
    for item in one {
        if is_among(item, other) {
            return true;
        }
    }
    false
}

/// Whether an array has a number twice.
fn has_twins(items: &[Value]) -> bool {
    for (number, item) in items.iter().enumerate() {
        if is_among(item, items.get(..number).unwrap_or(&[])) {
            return true;
        }
    }
    false
}

/// The unit of the job with this id.
fn unit_of(jobs: &[Value], id: &Value) -> Option<i64> {
    let number = id.as_integer()?;
    for job in jobs {
        if number_or(job, KeyName::SpiJobId, -1) == number {
            return number_at(job, KeyName::Unit);
        }
    }
    None
}

/// Whether a job of a list has this unit.
fn runs_on(jobs: &[Value], list: &[Value], unit: i64) -> bool {
    for id in list {
        if unit_of(jobs, id) == Some(unit) {
            return true;
        }
    }
    false
}

/// Whether two jobs share a channel and have different units.
fn share_between_units(one: &Value, other: &Value) -> bool {
    !has_same(one, other, KeyName::Unit)
        && share(
            items_at(one, KeyName::SpiChannelList),
            items_at(other, KeyName::SpiChannelList),
        )
}

/// Whether the lowest one of a group's mask is elsewhere than at its offset.
fn is_off_offset(group: &Value) -> bool {
    let mask = number_or(group, KeyName::DioPortMask, 0);
    let offset = number_or(group, KeyName::DioPortOffset, 0);
    i64::from(mask.trailing_zeros()) != offset
}

/// Whether a sequence has jobs on both units.
fn has_both_units(values: &toml::Table, sequence: &Value) -> bool {
    let jobs = elements_at(values, ModuleName::Spi, KeyName::SpiJob);
    let list = items_at(sequence, KeyName::SpiJobAssignment);
    runs_on(jobs, list, 0) && runs_on(jobs, list, 1)
}

/// Whether a group breaks a rule of groups by itself.
fn breaks_of_groups(rule: u32, group: &Value) -> bool {
    match rule {
        5 => is_triggered(group) && is_continuous(group),
        7 => is_single(group) && 1 < number_or(group, KeyName::AdcStreamingNumSamples, 1),
        8 => !is_single(group) && !is_triggered(group) && !is_continuous(group),
        _ => false,
    }
}

/// Whether an element breaks a rule by itself.
fn breaks_alone(rule: u32, element: &Value) -> bool {
    match rule {
        1 => 512 < words_of(element).1,
        3 => lacks_its_mode(element),
        9 => has_twins(items_at(element, KeyName::SpiChannelList)),
        10 => has_twins(items_at(element, KeyName::SpiJobAssignment)),
        13 => is_off_offset(element),
        _ => breaks_of_groups(rule, element),
    }
}

/// Whether two elements break a rule together.
fn clashes(rule: u32, one: &Value, other: &Value) -> bool {
    match rule {
        2 => overlap(one, other),
        4 => has_same(one, other, KeyName::Pin),
        6 => {
            is_triggered(one) && is_triggered(other) && has_same(one, other, KeyName::TriggerInput)
        }
        12 => share_between_units(one, other),
        _ => false,
    }
}

/// Whether an element breaks a rule with one of those before it.
fn clashes_with_any(rule: u32, earlier: &[Value], element: &Value) -> bool {
    for other in earlier {
        if clashes(rule, other, element) {
            return true;
        }
    }
    false
}

/// Whether an element breaks a rule, with those before it, in a configuration.
fn breaks(rule: u32, values: &toml::Table, earlier: &[Value], element: &Value) -> bool {
    match rule {
        2 | 4 | 6 | 12 => clashes_with_any(rule, earlier, element),
        11 => has_both_units(values, element),
        _ => breaks_alone(rule, element),
    }
}

/// Whether the watchdog's first timeout is above the longest one.
fn is_above_most(values: &toml::Table) -> bool {
    match values.get(ModuleName::Wdg.text()) {
        Some(watchdog) => {
            number_or(watchdog, KeyName::MaxTicks, 65_535)
                < number_or(watchdog, KeyName::InitialTicks, 1_000)
        }
        None => false,
    }
}

impl ConfigPass<'_> {
    /// Tells of each element that breaks a rule.
    pub(crate) fn combinations(&mut self, values: &toml::Table) -> Result<(), AllocError> {
        for Rule(rule, module, array) in &RULES {
            let elements = elements_at(values, *module, *array);
            for (number, element) in elements.iter().enumerate() {
                let earlier = elements.get(..number).unwrap_or(&[]);
                if breaks(*rule, values, earlier, element) {
                    let module = module.text();
                    let array = array.text();
                    let path = format!(in self.found.alloc; "{module}.{array}.{number}")?;
                    self.broken(*rule, path.as_str())?;
                }
            }
        }
        if is_above_most(values) {
            self.broken(14, "Wdg.InitialTicks")?;
        }
        Ok(())
    }

    /// Says that a rule is broken.
    fn broken(&mut self, rule: u32, path: &str) -> Result<(), AllocError> {
        self.found.error(
            key_at(self.places, path),
            refusal(rule),
            format_args!("rule {rule}"),
        )
    }
}
