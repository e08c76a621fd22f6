use mcal_base::{AdcConfig, AdcTriggerSource, Config};
use std::alloc::AllocError;

/// Writes whose a line is, and the level of its handler.
fn put_line(
    text: &mut String,
    line: u32,
    kind: &str,
    id: u32,
    level: u32,
) -> Result<(), AllocError> {
    write!(text, "line {line:<2} {kind} {id}, level {level}\n")
}

/// Writes the lines of the converter: those of its units, and those of trigger inputs.
fn put_converter_lines(text: &mut String, adc: &AdcConfig) -> Result<(), AllocError> {
    for unit in adc.units.as_slice() {
        let line = unit.id.saturating_add(24);
        put_line(text, line, "converter unit", unit.id, unit.level)?;
    }
    for group in adc.groups.as_slice() {
        if let (AdcTriggerSource::Hardware, Some(input)) = (
            group.trigger_source,
            group.trigger_input,
        ) {
            let line = input.saturating_add(28);
            put_line(text, line, "trigger of group", group.id, group.level)?;
        }
    }
    Ok(())
}

/// Writes whose each line is that a configured object uses.
pub(crate) fn put_lines(text: &mut String, config: &Config) -> Result<(), AllocError> {
    for channel in config.gpt.channels.as_slice() {
        put_line(text, channel.id, "timer channel", channel.id, channel.level)?;
    }
    for channel in config.pwm.channels.as_slice() {
        let line = channel.id.saturating_add(8);
        put_line(text, line, "pulse output", channel.id, channel.level)?;
    }
    for channel in config.icu.channels.as_slice() {
        let line = channel.id.saturating_add(16);
        put_line(text, line, "capture input", channel.id, channel.level)?;
    }
    put_converter_lines(text, &config.adc)?;
    if !config.spi.jobs.is_empty() {
        for (unit, level) in config.spi.levels.as_slice().iter().enumerate() {
            let unit = unit as u32;
            // of one that a call waits for, the line is never ready
            if !config.spi.sync_units.as_slice().contains(&unit) {
                put_line(text, unit.saturating_add(26), "serial unit", unit, *level)?;
            }
        }
    }
    Ok(())
}
