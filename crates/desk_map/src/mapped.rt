use crate::lines::put_lines;
use crate::words::{put_channels, put_fixed, put_groups, put_numbers};
use mcal_base::{Config, SpiChannel, SpiChannelType};
use std::alloc::{AllocError, Global};

/// How many words the arrays of a serial channel have.
fn words_of(channel: &SpiChannel) -> u32 {
    match channel.channel_type {
        SpiChannelType::Internal(words) | SpiChannelType::External(words) => words,
    }
}

/// Writes an array of the users.
fn put_array(
    text: &mut String,
    first: u32,
    count: u32,
    what: &str,
    id: u32,
) -> Result<(), AllocError> {
    put_numbers(text, first, count)?;
    write!(text, "{what} {id}\n")
}

/// Writes the arrays of the users.
fn put_arrays(text: &mut String, config: &Config) -> Result<(), AllocError> {
    for group in config.adc.groups.as_slice() {
        let inputs = group.definition.len() as u32;
        let count = inputs.saturating_mul(group.streaming_num_samples);
        let first = group.id.saturating_mul(4_096).saturating_add(73_728);
        put_array(text, first, count, "results, buffer 0 of group", group.id)?;
        let second = first.saturating_add(2_048);
        put_array(text, second, count, "results, buffer 1 of group", group.id)?;
    }
    for channel in config.icu.channels.as_slice() {
        let first = channel.id.saturating_mul(64).saturating_add(139_264);
        put_array(text, first, 64, "stamps of capture input", channel.id)?;
    }
    for channel in config.spi.channels.as_slice() {
        let count = words_of(channel);
        let place = channel.id.saturating_mul(64);
        let source = place.saturating_add(139_776);
        put_array(text, source, count, "source of serial channel", channel.id)?;
        let destination = place.saturating_add(140_800);
        put_array(
            text,
            destination,
            count,
            "destination of serial channel",
            channel.id,
        )?;
    }
    Ok(())
}

/// Whose the driver words, the arrays and the interrupt lines of a board are.
pub fn memory_map(alloc: Global, config: &Config) -> Result<String, AllocError> {
    let mut text = String::from_str(alloc, "words of the drivers\n")?;
    put_fixed(&mut text)?;
    put_groups(&mut text, &config.adc)?;
    put_channels(&mut text, &config.spi)?;
    text.push_str("arrays of the users\n")?;
    put_arrays(&mut text, config)?;
    text.push_str("interrupt lines\n")?;
    put_lines(&mut text, config)?;
    Ok(text)
}
