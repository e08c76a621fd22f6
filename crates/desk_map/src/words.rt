use mcal_base::{AdcConfig, SpiChannel, SpiChannelType, SpiConfig};
use std::alloc::AllocError;

/// So many words from one on, and what stands in them.
#[derive(Clone, Copy)]
struct Words(u32, u32, &'static str);

/// The words that stand in the same place whatever is configured.
static FIXED: [Words; 35] = [
    Words(0, 1, "Mcu: whether it is initialised"),
    Words(1, 1, "Mcu: mode that was set last"),
    Words(8_192, 1, "Port: whether it is initialised"),
    Words(16_384, 1, "Gpt: uninitialised 0, normal 1, sleep 2"),
    Words(16_392, 8, "timer channels 0 to 7: target of the last start"),
    Words(
        16_400,
        8,
        "timer channels 0 to 7: notification and wakeup switches",
    ),
    Words(24_576, 1, "Pwm: whether it is initialised"),
    Words(24_577, 1, "Pwm: chosen changes of all outputs"),
    Words(24_584, 8, "pulse outputs 0 to 7: period"),
    Words(32_768, 1, "Icu: whether it is initialised"),
    Words(
        32_776,
        8,
        "capture inputs 0 to 7: notification, or whether a value waits",
    ),
    Words(
        32_784,
        8,
        "capture inputs 0 to 7: active mark, or how far the stamps came",
    ),
    Words(
        32_792,
        8,
        "capture inputs 0 to 7: size of the stamps, or what was seen",
    ),
    Words(
        32_800,
        8,
        "capture inputs 0 to 7: interval of notices, or time of the start edge",
    ),
    Words(
        32_808,
        8,
        "capture inputs 0 to 7: next stamp, or time of the other edge",
    ),
    Words(
        32_816,
        8,
        "capture inputs 0 to 7: stamps until the notice, or newest value",
    ),
    Words(32_824, 8, "capture inputs 0 to 7: newest active time"),
    Words(40_960, 1, "Adc: whether it is initialised"),
    Words(
        40_968,
        1,
        "converter unit 0: group whose round it has, plus 1",
    ),
    Words(
        40_969,
        1,
        "converter unit 0: whether a frame keeps it for itself",
    ),
    Words(40_970, 3, "converter unit 0: order of its requests"),
    Words(
        40_976,
        1,
        "converter unit 1: group whose round it has, plus 1",
    ),
    Words(
        40_977,
        1,
        "converter unit 1: whether a frame keeps it for itself",
    ),
    Words(40_978, 3, "converter unit 1: order of its requests"),
    Words(49_152, 1, "Spi: uninitialised 0, polling 1, interrupts 2"),
    Words(49_153, 1, "Spi: next job of each sequence, four bits each"),
    Words(49_154, 1, "Spi: started and cancelled sequences"),
    Words(
        49_160,
        2,
        "serial unit 0: its job and sequence, and the place in the job",
    ),
    Words(49_162, 3, "serial unit 0: order of its pending sequences"),
    Words(
        49_168,
        2,
        "serial unit 1: its job and sequence, and the place in the job",
    ),
    Words(49_170, 3, "serial unit 1: order of its pending sequences"),
    Words(49_176, 24, "jobs 0 to 15, then sequences 0 to 7: result"),
    Words(57_344, 1, "Dio: nothing; a call with an error reads it"),
    Words(65_536, 1, "Wdg: uninitialised 0, off 1, slow 2, fast 3"),
    Words(65_537, 1, "Wdg: timeout in units of the mode"),
];

/// The words of a converter group, from its first one on.
static GROUP: [&str; 7] = [
    "status",
    "chosen buffer, plus 1",
    "notification",
    "whether it waits or has a round",
    "rounds that the buffer holds",
    "place of the next round",
    "values of a round that are kept",
];

/// The words of a serial channel, from its first one on.
static CHANNEL: [&str; 4] = [
    "which bank to send is the newest",
    "which received bank is the newest",
    "what a running job holds of it",
    "set-up",
];

/// Writes the numbers of some words.
pub(crate) fn put_numbers(text: &mut String, first: u32, count: u32) -> Result<(), AllocError> {
    if count == 1 {
        write!(text, "w{first:<16} ")
    } else {
        let last = first.saturating_add(count.saturating_sub(1));
        write!(text, "w{first:<6} to w{last:<6} ")
    }
}

/// Writes the words that stand in the same place whatever is configured.
pub(crate) fn put_fixed(text: &mut String) -> Result<(), AllocError> {
    for Words(first, count, what) in &FIXED {
        put_numbers(text, *first, *count)?;
        write!(text, "{what}\n")?;
    }
    Ok(())
}

/// Writes words of an object that follow each other, and then so many more.
fn put_object(
    text: &mut String,
    first: u32,
    row: &[&str],
    more: u32,
    object: (&str, u32, &str),
) -> Result<(), AllocError> {
    let (kind, id, rest) = object;
    let mut word = first;
    for what in row {
        put_numbers(text, word, 1)?;
        write!(text, "{kind} {id}: {what}\n")?;
        word = word.saturating_add(1);
    }
    if more > 0 {
        put_numbers(text, word, more)?;
        write!(text, "{kind} {id}: {rest}\n")?;
    }
    Ok(())
}

/// Writes the words of the converter's groups in the order of their numbers, each with 32 words and 6 more for each input.
pub(crate) fn put_groups(text: &mut String, adc: &AdcConfig) -> Result<(), AllocError> {
    let mut first = 41_024u32;
    for number in 0..16u32 {
        for group in adc.groups.as_slice() {
            if group.id == number {
                let inputs = group.definition.len() as u32;
                let more = inputs.saturating_mul(6).saturating_add(25);
                put_object(text, first, &GROUP, more, ("group", number, "its rounds"))?;
                first = first.saturating_add(more).saturating_add(7);
            }
        }
    }
    Ok(())
}

/// How many words a serial channel has for what is sent and received.
fn banks(channel: &SpiChannel) -> u32 {
    match channel.channel_type {
        SpiChannelType::Internal(words) => words.saturating_mul(6),
        SpiChannelType::External(_) => 0,
    }
}

/// Writes the words of the serial channels in the order of their numbers.
pub(crate) fn put_channels(text: &mut String, spi: &SpiConfig) -> Result<(), AllocError> {
    let mut first = 49_216u32;
    for number in 0..16u32 {
        for channel in spi.channels.as_slice() {
            if channel.id == number {
                let more = banks(channel);
                let object = ("serial channel", number, "words to send and received ones");
                put_object(text, first, &CHANNEL, more, object)?;
                first = first.saturating_add(more).saturating_add(4);
            }
        }
    }
    Ok(())
}
