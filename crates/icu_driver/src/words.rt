ghost use Rattle.std.specs.Prelude.{◌≡◌, ◌<◌};
ghost use Rattle.icu_driver.specs.Words as spec;

/// The module's state: 0 uninitialised, 1 initialised.
pub const STATE: u32 = 32_768;

/// From here on whether a channel's notification is on, or whether a value waits to be handed out.
pub const SWITCHES: u32 = 32_776;

/// From here on the active mark of each channel, or how far it came with its stamps.
pub const MARKS: u32 = 32_784;

/// From here on the size of each channel's stamps, or what was seen since the last value.
pub const SIZES: u32 = 32_792;

/// From here on after how many stamps a notice comes, or the time of the last start edge.
pub const INTERVALS: u32 = 32_800;

/// From here on the index of the next stamp, or the time of the last opposite edge.
pub const PLACES: u32 = 32_808;

/// From here on how many stamps are left until the next notice, or the newest value.
pub const VALUES: u32 = 32_816;

/// From here on the newest active time.
pub const TIMES: u32 = 32_824;

/// The first word of the stamps, 64 a channel.
pub const STAMPS: u32 = 139_264;

/// The line of the first channel.
pub const LINE: u32 = 16;

/// The bits of all capture lines.
pub const LINES: u32 = 16_711_680;

/// The bits of all channels.
pub const CHANNELS: u32 = 255;

/// The word of a channel in a row of words.
pub fn word(row: u32, channel: u8) -> u32
    requires { row < 65536 }
    ensures { result ≡ spec.word row channel }
{
    row + u32::from(channel)
}

/// The bit of a channel.
pub fn bit(channel: u8) -> u32
    ensures { result ≡ spec.bit channel }
{
    if channel < 32 { 1 << channel } else { 0 }
}

/// The line of a channel.
pub fn line(channel: u8) -> u32
    ensures { result ≡ spec.line channel }
{
    LINE + u32::from(channel)
}

/// The word of a place of a channel's stamps; a place past the last one has the first one's.
pub fn stamp_word(channel: u8, index: u32) -> u32
    ensures { result ≡ spec.stamp_word channel index }
{
    let place = if index < 64 { index } else { 0 };
    STAMPS + 64 * u32::from(channel) + place
}
