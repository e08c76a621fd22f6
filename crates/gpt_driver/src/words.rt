ghost use Rattle.std.specs.Prelude.{◌≡◌, ◌+◌};
ghost use Rattle.mcal_base.specs.Bits.{has_bit};
ghost use Rattle.gpt_driver.specs.Words as spec;

/// The module's state: 0 uninitialised, 1 in normal mode, 2 in sleep mode.
pub const STATE: u32 = 16_384;

/// From here on the target of each channel's last start, 0 where it was never started.
pub const TARGETS: u32 = 16_392;

/// From here on the switches of each channel.
pub const SWITCHES: u32 = 16_400;

/// The last word of a channel.
pub const LAST_WORD: u32 = 16_407;

/// The bits of all timer lines.
pub const LINES: u32 = 255;

/// The word of a channel's target.
pub fn target_word(channel: u8) -> u32
    ensures { result ≡ spec.target_word channel }
{
    TARGETS + u32::from(channel)
}

/// The word of a channel's switches.
pub fn switches_word(channel: u8) -> u32
    ensures { result ≡ spec.switches_word channel }
{
    SWITCHES + u32::from(channel)
}

/// The bit of a channel.
pub fn bit(channel: u8) -> u32
    ensures { result ≡ spec.bit channel }
{
    if channel < 32 { 1 << channel } else { 0 }
}

/// Whether the bit of a channel is set.
pub fn has(bits: u32, channel: u8) -> bool
    ensures { result ≡ has_bit bits channel }
{
    if channel < 32 {
        (bits >> channel) % 2 == 1
    } else {
        false
    }
}
