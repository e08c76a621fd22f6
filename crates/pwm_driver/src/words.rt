ghost use Rattle.std.specs.Prelude.{◌≡◌};
ghost use Rattle.mcal_base.specs.Bits.{has_bit, without as cleared};
ghost use Rattle.module_machines.specs.pwm.Output as output;
ghost use Rattle.pwm_driver.specs.Words as spec;

use module_machines::pwm::PwmEdge;

/// The module's state: 0 uninitialised, 1 initialised.
pub const STATE: u32 = 24_576;

/// The chosen changes of all channels, as the register of chosen changes has them.
pub const KINDS: u32 = 24_577;

/// From here on the period of each channel that was set last.
pub const PERIODS: u32 = 24_584;

/// The bits of all pulse lines.
pub const LINES: u32 = 65_280;

/// How many channels the chip has.
pub const CHANNELS: u32 = 8;

/// The word of a channel's period.
pub fn period_word(channel: u8) -> u32
    ensures { result ≡ spec.period_word channel }
{
    PERIODS + u32::from(channel)
}

/// A bit of a register.
pub fn bit(place: u32) -> u32
    ensures { result ≡ spec.bit place }
{
    if place < 32 { 1 << place } else { 0 }
}

/// Whether a bit of a register is set.
pub fn has(bits: u32, place: u32) -> bool
    ensures { result ≡ has_bit bits place }
{
    if place < 32 {
        (bits >> place) % 2 == 1
    } else {
        false
    }
}

/// The two bits of a channel: that of changes to high and that of changes to low.
pub fn both(channel: u8) -> u32
    ensures { result ≡ spec.both channel }
{
    let channel = u32::from(channel);
    bit(channel) | bit(channel + 8)
}

/// The bits of the changes of a channel that are chosen.
pub fn kinds(channel: u8, edge: PwmEdge) -> u32
    ensures { result ≡ spec.kinds channel edge }
{
    match edge {
        PwmEdge::Rising => bit(u32::from(channel)),
        PwmEdge::Falling => bit(u32::from(channel) + 8),
        PwmEdge::Both => both(channel),
    }
}

/// The chosen changes without those of a channel.
pub fn without(word: u32, channel: u8) -> u32
    ensures { result ≡ cleared word (spec.both channel) }
{
    word & !both(channel)
}

/// The chosen changes with these of a channel.
pub fn with(word: u32, channel: u8, edge: PwmEdge) -> u32
    ensures { result ≡ spec.with_kinds word channel edge }
{
    without(word, channel) | kinds(channel, edge)
}

/// Whether a flag of a channel's chosen changes stands.
pub fn stands(kinds: u32, flags: u32, channel: u8) -> bool
    ensures { result ≡ spec.stands kinds flags channel }
{
    let channel = u32::from(channel);
    has(kinds, channel) && has(flags, channel) || has(kinds, channel + 8) && has(flags, channel + 8)
}

/// The absolute duty of a period.
pub fn absolute(period: u32, duty: u32) -> u32
    ensures { result ≡ output.absolute period duty }
{
    let share = if duty < 0x8000 { duty } else { 0x8000 };
    (u64::from(period) * u64::from(share) / 0x8000) as u32
}

/// A level as a register takes it.
pub fn level(high: bool) -> u32
    ensures { result ≡ spec.level high }
{
    if high { 1 } else { 0 }
}
