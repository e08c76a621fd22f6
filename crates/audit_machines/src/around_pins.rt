ghost use Rattle.std.specs.Prelude.{◌≡◌, ◌<◌, ◌≤◌, ◌==◌, ℕ, None, Some, length, slice_index_or, if◌then◌else◌};
ghost use Rattle.chip_model.specs.Chip.{channel_from};
ghost use Rattle.run_model.specs.World.{World};
ghost use Rattle.audit_base.specs.Outside.{IsWorld};
ghost use Rattle.audit_clock.specs.PortPins.{IsAround};
ghost use Rattle.audit_machines.specs.Guest.{output_at};

use audit_base::Outside;
use audit_clock::Around;
use audit_pulses::Pulses;

/// The pulse channel whose output is seen at a pin: the first, of at most eight, that names it.
fn channel_at(outputs: &[Option<u32>], pin: u32) -> Option<u32>
    requires { length outputs.now ≤ 8 }
    ensures { result ≡ channel_from 0 outputs.now pin }
{
    for (channel, output) in outputs.iter().enumerate() {
        if *output == Some(pin) {
            return Some(channel as u32);
        }
    }
    None
}

/// The output that is seen at a pin, where a pulse channel names it.
pub(crate) fn output(
    pulses: &Pulses,
    outputs: &[Option<u32>; 8],
    now: u64,
    pin: u32,
) -> Option<bool>
    ensures { (w : World) → w.now ≡ now → result ≡ output_at pulses.now.driver outputs.now w pulses.now.state pin }
{
    match channel_at(outputs, pin) {
        Some(channel) => Some(pulses.level(channel, now)),
        None => None,
    }
}

/// An output is seen at a pin, where that is one of 64.
fn see(seen: &mut [Option<bool>; 64], pin: u32, level: bool)
    ensures { (p : ℕ) → p < 64 → slice_index_or seen.new p None ≡ (if pin == p then Some level else slice_index_or seen.old p None) }
{
    if pin < 64 {
        seen[pin as usize] = Some(level);
    }
}

/// The output that is seen at each pin, of 64: that of the first pulse channel, of eight, that names it.
fn outputs_seen(pulses: &Pulses, outputs: &[Option<u32>; 8], now: u64) -> [Option<bool>; 64]
    ensures { (w : World) → w.now ≡ now → (p : ℕ) → p < 64 → slice_index_or result p None ≡ output_at pulses.now.driver outputs.now w pulses.now.state p }
{
    let mut seen = [None; 64];
    let mut channel = 8_u32;
    while channel > 0 {
        channel -= 1;
        match outputs[channel as usize] {
            Some(pin) => see(&mut seen, pin, pulses.level(channel, now)),
            None => {}
        }
    }
    seen
}

/// What stands around the pins now, at which the outputs of these pulse channels are seen.
pub(crate) fn around(outside: &Outside, pulses: &Pulses, outputs: &[Option<u32>; 8]) -> Around
    ensures { (w : World) → IsWorld outside.now w → IsAround result w (output_at pulses.now.driver outputs.now w pulses.now.state) }
{
    Around {
        levels: outside.levels,
        outputs: outputs_seen(pulses, outputs, outside.time),
    }
}
