ghost use Rattle.std.specs.Prelude.{◌≡◌, ◌<◌, ℕ, is_some};
ghost use Rattle.std.specs.Bool.{OnTrue};
ghost use Rattle.chip_model.specs.Chip.{word_of};
ghost use Rattle.module_machines.specs.icu.Bounds.{HasStamps};
ghost use Rattle.module_machines.specs.icu.Machine.{IcuState};
ghost use Rattle.module_machines.specs.icu.Shown.{stamp_at};
ghost use Rattle.module_machines.specs.icu.Table.{channel_of};
ghost use Rattle.mcal_base.specs.Layout.{place_of};
ghost use Rattle.mcal_base.specs.declared.layout.Array.TheVariants.{Stamps};
ghost use Rattle.audit_captures.specs.Stands.{StandsFor};
ghost use Rattle.audit_frames.specs.Decides.{Decides};
ghost use Rattle.audit_modules.specs.Agrees.{StampsIf};

use audit_captures::Captures;
use chip_model::Bus;
use mcal_base::STAMPS;
use module_machines::icu::IcuTable;

/// How many capture channels there may be.
const CHANNELS: u32 = 8;

/// How many stamps a channel has room for.
const ROOM: u32 = 64;

/// Whether a stamp of a channel is the machine's.
fn has_stamp(captures: &Captures, bus: &Bus, channel: u32, place: u32) -> bool
    requires channel { channel < 8 }
    requires place { place < 64 }
    ensures { (s : IcuState) → StandsFor captures.now s → Decides result (word_of bus.now (place_of (Stamps channel) place) ≡ stamp_at s channel place) }
{
    bus.word(STAMPS + ROOM * channel + place) == captures.stamp(channel, place)
}

/// Whether all stamps of a channel are the machine's.
fn has_stamps(captures: &Captures, bus: &Bus, channel: u32) -> bool
    requires { channel < 8 }
    ensures { (s : IcuState) → StandsFor captures.now s → Decides result (HasStamps bus.now s channel) }
{
    for place in 0..ROOM {
        if !has_stamp(captures, bus, channel, place) {
            return false;
        }
    }
    true
}

/// Whether a channel is configured.
fn is_configured(table: &IcuTable, channel: u32) -> bool
    ensures is { result ≡ is_some (channel_of table.now channel) }
    ensures there { OnTrue result (channel < 8) }
{
    if channel >= CHANNELS {
        return false;
    }
    table.channel(channel).is_some()
}

/// Whether the stamps of a channel are the machine's, where it is configured.
pub(crate) fn stamps_stand(captures: &Captures, bus: &Bus, channel: u32) -> bool
    ensures { (s : IcuState) → StandsFor captures.now s → Decides result (StampsIf captures.now.driver bus.now s channel) }
{
    if !is_configured(captures.table(), channel) {
        return true;
    }
    has_stamps(captures, bus, channel)
}

/// Whether the stamps of all configured channels are the machine's.
pub fn stamps_agree(captures: &Captures, bus: &Bus) -> bool
    ensures { (s : IcuState) → StandsFor captures.now s → Decides result ((c : ℕ) → StampsIf captures.now.driver bus.now s c) }
{
    for channel in 0..CHANNELS {
        if !stamps_stand(captures, bus, channel) {
            return false;
        }
    }
    true
}
