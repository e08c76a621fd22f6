ghost use Rattle.std.specs.Prelude.{◌≡◌, ◌<◌};
ghost use Rattle.mcal_base.specs.Bits.{has_bit};

/// Whether a bit is set.
pub fn has(bits: u32, place: u32) -> bool
    requires { place < 32 }
    ensures { result ≡ has_bit bits place }
{
    (bits >> place) % 2 == 1
}
