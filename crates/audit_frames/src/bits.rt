ghost use Rattle.std.specs.Prelude.{◌≡◌};
ghost use Rattle.mcal_base.specs.Bits.{has_bit};
ghost use Rattle.audit_frames.specs.Masks as spec;

/// Whether the bit of this number is set. A mask has 64.
pub fn has_bit(mask: u64, number: u32) -> bool
    ensures { result ≡ has_bit mask number }
{
    if number < 64 {
        (mask >> number) % 2 == 1
    } else {
        false
    }
}

/// A mask with this bit too, where it has such a one.
pub fn with_bit(mask: u64, number: u32) -> u64
    ensures { result ≡ spec.with_bit mask number }
{
    if number < 64 {
        mask | 1 << number
    } else {
        mask
    }
}

/// A mask with the bits of these numbers too.
pub(crate) fn with_bits(mask: u64, numbers: &[u32]) -> u64
    ensures { result ≡ spec.with_bits mask numbers.now }
{
    match numbers {
        [] => mask,
        [first, rest @ ..] => with_bits(with_bit(mask, *first), rest),
    }
}

/// Whether one of these bits is set.
pub(crate) fn has_any(mask: u64, numbers: &[u32]) -> bool
    ensures { result ≡ spec.has_any mask numbers.now }
{
    numbers.iter().any(|number| has_bit(mask, *number))
}

/// Whether each bit of the first mask is one of the second.
pub(crate) fn includes(need: u64, have: u64) -> bool
    ensures { result ≡ spec.includes need have }
{
    need & have == need
}
