ghost use Rattle.std.specs.Prelude.{◌≡◌, ◌/◌, ◌%◌};

/// A quotient, which is 0 where the divisor is 0.
pub fn quotient(number: u64, by: u64) -> u64
    ensures { result ≡ number / by }
{
    if by == 0 { 0 } else { number / by }
}

/// A remainder, which is the number itself where the divisor is 0.
pub fn remainder(number: u64, by: u64) -> u64
    ensures { result ≡ number % by }
{
    if by == 0 { number } else { number % by }
}
