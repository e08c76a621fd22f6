ghost use Rattle.std.specs.Prelude.{◌≡◌, ◌&&◌, ◌||◌};

/// Whether both hold.
pub(crate) fn both(first: bool, second: bool) -> bool
    ensures { result ≡ first && second }
{
    first && second
}

/// Whether one of two holds.
pub(crate) fn either(first: bool, second: bool) -> bool
    ensures { result ≡ first || second }
{
    first || second
}
