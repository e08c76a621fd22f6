ghost use Rattle.std.specs.Prelude.{◌≡◌};
ghost use Rattle.config_facts.specs.Ids.{same_id};

/// Whether both numbers are there and are equal.
pub fn are_same(one: Option<u32>, other: Option<u32>) -> bool
    ensures { result ≡ same_id one other }
{
    match (one, other) {
        (Some(one), Some(other)) => one == other,
        _ => false,
    }
}
