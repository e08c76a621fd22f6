ghost use Rattle.config_keys.specs.Checks.{Checks, first};
ghost use Rattle.config_keys.specs.Places.{IsLeastOrNone};

/// A law, with nothing to run: what a walk finds first is the fault at the least place of all faults of the tree, where
/// each check is made by itself; and where it finds none there is no fault.
pub fn first_is_least()
    ensures { (c : Checks) → IsLeastOrNone c (first c) }
{}
