ghost use Rattle.std.specs.Prelude.{◌≡◌, ℕ, List, None};
ghost use Rattle.std.specs.Option.{IsSome};
ghost use Rattle.mcal_config.specs.Whole.{fault_of, record_of};

/// A law, with nothing to run: a text without a fault has a record.
pub fn faultless_has_record()
    ensures { (text : List ℕ) → fault_of text ≡ None → IsSome (record_of text) }
{}
