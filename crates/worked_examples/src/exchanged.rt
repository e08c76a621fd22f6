//! What a small journal tells of two devices.

ghost use Rattle.std.specs.Prelude.{◌≡◌, ◌++◌, [], ◌∷◌};
ghost use Rattle.run_model.specs.Exchanges.{ports_fresh, pairs_told, refusals_told, dropped_in};
ghost use Rattle.worked_examples.specs.Exchanged.{second_device, first_device, dropped_then_reset};

/// A word of 8 bits is sent as its low 8 bits, and a refused one makes no pair.
pub fn pairs_of_the_second_device()
    ensures pairs { pairs_told 1 (ports_fresh 2) (second_device ++ first_device ++ dropped_then_reset) ≡ (44, 7) ∷ [] }
    ensures refusals { refusals_told 1 (ports_fresh 2) (second_device ++ first_device ++ dropped_then_reset) ≡ 1 }
{}

/// A width above 16 counts as 16.
pub fn pairs_of_the_first_device()
    ensures pairs { pairs_told 0 (ports_fresh 2) (second_device ++ first_device ++ dropped_then_reset) ≡ (1, 9) ∷ [] }
    ensures refusals { refusals_told 0 (ports_fresh 2) (second_device ++ first_device ++ dropped_then_reset) ≡ 0 }
{}

/// One device of two is dropped.
pub fn one_device_is_dropped()
    ensures { dropped_in (second_device ++ first_device ++ dropped_then_reset) ≡ 1 }
{}

/// With one device the second one's words are no exchanges.
pub fn no_second_device()
    ensures pairs { pairs_told 1 (ports_fresh 1) second_device ≡ [] }
    ensures refusals { refusals_told 1 (ports_fresh 1) second_device ≡ 0 }
{}
