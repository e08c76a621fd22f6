ghost use Rattle.std.specs.Prelude.{◌≡◌, ℕ, ◌+◌, ◌<◌, ◌++◌, List, Some, true, slice_get};
ghost use Rattle.mcal_base.specs.declared.config.whole.Config.{Config};
ghost use Rattle.mcal_base.specs.declared.directive.Directive.{Directive};
ghost use Rattle.mcal_drivers.specs.Setting.{SystemCall, SystemState, call_of, system_setting};
ghost use Rattle.run_model.specs.Entry.{Entry};
ghost use Rattle.run_model.specs.Moment.{Moment};
ghost use Rattle.bench_sweep.specs.Places.{at, begins_frame, places};
ghost use Rattle.bench_sweep.specs.declared.places.Spot.TheVariants.{Before, Begun, Step, Behind};
ghost use Rattle.sweep_laws.specs.Fronts.{EndsByBeginning, EndsByStep, Makes, StopsAtBeginning, StopsAtPlace};
ghost use Rattle.sweep_laws.specs.Moments.{AreInOrder, IsAmong};

/// The places of a block are all its moments: before it, behind a directive that makes no step, behind the beginning of a frame
/// and behind each step. They stand in their order, so that none stands there twice.
pub fn places_are_all()
    ensures first { (block : List Directive) (steps : List ℕ) → slice_get (places block steps) 0 ≡ Some (at 0 Before) }
    ensures behind { (block : List Directive) (steps : List ℕ) (i : ℕ) (d : Directive) → slice_get block i ≡ Some d → slice_get steps i ≡ Some 0 → IsAmong (places block steps) (at i Behind) }
    ensures begun { (block : List Directive) (steps : List ℕ) (i n : ℕ) (d : Directive) → slice_get block i ≡ Some d → slice_get steps i ≡ Some n → 0 < n → begins_frame d.order ≡ true → IsAmong (places block steps) (at i Begun) }
    ensures stepped { (block : List Directive) (steps : List ℕ) (i n k : ℕ) (d : Directive) → slice_get block i ≡ Some d → slice_get steps i ≡ Some n → k < n → IsAmong (places block steps) (at i (Step (k + 1))) }
    ensures order { (block : List Directive) (steps : List ℕ) → AreInOrder (places block steps) }
{}

/// Whatever step or beginning of a frame in a block's run it is behind which the mark begins: the run up to there is that of the
/// block up to one of its places. Two are left out: behind a step that resets the chip comes the reset itself, and a frame that
/// makes no step, as one in whose first wait the watchdog's time ends, has no place behind its beginning.
pub fn runs_stop_at_places()
    ensures steps { (config : Config) (m : Moment SystemState SystemCall) (block : List Directive) (steps : List ℕ) (front back : List Entry) →
        Makes (system_setting config) call_of m block steps (front ++ back) → EndsByStep front → StopsAtPlace config m block steps front }
    ensures beginnings { (config : Config) (m : Moment SystemState SystemCall) (block : List Directive) (steps : List ℕ) (front back : List Entry) →
        Makes (system_setting config) call_of m block steps (front ++ back) → EndsByBeginning front → StopsAtBeginning config m block steps front }
{}
