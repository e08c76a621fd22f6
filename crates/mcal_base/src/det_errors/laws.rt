//! What an answer of `first_error` says of the conditions, for whoever looks at them one after another.

ghost use Rattle.std.specs.Prelude.{◌≡◌, ◌<◌, ◌+◌, ℕ, Bool, true, false, List, Option, Some, None, length, take, drop, slice_get, slice_set, slice_index_or, if◌then◌else◌};
ghost use Rattle.std.specs.Option.{option_or};
ghost use Rattle.mcal_base.specs.det_errors.Rows.{errors_of, first_that_holds, first_error};
ghost use Rattle.mcal_base.specs.det_errors.First.{IsFirst, AgreeTo};
ghost use Rattle.mcal_base.specs.declared.error_name.ErrorName.{ErrorName};
ghost use Rattle.mcal_base.specs.declared.service.Service.{Service};

/// Where no error is named no condition of the row holds, and where one is named its condition holds and none before it.
pub fn what_is_named()
    ensures none { (s : Service) (holds : List Bool) → first_error s holds ≡ None → (k : ℕ) → k < length (errors_of s) → slice_index_or holds k false ≡ false }
    ensures named { (s : Service) (holds : List Bool) (e : ErrorName) → first_error s holds ≡ Some e → (k : ℕ) × IsFirst (errors_of s) holds k e }
    ensures first { (s : Service) (holds : List Bool) (k : ℕ) (e : ErrorName) → IsFirst (errors_of s) holds k e → first_error s holds ≡ Some e }
{}

/// A condition that stands behind the first that holds changes nothing, and one that stands last counts only where none before it holds.
pub fn what_stands_behind()
    ensures behind { (s : Service) (a b : List Bool) (k : ℕ) (e : ErrorName) → IsFirst (errors_of s) a k e → AgreeTo k a b → first_error s b ≡ Some e }
    ensures split { (s : Service) (holds : List Bool) (k : ℕ) → first_error s holds ≡ option_or (first_error s (take k holds)) (first_that_holds (drop k (errors_of s)) (drop k holds)) }
    ensures last { (s : Service) (holds : List Bool) (k : ℕ) (b : Bool) → k + 1 ≡ length (errors_of s) → k < length holds
        → first_error s (slice_set holds k b) ≡ option_or (first_error s (slice_set holds k false)) (if b then slice_get (errors_of s) k else None) }
{}
