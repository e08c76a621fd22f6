ghost use Rattle.std.specs.Prelude.{IfOk, IfSome, ◌≡◌, true, false, Option, Some, option_map};
ghost use Rattle.toml.specs.View.{view};
ghost use Rattle.config_facts.specs.Ids.{InRange};
ghost use Rattle.config_keys.specs.Checks.{Gives};
ghost use Rattle.config_keys.specs.Kinds as spec;

use crate::fault::{ConfigFault, Path};
use crate::named::Named;
use toml::Value;

/// A whole number in a range, if there is a value.
pub fn whole_of(
    value: Option<&Value>,
    at: Path,
    low: u32,
    high: u32,
) -> Result<Option<u32>, ConfigFault>
    ensures gives { let seen = spec.whole low high (option_map (λ v. view v.now) value.entry) in Gives result (spec.optional at seen) (Some (spec.found seen)) }
    ensures range { IfOk result (λ o. IfSome o (InRange low high)) }
{
    let Some(value) = value else {
        return Ok(None);
    };
    let Some(number) = value.as_integer() else {
        return Err(ConfigFault::WrongKind(at));
    };
    if number < i64::from(low) || i64::from(high) < number {
        return Err(ConfigFault::OutOfRange(at));
    }
    Ok(Some(number as u32))
}

/// A whole number in a range.
pub fn needed_whole_of(
    value: Option<&Value>,
    at: Path,
    low: u32,
    high: u32,
) -> Result<u32, ConfigFault>
    ensures gives { let seen = spec.whole low high (option_map (λ v. view v.now) value.entry) in Gives result (spec.required at seen) (spec.found seen) }
    ensures range { IfOk result (InRange low high) }
{
    match whole_of(value, at, low, high)? {
        Some(number) => Ok(number),
        None => Err(ConfigFault::Missing(at)),
    }
}

/// A truth value, if there is a value.
pub fn truth_of(value: Option<&Value>, at: Path) -> Result<Option<bool>, ConfigFault>
    ensures { let seen = spec.truth (option_map (λ v. view v.now) value.entry) in Gives result (spec.optional at seen) (Some (spec.found seen)) }
{
    let Some(value) = value else {
        return Ok(None);
    };
    match value.as_bool() {
        Some(truth) => Ok(Some(truth)),
        None => Err(ConfigFault::WrongKind(at)),
    }
}

/// A name out of a list, if there is a value.
pub fn name_of<T: Named>(value: Option<&Value>, at: Path) -> Result<Option<T>, ConfigFault>
    ensures { let seen = spec.name T.named (option_map (λ v. view v.now) value.entry) in Gives result (spec.optional at seen) (Some (spec.found seen)) }
{
    let Some(value) = value else {
        return Ok(None);
    };
    let Some(text) = value.as_str() else {
        return Err(ConfigFault::WrongKind(at));
    };
    match T::from_name(text) {
        Some(named) => Ok(Some(named)),
        None => Err(ConfigFault::OutOfRange(at)),
    }
}

/// A name out of a list.
pub fn needed_name_of<T: Named>(value: Option<&Value>, at: Path) -> Result<T, ConfigFault>
    ensures { let seen = spec.name T.named (option_map (λ v. view v.now) value.entry) in Gives result (spec.required at seen) (spec.found seen) }
{
    match name_of(value, at)? {
        Some(named) => Ok(named),
        None => Err(ConfigFault::Missing(at)),
    }
}

/// Whether there is a text.
pub fn text_of(value: Option<&Value>, at: Path) -> Result<bool, ConfigFault>
    ensures { let seen = spec.text (option_map (λ v. view v.now) value.entry) in Gives result (spec.optional at seen) (Some (spec.found_or false seen)) }
{
    let Some(value) = value else {
        return Ok(false);
    };
    match value.as_str() {
        Some(_) => Ok(true),
        None => Err(ConfigFault::WrongKind(at)),
    }
}
