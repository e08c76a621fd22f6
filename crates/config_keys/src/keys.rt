ghost use Rattle.std.specs.Prelude.{◌≤◌, IfOk, IfSome, IsSome, IsTrue, ◌≡◌, true, false, Option, Some, option_map};
ghost use Rattle.toml.specs.View.{view, table_view};
ghost use Rattle.config_facts.specs.Ids.{InRange};
ghost use Rattle.config_keys.specs.Checks.{Gives};
ghost use Rattle.config_keys.specs.Kinds.{whole as whole_kind, truth as truth_kind, name as name_kind, text as text_kind};
ghost use Rattle.config_keys.specs.Keys as spec;

use crate::fault::{ConfigFault, Path};
use crate::key_name::KeyName;
use crate::kinds::{name_of, needed_name_of, needed_whole_of, text_of, truth_of, whole_of};
use crate::named::Named;
use toml::{Table, Value};

/// The value of a key, if it is there.
pub fn value_at<'a>(table: &'a Table, key: KeyName) -> Option<&'a Value>
    ensures { option_map (λ v. view v.now) result ≡ spec.entry key (table_view table.now) }
{
    table.get(key.text())
}

/// A whole number in a range, that may be absent.
pub fn whole(
    table: &Table,
    at: Path,
    key: KeyName,
    low: u32,
    high: u32,
) -> Result<Option<u32>, ConfigFault>
    ensures gives { Gives result (spec.allowed at key (whole_kind low high) (table_view table.now)) (spec.read_any key (whole_kind low high) (table_view table.now)) }
    ensures range { IfOk result (λ o. IfSome o (InRange low high)) }
{
    whole_of(value_at(table, key), at.of_key(key), low, high)
}

/// A whole number in a range, that is required.
pub fn needed_whole(
    table: &Table,
    at: Path,
    key: KeyName,
    low: u32,
    high: u32,
) -> Result<u32, ConfigFault>
    ensures gives { Gives result (spec.needed at key (whole_kind low high) (table_view table.now)) (spec.read key (whole_kind low high) (table_view table.now)) }
    ensures range { IfOk result (InRange low high) }
{
    needed_whole_of(value_at(table, key), at.of_key(key), low, high)
}

/// A whole number in a range, with its default.
pub fn whole_or(
    table: &Table,
    at: Path,
    key: KeyName,
    low: u32,
    high: u32,
    default: u32,
) -> Result<u32, ConfigFault>
    requires least { low ≤ default }
    requires most { default ≤ high }
    ensures gives { Gives result (spec.allowed at key (whole_kind low high) (table_view table.now)) (spec.read_or default key (whole_kind low high) (table_view table.now)) }
    ensures range { IfOk result (InRange low high) }
{
    match whole(table, at, key, low, high)? {
        Some(number) => Ok(number),
        None => Ok(default),
    }
}

/// A whole number in a range, that may be absent unless it is said to be needed.
pub fn whole_if(
    needed: bool,
    table: &Table,
    at: Path,
    key: KeyName,
    low: u32,
    high: u32,
) -> Result<Option<u32>, ConfigFault>
    ensures gives { Gives result (spec.needed_if needed at key (whole_kind low high) (table_view table.now)) (spec.read_any key (whole_kind low high) (table_view table.now)) }
    ensures range { IfOk result (λ o. IfSome o (InRange low high)) }
    ensures needed { IfOk result (λ o. IsTrue needed → IsSome o) }
{
    if needed {
        Ok(Some(needed_whole(table, at, key, low, high)?))
    } else {
        whole(table, at, key, low, high)
    }
}

/// A truth value, that is required.
pub fn needed_truth(table: &Table, at: Path, key: KeyName) -> Result<bool, ConfigFault>
    ensures { Gives result (spec.needed at key truth_kind (table_view table.now)) (spec.read key truth_kind (table_view table.now)) }
{
    match truth_of(value_at(table, key), at.of_key(key))? {
        Some(truth) => Ok(truth),
        None => Err(ConfigFault::Missing(at.of_key(key))),
    }
}

/// A truth value, with its default.
pub fn truth_or(table: &Table, at: Path, key: KeyName, default: bool) -> Result<bool, ConfigFault>
    ensures { Gives result (spec.allowed at key truth_kind (table_view table.now)) (spec.read_or default key truth_kind (table_view table.now)) }
{
    match truth_of(value_at(table, key), at.of_key(key))? {
        Some(truth) => Ok(truth),
        None => Ok(default),
    }
}

/// A name out of a list, that may be absent.
fn name<T: Named>(table: &Table, at: Path, key: KeyName) -> Result<Option<T>, ConfigFault>
    ensures { Gives result (spec.allowed at key (name_kind T.named) (table_view table.now)) (spec.read_any key (name_kind T.named) (table_view table.now)) }
{
    name_of(value_at(table, key), at.of_key(key))
}

/// A name out of a list, that is required.
pub fn needed_name<T: Named>(table: &Table, at: Path, key: KeyName) -> Result<T, ConfigFault>
    ensures { Gives result (spec.needed at key (name_kind T.named) (table_view table.now)) (spec.read key (name_kind T.named) (table_view table.now)) }
{
    needed_name_of(value_at(table, key), at.of_key(key))
}

/// A name out of a list, with its default.
pub fn name_or<T: Named>(
    table: &Table,
    at: Path,
    key: KeyName,
    default: T,
) -> Result<T, ConfigFault>
    ensures { Gives result (spec.allowed at key (name_kind T.named) (table_view table.now)) (spec.read_or default key (name_kind T.named) (table_view table.now)) }
{
    match name(table, at, key)? {
        Some(named) => Ok(named),
        None => Ok(default),
    }
}

/// A name out of a list, that may be absent unless it is said to be needed.
pub fn name_if<T: Named>(
    needed: bool,
    table: &Table,
    at: Path,
    key: KeyName,
) -> Result<Option<T>, ConfigFault>
    ensures gives { Gives result (spec.needed_if needed at key (name_kind T.named) (table_view table.now)) (spec.read_any key (name_kind T.named) (table_view table.now)) }
    ensures needed { IfOk result (λ o. IsTrue needed → IsSome o) }
{
    if needed {
        Ok(Some(needed_name(table, at, key)?))
    } else {
        name(table, at, key)
    }
}

/// Whether there is a text.
pub fn text(table: &Table, at: Path, key: KeyName) -> Result<bool, ConfigFault>
    ensures { Gives result (spec.allowed at key text_kind (table_view table.now)) (spec.read_or false key text_kind (table_view table.now)) }
{
    text_of(value_at(table, key), at.of_key(key))
}
