ghost use Rattle.std.specs.Prelude.{IfOk, All, ◌≡◌, ◌≤◌, ◌<◌, ◌^◌, ◌||◌, None, Option, Some, option_map, nat_lt, length};
ghost use Rattle.std.specs.Bool.{OnFalse};
ghost use Rattle.toml.specs.View.{view, table_view, items_view};
ghost use Rattle.config_facts.specs.Ids.{InRange, IsList};
ghost use Rattle.config_keys.specs.Checks.{Gives, fails, passes};
ghost use Rattle.config_keys.specs.Kinds as spec;
ghost use Rattle.config_keys.specs.Keys as keys_spec;

use crate::fault::{ConfigFault, Path};
use crate::key_name::KeyName;
use crate::keys::value_at;
use crate::kinds::{needed_name_of, needed_whole_of};
use crate::named::Named;
use mcal_base::Short;
use toml::{Table, Value};

/// Whether there are fewer values than the one number, or more than the other.
#[tactic(auto, using(crate::proofs::Counts::count_seen))]
pub fn has_wrong_length(array: &[Value], least: usize, most: usize) -> bool
    ensures wrong { let count = spec.count_of (items_view array.now) in result ≡ (nat_lt count least || nat_lt most count) }
    ensures fits { OnFalse result ((least ≤ length array.now) × (length array.now ≤ most)) }
{
    array.len() < least || most < array.len()
}

/// The whole numbers of an array.
fn all_numbers<const N: usize>(
    array: &[Value],
    at: Path,
    low: u32,
    high: u32,
) -> Result<Short<u32, N>, ConfigFault>
    requires few { length array.now ≤ N }
    requires small { N < 2 ^ 32 }
    ensures gives { Gives result (spec.items_from (spec.whole low high) at 0 (items_view array.now)) (spec.items_of (spec.whole low high) (items_view array.now)) }
    ensures count { IfOk result (λ xs. length xs ≡ length array.now) }
    ensures range { IfOk result (All (InRange low high)) }
{
    let mut numbers = Short::new();
    for (index, value) in array.iter().enumerate() {
        let place = at.of_item(index as u32);
        numbers.push(needed_whole_of(Some(value), place, low, high)?);
    }
    Ok(numbers)
}

/// The whole numbers of an array, unless it is of a wrong length.
fn few_numbers<const N: usize>(
    array: &[Value],
    at: Path,
    least: usize,
    low: u32,
    high: u32,
) -> Result<Short<u32, N>, ConfigFault>
    requires { N < 2 ^ 32 }
    ensures gives { Gives result (spec.list_kind least N (spec.whole low high) at (Some (items_view array.now))) (spec.items_of (spec.whole low high) (items_view array.now)) }
    ensures list { IfOk result (IsList least N low high) }
{
    if has_wrong_length(array, least, N) {
        return Err(ConfigFault::OutOfRange(at));
    }
    all_numbers(array, at, low, high)
}

/// The whole numbers of an array, that is required.
fn needed_numbers_of<const N: usize>(
    value: Option<&Value>,
    at: Path,
    least: usize,
    low: u32,
    high: u32,
) -> Result<Short<u32, N>, ConfigFault>
    requires { N < 2 ^ 32 }
    ensures gives { let found = option_map (λ v. view v.now) value.entry in Gives result (spec.list_checks least N (spec.whole low high) at (fails (ConfigFault.Missing at)) found) (spec.list_value (spec.whole low high) None found) }
    ensures list { IfOk result (IsList least N low high) }
{
    let Some(value) = value else {
        return Err(ConfigFault::Missing(at));
    };
    let Some(array) = value.as_array() else {
        return Err(ConfigFault::WrongKind(at));
    };
    few_numbers(array, at, least, low, high)
}

/// The whole numbers of an array, with their default.
fn numbers_of<const N: usize>(
    value: Option<&Value>,
    at: Path,
    least: usize,
    low: u32,
    high: u32,
    default: Short<u32, N>,
) -> Result<Short<u32, N>, ConfigFault>
    requires small { N < 2 ^ 32 }
    requires list { IsList least N low high default }
    ensures gives { let found = option_map (λ v. view v.now) value.entry in Gives result (spec.list_checks least N (spec.whole low high) at passes found) (spec.list_value (spec.whole low high) (Some default.entry) found) }
    ensures list { IfOk result (IsList least N low high) }
{
    let Some(value) = value else {
        return Ok(default);
    };
    let Some(array) = value.as_array() else {
        return Err(ConfigFault::WrongKind(at));
    };
    few_numbers(array, at, least, low, high)
}

/// An array of whole numbers in a range, of at least so many and at most `N`, that is required.
pub fn needed_numbers<const N: usize>(
    table: &Table,
    at: Path,
    key: KeyName,
    least: usize,
    low: u32,
    high: u32,
) -> Result<Short<u32, N>, ConfigFault>
    requires { N < 2 ^ 32 }
    ensures gives { Gives result (keys_spec.needed_list least N at key (spec.whole low high) (table_view table.now)) (keys_spec.read_list key (spec.whole low high) (table_view table.now)) }
    ensures list { IfOk result (IsList least N low high) }
{
    needed_numbers_of(value_at(table, key), at.of_key(key), least, low, high)
}

/// An array of whole numbers in a range, of at least so many and at most `N`, with its default.
pub fn numbers_or<const N: usize>(
    table: &Table,
    at: Path,
    key: KeyName,
    least: usize,
    low: u32,
    high: u32,
    default: Short<u32, N>,
) -> Result<Short<u32, N>, ConfigFault>
    requires small { N < 2 ^ 32 }
    requires list { IsList least N low high default }
    ensures gives { Gives result (keys_spec.allowed_list least N at key (spec.whole low high) (table_view table.now)) (keys_spec.read_list_or default.entry key (spec.whole low high) (table_view table.now)) }
    ensures list { IfOk result (IsList least N low high) }
{
    numbers_of(
        value_at(table, key),
        at.of_key(key),
        least,
        low,
        high,
        default,
    )
}

/// The names of an array.
fn all_names<T: Named + Default + Drop, const N: usize>(
    array: &[Value],
    at: Path,
) -> Result<Short<T, N>, ConfigFault>
    requires few { length array.now ≤ N }
    requires small { N < 2 ^ 32 }
    ensures gives { Gives result (spec.items_from (spec.name T.named) at 0 (items_view array.now)) (spec.items_of (spec.name T.named) (items_view array.now)) }
    ensures count { IfOk result (λ xs. length xs ≡ length array.now) }
{
    let mut names = Short::new();
    for (index, value) in array.iter().enumerate() {
        let place = at.of_item(index as u32);
        names.push(needed_name_of(Some(value), place)?);
    }
    Ok(names)
}

/// The names of an array, unless it is of a wrong length.
fn few_names<T: Named + Default + Drop, const N: usize>(
    array: &[Value],
    at: Path,
    least: usize,
) -> Result<Short<T, N>, ConfigFault>
    requires { N < 2 ^ 32 }
    ensures gives { Gives result (spec.list_kind least N (spec.name T.named) at (Some (items_view array.now))) (spec.items_of (spec.name T.named) (items_view array.now)) }
    ensures count { IfOk result (λ xs. (least ≤ length xs) × (length xs ≤ N)) }
{
    if has_wrong_length(array, least, N) {
        return Err(ConfigFault::OutOfRange(at));
    }
    all_names(array, at)
}

/// The names of an array, with their default.
fn names_of<T: Named + Default + Drop, const N: usize>(
    value: Option<&Value>,
    at: Path,
    least: usize,
    default: Short<T, N>,
) -> Result<Short<T, N>, ConfigFault>
    requires small { N < 2 ^ 32 }
    requires least { least ≤ length default }
    requires most { length default ≤ N }
    ensures gives { let found = option_map (λ v. view v.now) value.entry in Gives result (spec.list_checks least N (spec.name T.named) at passes found) (spec.list_value (spec.name T.named) (Some default) found) }
    ensures count { IfOk result (λ xs. (least ≤ length xs) × (length xs ≤ N)) }
{
    let Some(value) = value else {
        return Ok(default);
    };
    let Some(array) = value.as_array() else {
        return Err(ConfigFault::WrongKind(at));
    };
    few_names(array, at, least)
}

/// An array of names out of a list, of at least so many and at most `N`, with its default.
pub fn names_or<T: Named + Default + Drop, const N: usize>(
    table: &Table,
    at: Path,
    key: KeyName,
    least: usize,
    default: Short<T, N>,
) -> Result<Short<T, N>, ConfigFault>
    requires small { N < 2 ^ 32 }
    requires least { least ≤ length default }
    requires most { length default ≤ N }
    ensures gives { Gives result (keys_spec.allowed_list least N at key (spec.name T.named) (table_view table.now)) (keys_spec.read_list_or default key (spec.name T.named) (table_view table.now)) }
    ensures count { IfOk result (λ xs. (least ≤ length xs) × (length xs ≤ N)) }
{
    names_of(value_at(table, key), at.of_key(key), least, default)
}
