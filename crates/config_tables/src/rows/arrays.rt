ghost use Rattle.std.specs.Prelude.{◌≡◌, ℕ, Option, Some, List, IfOk, false, map, option_map, ◌≤◌, ◌<◌, ◌^◌, length, []};
ghost use Rattle.std.specs.List.{list_any};
ghost use Rattle.toml.specs.Data.{as_table};
ghost use Rattle.toml.specs.View.{view, table_view, items_view};
ghost use Rattle.config_facts.specs.Ids.{IsTable};
ghost use Rattle.config_keys.specs.Checks.{Gives};
ghost use Rattle.config_tables.specs.rows.Rows.{Shape, same_id, table_checks, element_value, id_of, elements_from, values_of, array_kind, found_checks, found_value, array_checks, array_value};

use config_facts::are_same;
use config_keys::{ConfigFault, KeyName, Path, has_wrong_length, value_at};
use mcal_base::Short;
use toml::{Table, Value};

/// A kind of element of an array of tables.
pub trait Element {
    /// What an element is read to.
    type Value: Default + Drop;

    /// What its table is.
    ghost shape: { Shape Self.Value };

    /// Its id, if it has one.
    ghost id_of: { Self.Value → Option ℕ };

    /// What an element that is read meets.
    ghost is_valid: { Self.Value → Type 0 };

    /// The place of the array.
    fn place() -> Path
        ensures { result ≡ shape.place };

    /// The key of the array.
    fn key() -> KeyName
        ensures { result ≡ shape.key };

    /// The key of the ids, if the elements have ids.
    fn id_key() -> Option<KeyName>
        ensures { result ≡ shape.id_key };

    /// Its id, if it has one.
    fn id(value: &Self::Value) -> Option<u32>
        ensures { result ≡ id_of value.now };

    /// Reads the element at this place.
    fn read(table: &Table, at: Path) -> Result<Self::Value, ConfigFault>
        ensures gives { Gives result (shape.checks at (table_view table.now)) (shape.value (table_view table.now)) }
        ensures id { IfOk result (λ x. shape.id (table_view table.now) ≡ id_of x) }
        ensures valid { IfOk result is_valid };
}

/// Whether an element has this id, where there is one.
pub fn any_id<E: Element>(values: &[E::Value], id: Option<u32>) -> bool
    ensures { result ≡ list_any (λ x. same_id id (E.id_of x)) values.now }
{
    values.iter().any(|value| are_same(id, E::id(value)))
}

/// Whether this id, where there is one, is among those of the elements.
fn has_same_id<E: Element>(values: &[E::Value], id: Option<u32>) -> bool
    ensures ids { result ≡ list_any (same_id id) (map E.id_of values.now) }
    ensures any { result ≡ list_any (λ x. same_id id (E.id_of x)) values.now }
{
    any_id::<E>(values, id)
}

/// Reads an element, after others.
fn next_element<E: Element>(
    value: &Value,
    before: &[E::Value],
    number: u32,
) -> Result<E::Value, ConfigFault>
    ensures gives { Gives result (table_checks E.shape number (map E.id_of before.now) (as_table (view value.now))) (element_value E.shape (view value.now)) }
    ensures id { IfOk result (λ x. id_of E.shape (view value.now) ≡ E.id_of x) }
    ensures valid { IfOk result E.is_valid }
    ensures once { IfOk result (λ x. list_any (λ y. same_id (E.id_of x) (E.id_of y)) before.now ≡ false) }
{
    let at = E::place().of_element(number);
    let Some(table) = value.as_table() else {
        return Err(ConfigFault::WrongKind(at));
    };
    let read = E::read(table, at)?;
    let id = E::id(&read);
    if has_same_id::<E>(before, id) {
        let at = Path {
            inner: E::id_key(),
            ..at
        };
        return Err(ConfigFault::Repeated(at, id.unwrap_or(0)));
    }
    Ok(read)
}

/// The elements of an array.
fn all_elements<E: Element, const N: usize>(
    array: &[Value],
) -> Result<Short<E::Value, N>, ConfigFault>
    requires few { length array.now ≤ N }
    requires small { N < 2 ^ 32 }
    ensures gives { Gives result (elements_from E.shape 0 [] (items_view array.now)) (values_of E.shape (items_view array.now)) }
    ensures table { IfOk result (IsTable E.is_valid E.id_of N) }
{
    let mut elements = Short::new();
    for (number, value) in array.iter().enumerate() {
        let element = next_element::<E>(value, elements.as_slice(), number as u32)?;
        elements.push(element);
    }
    Ok(elements)
}

/// The elements of an array, unless it is too long.
fn few_elements<E: Element, const N: usize>(
    array: &[Value],
) -> Result<Short<E::Value, N>, ConfigFault>
    requires { N < 2 ^ 32 }
    ensures gives { Gives result (array_kind E.shape N (Some (items_view array.now))) (values_of E.shape (items_view array.now)) }
    ensures table { IfOk result (IsTable E.is_valid E.id_of N) }
{
    if has_wrong_length(array, 0, N) {
        return Err(ConfigFault::OutOfRange(E::place()));
    }
    all_elements::<E, N>(array)
}

/// The elements of a value, which is to be an array; none where there is no value.
fn elements_of<E: Element, const N: usize>(
    value: Option<&Value>,
) -> Result<Short<E::Value, N>, ConfigFault>
    requires { N < 2 ^ 32 }
    ensures gives { let found = option_map (λ v. view v.now) value.entry in Gives result (found_checks E.shape N found) (found_value E.shape found) }
    ensures table { IfOk result (IsTable E.is_valid E.id_of N) }
{
    let Some(value) = value else {
        return Ok(Short::new());
    };
    let Some(array) = value.as_array() else {
        return Err(ConfigFault::WrongKind(E::place()));
    };
    few_elements::<E, N>(array)
}

/// Reads the key of an array of tables, of at most `N` elements; an absent one is empty. Its kind comes first, then its
/// length, then the elements in turn, each with its keys and after them its id, which is to stand once.
pub fn elements<E: Element, const N: usize>(
    table: &Table,
) -> Result<Short<E::Value, N>, ConfigFault>
    requires { N < 2 ^ 32 }
    ensures gives { Gives result (array_checks E.shape N (table_view table.now)) (array_value E.shape (table_view table.now)) }
    ensures table { IfOk result (IsTable E.is_valid E.id_of N) }
{
    elements_of::<E, N>(value_at(table, E::key()))
}
