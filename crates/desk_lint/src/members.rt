use config_keys::KeyName;
use mcal_base::ModuleName;
use toml::Value;

/// The value of a key of a table.
pub(crate) fn member(value: &Value, key: KeyName) -> Option<&Value> {
    value.as_table()?.get(key.text())
}

/// The whole number of a key of a table.
pub(crate) fn number_at(value: &Value, key: KeyName) -> Option<i64> {
    member(value, key)?.as_integer()
}

/// Whether a key of two tables has the same whole number.
pub(crate) fn has_same(one: &Value, other: &Value, key: KeyName) -> bool {
    match (number_at(one, key), number_at(other, key)) {
        (Some(one), Some(other)) => one == other,
        _ => false,
    }
}

/// The place of the first table in which a key has the same whole number as in another one.
pub(crate) fn place_of_same(tables: &[Value], other: &Value, key: KeyName) -> Option<usize> {
    for (place, table) in tables.iter().enumerate() {
        if has_same(table, other, key) {
            return Some(place);
        }
    }
    None
}

/// Whether a key has this whole number in one of some tables.
pub(crate) fn any_has(tables: &[Value], key: KeyName, number: i64) -> bool {
    for table in tables {
        if number_at(table, key) == Some(number) {
            return true;
        }
    }
    false
}

/// Whether a key of a table has this name.
pub(crate) fn is_named(value: &Value, key: KeyName, name: &str) -> bool {
    match member(value, key) {
        Some(value) => value.as_str() == Some(name),
        None => false,
    }
}

/// The items of a value, none where it is no array.
fn items_of(value: Option<&Value>) -> Option<&[Value]> {
    Some(value?.as_array()?.as_slice())
}

/// The items of an array under a key of a table, none where there is none.
pub(crate) fn items_at(value: &Value, key: KeyName) -> &[Value] {
    items_of(member(value, key)).unwrap_or(&[])
}

/// The elements of an array of a module, none where there is none.
pub(crate) fn elements_at(values: &toml::Table, module: ModuleName, array: KeyName) -> &[Value] {
    match values.get(module.text()) {
        Some(value) => items_at(value, array),
        None => &[],
    }
}
