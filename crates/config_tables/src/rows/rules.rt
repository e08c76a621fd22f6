ghost use Rattle.std.specs.Prelude.{◌≡◌, ℕ, Bool, Some, true, OnOk, List, ◌<◌, ◌^◌, length};
ghost use Rattle.config_facts.specs.Ids.{has_id, Keeps, Refer};
ghost use Rattle.config_keys.specs.Checks.{Gives};
ghost use Rattle.config_tables.specs.rows.Rules as spec;

use crate::rows::arrays::{Element, any_id};
use config_keys::{ConfigFault, Path};

/// A rule on the elements of an array, each seen after those before it.
pub trait Rule<T> {
    /// Whether an element breaks it, after those before it.
    ghost breaks: { Self → List T → T → Bool };

    /// Whether an element breaks it, after those before it.
    fn breaks(&self, earlier: &[T], value: &T) -> bool
        ensures { result ≡ breaks self.now earlier.now value.now };
}

/// Checks the rule with this number for the elements in turn: `Combination` names the first that breaks it.
pub fn check_rule<T, R: Rule<T>>(
    rule: &R,
    number: u32,
    place: Path,
    values: &[T],
) -> Result<(), ConfigFault>
    requires { length values.now < 2 ^ 32 }
    ensures gives { Gives result (spec.rule (R.breaks rule.now) number place values.now) (Some tt) }
    ensures keeps { OnOk result (Keeps (R.breaks rule.now) values.now) }
{
    for (index, value) in values.iter().enumerate() {
        if rule.breaks(&values[..index], value) {
            return Err(ConfigFault::Combination(place.of_element(index as u32), number));
        }
    }
    Ok(())
}

/// Checks that an element has this id: `Unknown` names the place that refers to it.
pub fn check_reference<E: Element>(
    values: &[E::Value],
    at: Path,
    id: u32,
) -> Result<(), ConfigFault>
    ensures gives { Gives result (spec.reference E.id_of values.now at id) (Some tt) }
    ensures refers { OnOk result (has_id E.id_of values.now id ≡ true) }
{
    if any_id::<E>(values, Some(id)) {
        Ok(())
    } else {
        Err(ConfigFault::Unknown(at, id))
    }
}

/// Checks that each of these ids is that of an element: `Unknown` names the first item that refers to a missing one.
pub fn check_references<E: Element>(
    values: &[E::Value],
    at: Path,
    ids: &[u32],
) -> Result<(), ConfigFault>
    requires { length ids.now < 2 ^ 32 }
    ensures gives { Gives result (spec.references E.id_of values.now at 0 ids.now) (Some tt) }
    ensures refer { OnOk result (Refer E.id_of values.now ids.now) }
{
    for (index, id) in ids.iter().enumerate() {
        check_reference::<E>(values, at.of_item(index as u32), *id)?;
    }
    Ok(())
}
