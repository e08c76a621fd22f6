use crate::combinations::refusal;
use crate::found::{Found, key_at, value_at};
use desk_findings::places::Places;
use mcal_config::ConfigFault;
use std::alloc::AllocError;

/// Tells of a fault of the configuration that no table's row is about: a reference, or a rule.
pub(crate) fn told(
    found: &mut Found,
    places: &Places,
    fault: ConfigFault,
) -> Result<(), AllocError> {
    match fault {
        ConfigFault::Unknown(at, id) => {
            let path = format!(in found.alloc; "{at}")?;
            let path = path.as_str();
            found.error(
                value_at(places, path),
                format_args!("`{path}` refers to {id}"),
                "nothing has this number",
            )
        }
        ConfigFault::Combination(at, rule) => {
            let path = format!(in found.alloc; "{at}")?;
            found.error(
                key_at(places, path.as_str()),
                refusal(rule),
                format_args!("rule {rule}"),
            )
        }
        _ => Ok(()),
    }
}
