ghost use Rattle.std.specs.Prelude.{◌≡◌, IfOk, Option, Some, option_map};
ghost use Rattle.toml.specs.View.{view, table_view};
ghost use Rattle.config_keys.specs.Checks.{Gives};
ghost use Rattle.config_tables.specs.rows.Modules.{Part};
ghost use Rattle.config_tables.specs.rows.Modules as spec;

use config_keys::{ConfigFault, Path};
use mcal_base::ModuleName;
use std::alloc::Global;
use toml::{Table, Value};

/// A module's table.
pub trait Module {
    /// What the table is read to.
    type Value: Drop;

    /// What the table is.
    ghost part: { Part Self.Value };

    /// What a table that is read meets.
    ghost is_valid: { Self.Value → Type 0 };

    /// The module.
    fn name() -> ModuleName
        ensures { result ≡ part.name };

    /// Reads the table.
    fn read(table: &Table) -> Result<Self::Value, ConfigFault>
        ensures gives { Gives result (part.checks (table_view table.now)) (part.value (table_view table.now)) }
        ensures valid { IfOk result is_valid };
}

/// The value of a module's name, if it is there.
fn module_value_at<'a>(table: &'a Table, name: ModuleName) -> Option<&'a Value>
    ensures { option_map (λ v. view v.now) result ≡ spec.entry name (table_view table.now) }
{
    table.get(name.text())
}

/// Reads a module from the value of its name.
fn module_of<M: Module>(alloc: Global, value: Option<&Value>) -> Result<M::Value, ConfigFault>
    ensures gives { let found = option_map (λ v. view v.now) value.entry in Gives result (spec.found_checks M.part found) (spec.found_value M.part found) }
    ensures valid { IfOk result M.is_valid }
{
    let Some(value) = value else {
        return M::read(&Table::new(alloc));
    };
    match value.as_table() {
        Some(table) => M::read(table),
        None => Err(ConfigFault::WrongKind(Path::of_module(M::name()))),
    }
}

/// Reads a module of a configuration. Its value is to be a table; an absent one is empty.
pub fn read_module<M: Module>(alloc: Global, table: &Table) -> Result<M::Value, ConfigFault>
    ensures gives { Gives result (spec.module_checks M.part (table_view table.now)) (spec.module_value M.part (table_view table.now)) }
    ensures valid { IfOk result M.is_valid }
{
    module_of::<M>(alloc, module_value_at(table, M::name()))
}
