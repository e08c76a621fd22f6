ghost use Rattle.std.specs.Prelude.{◌≡◌};
ghost use Rattle.adc_machine.specs.Machine.{reporting};
ghost use Rattle.service_outline.specs.Done.{owed_error};

use adc_machine::AdcTable;
use mcal_base::{ErrorName, Service};
use service_outline::{Epilogue, error};

/// What is owed for an error of a service.
pub fn error_owed(table: &AdcTable, service: Service, name: ErrorName) -> Epilogue
    ensures { result ≡ owed_error (reporting table.now) service name }
{
    error(table.detect, table.classification, service, name)
}
