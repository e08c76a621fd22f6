ghost use Rattle.std.specs.Prelude.{◌≡◌, IfOk, None};
ghost use Rattle.config_tables.specs.Faults as spec;

use config_keys::ConfigFault;

/// The first fault of a row's reads. Reading goes on behind it, with defaults that nobody sees.
#[derive(Drop)]
pub struct FirstFault(Option<ConfigFault>);

impl FirstFault {
    /// No fault so far.
    pub fn none() -> FirstFault
        ensures { result.0 ≡ None }
    {
        FirstFault(None)
    }

    /// What was read; a default in place of a fault, which is kept if it is the first.
    pub fn keep<T: Default + Drop>(&mut self, read: Result<T, ConfigFault>) -> T
        ensures fault { self.new.0 ≡ spec.kept self.old.0 read }
        ensures value { IfOk read (λ x. result ≡ x) }
    {
        match read {
            Ok(value) => value,
            Err(fault) => {
                if self.0.is_none() {
                    self.0 = Some(fault);
                }
                T::default()
            }
        }
    }

    /// The value, or the first fault.
    pub fn finish<T: Drop>(self, value: T) -> Result<T, ConfigFault>
        ensures { result ≡ spec.finished self.0 value }
    {
        match self.0 {
            None => Ok(value),
            Some(fault) => Err(fault),
        }
    }
}
