ghost use Rattle.std.specs.Prelude.{◌≡◌};
ghost use Rattle.config_keys.specs.Keys as spec;
ghost use Rattle.config_keys.specs.Kinds.{of_item};
ghost use Rattle.config_keys.specs.Printed.{fault_number};

use crate::key_name::KeyName;
use mcal_base::ModuleName;
use thiserror::Error;

/// A place in a configuration: a module, one of its keys, an element of that key's array, a key of the element, and
/// an item of that key's array. A plain array of a module has its items after the key.
#[derive(Clone, Copy, Debug)]
pub struct Path {
    /// The module.
    pub module: ModuleName,
    /// The module's key.
    pub key: Option<KeyName>,
    /// The number of the element, from 0.
    pub element: Option<u32>,
    /// The element's key.
    pub inner: Option<KeyName>,
    /// The number of the item, from 0.
    pub item: Option<u32>,
}

impl Path {
    /// The place of a module.
    pub fn of_module(name: ModuleName) -> Path
        ensures { result ≡ spec.of_module name }
    {
        Path {
            module: name,
            key: None,
            element: None,
            inner: None,
            item: None,
        }
    }

    /// The place of a key: of the module's, or of the element's where this is the place of one.
    pub fn of_key(self, key: KeyName) -> Path
        ensures { result ≡ spec.of_key self key }
    {
        match self.key {
            None => Path {
                key: Some(key),
                ..self
            },
            Some(_) => Path {
                inner: Some(key),
                ..self
            },
        }
    }

    /// The place of an element of this array.
    pub fn of_element(self, number: u32) -> Path
        ensures { result ≡ spec.of_element self number }
    {
        Path {
            element: Some(number),
            ..self
        }
    }

    /// The place of an item of this array.
    pub fn of_item(self, number: u32) -> Path
        ensures { result ≡ of_item self number }
    {
        Path {
            item: Some(number),
            ..self
        }
    }
}

/// Why a text is no configuration. Each fault but the first and the last names its place.
#[derive(Clone, Copy, Debug, Error)]
pub enum ConfigFault {
    /// The text is not TOML.
    #[error("the text is not TOML")]
    NotToml,
    /// A key that is required is absent.
    #[error("a required key is absent")]
    Missing(Path),
    /// A value is of another kind than its key asks for.
    #[error("a value is of another kind")]
    WrongKind(Path),
    /// A number is out of its range, a name is not listed, or an array is of a wrong length.
    #[error("a value is out of range")]
    OutOfRange(Path),
    /// This id stood in an earlier element.
    #[error("the id {1} stands twice")]
    Repeated(Path, u32),
    /// There is no element with the id that is referred to.
    #[error("there is no {1}")]
    Unknown(Path, u32),
    /// The rule with this number is broken.
    #[error("rule {1} is broken")]
    Combination(Path, u32),
    /// There is not enough memory.
    #[error("out of memory")]
    NoMemory,
}

impl ConfigFault {
    /// The number of the fault, by which it is printed: 1 to 7 in the order above, and 8 for want of memory.
    pub fn number(&self) -> u32
        ensures { result ≡ fault_number self.now }
    {
        match self {
            ConfigFault::NotToml => 1,
            ConfigFault::Missing(_) => 2,
            ConfigFault::WrongKind(_) => 3,
            ConfigFault::OutOfRange(_) => 4,
            ConfigFault::Repeated(_, _) => 5,
            ConfigFault::Unknown(_, _) => 6,
            ConfigFault::Combination(_, _) => 7,
            ConfigFault::NoMemory => 8,
        }
    }
}
