ghost use Rattle.std.specs.Prelude.{◌≡◌, option_map};
ghost use Rattle.audit_base.specs.Deeds.{beginning, quiet};

use crate::told::Told;

/// A word that begins on a serial unit.
#[derive(Clone, Copy)]
pub struct Begun {
    /// The number of the unit.
    pub unit: u32,
    /// The word, masked by its channel's width.
    pub word: u32,
    /// That width in bits.
    pub width: u8,
    /// The place of the device that it is for, where there is one.
    pub device: Option<u8>,
}

/// What a deed gives that a machine allows.
#[derive(Drop)]
pub struct Done {
    /// What it tells.
    pub told: Told,
    /// The word that begins there, where one does.
    pub begins: Option<Begun>,
}

impl Done {
    /// Where it is allowed it tells this, and no word begins.
    pub fn if_told(told: Option<Told>) -> Option<Done>
        ensures { result ≡ option_map quiet told }
    {
        match told {
            Some(told) => Some(Done { told, begins: None }),
            None => None,
        }
    }

    /// Where it is allowed this word begins, and nothing is told.
    pub fn if_begun(begun: Option<Begun>) -> Option<Done>
        ensures { result ≡ option_map beginning begun }
    {
        match begun {
            Some(begun) => Some(Done {
                told: Told::nothing(),
                begins: Some(begun),
            }),
            None => None,
        }
    }
}
