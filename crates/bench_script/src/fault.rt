ghost use Rattle.std.specs.Prelude.{◌≡◌};
ghost use Rattle.bench_script.specs.Faults as spec;
ghost use Rattle.bench_script.specs.declared.fault.ScriptFault.TheVariants.{NoMemory};

use std::alloc::{AllocError, AllocFailed};
use thiserror::Error;

/// Why a line of a script is refused.
#[derive(Clone, Copy)]
pub(crate) enum LineFault {
    /// A byte before a comment is no text.
    NotText,
    /// A word is none of those that may stand there.
    Word,
    /// There are too few words or too many.
    Count,
    /// A word is no number of its range.
    Number,
}

impl LineFault {
    /// The fault of a script whose line is refused.
    pub(crate) fn at(self, line: u32) -> ScriptFault
        ensures { result ≡ spec.at_line self line }
    {
        match self {
            LineFault::NotText => ScriptFault::NotText(line),
            LineFault::Word => ScriptFault::Word(line),
            LineFault::Count => ScriptFault::Count(line),
            LineFault::Number => ScriptFault::Number(line),
        }
    }
}

/// Why a text is refused as a script. Each fault of the text has its line, from 1.
#[derive(Clone, Copy, Debug, Error)]
pub enum ScriptFault {
    /// A byte before a comment is neither a tab nor from 0x20 to 0x7E.
    #[error("line {0}: a byte that is no text")]
    NotText(u32),
    /// A word is none of those that may stand there.
    #[error("line {0}: an unknown word")]
    Word(u32),
    /// There are too few words or too many.
    #[error("line {0}: a wrong number of words")]
    Count(u32),
    /// A word is no number of its range.
    #[error("line {0}: not a number in range")]
    Number(u32),
    /// There are more than 50,000 directives, and this is the line of the first that is too many.
    #[error("line {0}: too many directives")]
    Long(u32),
    /// Memory was wanting.
    #[error("out of memory")]
    NoMemory,
}

impl ScriptFault {
    /// The line, and 0 where memory was wanting.
    pub fn line(self) -> u32
        ensures { result ≡ spec.line_of self }
    {
        match self {
            ScriptFault::NotText(line)
            | ScriptFault::Word(line)
            | ScriptFault::Count(line)
            | ScriptFault::Number(line)
            | ScriptFault::Long(line) => line,
            ScriptFault::NoMemory => 0,
        }
    }

    /// The kind of the fault, as it is printed.
    pub fn kind_text(self) -> &'static str
        ensures { result.now ≡ spec.kind_text self }
    {
        match self {
            ScriptFault::NotText(_) => "NotText",
            ScriptFault::Word(_) => "Word",
            ScriptFault::Count(_) => "Count",
            ScriptFault::Number(_) => "Number",
            ScriptFault::Long(_) => "Long",
            ScriptFault::NoMemory => "NoMemory",
        }
    }
}

impl From<AllocError> for ScriptFault {
    ghost from_gives = { λ _ e. e ≡ NoMemory };

    fn from(_e: AllocError) -> ScriptFault {
        ScriptFault::NoMemory
    }
}

impl<T: Drop> From<AllocFailed<T>> for ScriptFault {
    ghost from_gives = { λ _ e. e ≡ NoMemory };

    fn from(_e: AllocFailed<T>) -> ScriptFault {
        ScriptFault::NoMemory
    }
}
