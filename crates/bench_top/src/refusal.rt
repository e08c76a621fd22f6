ghost use Rattle.std.specs.Prelude.{◌≡◌, ◌≤◌, IfOk, string_bytes};
ghost use Rattle.bench_top.specs.Judged.{ending_of};

use bench_script::ScriptFault;
use mcal_config::{ConfigFault, Printed};
use std::alloc::{AllocError, Global};

/// Why a bench file is refused.
#[derive(Clone, Copy)]
pub enum Refusal {
    /// No line is the separator.
    NoSeparator,
    /// The configuration has this fault.
    Configuration(ConfigFault),
    /// The script has this fault; one directive too many is a limit, and no fault of a line.
    Script(ScriptFault),
}

impl Refusal {
    /// The status.
    pub fn status(self) -> u8
        ensures status { result ≡ (ending_of self).status }
        ensures known { result ≤ 7 }
    {
        match self {
            Refusal::Script(ScriptFault::Long(_)) => 5,
            Refusal::Configuration(_) => 6,
            Refusal::NoSeparator | Refusal::Script(_) => 7,
        }
    }

    /// The line that is printed.
    pub fn text(self, alloc: Global) -> Result<String, AllocError>
        ensures { IfOk result (λ text. string_bytes text ≡ (ending_of self).text) }
    {
        match self {
            Refusal::NoSeparator => String::from_str(alloc, "script fault 0 NoSeparator\n"),
            Refusal::Configuration(fault) => {
                let fault = Printed(fault);
                format!(in alloc; "configuration fault {fault}\n")
            }
            Refusal::Script(ScriptFault::Long(_)) => {
                String::from_str(alloc, "too long: more than 50000 directives\n")
            }
            Refusal::Script(fault) => {
                let line = fault.line();
                let kind = fault.kind_text();
                format!(in alloc; "script fault {line} {kind}\n")
            }
        }
    }
}
