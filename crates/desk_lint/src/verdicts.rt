ghost use Rattle.std.specs.Prelude.{◌≡◌, IfOk};
ghost use Rattle.desk_lint.specs.WellFormed as spec;

use bench_script::{ScriptFault, read_script, split_file};
use mcal_base::Config;
use mcal_config::{ConfigFault, read_config};
use std::alloc::{AllocError, Global};

/// The most bytes that a bench file may have.
const LIMIT: usize = 1_048_576;

/// What the readers of the bench say of a file.
#[derive(Drop)]
pub enum Verdict {
    /// It is right, and this is its configuration.
    Sound(Config),
    /// It has too many bytes.
    TooLong,
    /// No line is the separator.
    NoSeparator,
    /// The configuration has this fault.
    Configuration(ConfigFault),
    /// The configuration is right, and the script has this fault.
    Script(Config, ScriptFault),
}

/// What the readers of the bench say of a file.
pub fn verdict_on(alloc: Global, bytes: &[u8]) -> Result<Verdict, AllocError>
    ensures { IfOk result (λ v. spec.is_sound v ≡ spec.is_well_formed bytes.now) }
{
    if LIMIT < bytes.len() {
        return Ok(Verdict::TooLong);
    }
    let Some((first, second)) = split_file(bytes) else {
        return Ok(Verdict::NoSeparator);
    };
    let config = match read_config(alloc, first) {
        Ok(config) => config,
        Err(ConfigFault::NoMemory) => return Err(AllocError),
        Err(fault) => return Ok(Verdict::Configuration(fault)),
    };
    match read_script(alloc, second) {
        Ok(_) => Ok(Verdict::Sound(config)),
        Err(ScriptFault::NoMemory) => Err(AllocError),
        Err(fault) => Ok(Verdict::Script(config, fault)),
    }
}
