ghost use Rattle.std.specs.Prelude.{◌≡◌, ◌==◌, IfOk, false, vec_len};
ghost use Rattle.desk_lint.specs.WellFormed as spec;

use crate::config::ConfigPass;
use crate::found::{Found, finding};
use crate::objects::Objects;
use crate::rules::told;
use crate::script::script_pass;
use crate::separator::{no_separator, script_line};
use crate::verdicts::{Verdict, verdict_on};
use desk_findings::places::{Lines, Places, Span, places_in};
use desk_findings::{Finding, Severity, sorted};
use mcal_base::Config;
use mcal_config::ConfigFault;
use std::alloc::{AllocError, Global};

/// What is found in a bench file, each in the order of its place.
#[derive(Drop)]
pub struct Lint {
    /// What the bench refuses. There is none exactly where its `check` takes the file.
    pub errors: Vec<Finding>,
    /// What it takes, and a person may not have meant.
    pub warnings: Vec<Finding>,
}

/// An error that is of the whole file.
fn refused(alloc: Global, what: &str) -> Result<Finding, AllocError> {
    finding(alloc, Severity::Error, Span { start: 0, end: 0 }, what, "")
}

/// The errors of a file that is refused: where none was found, that it is refused.
fn at_least_one(alloc: Global, mut errors: Vec<Finding>) -> Result<Vec<Finding>, AllocError>
    ensures { IfOk result (λ v. (vec_len v == 0) ≡ false) }
{
    if errors.is_empty() {
        errors.push(refused(alloc, "the bench refuses this file")?)?;
    }
    Ok(errors)
}

/// Looks for all references that lead nowhere and all rules that are broken, where the readers found the first of them. That
/// one is told by itself where nothing is found.
fn beyond_rows(
    pass: &mut ConfigPass<'_>,
    values: &toml::Table,
    fault: Option<ConfigFault>,
) -> Result<(), AllocError> {
    let Some(fault) = fault else {
        return Ok(());
    };
    if !matches!(
        fault,
        ConfigFault::Unknown(..) | ConfigFault::Combination(..)
    ) {
        return Ok(());
    }
    let before = pass.found.errors.len();
    pass.references(values)?;
    pass.combinations(values)?;
    if pass.found.errors.len() == before {
        told(pass.found, pass.places, fault)?;
    }
    Ok(())
}

/// Looks through a text that is to be a configuration. Of one without TOML's form that is told alone.
fn config_pass(
    found: &mut Found,
    text: &[u8],
    fault: Option<ConfigFault>,
) -> Result<(), AllocError> {
    match toml::table_from_slice(found.alloc, text) {
        Ok(table) => {
            let places = Places::of(places_in(found.alloc, text)?)?;
            let mut pass = ConfigPass {
                places: &places,
                found,
            };
            pass.whole(&table)?;
            beyond_rows(&mut pass, &table, fault)
        }
        Err(error) => {
            let Some(span) = error.span() else {
                return Err(AllocError);
            };
            found.error(
                Span {
                    start: span.start,
                    end: span.end,
                },
                "the configuration is no TOML",
                error.message(),
            )
        }
    }
}

/// The fault of the configuration, if it has one.
fn config_fault(verdict: &Verdict) -> Option<ConfigFault> {
    match verdict {
        Verdict::Configuration(fault) => Some(*fault),
        _ => None,
    }
}

/// The configuration, if it is right.
fn config_of(verdict: &Verdict) -> Option<&Config> {
    match verdict {
        Verdict::Sound(config) | Verdict::Script(config, _) => Some(config),
        _ => None,
    }
}

/// Looks through a file in which the readers of the bench found this fault of the configuration, if any, or read this one.
fn looked_through<C: Objects>(
    alloc: Global,
    bytes: &[u8],
    fault: Option<ConfigFault>,
    config: Option<&C>,
) -> Result<Found, AllocError> {
    let mut found = Found::new(alloc);
    let lines = Lines::of(alloc, bytes)?;
    let Some(line) = script_line(&lines) else {
        no_separator(&mut found, &lines)?;
        return Ok(found);
    };
    let front = bytes.get(..lines.start_of(line)).unwrap_or(&[]);
    config_pass(&mut found, front, fault)?;
    script_pass(&mut found, &lines, line.saturating_add(1), config)?;
    Ok(found)
}

/// What is found in a file that has too many bytes.
fn too_long(alloc: Global) -> Result<Found, AllocError> {
    let mut found = Found::new(alloc);
    let error = refused(alloc, "more than 1048576 bytes")?;
    found.errors.push(error)?;
    Ok(found)
}

/// What is found in a file, by what the readers of the bench say of it.
fn found_in(alloc: Global, bytes: &[u8], verdict: &Verdict) -> Result<Found, AllocError> {
    match verdict {
        Verdict::TooLong => too_long(alloc),
        _ => looked_through(alloc, bytes, config_fault(verdict), config_of(verdict)),
    }
}

/// Looks through a bench file for all that its readers refuse, and for what they take without a word. There is no error
/// exactly where they take it.
pub fn lint_file(alloc: Global, bytes: &[u8]) -> Result<Lint, AllocError>
    ensures { IfOk result (λ l. (vec_len l.errors == 0) ≡ spec.is_well_formed bytes.now) }
{
    let verdict = verdict_on(alloc, bytes)?;
    let found = found_in(alloc, bytes, &verdict)?;
    let warnings = sorted(found.warnings)?;
    if let Verdict::Sound(_) = verdict {
        return Ok(Lint {
            errors: Vec::new(alloc),
            warnings,
        });
    }
    let errors = at_least_one(alloc, sorted(found.errors)?)?;
    Ok(Lint { errors, warnings })
}
