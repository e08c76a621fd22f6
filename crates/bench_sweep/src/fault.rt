ghost use Rattle.std.specs.Prelude.{◌≡◌, IfOk, string_bytes};
ghost use Rattle.bench_sweep.specs.Faults as spec;

use crate::marking::{Mark, Part};
use std::alloc::{AllocError, Global};

/// Why a script is no sweep. Each fault has its line, from 1.
#[derive(Clone, Copy)]
pub enum SweepFault {
    /// A mark stands where it may not: behind the part that ends there.
    Misplaced(u32, Mark, Part),
    /// The script ends in a part that another must follow. The line is the last one.
    Unended(u32, Part),
    /// No directive stands behind this mark, where one must.
    Empty(u32, Mark),
    /// No callback with the number of an object stands behind `on`.
    Notice(u32),
    /// What follows a notice is not one call to its end.
    Reaction(u32),
    /// The call that follows a notice has no level.
    Level(u32),
    /// A line before this one, which comes second here, says already what follows the notice.
    Doubled(u32, u32),
    /// No directive of the block makes a step. The line is that of `over`.
    NoStep(u32),
}

/// What is wrong with a mark in a part.
fn misplaced_text(alloc: Global, mark: Mark, part: Part) -> Result<String, AllocError>
    ensures { IfOk result (λ text. string_bytes text ≡ spec.misplaced_text mark part) }
{
    let mark = mark.text();
    match part {
        Part::Behind => format!(in alloc; "{mark} behind end, where no mark may stand"),
        _ => {
            let ends = part.ends_text();
            format!(in alloc; "{mark}, where the next mark may be {ends}")
        }
    }
}

impl SweepFault {
    /// The line.
    fn line(self) -> u32
        ensures { result ≡ spec.line_of self }
    {
        match self {
            SweepFault::Misplaced(line, _, _)
            | SweepFault::Unended(line, _)
            | SweepFault::Empty(line, _)
            | SweepFault::Notice(line)
            | SweepFault::Reaction(line)
            | SweepFault::Level(line)
            | SweepFault::Doubled(line, _)
            | SweepFault::NoStep(line) => line,
        }
    }

    /// The kind of the fault, and what is wrong.
    fn kind_text(self, alloc: Global) -> Result<String, AllocError>
        ensures { IfOk result (λ text. string_bytes text ≡ spec.kind_text self) }
    {
        match self {
            SweepFault::Misplaced(_, mark, part) => {
                let wrong = misplaced_text(alloc, mark, part)?;
                format!(in alloc; "Misplaced: {wrong}")
            }
            SweepFault::Unended(_, part) => {
                let ends = part.ends_text();
                format!(in alloc; "Unended: the script ends, where the next mark must be {ends}")
            }
            SweepFault::Empty(_, mark) => {
                let mark = mark.text();
                format!(in alloc; "Empty: no directive behind {mark}, where one or more must stand")
            }
            SweepFault::Notice(_) => String::from_str(
                alloc,
                "Notice: on, where on CALLBACK ID do L SERVICE .. must stand",
            ),
            SweepFault::Reaction(_) => String::from_str(
                alloc,
                "Reaction: what follows a notice must be one do L SERVICE ..",
            ),
            SweepFault::Level(_) => String::from_str(
                alloc,
                "Level: do without a level, where do L SERVICE .. must stand, with L from 0 to 7",
            ),
            SweepFault::Doubled(_, first) => {
                format!(in alloc;
                    "Doubled: on for the notice of line {first}, where one line may name it"
                )
            }
            SweepFault::NoStep(_) => String::from_str(
                alloc,
                "NoStep: no directive of the block makes a step, where one or more must",
            ),
        }
    }

    /// The line that is printed.
    pub fn text(self, alloc: Global) -> Result<String, AllocError>
        ensures { IfOk result (λ text. string_bytes text ≡ spec.fault_text self) }
    {
        let line = self.line();
        let kind = self.kind_text(alloc)?;
        format!(in alloc; "sweep fault {line} {kind}\n")
    }
}
