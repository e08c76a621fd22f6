ghost use Rattle.std.specs.Prelude.{◌≡◌, [], ◌∷◌, ◌<◌, ◌+◌, ◌^◌, ◌++◌, length, vec_len, IfOk, OnOk};
ghost use Rattle.bench_sweep.specs.Flat as spec;

use crate::copies::copied;
use mcal_base::Directive;
use std::alloc::{AllocError, Global};

/// A script whose lines are numbered from 1, and the line of the file from which each came.
#[derive(Drop)]
pub struct Flat {
    /// The script.
    pub script: Vec<Directive>,
    /// The line of the file, for each directive.
    pub lines: Vec<u32>,
}

impl Flat {
    /// Puts a directive behind the others.
    fn push(&mut self, directive: &Directive) -> Result<(), AllocError>
        requires same { vec_len self.old.script ≡ vec_len self.old.lines }
        requires few { vec_len self.old.lines + 1 < 2 ^ 32 }
        ensures script { OnOk result (self.new.script.items ≡ self.old.script.items ++ spec.numbered_from (vec_len self.old.script + 1) (directive.now ∷ [])) }
        ensures lines { OnOk result (self.new.lines.items ≡ self.old.lines.items ++ spec.lines_of (directive.now ∷ [])) }
        ensures same { OnOk result (vec_len self.new.script ≡ vec_len self.new.lines) }
        ensures count { OnOk result (vec_len self.new.script ≡ vec_len self.old.script + 1) }
    {
        let alloc = *self.lines.allocator();
        self.lines.push(directive.line)?;
        self.script.push(Directive {
            line: self.lines.len() as u32,
            order: copied(alloc, &directive.order)?,
        })?;
        Ok(())
    }

    /// Puts directives behind the others.
    #[tactic(auto, using(crate::proofs::Numbered::numbered_more, crate::proofs::Numbered::lines_more))]
    fn add(&mut self, directives: &[Directive]) -> Result<(), AllocError>
        requires same { vec_len self.old.script ≡ vec_len self.old.lines }
        requires few { vec_len self.old.lines + length directives.now < 2 ^ 32 }
        ensures script { OnOk result (self.new.script.items ≡ self.old.script.items ++ spec.numbered_from (vec_len self.old.script + 1) directives.now) }
        ensures lines { OnOk result (self.new.lines.items ≡ self.old.lines.items ++ spec.lines_of directives.now) }
        ensures same { OnOk result (vec_len self.new.script ≡ vec_len self.new.lines) }
        ensures count { OnOk result (vec_len self.new.script ≡ vec_len self.old.script + length directives.now) }
    {
        for directive in directives {
            self.push(directive)?;
        }
        Ok(())
    }
}

/// The flat script of directives: the same ones, on lines of its own.
#[tactic(auto, using(crate::proofs::Numbered::numbered_rises))]
pub fn flatten(alloc: Global, directives: &[Directive]) -> Result<Flat, AllocError>
    requires few { length directives.now < 2 ^ 32 }
    ensures script { IfOk result (λ flat. flat.script.items ≡ spec.numbered_from 1 directives.now) }
    ensures rise { IfOk result (λ flat. spec.LinesRise 0 flat.script.items) }
    ensures lines { IfOk result (λ flat. flat.lines.items ≡ spec.lines_of directives.now) }
{
    let mut flat = Flat {
        script: Vec::new(alloc),
        lines: Vec::new(alloc),
    };
    flat.add(directives)?;
    Ok(flat)
}
