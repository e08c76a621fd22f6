ghost use Rattle.std.specs.Prelude.{◌≡◌, ◌<◌, ◌∷◌, [], List, IfOk};
ghost use Rattle.run_model.specs.World.{Sample, sample_at};
ghost use Rattle.audit_base.specs.Inputs.{Took, level_before};

use std::alloc::{AllocError, Global};

/// A value that an analog input took, and since when it has it, in peripheral ticks.
#[derive(Clone, Copy)]
pub struct Taken {
    /// Since when.
    pub since: u64,
    /// The value.
    pub value: u32,
}

/// What each analog input, of 32, took, the newest last.
#[derive(Drop)]
pub struct Samples {
    inputs: Vec<Vec<Taken>>,
}

impl Samples {
    /// No input took a value.
    pub fn new(alloc: Global) -> Result<Samples, AllocError>
        ensures { IfOk result (λ samples. Took samples []) }
    {
        let mut inputs = Vec::with_capacity(alloc, 32)?;
        for _input in 0..32_u32 {
            inputs.push(Vec::new(alloc))?;
        }
        Ok(Samples { inputs })
    }

    /// An input takes a value at a time.
    pub fn take(&mut self, input: u32, since: u64, value: u32) -> Result<(), AllocError>
        requires { input < 32 }
        ensures { (taken : List Sample) → Took self.old taken → IfOk result (λ _. Took self.new (record { input = input; since = since; value = value } ∷ taken)) }
    {
        let place = input as usize;
        if place >= self.inputs.len() {
            return Ok(());
        }
        self.inputs[place].push(Taken { since, value })?;
        Ok(())
    }

    /// What an input took last before a time, and 0 where it took nothing.
    pub fn at(&self, input: u32, time: u64) -> u32
        ensures { (taken : List Sample) → Took self.now taken → result ≡ sample_at taken input time }
    {
        let place = input as usize;
        if place < self.inputs.len() {
            last_before(&self.inputs[place], time)
        } else {
            0
        }
    }
}

/// The last of these values that was taken before a time, and 0 where there is none.
fn last_before(took: &[Taken], time: u64) -> u32
    ensures { result ≡ level_before took.now time }
{
    let mut place = took.len();
    while place > 0 {
        place -= 1;
        if took[place].since < time {
            return took[place].value;
        }
    }
    0
}
