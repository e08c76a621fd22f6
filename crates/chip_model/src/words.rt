ghost use Rattle.std.specs.Prelude.{◌≡◌, IfOk, length};
ghost use Rattle.chip_model.specs.Words.{zeros};

use mcal_base::NoMemory;
use std::alloc::{AllocError, Global};

/// How many words are copied at once.
const BLOCK: usize = 4_096;

/// So many driver words, all 0.
pub fn made(alloc: Global, count: usize) -> Result<Vec<u32>, NoMemory>
    ensures { IfOk result (λ words. words.items ≡ zeros count) }
{
    match copied(alloc, count) {
        Ok(words) => Ok(words),
        Err(_) => Err(NoMemory),
    }
}

/// The same. They are copies of a block: to write one word after another would be most of a short run's time.
fn copied(alloc: Global, count: usize) -> Result<Vec<u32>, AllocError>
    ensures { IfOk result (λ words. words.items ≡ zeros count) }
{
    let block = vec![in alloc; 0u32; BLOCK]?;
    let mut words = Vec::with_capacity(alloc, count)?;
    while words.len() < count {
        let more = BLOCK.min(count - words.len());
        words.extend_from_slice(&block[..more])?;
    }
    Ok(words)
}

/// Makes all of them 0.
#[tactic(auto, unfolding(crate::specs::Words::zeros))]
pub fn clear(words: &mut [u32])
    ensures { words.new ≡ zeros (length words.old) }
{
    words.fill(0);
}
