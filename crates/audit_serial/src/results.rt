ghost use Rattle.std.specs.Prelude.{◌≡◌, IfOk, drop};
ghost use Rattle.spi_machine.specs.Pending.{all_get, with_results};

use crate::numbered::set_item;
use mcal_base::AnswerName;
use std::alloc::AllocError;

/// Jobs get one result.
pub(crate) fn all_get(
    results: &mut Vec<AnswerName>,
    jobs: &[u8],
    name: AnswerName,
) -> Result<(), AllocError>
    ensures { IfOk result (λ _. results.new.items ≡ all_get name jobs.now results.old.items) }
{
    for job in jobs {
        set_item(results, *job as usize, AnswerName::SpiJobOk, name)?;
    }
    Ok(())
}

/// Jobs from a place on get back what they had.
pub(crate) fn give_back(
    results: &mut Vec<AnswerName>,
    jobs: &[u8],
    had: &[AnswerName],
    from: u64,
) -> Result<(), AllocError>
    ensures { IfOk result (λ _. results.new.items ≡ with_results (drop from jobs.now) (drop from had.now) results.old.items) }
{
    let end = jobs.len().min(had.len());
    let first = from.min(end as u64);
    let mut place = first as usize;
    while place < end {
        set_item(
            results,
            jobs[place] as usize,
            AnswerName::SpiJobOk,
            had[place],
        )?;
        place += 1;
    }
    Ok(())
}
