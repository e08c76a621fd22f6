ghost use Rattle.std.specs.Prelude.{◌≡◌, ◌<◌, ◌≤◌, ◌+◌, ◌*◌, ◌^◌, ◌++◌, length, nat_le, take, true};
ghost use Rattle.adc_machine.specs.Groups as spec;
ghost use Rattle.adc_machine.specs.Groups.{finish_of, inputs_left, levels_from};
ghost use Rattle.adc_machine.specs.Table.{group_of};
ghost use Rattle.adc_machine.specs.Turns as turns;
ghost use Rattle.run_model.specs.World.{World};
ghost use Rattle.audit_base.specs.Inputs.{Took};
ghost use Rattle.audit_converters.specs.Listed.{listed};
ghost use Rattle.audit_converters.specs.Stands.{round_as};

use crate::group::Round;
use crate::options::suspends;
use crate::values::{NO_VALUES, Values};
use adc_machine::AdcTable;
use audit_base::Samples;

/// How many inputs a round still had to convert when it was started or resumed.
fn left(table: &AdcTable, round: Round) -> u32
    ensures is { result ≡ length (inputs_left (group_of table.now round.group) (round_as round)) }
    ensures few { result ≤ 32 }
{
    match table.group(round.group) {
        Some(found) => {
            let inputs = found.inputs.len();
            let kept = round.request.kept.len();
            (inputs as u32).saturating_sub(kept)
        }
        None => 0,
    }
}

/// Whether so many ticks have passed since a time.
fn has_passed(start: u64, ticks: u64, now: u64) -> bool
    ensures { result ≡ nat_le (start + ticks) now }
{
    start <= now && ticks <= now - start
}

/// Whether a round is finished: 4 ticks for each of these inputs have passed since its start.
pub(crate) fn is_finished(table: &AdcTable, round: Round, now: u64) -> bool
    ensures { result ≡ nat_le (finish_of (group_of table.now round.group) (round_as round)) now }
{
    let rest = left(table, round);
    has_passed(round.start, 4 * rest as u64, now)
}

/// The values of a round with those of so many of the inputs that it still had to convert.
fn values_with(table: &AdcTable, samples: &Samples, round: Round, ended: u32) -> Values
    requires few { ended ≤ length (inputs_left (group_of table.now round.group) (round_as round)) }
    requires time { round.start + 4 * ended < 2 ^ 64 }
    ensures { (w : World) → Took samples.now w.samples → listed result ≡ listed round.request.kept ++ levels_from w.samples round.start (take ended (inputs_left (group_of table.now round.group) (round_as round))) }
{
    let kept = round.request.kept;
    match table.group(round.group) {
        Some(found) => {
            let had = kept.len();
            let from = had as usize;
            let inputs = found.inputs.as_slice();
            let count = inputs.len();
            if from < count {
                kept.with_levels(samples, &inputs[from..from + ended as usize], round.start)
            } else {
                kept
            }
        }
        None => kept,
    }
}

/// The values of a whole round, which is finished.
pub(crate) fn values_of(table: &AdcTable, samples: &Samples, round: Round, now: u64) -> Values
    requires { nat_le (finish_of (group_of table.now round.group) (round_as round)) now ≡ true }
    ensures { (w : World) → Took samples.now w.samples → listed result ≡ spec.values_of w (group_of table.now round.group) (round_as round) }
{
    let rest = left(table, round);
    values_with(table, samples, round, rest)
}

/// The values of a round's inputs that have ended: those that were kept, and one more for each 4 ticks.
fn ended_values(table: &AdcTable, samples: &Samples, round: Round, now: u64) -> Values
    ensures { (w : World) → w.now ≡ now → Took samples.now w.samples → listed result ≡ spec.ended_values w (group_of table.now round.group) (round_as round) }
{
    let passed = now.saturating_sub(round.start);
    let rest = left(table, round);
    let ended = (passed / 4).min(rest as u64);
    values_with(table, samples, round, ended as u32)
}

/// What an aborted round keeps: the values of the inputs that have ended, where its group is suspended.
pub(crate) fn kept_values(table: &AdcTable, samples: &Samples, round: Round, now: u64) -> Values
    ensures { (w : World) → w.now ≡ now → Took samples.now w.samples → listed result ≡ turns.kept_of w (group_of table.now round.group) (round_as round) }
{
    if suspends(table, round.group) {
        ended_values(table, samples, round, now)
    } else {
        NO_VALUES
    }
}
