ghost use Rattle.std.specs.Prelude.{◌≡◌, ℕ, List, Some, None};
ghost use Rattle.mcal_base.specs.declared.config.whole.Config.{Config};
ghost use Rattle.mcal_base.specs.declared.directive.Directive.{Directive};
ghost use Rattle.run_model.specs.Entry.{Entry};
ghost use Rattle.run_model.specs.Packing.{items_of};
ghost use Rattle.mcal_config.specs.Whole.{fault_of, record_of};
ghost use Rattle.mcal_drivers.specs.Setting.{system_setting};
ghost use Rattle.bench_top.specs.Runs.{shows_of};
ghost use Rattle.bench_top.specs.Statuses.{IsRunDone};
ghost use Rattle.bench_top.specs.declared.words.Task.TheVariants.{Run};
ghost use Rattle.bench_top.specs.declared.words.Printing.TheVariants.{Traced};
ghost use Rattle.bench_report.specs.Numbers.{Each, IsNumber};
ghost use Rattle.trace_promises.specs.traces.Lines.{HasLines};
ghost use Rattle.trace_promises.specs.traces.Numbers.{RowsFit};
ghost use Rattle.trace_promises.specs.Numbers.{BringsNumbers, ConfigFits, ItemBrings};
ghost use Rattle.trace_promises.specs.Viewed.{IsViewed};

use crate::traces::{few_steps, journal_fits};
use run_model::{Item, Journal, JournalLists};

/// What a trace asks of its run holds of the runs of all modules: the lines that they use and poll are those of a chip,
/// and what is shown has numbers of 32 bits, where the configuration was read and the items of the journal bring such
/// numbers.
pub fn fits_traces()
    ensures lines { (config : Config) → HasLines (system_setting config) }
    ensures rows { (devices : ℕ) (config : Config) (script : List Directive) (entries : List Entry) → ConfigFits config → Each BringsNumbers entries → Each RowsFit (shows_of devices config script entries) }
    ensures configuration { (text : List ℕ) (config : Config) → fault_of text ≡ None → record_of text ≡ Some config → ConfigFits config }
{}

/// The words of a journal.
fn words_fit(words: &[u32])
    ensures { Each IsNumber words.now }
{
    let mut rest = words;
    while let [word, behind @ ..] = rest {
        let _word = *word;
        rest = behind;
    }
}

/// The level that an item brings for an analog input.
fn level_fits(item: Item)
    ensures { ItemBrings item }
{}

/// The levels that the items of a journal bring for analog inputs.
fn levels_fit(lists: &JournalLists<'_>)
    ensures { Each ItemBrings (items_of lists.now.rests.now lists.now.items.now) }
{
    let mut rest = lists.items;
    while let [item, behind @ ..] = rest {
        level_fits(item.item(lists.rests));
        rest = behind;
    }
}

/// The items of a journal bring numbers of 32 bits to the machines.
#[tactic(auto, using(crate::proofs::JournalNumbers::items_bring))]
pub fn brings_numbers(journal: &Journal)
    ensures { Each BringsNumbers journal.now.entries }
{
    journal_fits(journal);
    let lists = journal.lists();
    words_fit(lists.words);
    levels_fit(&lists);
}

/// The trace of each bench file that `bench` runs to its end with `--trace` is read as what its lines tell, and drawn,
/// and its drawing shows each of its lines and each directive of the script; `view` writes that drawing, where the bench
/// file ends with a line feed and both, with the mark between them, are no longer than an input may be.
pub fn draws_printed_runs(journal: &Journal)
    ensures { (devices : ℕ) (file : List ℕ) → IsRunDone devices (Run Traced) file journal.now.entries → IsViewed devices file journal.now.entries }
{
    journal_fits(journal);
    brings_numbers(journal);
    few_steps(journal);
}
