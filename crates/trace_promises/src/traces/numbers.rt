//! The numbers that a journal and a script hold, by their types.

ghost use Rattle.std.specs.Prelude.{◌<◌, length};
ghost use Rattle.run_model.specs.Packing.{items_of};
ghost use Rattle.run_model.specs.Stops.{steps_in};
ghost use Rattle.bench_report.specs.Numbers.{Each, IsNumber, EntryFits};
ghost use Rattle.trace_promises.specs.traces.Numbers.{DirectiveFits, ItemFits, OrderFits};

use mcal_base::{Directive, Order};
use run_model::{Item, Journal, JournalLists, Kept};

/// The numbers of an item.
fn item_fits(item: Item)
    ensures { ItemFits item }
{}

/// The words of a journal.
fn words_fit(words: &[u32])
    ensures { Each IsNumber words.now }
{
    let mut rest = words;
    while let [word, behind @ ..] = rest {
        let _word = *word;
        rest = behind;
    }
}

/// The items of a journal.
fn items_fit(lists: &JournalLists<'_>)
    ensures { Each ItemFits (items_of lists.now.rests.now lists.now.items.now) }
{
    let mut rest = lists.items;
    while let [item, behind @ ..] = rest {
        item_fits(item.item(lists.rests));
        rest = behind;
    }
}

/// The number that an order has for the line of a handler.
fn order_fits(order: &Order)
    ensures { OrderFits order.now }
{
    match order {
        Order::Enter(line) | Order::Serve(line) => {
            let _line = *line;
        }
        _ => {}
    }
}

/// The numbers of a directive.
fn directive_fits(directive: &Directive)
    ensures { DirectiveFits directive.now }
{
    let _line = directive.line;
    order_fits(&directive.order);
}

/// The numbers of a script.
pub(crate) fn script_fits(script: &[Directive])
    ensures { Each DirectiveFits script.now }
{
    let mut rest = script;
    while let [directive, behind @ ..] = rest {
        directive_fits(directive);
        rest = behind;
    }
}

/// The numbers of a journal.
#[tactic(auto, using(crate::proofs::Journals::entries_fit))]
pub fn journal_fits(journal: &Journal)
    ensures { Each EntryFits journal.now.entries }
{
    let lists = journal.lists();
    words_fit(lists.words);
    items_fit(&lists);
}

/// Items are fewer than a drawing may count.
fn few_items(items: &[Kept])
    ensures { length items.now < 18446744073709551615 }
{}

/// A journal has fewer steps than a drawing may count.
#[tactic(auto, using(crate::proofs::Journals::few_steps))]
pub fn few_steps(journal: &Journal)
    ensures { steps_in journal.now.entries < 18446744073709551615 }
{
    few_items(journal.lists().items);
}
