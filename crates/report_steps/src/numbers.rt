//! The numbers of what is read and kept have 32 bits, by their types.

ghost use Rattle.bench_report.specs.Numbers.{Each, HasEventNumber, HasMoveNumbers, IsNumber};
ghost use Rattle.mcal_base.specs.Reach.{CanApply};

use mcal_base::{Event, Move, Notice};
use trace_reader::Step;

/// One number.
fn number_fits(number: u32)
    ensures { IsNumber number }
{
    let _number = number;
}

/// The number of a notice.
pub(crate) fn notice_fits(notice: Notice)
    ensures { IsNumber notice.id }
{
    number_fits(notice.id)
}

/// The numbers of a move that names what is there.
pub(crate) fn move_fits(made: Move)
    requires there { CanApply made }
    ensures { HasMoveNumbers made }
{
    match made {
        Move::Write(_, written) => number_fits(written),
        Move::Store(_, stored) => number_fits(stored),
        Move::Note(notice) => notice_fits(notice),
        Move::Read(_) => {}
        Move::Load(_) => {}
        Move::Mask => {}
        Move::Unmask => {}
        Move::Report(_) => {}
    }
}

/// The number of an event.
pub(crate) fn event_fits(event: Option<Event>)
    ensures { HasEventNumber event }
{
    match event {
        Some(Event::Serve(line)) => number_fits(line),
        Some(Event::Act) => {}
        Some(Event::Start(_)) => {}
        Some(Event::Abort(_)) => {}
        None => {}
    }
}

/// What the line of a step reads.
pub(crate) fn values_fit(read: &Step)
    ensures value { IsNumber read.now.value }
    ensures received { IsNumber read.now.received }
{
    let (_value, _received) = (read.value, read.received);
}

/// The words of an answer.
pub(crate) fn words_fit(words: &[u32])
    ensures { Each IsNumber words.now }
{
    let mut rest = words;
    while let [word, behind @ ..] = rest {
        let _word = *word;
        rest = behind;
    }
}
