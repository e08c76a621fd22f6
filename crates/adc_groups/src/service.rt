//! What each window decides by what it has seen.

pub mod ask;
pub mod listed;
pub mod module;
pub mod read;
pub mod request;
pub mod serve;
pub mod stop;
pub mod turn;

ghost use Rattle.std.specs.Prelude.{◌≡◌};
ghost use Rattle.adc_groups.specs.laws.services.Decisions as spec;

use crate::body::{Decided, Place};
use crate::making::WriteBatch;
use crate::window::Window;
use adc_machine::AdcTable;
use mcal_base::Event;
use serve::RoundSeen;
use service_outline::{Done, Epilogue, Reply, ends, nothing};
use stop::StopSeen;

/// A word that a window has seen, 0 where it hasn't.
fn word(seen: &[u32], at: usize) -> u32
    ensures { result ≡ spec.word_seen seen.now at }
{
    match seen.get(at) {
        Some(word) => *word,
        None => 0,
    }
}

/// What a window decides by all words that it looks at.
pub fn decided(table: &AdcTable, window: Window, seen: &[u32]) -> Decided
    ensures { result ≡ spec.decided table.now window seen.now }
{
    match window {
        Window::Setup(group, buffer) => ask::set_up(table, group, buffer, word(seen, 0)),
        Window::Status(_) => ask::status(word(seen, 0)),
        Window::Point(group) => {
            ask::point(table, group, word(seen, 0), word(seen, 1), word(seen, 2))
        }
        Window::Read(group) => read::read(table, group, word(seen, 0)),
        Window::Start(_) | Window::Enable(_) => {
            request::looked(table, window, word(seen, 0), word(seen, 1))
        }
        Window::Stop(unit, group) => stop::stop(table, unit, group, stop_seen(seen)),
        Window::Yield(unit) => turn::yields(table, unit, word(seen, 0), word(seen, 1)),
        Window::Suspend(unit, group) => turn::aborts(unit, group, word(seen, 0)),
        Window::Keep(round) => turn::keep(round, word(seen, 0)),
        Window::Begin(unit) => turn::begins(table, unit, word(seen, 0), word(seen, 1)),
        Window::Convert(unit, group, claimed) => {
            turn::convert(table, unit, group, claimed, word(seen, 0))
        }
        Window::Take(unit) => serve::take(table, unit, word(seen, 0)),
        Window::Claim(taken) => serve::claim(table, taken, word(seen, 0)),
        Window::Serve(taken) => serve::serve(table, taken, round_seen(seen)),
        Window::Trigger(input, group) => request::pulse(table, input, group, word(seen, 0)),
        Window::Close | Window::Leave(_) => over(),
    }
}

/// What a stop has seen.
fn stop_seen(seen: &[u32]) -> StopSeen
    ensures { result ≡ spec.stop_seen seen.now }
{
    StopSeen {
        phase: word(seen, 0),
        turn: word(seen, 1),
        running: word(seen, 2),
        claim: word(seen, 3),
    }
}

/// What the serving of a round has seen.
fn round_seen(seen: &[u32]) -> RoundSeen
    ensures { result ≡ spec.round_seen seen.now }
{
    RoundSeen {
        running: word(seen, 0),
        phase: word(seen, 1),
        count: word(seen, 2),
        place: word(seen, 3),
        chosen: word(seen, 4),
        notified: word(seen, 5),
    }
}

/// Where a frame goes on that closes the mask for a window, which isn't one of those that calls begin with.
pub fn entered(window: Window) -> Place
    ensures { result ≡ spec.entered window }
{
    if is_clean(window) {
        Place::Quits(0)
    } else {
        looking(window)
    }
}

/// Whether a call begins with the window, and has only loaded words so far.
fn is_clean(window: Window) -> bool
    ensures { result ≡ spec.clean_in window }
{
    matches!(
        window,
        Window::Close
            | Window::Setup(..)
            | Window::Status(_)
            | Window::Point(_)
            | Window::Read(_)
            | Window::Start(_)
            | Window::Enable(_)
            | Window::Stop(..)
    )
}

/// What a window decides by a register that tells whether the line is ready.
pub fn flagged(window: Window, value: u32) -> Decided
    ensures { result ≡ spec.flagged window value }
{
    if is_ready(window, value) {
        Decided::Goes(entered(window))
    } else {
        over()
    }
}

fn is_ready(window: Window, value: u32) -> bool
    ensures { result ≡ spec.is_ready window value }
{
    match window {
        Window::Trigger(input, _) => crate::words::has(value, input),
        _ => value == 2,
    }
}

/// A window that begins to look at its words.
pub fn looking(window: Window) -> Place
    ensures { result ≡ spec.looking window }
{
    Place::Looks(window, crate::body::Snapshot::new())
}

/// A frame that is done, and answers nothing.
pub fn over() -> Decided
    ensures { result ≡ spec.over }
{
    Decided::Ends(ends(None, nothing(), Epilogue::Nothing))
}

/// A call that acts with this answer, and is done.
pub fn acts_and_ends(answer: Reply, owed: Epilogue) -> Decided
    ensures { result ≡ spec.acts_and_ends answer owed }
{
    Decided::Ends(ends(Some(Event::Act), answer, owed))
}

/// It makes its moves.
pub fn makes(making: WriteBatch) -> Decided
    ensures { result ≡ spec.makes making }
{
    Decided::Goes(Place::Makes(making))
}

/// It is done with an answer.
pub fn done(answer: Reply) -> Done
    ensures { result ≡ spec.done answer }
{
    Done {
        answer,
        owed: Epilogue::Nothing,
    }
}
