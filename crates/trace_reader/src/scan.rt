ghost use Rattle.std.specs.Prelude.{◌≡◌, ◌++◌, ℕ, IfSome, MatchBool, Some, [], ◌∷◌, codes, decimal};
ghost use Rattle.bench_report.specs.Lines.{incoming_text};
ghost use Rattle.bench_report.specs.Numbers.{IsNumber};
ghost use Rattle.trace_reader.specs.Reading.{read_line};
ghost use Rattle.trace_reader.specs.Scan as spec;

use crate::front::{behind, first_number, first_register};
use crate::line::told_step;
use crate::told::TraceLine;
use mcal_base::{Event, Move, Reg, Unit};

/// A register and a value, and what is behind them.
fn access(text: &[u8]) -> Option<(Reg, u32, &[u8])>
    ensures { IfSome result (λ p. spec.IsAccess text.now p.0 p.1 p.2.now) }
{
    let (register, rest) = first_register(text)?;
    let rest = behind(rest, " ")?;
    let (value, rest) = first_number(rest)?;
    Some((register, value, rest))
}

/// A driver word and a value, and what is behind them.
fn word(text: &[u8]) -> Option<(u32, u32, &[u8])>
    ensures { IfSome result (λ p. spec.IsWord text.now p.0 p.1 p.2.now) }
{
    let (word, rest) = first_number(text)?;
    let rest = behind(rest, " ")?;
    let (value, rest) = first_number(rest)?;
    Some((word, value, rest))
}

/// What stands behind the `l` of a load: the move, the value that it gave, and what is behind them.
fn load(text: &[u8]) -> Option<(Move, u32, &[u8])>
    ensures { IfSome result (λ p. spec.IsMove (codes "l" ++ text.now) p.0 p.1 p.2.now) }
{
    let rest = behind(text, "oad w")?;
    let (place, value, rest) = word(rest)?;
    Some((Move::Load(place), value, rest))
}

/// What stands behind the `s` of a store.
fn store(text: &[u8]) -> Option<(Move, u32, &[u8])>
    ensures { IfSome result (λ p. spec.IsMove (codes "s" ++ text.now) p.0 p.1 p.2.now) }
{
    let rest = behind(text, "tore w")?;
    let (place, value, rest) = word(rest)?;
    Some((Move::Store(place, value), 0, rest))
}

/// What stands behind the `r` of a read.
fn read(text: &[u8]) -> Option<(Move, u32, &[u8])>
    ensures { IfSome result (λ p. spec.IsMove (codes "r" ++ text.now) p.0 p.1 p.2.now) }
{
    let rest = behind(text, "ead ")?;
    let (register, value, rest) = access(rest)?;
    Some((Move::Read(register), value, rest))
}

/// What stands behind the `w` of a write.
fn write(text: &[u8]) -> Option<(Move, u32, &[u8])>
    ensures { IfSome result (λ p. spec.IsMove (codes "w" ++ text.now) p.0 p.1 p.2.now) }
{
    let rest = behind(text, "rite ")?;
    let (register, value, rest) = access(rest)?;
    Some((Move::Write(register, value), 0, rest))
}

/// What stands behind the `m` of closing the mask.
fn mask(text: &[u8]) -> Option<(Move, u32, &[u8])>
    ensures { IfSome result (λ p. spec.IsMove (codes "m" ++ text.now) p.0 p.1 p.2.now) }
{
    let rest = behind(text, "ask")?;
    Some((Move::Mask, 0, rest))
}

/// What stands behind the `u` of opening the mask.
fn unmask(text: &[u8]) -> Option<(Move, u32, &[u8])>
    ensures { IfSome result (λ p. spec.IsMove (codes "u" ++ text.now) p.0 p.1 p.2.now) }
{
    let rest = behind(text, "nmask")?;
    Some((Move::Unmask, 0, rest))
}

/// The move that a letter and what is behind it begin with, the value that it gave, and what is behind them.
fn move_behind(letter: u8, text: &[u8]) -> Option<(Move, u32, &[u8])>
    ensures { IfSome result (λ p. spec.IsMove (letter ∷ text.now) p.0 p.1 p.2.now) }
{
    match letter {
        b'l' => load(text),
        b's' => store(text),
        b'r' => read(text),
        b'w' => write(text),
        b'm' => mask(text),
        b'u' => unmask(text),
        _ => None,
    }
}

/// The move with which a text begins and the value that it gave, and what is behind them.
fn first_move(text: &[u8]) -> Option<(Move, u32, &[u8])>
    ensures { IfSome result (λ p. spec.IsMove text.now p.0 p.1 p.2.now) }
{
    match text {
        [] => None,
        [letter, rest @ ..] => move_behind(*letter, rest),
    }
}

/// An act with which a text begins, and what is behind it.
fn act(text: &[u8]) -> Option<(Event, &[u8])>
    ensures { IfSome result (λ p. spec.IsMarked text.now (Some p.0) p.1.now) }
{
    let rest = behind(text, " act")?;
    Some((Event::Act, rest))
}

/// A line that is served.
fn serve(text: &[u8]) -> Option<(Event, &[u8])>
    ensures { IfSome result (λ p. spec.IsMarked text.now (Some p.0) p.1.now) }
{
    let rest = behind(text, " serve ")?;
    let (line, rest) = first_number(rest)?;
    Some((Event::Serve(line), rest))
}

/// The start of a unit.
fn start(text: &[u8]) -> Option<(Event, &[u8])>
    ensures { IfSome result (λ p. spec.IsMarked text.now (Some p.0) p.1.now) }
{
    let rest = behind(text, " start")?;
    Some((Event::Start(Unit::Adc0), rest))
}

/// The abort of a unit.
fn abort(text: &[u8]) -> Option<(Event, &[u8])>
    ensures { IfSome result (λ p. spec.IsMarked text.now (Some p.0) p.1.now) }
{
    let rest = behind(text, " abort")?;
    Some((Event::Abort(Unit::Adc0), rest))
}

/// The event with which a text begins, and what is behind it.
fn marked(text: &[u8]) -> Option<(Event, &[u8])>
    ensures { IfSome result (λ p. spec.IsMarked text.now (Some p.0) p.1.now) }
{
    if text.is_empty() {
        return None;
    }
    act(text).or(serve(text)).or(start(text)).or(abort(text))
}

/// The event with which a text begins, where it does with one, and what is behind it.
fn first_event(text: &[u8]) -> (Option<Event>, &[u8])
    ensures { spec.IsMarked text.now result.0 result.1.now }
{
    match marked(text) {
        Some((event, rest)) => (Some(event), rest),
        None => (None, text),
    }
}

/// Whether a word comes in with a move.
fn takes_word(made: Move) -> bool
    ensures { MatchBool result ((n : ℕ) → incoming_text made n ≡ codes " got " ++ decimal n) ((n : ℕ) → incoming_text made n ≡ []) }
{
    match made {
        Move::Write(Reg::SerialData(_), _) => true,
        _ => false,
    }
}

/// A word that came in, which is all of a text.
fn word_in(text: &[u8]) -> Option<u32>
    ensures text { IfSome result (λ received. text.now ≡ codes " got " ++ decimal received) }
    ensures fits { IfSome result (λ received. IsNumber received) }
{
    let rest = behind(text, " got ")?;
    let (received, rest) = first_number(rest)?;
    if rest.is_empty() {
        Some(received)
    } else {
        None
    }
}

/// The word that came in with a move, which is all that is left of a line.
fn last_word(made: Move, text: &[u8]) -> Option<u32>
    ensures text { IfSome result (λ received. text.now ≡ incoming_text made received) }
    ensures fits { IfSome result (λ received. IsNumber received) }
{
    if takes_word(made) {
        return word_in(text);
    }
    if text.is_empty() {
        return Some(0);
    }
    None
}

/// What the line of a step tells, behind its number, where the text is surely one.
fn step(number: u32, text: &[u8]) -> Option<TraceLine>
    ensures { IfSome result (λ line. read_line (decimal number ++ (codes " step " ++ text.now)) ≡ Some line) }
{
    let (depth, rest) = first_number(text)?;
    let rest = behind(rest, " ")?;
    let (made, value, rest) = first_move(rest)?;
    let (event, rest) = first_event(rest);
    let received = last_word(made, rest)?;
    let told = told_step(depth, made, value, received, event);
    Some(TraceLine { number, told })
}

/// What the line of a step tells, where the text is surely one: of an access or of the mask.
pub(crate) fn step_line(text: &[u8]) -> Option<TraceLine>
    ensures { IfSome result (λ line. read_line text.now ≡ Some line) }
{
    let (number, rest) = first_number(text)?;
    let rest = behind(rest, " step ")?;
    step(number, rest)
}
