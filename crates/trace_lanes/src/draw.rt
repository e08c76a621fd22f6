ghost use Rattle.std.specs.Prelude.{◌≡◌, OnOk};
ghost use Rattle.trace_lanes.specs.Board.{put_all as all_put};
ghost use Rattle.trace_lanes.specs.PageState.{row_of, setting_of};
ghost use Rattle.trace_lanes.specs.Drawn as spec;

use crate::board::{Board, Mark, NO_LIMIT, Shape};
use crate::caption::Caption;
use crate::page_state::{Level, PageState, Wait, row_of, setting_of};
use crate::rows::Row;
use bench_report::Purpose;
use std::alloc::{AllocError, Global};
use trace_forms::kinds::{Asked, Ending, Frame, Sign, What};

/// The last step for which a page has room.
pub(crate) const MOST_STEPS: usize = 20_000;

/// Whether a sign has a shape of its own.
fn is_shape(what: What) -> bool
    ensures { result ≡ spec.is_shape what }
{
    match what {
        What::Begins(_) => false,
        _ => true,
    }
}

/// The step where the shape of a sign begins.
fn first_step(step: usize, what: What) -> usize
    ensures { result ≡ spec.first_step step what }
{
    match what {
        What::Gone(frame, _) => frame.from,
        What::Window(first) => first,
        _ => step,
    }
}

/// Whether a sign is drawn.
#[tactic(auto, unfolding(crate::specs::Drawn::is_drawn))]
pub(crate) fn is_drawn(sign: &Sign) -> bool
    ensures { result ≡ spec.is_drawn sign.now }
{
    is_shape(sign.what) && first_step(sign.step, sign.what) <= MOST_STEPS
}

/// Whether the shape of a sign is left out.
#[tactic(auto, unfolding(crate::specs::Drawn::is_left_out))]
pub(crate) fn is_left_out(sign: &Sign) -> bool
    ensures { result ≡ spec.is_left_out sign.now }
{
    is_shape(sign.what) && first_step(sign.step, sign.what) > MOST_STEPS
}

/// The symbol of a sign, in a row, where its step is.
fn symbol(page_state: &PageState, sign: &Sign, row: Row) -> Shape
    ensures { result ≡ spec.symbol page_state.now sign.now row }
{
    Shape {
        mark: Mark::Symbol(sign.what),
        row,
        x: page_state
            .x
            .saturating_add(page_state.breadth(sign.what) / 2),
        width: 0,
        sign: *sign,
    }
}

/// A shape that a value leaves where it ends.
fn wave(level: Level, end: usize) -> Shape
    ensures { result ≡ spec.wave level end }
{
    Shape {
        mark: Mark::Wave(level.value > 0),
        row: level.row,
        x: level.x,
        width: end.saturating_sub(level.x),
        sign: level.sign,
    }
}

/// Puts a value that ends at a place.
#[tactic(auto, unfolding(crate::specs::Drawn::ended))]
fn put_level(board: &mut Board, alloc: Global, level: Level, end: usize) -> Result<(), AllocError>
    ensures { OnOk result (board.new ≡ all_put board.old (spec.ended level end)) }
{
    board.draw(alloc, wave(level, end))?;
    board.say(
        alloc,
        level.row,
        level.x.saturating_add(3),
        end,
        Caption::Value(level.value),
    )
}

/// Puts the value that another one ends.
#[tactic(auto, unfolding(crate::specs::Drawn::overtaken))]
fn put_setting(
    board: &mut Board,
    alloc: Global,
    page_state: &PageState,
    what: What,
) -> Result<(), AllocError>
    ensures { OnOk result (board.new ≡ all_put board.old (spec.overtaken page_state.now (setting_of what))) }
{
    let Some(setting) = setting_of(what) else {
        return Ok(());
    };
    match page_state.level(setting.row) {
        Some(level) if level.value != setting.value => put_level(board, alloc, level, page_state.x),
        _ => Ok(()),
    }
}

/// Puts a directive.
#[tactic(auto, unfolding(crate::specs::Drawn::turn))]
fn put_turn(
    board: &mut Board,
    alloc: Global,
    page_state: &PageState,
    sign: &Sign,
    asked: Asked,
) -> Result<(), AllocError>
    ensures { OnOk result (board.new ≡ all_put board.old (spec.turn page_state.now sign.now asked)) }
{
    board.draw(alloc, symbol(page_state, sign, Row::Script(0)))?;
    board.say_script(
        alloc,
        page_state.x.saturating_add(2),
        Caption::Turn(sign.number, asked),
    )
}

/// Puts ticks.
#[tactic(auto, unfolding(crate::specs::Drawn::gap))]
fn put_gap(
    board: &mut Board,
    alloc: Global,
    page_state: &PageState,
    sign: &Sign,
    all: u64,
) -> Result<(), AllocError>
    ensures { OnOk result (board.new ≡ all_put board.old (spec.gap page_state.now sign.now all)) }
{
    let gap = Shape {
        mark: Mark::Gap,
        row: Row::Ticks,
        x: page_state.x.saturating_add(1),
        width: 52,
        sign: *sign,
    };
    board.draw(alloc, gap)?;
    board.say(
        alloc,
        Row::Ticks,
        page_state.x.saturating_add(3),
        NO_LIMIT,
        Caption::Time(all),
    )
}

/// Puts that a frame waited.
#[tactic(auto, unfolding(crate::specs::Drawn::waited_since))]
fn put_wait(
    board: &mut Board,
    alloc: Global,
    page_state: &PageState,
    sign: &Sign,
    row: Row,
    wait: Wait,
) -> Result<(), AllocError>
    ensures { OnOk result (board.new ≡ all_put board.old (spec.waited_since page_state.now sign.now row wait)) }
{
    let line = Shape {
        mark: Mark::Wait,
        row,
        x: wait.x,
        width: page_state.x.saturating_sub(wait.x),
        sign: *sign,
    };
    board.draw(alloc, line)?;
    let steps = sign.step.saturating_sub(wait.step);
    let ticks = page_state.ticks.saturating_sub(wait.ticks);
    board.say(
        alloc,
        row,
        wait.x.saturating_add(3),
        page_state.x,
        Caption::Waits(steps, ticks),
    )
}

/// Puts that a frame waited, if it did, where it begins.
#[tactic(auto, unfolding(crate::specs::Drawn::waited))]
fn put_begin(
    board: &mut Board,
    alloc: Global,
    page_state: &PageState,
    sign: &Sign,
    frame: Frame,
) -> Result<(), AllocError>
    ensures { OnOk result (board.new ≡ all_put board.old (spec.waited_in page_state.now sign.now (row_of frame.purpose frame.level))) }
{
    let row = row_of(frame.purpose, frame.level);
    match page_state.wait(row) {
        Some(wait) => put_wait(board, alloc, page_state, sign, row, wait),
        None => Ok(()),
    }
}

/// The label of a frame's bar: what it was begun for, and its answer.
fn long_label(purpose: Purpose, ending: Ending) -> Caption
    ensures { result ≡ spec.long_label purpose ending }
{
    match ending {
        Ending::Returned(reply) => Caption::Answer(purpose, reply),
        _ => Caption::Frame(purpose),
    }
}

/// Puts the bar of a frame that is gone.
#[tactic(auto, unfolding(crate::specs::Drawn::gone))]
fn put_gone(
    board: &mut Board,
    alloc: Global,
    page_state: &PageState,
    sign: &Sign,
    frame: Frame,
    ending: Ending,
) -> Result<(), AllocError>
    ensures { OnOk result (board.new ≡ all_put board.old (spec.gone page_state.now sign.now frame ending)) }
{
    let place = page_state.frame(frame.depth);
    let bar = Shape {
        mark: Mark::Bar(frame.purpose, ending),
        row: row_of(frame.purpose, frame.level),
        x: place.x,
        width: page_state.x.saturating_sub(place.x).max(2),
        sign: *sign,
    };
    board.draw(alloc, bar)?;
    board.say_either(
        alloc,
        row_of(frame.purpose, frame.level),
        place.x.saturating_add(3),
        page_state.x,
        long_label(frame.purpose, ending),
        Caption::Frame(frame.purpose),
    )
}

/// Puts the steps with the mask closed that end here.
#[tactic(auto, unfolding(crate::specs::Drawn::window))]
fn put_window(
    board: &mut Board,
    alloc: Global,
    page_state: &PageState,
    sign: &Sign,
) -> Result<(), AllocError>
    ensures { OnOk result (board.new ≡ all_put board.old (spec.window page_state.now sign.now page_state.now.shut)) }
{
    let Some(place) = page_state.shut else {
        return board.draw(alloc, symbol(page_state, sign, Row::Held));
    };
    let bar = Shape {
        mark: Mark::Mask,
        row: place.row,
        x: place.x,
        width: page_state.x.saturating_sub(place.x).max(1),
        sign: *sign,
    };
    board.draw(alloc, bar)
}

/// Puts a symbol with what it says above it.
#[tactic(auto, unfolding(crate::specs::Drawn::flag))]
fn put_flag(
    board: &mut Board,
    alloc: Global,
    page_state: &PageState,
    sign: &Sign,
    row: Row,
) -> Result<(), AllocError>
    ensures { OnOk result (board.new ≡ all_put board.old (spec.flag page_state.now sign.now row)) }
{
    board.draw(alloc, symbol(page_state, sign, row))?;
    board.say(alloc, row, page_state.x, NO_LIMIT, Caption::Says(sign.what))
}

/// Puts what a sign stands for.
#[tactic(auto, unfolding(crate::specs::Drawn::shown))]
fn put_what(
    board: &mut Board,
    alloc: Global,
    page_state: &PageState,
    sign: &Sign,
) -> Result<(), AllocError>
    ensures { OnOk result (board.new ≡ all_put board.old (spec.shown page_state.now sign.now sign.now.what)) }
{
    match sign.what {
        What::Turn(asked) => put_turn(board, alloc, page_state, sign, asked),
        What::Ticked(_, all) | What::Waited(_, all) => put_gap(board, alloc, page_state, sign, all),
        What::Begins(frame) => put_begin(board, alloc, page_state, sign, frame),
        What::Stepped(_, _) => board.draw(
            alloc,
            symbol(page_state, sign, page_state.frame(sign.depth).row),
        ),
        What::Held(_) => put_flag(board, alloc, page_state, sign, Row::Held),
        What::Noted(_) => put_flag(board, alloc, page_state, sign, Row::Notices),
        What::Erred(_) | What::Reset(_, _) => put_flag(board, alloc, page_state, sign, Row::Errors),
        What::Gone(frame, ending) => put_gone(board, alloc, page_state, sign, frame, ending),
        What::Window(_) => put_window(board, alloc, page_state, sign),
        What::Shown | What::Done => board.draw(alloc, symbol(page_state, sign, Row::Script(0))),
    }
}

/// Puts a sign.
#[tactic(auto, using(crate::proofs::Steps::put_all_append), unfolding(crate::specs::Drawn::drawn_by))]
fn put_sign(
    board: &mut Board,
    alloc: Global,
    page_state: &PageState,
    sign: &Sign,
) -> Result<(), AllocError>
    ensures { OnOk result (board.new ≡ all_put board.old (spec.drawn_by page_state.now sign.now)) }
{
    put_setting(board, alloc, page_state, sign.what)?;
    put_what(board, alloc, page_state, sign)
}

/// Puts a sign, if the page has room for it, and goes on behind it.
#[tactic(auto, unfolding(crate::specs::Drawn::strokes_of, crate::specs::Drawn::next))]
fn put_next(
    board: &mut Board,
    alloc: Global,
    page_state: &mut PageState,
    sign: &Sign,
) -> Result<(), AllocError>
    ensures board { OnOk result (board.new ≡ all_put board.old (spec.strokes_of page_state.old sign.now)) }
    ensures page_state { OnOk result (page_state.new ≡ spec.next page_state.old sign.now) }
{
    if is_left_out(sign) {
        return Ok(());
    }
    put_sign(board, alloc, page_state, sign)?;
    page_state.advance(sign);
    Ok(())
}

/// Puts signs one after another.
pub(crate) fn put_signs(
    board: &mut Board,
    alloc: Global,
    page_state: &mut PageState,
    signs: &[Sign],
) -> Result<(), AllocError>
    ensures board { OnOk result (board.new ≡ all_put board.old (spec.strokes page_state.old signs.now)) }
    ensures page_state { OnOk result (page_state.new ≡ spec.behind_all page_state.old signs.now) }
{
    let mut rest = signs;
    while let [sign, later @ ..] = rest {
        put_next(board, alloc, page_state, sign)?;
        rest = later;
    }
    Ok(())
}

/// Puts a value that stands at the end, if it changed.
#[tactic(auto, unfolding(crate::specs::Drawn::last))]
fn put_last(
    board: &mut Board,
    alloc: Global,
    level: Option<Level>,
    end: usize,
) -> Result<(), AllocError>
    ensures { OnOk result (board.new ≡ all_put board.old (spec.last end level)) }
{
    match level {
        Some(level) if level.changed => put_level(board, alloc, level, end),
        _ => Ok(()),
    }
}

/// Puts the values that stand at the end.
pub(crate) fn put_lasts(
    board: &mut Board,
    alloc: Global,
    levels: &[Option<Level>],
    end: usize,
) -> Result<(), AllocError>
    ensures { OnOk result (board.new ≡ all_put board.old (spec.lasts end levels.now)) }
{
    for level in levels {
        put_last(board, alloc, *level, end)?;
    }
    Ok(())
}
