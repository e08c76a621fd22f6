ghost use Rattle.std.specs.Prelude.{◌≡◌, ◌+◌, ◌++◌, ◌<◌, ◌≤◌, IfOk, OnOk, count_by, length, string_bytes};
ghost use Rattle.trace_lanes.specs.Board.{put_all as all_put};
ghost use Rattle.trace_lanes.specs.Drawn as drawn;
ghost use Rattle.trace_lanes.specs.Marks.{point_text, title};
ghost use Rattle.trace_lanes.specs.Page as spec;
ghost use Rattle.trace_lanes.specs.Rows.{slot, top as row_top};

use crate::board::{Board, Label, Mark, NO_LIMIT, Shape};
use crate::caption::Caption;
use crate::draw::{is_drawn, is_left_out, put_lasts, put_signs};
use crate::input_name::InputName;
use crate::marks::{
    Point, Rectangle, Title, Words, class, drop_of, height_of, layer, second_class, symbol,
    symbol_drop,
};
use crate::page_state::PageState;
use crate::rows::{Row, top};
use std::alloc::{AllocError, Global};
use trace_forms::kinds::Sign;

/// What is set for the whole page, and its symbols.
const STYLE: &str = "\
<style>text{font:9.9px monospace;fill:#222}.page{fill:#fff}.lane{fill:#f3f4f7}
.call{fill:#a9c8ea;stroke:#4a7ab0}.handler{fill:#f3c98b;stroke:#b07a2a}
.dropped{stroke:#c00;stroke-width:2}.open{stroke-dasharray:3 2}.mask{fill:#333}.gap{fill:#dfe8fb}
.wait{fill:url(#dashes)}.high{fill:#bfe3c6;stroke:#2a7d2a}.low{fill:#2a7d2a}
.ink{fill:#111}.edge{fill:#fff;stroke:#111}
@media (prefers-color-scheme:dark){text{fill:#ddd}.page{fill:#16181c}.lane{fill:#1f2229}
.call{fill:#2f4f76;stroke:#7aa7dd}.handler{fill:#6e4b1c;stroke:#e0aa58}
.mask{fill:#ccc}.gap{fill:#26324a}.high{fill:#24482b}.ink{fill:#eee}.edge{fill:#16181c;stroke:#eee}}</style>
<defs>
<pattern id='dashes' width='7' height='9' patternUnits='userSpaceOnUse'><path d='M0 0h4v9h-4z' fill='#c00'/></pattern>
<path id='step' d='M0 0v3' stroke='#667'/>
<circle id='act' r='2.6' class='ink'/>
<path id='serve' d='M0 -4l4 4l-4 4l-4 -4z' class='edge'/>
<path id='abort' d='M-3 -3h6v6h-6z' fill='#c00'/>
<path id='start' d='M-3 -4l7 4l-7 4z' fill='#080'/>
<path id='turn' d='M0 -3v5h1v-5z' fill='#889'/>
<path id='held' d='M-3 -5l6 6m0 -6l-6 6' stroke='#c00' stroke-width='2'/>
<path id='note' d='M-3 -4h6l-3 6z' fill='#2a7d2a'/>
<path id='error' d='M-3 -4h6l-3 6z' fill='#c00'/>
<path id='reset' d='M-3 -4h6l-3 6z' fill='#909'/>
<path id='shown' d='M1 -3h3v3h-3z' fill='#4a7ab0'/>
<path id='ok' d='M1 -1h3' stroke='#889'/>
</defs>
<rect width='100%' height='100%' class='page'/>
";

/// The title of a sign.
fn title_of(alloc: Global, sign: Sign) -> Result<String, AllocError>
    ensures { IfOk result (λ text. string_bytes text ≡ title sign) }
{
    let title = Title(sign);
    format!(in alloc; "{title}")
}

/// Writes a symbol.
fn put_symbol(
    text: &mut String,
    used: &[bool],
    shape: Shape,
    name: &'static str,
    drop: usize,
    title: &str,
) -> Result<(), AllocError>
    requires rows { length used.now ≡ 177 }
    requires within { drop ≤ 36 }
    ensures { OnOk result (string_bytes text.new ≡ string_bytes text.old ++ point_text name.now shape.x (row_top used.now (slot shape.row) + drop) title.now) }
{
    let point = Point {
        symbol: name,
        x: shape.x,
        y: top(used, shape.row.slot()) + drop,
        title,
    };
    write!(text, "{point}")
}

/// Writes a box.
#[tactic(auto, unfolding(crate::specs::Page::box_of))]
fn put_box(text: &mut String, used: &[bool], shape: Shape, title: &str) -> Result<(), AllocError>
    requires rows { length used.now ≡ 177 }
    ensures { OnOk result (string_bytes text.new ≡ string_bytes text.old ++ spec.box_of used.now shape title.now) }
{
    let bar = Rectangle {
        kind: class(shape.mark),
        gone: second_class(shape.mark),
        x: shape.x,
        y: top(used, shape.row.slot()) + drop_of(shape.mark),
        width: shape.width,
        height: height_of(shape.mark, top(used, 165).saturating_sub(top(used, 4))),
        title,
    };
    write!(text, "{bar}")
}

/// Writes a shape with its title.
#[tactic(auto, unfolding(crate::specs::Page::shape_text))]
fn put_shape(
    text: &mut String,
    alloc: Global,
    used: &[bool],
    shape: Shape,
) -> Result<(), AllocError>
    requires rows { length used.now ≡ 177 }
    ensures { OnOk result (string_bytes text.new ≡ string_bytes text.old ++ spec.shape_text used.now shape) }
{
    let title = title_of(alloc, shape.sign)?;
    match shape.mark {
        Mark::Symbol(what) => put_symbol(
            text,
            used,
            shape,
            symbol(what),
            symbol_drop(what),
            title.as_str(),
        ),
        _ => put_box(text, used, shape, title.as_str()),
    }
}

/// Writes a shape, if it lies in a layer.
fn put_part(
    text: &mut String,
    alloc: Global,
    used: &[bool],
    shape: Shape,
    wanted: u8,
) -> Result<(), AllocError>
    requires rows { length used.now ≡ 177 }
    ensures { OnOk result (string_bytes text.new ≡ string_bytes text.old ++ spec.layer_part used.now wanted shape) }
{
    if layer(shape.mark) == wanted {
        put_shape(text, alloc, used, shape)
    } else {
        Ok(())
    }
}

/// Writes the shapes of a layer.
fn put_layer(
    text: &mut String,
    alloc: Global,
    used: &[bool],
    shapes: &[Shape],
    wanted: u8,
) -> Result<(), AllocError>
    requires rows { length used.now ≡ 177 }
    ensures { OnOk result (string_bytes text.new ≡ string_bytes text.old ++ spec.layer_text used.now wanted shapes.now) }
{
    for shape in shapes {
        put_part(text, alloc, used, *shape, wanted)?;
    }
    Ok(())
}

/// Writes a label.
fn put_label(
    text: &mut String,
    alloc: Global,
    used: &[bool],
    label: Label,
) -> Result<(), AllocError>
    requires rows { length used.now ≡ 177 }
    ensures { OnOk result (string_bytes text.new ≡ string_bytes text.old ++ spec.label_text used.now label) }
{
    let caption = label.caption;
    let says = format!(in alloc; "{caption}")?;
    let words = Words {
        x: label.x,
        y: top(used, label.row.slot()) + 11,
        text: says.as_str(),
    };
    write!(text, "{words}")
}

/// Writes labels.
fn put_labels(
    text: &mut String,
    alloc: Global,
    used: &[bool],
    labels: &[Label],
) -> Result<(), AllocError>
    requires rows { length used.now ≡ 177 }
    ensures { OnOk result (string_bytes text.new ≡ string_bytes text.old ++ spec.labels_text used.now labels.now) }
{
    for label in labels {
        put_label(text, alloc, used, *label)?;
    }
    Ok(())
}

/// Writes the ground of a row for frames, if it is used.
#[tactic(auto, unfolding(crate::specs::Page::lane_text))]
fn put_lane(text: &mut String, used: &[bool], lane: usize) -> Result<(), AllocError>
    requires rows { length used.now ≡ 177 }
    requires few { lane < 40 }
    ensures { OnOk result (string_bytes text.new ≡ string_bytes text.old ++ spec.lane_text used.now lane) }
{
    if used[5 + lane] {
        let y = top(used, 5 + lane);
        write!(
            text,
            "<rect class='lane' y='{y}' width='100%' height='35'/>\n"
        )
    } else {
        Ok(())
    }
}

/// Writes the ground of the first rows for frames, so many, that are used.
#[tactic(auto, unfolding(crate::specs::Page::lanes_text))]
fn put_lanes(text: &mut String, used: &[bool], count: usize) -> Result<(), AllocError>
    requires rows { length used.now ≡ 177 }
    requires few { count ≤ 40 }
    ensures { OnOk result (string_bytes text.new ≡ string_bytes text.old ++ spec.lanes_text used.now count) }
{
    for lane in 0..count {
        put_lane(text, used, lane)?;
    }
    Ok(())
}

/// How many signs are drawn.
fn drawn_in(signs: &[Sign]) -> usize
    ensures { result ≡ count_by drawn.is_drawn signs.now }
{
    let mut count = 0;
    for sign in signs {
        if is_drawn(sign) {
            count += 1;
        }
    }
    count
}

/// How many shapes are left out.
fn left_out_in(signs: &[Sign]) -> usize
    ensures { result ≡ count_by drawn.is_left_out signs.now }
{
    let mut count = 0;
    for sign in signs {
        if is_left_out(sign) {
            count += 1;
        }
    }
    count
}

/// The title of a page.
fn run_caption(name: Option<InputName>, steps: usize, ticks: u64) -> Caption
    ensures { result ≡ spec.run_caption name steps ticks }
{
    match name {
        Some(name) => Caption::NamedRun(name, steps, ticks),
        None => Caption::Run(steps, ticks),
    }
}

/// Puts the words of the page itself: its title, what colors and symbols stand for, and how many signs were drawn and
/// left out.
#[tactic(auto, unfolding(crate::specs::Page::own_words))]
fn put_words(
    board: &mut Board,
    alloc: Global,
    run: Caption,
    drawn: usize,
    left: usize,
) -> Result<(), AllocError>
    ensures { OnOk result (board.new ≡ all_put board.old (spec.own_words run drawn left board.old.unnamed)) }
{
    let unnamed = board.unnamed();
    let tally = Caption::Tally(drawn, left, unnamed);
    board.say(alloc, Row::Title, 6, NO_LIMIT, run)?;
    board.say(alloc, Row::Colors, 6, NO_LIMIT, Caption::Colors)?;
    board.say(alloc, Row::Symbols, 6, NO_LIMIT, Caption::Symbols)?;
    board.say(alloc, Row::Tally, 6, NO_LIMIT, tally)
}

/// Writes what is on a board, up to a place.
fn put_board(text: &mut String, alloc: Global, board: &Board) -> Result<(), AllocError>
    ensures { OnOk result (string_bytes text.new ≡ string_bytes text.old ++ spec.board_text board.now) }
{
    put_lanes(text, board.used(), 40)?;
    put_layer(text, alloc, board.used(), board.shapes(), 0)?;
    put_layer(text, alloc, board.used(), board.shapes(), 1)?;
    put_layer(text, alloc, board.used(), board.shapes(), 2)?;
    put_labels(text, alloc, board.used(), board.labels())
}

/// The beginning of the page.
#[tactic(auto, unfolding(crate::specs::Page::opening))]
fn opening(alloc: Global, width: usize, height: usize) -> Result<String, AllocError>
    ensures { IfOk result (λ text. string_bytes text ≡ spec.opening width height) }
{
    format!(in alloc;
        "<svg xmlns='http://www.w3.org/2000/svg' width='{width}' height='{height}' viewBox='0 0 {width} {height}'>\n{STYLE}"
    )
}

/// The text of a board that reaches to a place.
fn text_of(alloc: Global, board: &Board, end: usize) -> Result<String, AllocError>
    ensures { IfOk result (λ text. string_bytes text ≡ spec.text_of board.now end) }
{
    let width = board.wide().max(end).saturating_add(10);
    let height = top(board.used(), 177) + 8;
    let mut text = opening(alloc, width, height)?;
    put_board(&mut text, alloc, board)?;
    text.push_str("</svg>\n")?;
    Ok(text)
}

/// The signs of a trace on a page, of so many steps: a row for each level and each handler's line that is used with bars
/// for its frames, symbols for their steps and thin bars where the mask is closed; rows for errors, callbacks, held
/// directives and ticks above, and for values that change and the script below. The name of the input stands in its
/// title, if it has one.
pub fn page_of(
    alloc: Global,
    name: Option<InputName>,
    steps: usize,
    signs: &[Sign],
) -> Result<String, AllocError>
    ensures { IfOk result (λ text. string_bytes text ≡ spec.page name steps signs.now) }
{
    let mut board = Board::empty(alloc);
    let mut page_state = PageState::first();
    put_signs(&mut board, alloc, &mut page_state, signs)?;
    put_lasts(&mut board, alloc, &page_state.levels, page_state.x)?;
    let drawn = drawn_in(signs);
    let left = left_out_in(signs);
    let run = run_caption(name, steps, page_state.ticks);
    put_words(&mut board, alloc, run, drawn, left)?;
    text_of(alloc, &board, page_state.x)
}
