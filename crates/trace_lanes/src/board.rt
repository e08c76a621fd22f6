ghost use Rattle.std.specs.Prelude.{◌≡◌, ◌<◌, ◌≤◌, OnOk, IfOk, IfSome, length, nat_le};
ghost use Rattle.std.specs.List.{position};
ghost use Rattle.trace_lanes.specs.Board as spec;
ghost use Rattle.trace_lanes.specs.Captions.{caption_text};

use crate::caption::Caption;
use crate::rows::{ROWS, Row};
use bench_report::Purpose;
use std::alloc::{AllocError, Global};
use std::marker::Model;
use trace_forms::kinds::{Ending, Sign, What};

/// The last place from left to right.
pub(crate) const MOST_PLACE: usize = 10_000_000;

/// Where a label may end that stands in no shape.
pub(crate) const NO_LIMIT: usize = 20_000_000;

/// What is drawn.
#[derive(Clone, Copy)]
pub enum Mark {
    /// The bar of a frame, and how it went.
    Bar(Purpose, Ending),
    /// Steps with the mask closed.
    Mask,
    /// A frame waits to begin.
    Wait,
    /// Ticks pass.
    Gap,
    /// A value stands: one, or zero.
    Wave(bool),
    /// The symbol of a sign.
    Symbol(What),
}

/// A shape: what it is, in which row, where it begins and how wide it is, and the sign that its title tells.
#[derive(Clone, Copy)]
pub struct Shape {
    /// What is drawn.
    pub mark: Mark,
    /// Its row.
    pub row: Row,
    /// Where it begins.
    pub x: usize,
    /// How wide it is.
    pub width: usize,
    /// The sign that its title tells.
    pub sign: Sign,
}

/// A label: its row, where it begins, and what it says.
#[derive(Clone, Copy)]
pub struct Label {
    /// Its row.
    pub row: Row,
    /// Where it begins.
    pub x: usize,
    /// What it says.
    pub caption: Caption,
}

/// How many bytes a label has.
fn length_of(alloc: Global, caption: Caption) -> Result<usize, AllocError>
    ensures { IfOk result (λ n. n ≡ length (caption_text caption)) }
{
    let text = format!(in alloc; "{caption}")?;
    Ok(text.len())
}

/// Where a label of so many letters ends that begins at a place, if it has room there: its row is free from a place on,
/// and it may end at another.
fn end_of(free: usize, x: usize, letters: usize, limit: usize) -> Option<usize>
    ensures end { result ≡ spec.end_of free x letters limit }
    ensures within { IfSome result (λ end. end ≤ 10006000) }
{
    if letters <= 1000 && x <= MOST_PLACE && free <= x && x + letters * 6 <= limit {
        Some(x + letters * 6)
    } else {
        None
    }
}

/// The first of some rows that is free at a place.
fn first_free(free: &[usize], x: usize) -> Option<usize>
    ensures place { result ≡ position (λ end. nat_le end x) free.now }
    ensures within { IfSome result (λ n. n < length free.now) }
{
    free.iter().position(|end| *end <= x)
}

/// What is drawn so far: shapes and labels, from where on each row is free for labels (a letter behind its last one),
/// which rows are used, how far labels reach, and for how many there was no room.
#[derive(Drop)]
pub(crate) struct Board {
    shapes: Vec<Shape>,
    labels: Vec<Label>,
    free: [usize; ROWS],
    used: [bool; ROWS],
    wide: usize,
    unnamed: usize,
}

impl Model for Board {
    ghost use Rattle.trace_lanes.specs.Board as spec;

    ghost Value = { spec.Board };

    ghost view = { λ b. record { shapes = b.shapes.items; labels = b.labels.items; free = b.free; used = b.used; wide = b.wide; unnamed = b.unnamed } };
}

impl Board {
    /// Nothing is drawn yet.
    pub(crate) fn empty(alloc: Global) -> Board
        ensures { result ≡ spec.empty }
    {
        Board {
            shapes: Vec::new(alloc),
            labels: Vec::new(alloc),
            free: [0; ROWS],
            used: [false; ROWS],
            wide: 0,
            unnamed: 0,
        }
    }

    /// The shapes.
    pub(crate) fn shapes(&self) -> &[Shape]
        ensures { result.now ≡ self.now.shapes }
    {
        self.shapes.as_slice()
    }

    /// The labels.
    pub(crate) fn labels(&self) -> &[Label]
        ensures { result.now ≡ self.now.labels }
    {
        self.labels.as_slice()
    }

    /// Which rows are used.
    pub(crate) fn used(&self) -> &[bool]
        ensures used { result.now ≡ self.now.used }
        ensures rows { length result.now ≡ 177 }
    {
        &self.used
    }

    /// How far labels reach.
    pub(crate) fn wide(&self) -> usize
        ensures { result ≡ self.now.wide }
    {
        self.wide
    }

    /// For how many labels there was no room.
    pub(crate) fn unnamed(&self) -> usize
        ensures { result ≡ self.now.unnamed }
    {
        self.unnamed
    }

    /// Puts a label, if its row has room for it.
    fn place(
        &mut self,
        alloc: Global,
        row: Row,
        x: usize,
        limit: usize,
        caption: Caption,
    ) -> Result<(), AllocError>
        ensures { OnOk result (self.new ≡ spec.placed self.old row x limit caption) }
    {
        let letters = length_of(alloc, caption)?;
        let slot = row.slot();
        match end_of(self.free[slot], x, letters, limit) {
            Some(end) => {
                self.labels.push(Label { row, x, caption })?;
                self.free[slot] = end + 6;
                self.wide = self.wide.max(end);
            }
            None => self.unnamed = self.unnamed.saturating_add(1),
        }
        Ok(())
    }

    /// Uses a row: its name is put where it is used first.
    fn enter(&mut self, alloc: Global, row: Row) -> Result<(), AllocError>
        ensures { OnOk result (self.new ≡ spec.entered self.old row) }
    {
        let slot = row.slot();
        if self.used[slot] {
            return Ok(());
        }
        self.used[slot] = true;
        if row.has_name() {
            self.place(alloc, row, 6, 130, Caption::Name(row))
        } else {
            Ok(())
        }
    }

    /// Draws a shape.
    #[tactic(auto, unfolding(crate::specs::Board::put))]
    pub(crate) fn draw(&mut self, alloc: Global, shape: Shape) -> Result<(), AllocError>
        ensures { OnOk result (self.new ≡ spec.put self.old (spec.Draws shape)) }
    {
        self.enter(alloc, shape.row)?;
        self.shapes.push(shape)?;
        Ok(())
    }

    /// Puts a label that may end at a place, if its row has room for it.
    #[tactic(auto, unfolding(crate::specs::Board::put))]
    pub(crate) fn say(
        &mut self,
        alloc: Global,
        row: Row,
        x: usize,
        limit: usize,
        caption: Caption,
    ) -> Result<(), AllocError>
        ensures { OnOk result (self.new ≡ spec.put self.old (spec.Says row x limit caption)) }
    {
        self.enter(alloc, row)?;
        self.place(alloc, row, x, limit, caption)
    }

    /// Puts the first of two labels that may end at a place and has room, if its row has room for one.
    #[tactic(auto, unfolding(crate::specs::Board::put))]
    pub(crate) fn say_either(
        &mut self,
        alloc: Global,
        row: Row,
        x: usize,
        limit: usize,
        long: Caption,
        short: Caption,
    ) -> Result<(), AllocError>
        ensures { OnOk result (self.new ≡ spec.put self.old (spec.SaysEither row x limit long short)) }
    {
        self.enter(alloc, row)?;
        let letters = length_of(alloc, long)?;
        if end_of(self.free[row.slot()], x, letters, limit).is_some() {
            self.place(alloc, row, x, limit, long)
        } else {
            self.place(alloc, row, x, limit, short)
        }
    }

    /// The first row of the script that is free at a place, or the last.
    fn script_row(&self, x: usize) -> u32
        ensures { result ≡ spec.script_row self.now.free x }
    {
        match first_free(&self.free[165..173], x) {
            Some(row) => row as u32,
            None => 8,
        }
    }

    /// Puts a label in the first row of the script that is free there.
    #[tactic(auto, unfolding(crate::specs::Board::put))]
    pub(crate) fn say_script(
        &mut self,
        alloc: Global,
        x: usize,
        caption: Caption,
    ) -> Result<(), AllocError>
        ensures { OnOk result (self.new ≡ spec.put self.old (spec.SaysLine x caption)) }
    {
        let row = Row::Script(self.script_row(x));
        self.say(alloc, row, x, NO_LIMIT, caption)
    }
}
