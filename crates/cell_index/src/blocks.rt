//! The cells that are taken, in a run and a block that grow and in bands of rows.

ghost use Rattle.std.specs.Prelude.{◌≡◌, ◌<◌, ℤ, false, true, ◌||◌, ◌≤ℤ◌, ◌<ℤ◌, IfSome, OnOk};
ghost use Rattle.cell_index.specs.Held.{held_in, HasTaken};
ghost use Rattle.cell_index.specs.Passed.{last_line, moved, IsKept, IsPassed, IsReached};
ghost use Rattle.cell_index.specs.Taken.{held, holds, within};

use crate::bands::RowBands;
use crate::size::meets;
use lunit::{Area, NoMemory, Span};
use std::alloc::Global;

/// An area without cells.
const NO_CELLS: Area = Area {
    columns: Span { start: 0, end: 0 },
    rows: Span { start: 0, end: 0 },
};

/// The cells that are taken. Areas often come one after another in the same rows, and then row by
/// row: they are joined to a run as they come, and runs of the same columns to a block. What fits
/// neither goes to the bands of rows. So a page of full rows needs no band.
#[derive(Drop)]
pub(crate) struct Blocks {
    bands: RowBands,
    block: Area,
    run: Area,
}

#[tactic(auto, using(crate::proofs::Pairs::same_line))]
/// Whether two lines are one.
fn is_same(one: i32, other: i32) -> bool
    ensures { result ≡ true → one ≡ other }
{
    one == other
}

#[tactic(auto, using(crate::proofs::Pairs::span_same))]
/// Whether two spans are the same.
fn are_same(one: Span, other: Span) -> bool
    ensures { result ≡ true → one ≡ other }
{
    is_same(one.start, other.start) && is_same(one.end, other.end)
}

/// Whether neither span ends before it begins.
fn are_ordered(first: Span, second: Span) -> bool
    ensures first { result ≡ true → first.start ≤ℤ first.end }
    ensures second { result ≡ true → second.start ≤ℤ second.end }
{
    first.start <= first.end && second.start <= second.end
}

/// The span of two, the second of which begins where the first ends.
fn joined(first: Span, second: Span) -> Option<Span>
    ensures { IfSome result
        (λ both. (track : ℤ) → within both track ≡ (within first track || within second track)) }
{
    if !is_same(first.end, second.start) {
        return None;
    }
    if !are_ordered(first, second) {
        return None;
    }
    Some(Span {
        start: first.start,
        end: second.end,
    })
}

/// The area of two that stand in the same rows, the second where the first ends.
fn beside(first: Area, second: Area) -> Option<Area>
    ensures { IfSome result
        (λ both. (row column : ℤ) →
        holds both row column ≡ (holds first row column || holds second row column)) }
{
    if !are_same(first.rows, second.rows) {
        return None;
    }
    match joined(first.columns, second.columns) {
        Some(columns) => Some(Area {
            columns,
            rows: first.rows,
        }),
        None => None,
    }
}

/// The area of two that stand in the same columns, the second where the first ends.
fn below(first: Area, second: Area) -> Option<Area>
    ensures { IfSome result
        (λ both. (row column : ℤ) →
        holds both row column ≡ (holds first row column || holds second row column)) }
{
    if !are_same(first.columns, second.columns) {
        return None;
    }
    match joined(first.rows, second.rows) {
        Some(rows) => Some(Area {
            columns: first.columns,
            rows,
        }),
        None => None,
    }
}

/// A row after another one that lies neither after the next one nor after an end that lies after
/// it.
fn up_to(next: i32, row: i32, end: i32) -> i32
    requires { row <ℤ next }
    ensures later { row <ℤ result }
    ensures next { result ≤ℤ next }
    ensures end { row <ℤ end → result ≤ℤ end }
{
    if row < end { next.min(end) } else { next }
}

impl Blocks {
    #[tactic(auto, using(crate::proofs::Pairs::nothing_held))]
    /// No cell is taken. Takes no memory.
    pub(crate) fn new(alloc: Global) -> Blocks
        ensures { (row column : ℤ) → held_in result row column ≡ false }
    {
        Blocks {
            bands: RowBands::new(alloc),
            block: NO_CELLS,
            run: NO_CELLS,
        }
    }

    #[tactic(auto, using(crate::proofs::Pairs::tells))]
    /// Whether no cell of an area is taken.
    pub(crate) fn is_free(&self, area: Area) -> bool
        requires rows { area.rows.start <ℤ area.rows.end }
        requires columns { area.columns.start <ℤ area.columns.end }
        ensures free { result ≡ true → (row column : ℤ) → holds area row column ≡ true →
            held_in self.now row column ≡ false }
        ensures shut { result ≡ false → HasTaken self.now area }
    {
        if area.overlaps(self.run) {
            return false;
        }
        if area.overlaps(self.block) {
            return false;
        }
        if self.bands.is_empty() {
            return true;
        }
        self.bands.is_free(area)
    }

    /// Goes from a line on past what is taken in some rows, so far as so many columns reach it.
    fn pass_columns(&self, rows: Span, start: i32, columns: u32) -> i32
        requires rows { rows.start <ℤ rows.end }
        requires columns { 0 < columns }
        ensures { IsPassed (held_in self.now) (moved false rows columns) start result }
    {
        if meets(false, rows, start, columns, self.run) {
            return self.run.columns.end;
        }
        if meets(false, rows, start, columns, self.block) {
            return self.block.columns.end;
        }
        if self.bands.is_empty() {
            return start;
        }
        self.bands.pass_columns(rows, start, columns)
    }

    /// The least line, from one on, from which on so many columns are not taken in some rows.
    pub(crate) fn next_column(&self, rows: Span, start: i32, columns: u32) -> i32
        requires rows { rows.start <ℤ rows.end }
        requires columns { 0 < columns }
        ensures { IsReached (held_in self.now) (moved false rows columns) start result }
    {
        let mut line = start;
        'search: loop {
            let next = self.pass_columns(rows, line, columns);
            if next <= line {
                return line;
            }
            line = next;
        }
    }

    /// Goes from a row on past what is taken in some columns, so far as so many rows reach it.
    fn pass_rows(&self, columns: Span, start: i32, rows: u32) -> i32
        requires columns { columns.start <ℤ columns.end }
        requires rows { 0 < rows }
        ensures { IsPassed (held_in self.now) (moved true columns rows) start result }
    {
        if meets(true, columns, start, rows, self.run) {
            return self.run.rows.end;
        }
        if meets(true, columns, start, rows, self.block) {
            return self.block.rows.end;
        }
        if self.bands.is_empty() {
            return start;
        }
        self.bands.pass_rows(columns, start, rows)
    }

    /// The least row, from one on, from which on so many rows are not taken in some columns.
    pub(crate) fn next_row(&self, columns: Span, start: i32, rows: u32) -> i32
        requires columns { columns.start <ℤ columns.end }
        requires rows { 0 < rows }
        ensures { IsReached (held_in self.now) (moved true columns rows) start result }
    {
        let mut row = start;
        'search: loop {
            let next = self.pass_rows(columns, row, rows);
            if next <= row {
                return row;
            }
            row = next;
        }
    }

    /// A row after this one up to which no cell becomes free.
    pub(crate) fn next_edge(&self, row: i32) -> i32
        requires { row <ℤ last_line }
        ensures { IsKept (held_in self.now) row result }
    {
        let next = self.bands.next_edge(row);
        let next = up_to(next, row, self.block.rows.end);
        up_to(next, row, self.run.rows.end)
    }

    #[tactic(auto, using(crate::proofs::Pairs::moves))]
    /// Takes the cells of the run to the block; where they do not fit it, the block's to the bands,
    /// and the run is the block.
    fn move_run(&mut self, alloc: Global) -> Result<(), NoMemory>
        ensures { OnOk result
            ((row column : ℤ) →
            (held self.new.bands row column || holds self.new.block row column) ≡
            held_in self.old row column) }
    {
        if let Some(larger) = below(self.block, self.run) {
            self.block = larger;
            return Ok(());
        }
        self.bands.add(alloc, self.block)?;
        self.block = self.run;
        Ok(())
    }

    #[tactic(auto, using(crate::proofs::Pairs::adds))]
    /// Takes the cells of an area. After want of memory more or fewer cells may be taken.
    pub(crate) fn add(&mut self, alloc: Global, area: Area) -> Result<(), NoMemory>
        ensures { OnOk result
            ((row column : ℤ) →
            held_in self.new row column ≡ (held_in self.old row column || holds area row column)) }
    {
        if let Some(longer) = beside(self.run, area) {
            self.run = longer;
            return Ok(());
        }
        self.move_run(alloc)?;
        self.run = area;
        Ok(())
    }
}
