//! The cells that are taken, by bands of rows.

ghost use Rattle.std.specs.Prelude.{◌≡◌, ◌<◌, ℤ, pos, ◌+ℤ◌, ◌-ℤ◌, ◌&&◌, [], filter, Bool, true, false, ◌||◌, ◌≤ℤ◌, ◌<ℤ◌, None, IsSome, IfOk, OnOk, MatchOption};
ghost use Rattle.std.specs.List.{list_all};
ghost use Rattle.std.specs.Ordering.{int_cmp};
ghost use Rattle.lunit.specs.declared.geometry.Span.{Span};
ghost use Rattle.cell_index.specs.declared.columns.TakenColumns.{TakenColumns};
ghost use Rattle.std.specs.BTreeMap as tree;
ghost use Rattle.cell_index.specs.Passed.{is_shut, last_line, moved, IsKept, IsPassed};
ghost use Rattle.cell_index.specs.Taken.{held, holds, is_open, reads, strictly, taken, within, HasHeld, IsAddedAt};

use crate::columns::TakenColumns;
use lunit::{Area, NoMemory, Span};
use std::alloc::Global;
use std::collections::BTreeMap;
use std::ops::Bound;

/// Bands of rows, each from its first row up to the next band, with the columns that are taken in
/// all of its rows. Neighbouring rows with the same columns are in one band.
#[derive(Drop)]
pub(crate) struct RowBands {
    bands: BTreeMap<i32, TakenColumns>,
}

impl RowBands {
    /// No cell is taken. Takes no memory.
    pub(crate) fn new(alloc: Global) -> RowBands
        ensures { (row column : ℤ) → held result row column ≡ false }
    {
        RowBands {
            bands: BTreeMap::new(alloc),
        }
    }

    /// The columns that are taken in a row; `None` before all bands, where none are.
    fn columns_at(&self, row: i32) -> Option<&TakenColumns>
        ensures ordered { tree.IsOrdered int_cmp self.now.bands }
        ensures value { MatchOption result ((column : ℤ) → held self.now row column ≡ false)
            (λ columns. (column : ℤ) → held self.now row column ≡ taken columns.now column) }
        ensures says { MatchOption result
            ((says : TakenColumns → Bool) → reads says false self.now.bands.entries row ≡ false)
            (λ columns. (says : TakenColumns → Bool) →
            reads says false self.now.bands.entries row ≡ says columns.now) }
    {
        let until = (Bound::Unbounded, Bound::Included(row));
        match self.bands.range(until).next_back() {
            Some((_, columns)) => Some(columns),
            None => None,
        }
    }

    /// Whether in each band that begins strictly between two rows no column of a span is taken.
    fn is_open_between(&self, area: Area) -> bool
        requires { area.rows.start <ℤ area.rows.end }
        ensures ordered { tree.IsOrdered int_cmp self.now.bands }
        ensures value { result ≡
            list_all (λ (e : ℤ × TakenColumns). is_open e.1 area.columns)
            (filter (λ (e : ℤ × TakenColumns). strictly area.rows.start area.rows.end e.0)
            self.now.bands.entries) }
    {
        let between = (
            Bound::Excluded(area.rows.start),
            Bound::Excluded(area.rows.end),
        );
        self.bands
            .range(between)
            .all(|(_, columns)| columns.is_open(area.columns))
    }

    /// Whether in the band of the area's first row no column of the area is taken.
    fn is_open_at_start(&self, area: Area) -> bool
        ensures free { result ≡ true → (column : ℤ) → area.columns.start ≤ℤ column →
            column <ℤ area.columns.end → held self.now area.rows.start column ≡ false }
        ensures shut { result ≡ false → area.rows.start <ℤ area.rows.end →
            area.columns.start <ℤ area.columns.end → HasHeld self.now area }
    {
        match self.columns_at(area.rows.start) {
            Some(columns) => columns.is_open(area.columns),
            None => true,
        }
    }

    /// The same columns as those that are taken in a row.
    fn copy_at(&self, alloc: Global, row: i32) -> Result<TakenColumns, NoMemory>
        ensures { IfOk result
            (λ columns. (column : ℤ) → taken columns column ≡ held self.now row column) }
    {
        match self.columns_at(row) {
            Some(columns) => columns.copy(alloc),
            None => Ok(TakenColumns::new(alloc)),
        }
    }

    /// Makes a row one where a band begins. The columns are copied where none does.
    fn cut(&mut self, alloc: Global, row: i32) -> Result<(), NoMemory>
        ensures same { OnOk result
            ((other column : ℤ) → held self.new other column ≡ held self.old other column) }
        ensures begins { OnOk result (IsSome (tree.get int_cmp self.new.bands row)) }
        ensures kept { OnOk result
            ((other : ℤ) → IsSome (tree.get int_cmp self.old.bands other) →
            IsSome (tree.get int_cmp self.new.bands other)) }
    {
        if self.bands.contains_key(&row) {
            return Ok(());
        }
        let columns = self.copy_at(alloc, row)?;
        self.bands.insert(row, columns)?;
        Ok(())
    }

    /// The row where the next band begins after a row, up to a row where one begins.
    fn next(&self, row: i32, last: i32) -> i32
        requires order { row <ℤ last }
        requires last { IsSome (tree.get int_cmp self.now.bands last) }
        ensures later { row <ℤ result }
        ensures within { result ≤ℤ last }
        ensures begins { IsSome (tree.get int_cmp self.now.bands result) }
        ensures ordered { tree.IsOrdered int_cmp self.now.bands }
        ensures none { filter (λ (e : ℤ × TakenColumns). strictly row result e.0)
            self.now.bands.entries ≡ [] }
    {
        let between = (Bound::Excluded(row), Bound::Excluded(last));
        match self.bands.range(between).next() {
            Some((next, _)) => *next,
            None => last,
        }
    }

    /// Takes the columns of a span in the band that begins at a row.
    fn add_to_band(&mut self, alloc: Global, row: i32, columns: Span) -> Result<(), NoMemory>
        requires { IsSome (tree.get int_cmp self.old.bands row) }
        ensures { OnOk result (IsAddedAt row columns self.old self.new) }
    {
        match self.bands.get_mut(&row) {
            Some(band) => band.add(alloc, columns),
            None => Ok(()),
        }
    }

    /// Whether no cell at all is taken, as far as this is told without a look at the columns.
    pub(crate) fn is_empty(&self) -> bool
        ensures { result ≡ true → (row column : ℤ) → held self.now row column ≡ false }
    {
        self.bands.is_empty()
    }

    /// Whether no cell of an area is taken.
    pub(crate) fn is_free(&self, area: Area) -> bool
        requires rows { area.rows.start <ℤ area.rows.end }
        requires columns { area.columns.start <ℤ area.columns.end }
        ensures free { result ≡ true → (row column : ℤ) → holds area row column ≡ true →
            held self.now row column ≡ false }
        ensures shut { result ≡ false → HasHeld self.now area }
    {
        if !self.is_open_at_start(area) {
            return false;
        }
        self.is_open_between(area)
    }

    /// Goes from a line on past the columns that are taken in a row, so far as so many columns
    /// reach them.
    fn pass_at(&self, row: i32, start: i32, columns: u32) -> i32
        requires { 0 < columns }
        ensures { (let here : Span = record { start = row; end = row +ℤ pos 1 } in IsPassed
            (held self.now) (moved false here columns) start result) }
    {
        match self.columns_at(row) {
            Some(taken) => taken.pass(start, columns),
            None => start,
        }
    }

    /// Goes from a line on past the columns that are taken in each of the bands of some rows, so
    /// far as so many columns reach them.
    pub(crate) fn pass_columns(&self, rows: Span, start: i32, columns: u32) -> i32
        requires rows { rows.start <ℤ rows.end }
        requires columns { 0 < columns }
        ensures { IsPassed (held self.now) (moved false rows columns) start result }
    {
        let mut line = self.pass_at(rows.start, start, columns);
        let between = (Bound::Excluded(rows.start), Bound::Excluded(rows.end));
        for (_, taken) in self.bands.range(between) {
            line = taken.pass(line, columns);
        }
        line
    }

    /// Whether some column of a span is taken in a row.
    fn is_shut_at(&self, row: i32, columns: Span) -> bool
        ensures { result ≡ reads (is_shut columns) false self.now.bands.entries row }
    {
        match self.columns_at(row) {
            Some(taken) => !taken.is_open(columns),
            None => false,
        }
    }

    /// Goes from a row on past each band in which a column of a span is taken, so far as so many
    /// rows reach them.
    pub(crate) fn pass_rows(&self, columns: Span, start: i32, rows: u32) -> i32
        requires columns { columns.start <ℤ columns.end }
        requires rows { 0 < rows }
        ensures { IsPassed (held self.now) (moved true columns rows) start result }
    {
        let mut row = start;
        let mut shut = self.is_shut_at(start, columns);
        let below = (Bound::Excluded(start), Bound::Unbounded);
        for (next, taken) in self.bands.range(below) {
            if shut {
                row = row.max(*next);
            } else if *next as i64 >= row as i64 + rows as i64 {
                return row;
            }
            shut = !taken.is_open(columns);
        }
        if shut { i32::MAX } else { row }
    }

    /// The row where the next band begins after a row, or the last line.
    pub(crate) fn next_edge(&self, row: i32) -> i32
        requires { row <ℤ last_line }
        ensures { IsKept (held self.now) row result }
    {
        let below = (Bound::Excluded(row), Bound::Unbounded);
        match self.bands.range(below).next() {
            Some((next, _)) => *next,
            None => i32::MAX,
        }
    }

    /// Whether the same columns are taken in a row as in the one before it.
    fn goes_on(&self, row: i32) -> bool
        ensures ordered { result ≡ true → tree.IsOrdered int_cmp self.now.bands }
        ensures same { result ≡ true → (column : ℤ) →
            held self.now row column ≡ held self.now (row -ℤ pos 1) column }
    {
        if row == i32::MIN {
            return false;
        }
        match (self.columns_at(row - 1), self.columns_at(row)) {
            (Some(before), Some(here)) => before.is_same(here),
            (None, Some(here)) => here.is_empty(),
            _ => false,
        }
    }

    /// Forgets that a band begins at a row where the one before it has the same columns.
    fn join(&mut self, row: i32)
        ensures same { (other column : ℤ) →
            held self.new other column ≡ held self.old other column }
        ensures kept { (other : ℤ) → row <ℤ other → IsSome (tree.get int_cmp self.old.bands other) →
            IsSome (tree.get int_cmp self.new.bands other) }
    {
        if self.goes_on(row) {
            let _ = self.bands.remove(&row);
        }
    }

    /// Takes the columns of a span in the band from a row up to the next band.
    fn fill_band(
        &mut self,
        alloc: Global,
        row: i32,
        next: i32,
        columns: Span,
    ) -> Result<(), NoMemory>
        requires order { row <ℤ next }
        requires first { IsSome (tree.get int_cmp self.old.bands row) }
        requires next { IsSome (tree.get int_cmp self.old.bands next) }
        requires ordered { tree.IsOrdered int_cmp self.old.bands }
        requires none { filter (λ (e : ℤ × TakenColumns). strictly row next e.0)
            self.old.bands.entries ≡ [] }
        ensures added { OnOk result
            ((other column : ℤ) →
            held self.new other column ≡
            (held self.old other column ||
            (within (record { start = row; end = next }) other && within columns column))) }
        ensures kept { OnOk result
            ((other : ℤ) → row <ℤ other → IsSome (tree.get int_cmp self.old.bands other) →
            IsSome (tree.get int_cmp self.new.bands other)) }
    {
        self.add_to_band(alloc, row, columns)?;
        self.join(row);
        Ok(())
    }

    /// Takes the cells of an area in whose first row a band begins, and one after its last row.
    fn add_rows(&mut self, alloc: Global, area: Area) -> Result<(), NoMemory>
        requires some { area.rows.start <ℤ area.rows.end }
        requires first { IsSome (tree.get int_cmp self.old.bands area.rows.start) }
        requires last { IsSome (tree.get int_cmp self.old.bands area.rows.end) }
        ensures { OnOk result
            ((row column : ℤ) →
            held self.new row column ≡ (held self.old row column || holds area row column)) }
    {
        let mut row = area.rows.start;
        while row < area.rows.end {
            let next = self.next(row, area.rows.end);
            self.fill_band(alloc, row, next, area.columns)?;
            row = next;
        }
        Ok(())
    }

    /// Takes the cells of an area. After want of memory more or fewer cells may be taken.
    pub(crate) fn add(&mut self, alloc: Global, area: Area) -> Result<(), NoMemory>
        ensures { OnOk result
            ((row column : ℤ) →
            held self.new row column ≡ (held self.old row column || holds area row column)) }
    {
        if area.rows.start >= area.rows.end {
            return Ok(());
        }
        self.cut(alloc, area.rows.start)?;
        self.cut(alloc, area.rows.end)?;
        self.add_rows(alloc, area)?;
        self.join(area.rows.end);
        Ok(())
    }
}
