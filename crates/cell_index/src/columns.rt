//! The columns that are taken in a band of rows.

ghost use Rattle.std.specs.Prelude.{◌≡◌, ◌<◌, ◌≤◌, ℤ, pos, get_or, int_le, ◌-ℤ◌, ◌<ℤ◌, ◌≤ℤ◌, ◌++◌, [], length, take, drop, true, false, ◌||◌, IfOk, OnOk};
ghost use Rattle.std.specs.List.{AllByRecursion};
ghost use Rattle.cell_index.specs.Rising.{AreRising};
ghost use Rattle.cell_index.specs.Passed.{passed, IsPassedOver};
ghost use Rattle.cell_index.specs.Taken.{is_open, one_if, taken, with_span, within};

use lunit::{NoMemory, Span};
use std::alloc::Global;
use std::marker::Model;
use std::mem;

/// The columns that are taken, told by the lines at which this changes, in order: the first span of
/// them begins at the first line and ends at the second, and so on. Spans that meet are one.
/// Contracts see the list of lines.
#[derive(Drop)]
pub(crate) struct TakenColumns {
    edges: Vec<i32>,
}

impl Model for TakenColumns {
    ghost use Rattle.std.specs.Prelude.{List, ℤ};

    ghost Value = { List ℤ };

    ghost use Rattle.cell_index.specs.Rising.{AreRising};

    ghost view = { λ columns. columns.edges.items };

    ghost invariant = { λ columns. AreRising columns.edges.items };
}

/// The line at an index.
fn edge_at(edges: &[i32], at: usize) -> i64
    requires { at < length edges.now }
    ensures { result ≡ get_or edges.now at (pos 0) }
{
    edges[at] as i64
}

/// Whether a line does not come after the one at an index.
fn comes_by(edges: &[i32], at: usize, line: i32) -> bool
    requires { at < length edges.now }
    ensures { result ≡ int_le line (get_or edges.now at (pos 0)) }
{
    line <= edges[at]
}

/// The line before this one.
fn line_before(line: i32) -> i64
    ensures { result ≡ line -ℤ pos 1 }
{
    line as i64 - 1
}

/// How many of these lines, which rise, do not come after this one.
fn count_up_to(edges: &[i32], limit: i64) -> usize
    requires { AreRising edges.now }
    ensures within { result ≤ length edges.now }
    ensures before { AllByRecursion (λ edge. edge ≤ℤ limit) (take result edges.now) }
    ensures after { AllByRecursion (λ edge. limit <ℤ edge) (drop result edges.now) }
{
    let mut low = 0;
    let mut high = edges.len();
    while low < high {
        let middle = low + (high - low) / 2;
        if edge_at(edges, middle) <= limit {
            low = middle + 1;
        } else {
            high = middle;
        }
    }
    low
}

/// How many of these lines, which rise, come before this one.
fn count_before(edges: &[i32], limit: i32) -> usize
    requires { AreRising edges.now }
    ensures within { result ≤ length edges.now }
    ensures before { AllByRecursion (λ edge. edge <ℤ limit) (take result edges.now) }
    ensures from { AllByRecursion (λ edge. limit ≤ℤ edge) (drop result edges.now) }
{
    count_up_to(edges, line_before(limit))
}

/// How many of these lines, which rise, come before this one or are it.
fn count_through(edges: &[i32], limit: i32) -> usize
    requires { AreRising edges.now }
    ensures within { result ≤ length edges.now }
    ensures through { AllByRecursion (λ edge. edge ≤ℤ limit) (take result edges.now) }
    ensures after { AllByRecursion (λ edge. limit <ℤ edge) (drop result edges.now) }
{
    count_up_to(edges, limit as i64)
}

/// These lines, and one more where it is wanted.
fn push_if(mut edges: Vec<i32>, wanted: bool, edge: i32) -> Result<Vec<i32>, NoMemory>
    ensures { IfOk result (λ now. now.items ≡ edges.items ++ one_if wanted edge) }
{
    if wanted {
        edges.push(edge)?;
    }
    Ok(edges)
}

/// The lines that are left when the columns of a span are taken too, of which so many stand before
/// it and so many up to its end.
fn with_span(
    alloc: Global,
    mut edges: Vec<i32>,
    first: usize,
    last: usize,
    columns: Span,
) -> Result<Vec<i32>, NoMemory>
    requires { last ≤ length edges.items }
    ensures { IfOk result (λ now. now.items ≡ with_span edges.items first last columns) }
{
    let behind = Vec::from_slice(alloc, &edges[last..])?;
    edges.truncate(first);
    let edges = push_if(edges, first % 2 == 0, columns.start)?;
    let mut edges = push_if(edges, last % 2 == 0, columns.end)?;
    edges.extend_from_slice(behind.as_slice())?;
    Ok(edges)
}

/// The lines at which changes what is taken, when the columns of a span are taken too.
fn taken_too(alloc: Global, edges: Vec<i32>, columns: Span) -> Result<Vec<i32>, NoMemory>
    requires rising { AreRising edges.items }
    requires some { columns.start <ℤ columns.end }
    ensures rising { IfOk result (λ now. AreRising now.items) }
    ensures taken { IfOk result
        (λ now. (column : ℤ) →
        taken now.items column ≡ (taken edges.items column || within columns column)) }
{
    let first = count_before(edges.as_slice(), columns.start);
    let last = count_through(edges.as_slice(), columns.end);
    let now = with_span(alloc, edges, first, last, columns)?;
    Ok(now)
}

/// The line from which on so many columns reach no span that is taken, past those that they do, one
/// after another. It begins inside one or not, and what is taken changes at each of these lines.
fn passed(edges: &[i32], begins_inside: bool, start: i32, columns: u32) -> i32
    ensures { result ≡ passed begins_inside edges.now start columns }
{
    let mut line = start;
    let mut inside = begins_inside;
    for edge in edges {
        if inside {
            line = line.max(*edge);
        } else if *edge as i64 >= line as i64 + columns as i64 {
            return line;
        }
        inside = !inside;
    }
    if inside { i32::MAX } else { line }
}

impl TakenColumns {
    /// No column is taken. Takes no memory.
    pub(crate) fn new(alloc: Global) -> TakenColumns
        ensures { result ≡ [] }
    {
        TakenColumns {
            edges: Vec::new(alloc),
        }
    }

    #[tactic(auto, using(crate::proofs::Edges::open_if_empty))]
    /// Whether no column of a span is taken.
    pub(crate) fn is_open(&self, columns: Span) -> bool
        ensures { result ≡ is_open self.now columns }
    {
        if columns.start >= columns.end {
            return true;
        }
        let edges = self.edges.as_slice();
        let first = count_through(edges, columns.start);
        if first % 2 != 0 {
            return false;
        }
        if first == edges.len() {
            return true;
        }
        comes_by(edges, first, columns.end)
    }

    /// The least line, from one on, from which on so many columns are not taken.
    pub(crate) fn pass(&self, start: i32, columns: u32) -> i32
        requires { 0 < columns }
        ensures { IsPassedOver self.now columns start result }
    {
        let edges = self.edges.as_slice();
        let first = count_through(edges, start);
        passed(&edges[first..], first % 2 != 0, start, columns)
    }

    /// Takes the columns of a span. After want of memory more or fewer columns may be taken.
    pub(crate) fn add(&mut self, alloc: Global, columns: Span) -> Result<(), NoMemory>
        ensures { OnOk result
            ((column : ℤ) →
            taken self.new column ≡ (taken self.old column || within columns column)) }
    {
        if columns.start >= columns.end {
            return Ok(());
        }
        let edges = mem::replace(&mut self.edges, Vec::new(alloc));
        self.edges = taken_too(alloc, edges, columns)?;
        Ok(())
    }

    #[tactic(auto, using(crate::proofs::Edges::same_lines))]
    /// Whether these are the same columns.
    pub(crate) fn is_same(&self, other: &TakenColumns) -> bool
        ensures { result ≡ true → self.now ≡ other.now }
    {
        self.edges.as_slice() == other.edges.as_slice()
    }

    /// Whether no column is taken.
    pub(crate) fn is_empty(&self) -> bool
        ensures { result ≡ true → self.now ≡ [] }
    {
        self.edges.is_empty()
    }

    /// The same columns.
    pub(crate) fn copy(&self, alloc: Global) -> Result<TakenColumns, NoMemory>
        ensures { IfOk result (λ copy. copy ≡ self.now) }
    {
        let edges = Vec::from_slice(alloc, self.edges.as_slice())?;
        Ok(TakenColumns { edges })
    }
}
