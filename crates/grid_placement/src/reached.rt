//! How far searches have come that began at the first place: an item of the same size finds no
//! earlier one, nor does one that is larger.
ghost use Rattle.std.specs.Prelude.{◌≡◌, ◌<◌, length, slice_set, OnOk, Some};
ghost use Rattle.std.specs.BTreeMap.{Updates};
ghost use Rattle.grid_placement.specs.Reached.{across_cmp, is_not_after, later, line_reached, position_reached, serves, IsKeptToo};

use crate::search::Position;
use lunit::{NoMemory, Span};
use std::collections::BTreeMap;

/// By the span that a search goes across, and the tracks that it looks for, the line that it has
/// come to.
pub type LinesReached = BTreeMap<((i32, i32), u32), i32>;

/// The line that a search for so many tracks across a span has come to; the first one where there
/// was none.
pub fn line_reached(lines: &LinesReached, across: Span, tracks: u32, first: i32) -> i32
    ensures { result ≡ line_reached lines.now across tracks first }
{
    lines
        .get(&((across.start, across.end), tracks))
        .copied()
        .unwrap_or(first)
}

/// Keeps the line that a search has come to.
pub fn reach_line(
    lines: &mut LinesReached,
    across: Span,
    tracks: u32,
    line: i32,
) -> Result<(), NoMemory>
    ensures { OnOk result
        (Updates across_cmp lines.old lines.new ((across.start, across.end), tracks) (Some line)) }
{
    lines.insert(((across.start, across.end), tracks), line)?;
    Ok(())
}

/// A search for so many columns and rows has come to a position.
#[derive(Clone, Copy)]
pub struct SizeReached {
    pub columns: u32,
    pub rows: u32,
    pub position: Position,
}

/// The positions that searches have come to, in no order.
pub type PositionsReached = Vec<SizeReached>;

/// Whether a position is not after another one, by rows and then by columns.
fn is_not_after(position: Position, other: Position) -> bool
    ensures { result ≡ is_not_after position other }
{
    if position.row == other.row {
        position.column <= other.column
    } else {
        position.row < other.row
    }
}

/// The later one of two positions.
fn later(position: Position, other: Position) -> Position
    ensures { result ≡ later position other }
{
    if is_not_after(position, other) {
        other
    } else {
        position
    }
}

/// Whether so many columns and rows are at least as many in both axes as those of a search.
fn serves(reached: SizeReached, columns: u32, rows: u32) -> bool
    ensures { result ≡ serves reached columns rows }
{
    reached.columns <= columns && reached.rows <= rows
}

/// The last position that a search has come to for no more columns and rows than these; the first
/// one where there was none.
pub fn position_reached(
    positions: &[SizeReached],
    columns: u32,
    rows: u32,
    first: Position,
) -> Position
    ensures { result ≡ position_reached positions.now columns rows first }
{
    let mut last = first;
    for reached in positions {
        if serves(*reached, columns, rows) {
            last = later(last, reached.position);
        }
    }
    last
}

/// Whether one search tells nothing that another one does not tell, of no greater size.
fn is_told(reached: SizeReached, by: SizeReached) -> bool {
    serves(by, reached.columns, reached.rows) && is_not_after(reached.position, by.position)
}

/// The place of one of the searches that tell nothing more than another one; the number of searches
/// where there is none.
fn told_place(positions: &[SizeReached], by: SizeReached) -> usize {
    for (place, reached) in positions.iter().enumerate() {
        if is_told(*reached, by) {
            return place;
        }
    }
    positions.len()
}

/// Puts a search in the place of another one.
fn put_at(positions: &mut PositionsReached, place: usize, reached: SizeReached)
    requires { place < length positions.old.items }
    ensures { positions.new.items ≡ slice_set positions.old.items place reached }
{
    positions[place] = reached;
}

/// Keeps what a search has come to, in the place of one that tells nothing more.
pub fn reach_position(
    positions: &mut PositionsReached,
    reached: SizeReached,
) -> Result<(), NoMemory>
    ensures { OnOk result (IsKeptToo reached positions.old.items positions.new.items) }
{
    let place = told_place(positions, reached);
    if place < positions.len() {
        put_at(positions, place, reached);
        return Ok(());
    }
    positions.push(reached)?;
    Ok(())
}

/// How far the searches of dense mode have come.
#[derive(Drop)]
pub struct Reached {
    /// The rows, for items with a definite column.
    pub rows: LinesReached,
    /// The positions, for items that are free in both axes.
    pub positions: PositionsReached,
}
