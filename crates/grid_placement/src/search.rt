//! The least free place, from where a search begins.
ghost use Rattle.std.specs.Prelude.{◌≡◌, ◌≤◌, ◌≤ℤ◌, ◌<ℤ◌, ◌+ℤ◌, ◌-ℤ◌, pos, MatchOption};
ghost use Rattle.part_rules.specs.Placement.{area_at, free_column, free_position, free_row, rows_to_search, to_end};
ghost use Rattle.grid_placement.specs.Near.{AllEndBy};
ghost use Rattle.grid_placement.specs.InRow.{IsFirst, NoneBetween, NoneFree};

use crate::line::{FARTHEST, tracks_from};
use lunit::{Area, Span};
use occupancy::Occupancy;

/// The span of so many columns in these rows, from the least column on, at or after this one, where
/// they are free.
pub fn columns_from<O: Occupancy>(cells: &O, tracks: u32, rows: Span, from: i32) -> Span
    requires ends { AllEndBy FARTHEST (O.areas cells.now) }
    requires near { from ≤ℤ FARTHEST }
    requires short { tracks ≤ 20000 }
    ensures { result ≡ to_end (free_column (O.areas cells.now) tracks rows from) tracks }
{
    let columns = tracks_from(from, tracks);
    let column = cells.next_column(Area { columns, rows });
    tracks_from(column, tracks)
}

/// The span of so many rows in these columns, from the least row on, at or after this one, where
/// they are free.
pub fn rows_from<O: Occupancy>(cells: &O, columns: Span, tracks: u32, from: i32) -> Span
    requires ends { AllEndBy FARTHEST (O.areas cells.now) }
    requires near { from ≤ℤ FARTHEST }
    requires short { tracks ≤ 20000 }
    ensures { result ≡ to_end (free_row (O.areas cells.now) columns tracks from) tracks }
{
    let rows = tracks_from(from, tracks);
    let row = cells.next_row(Area { columns, rows });
    tracks_from(row, tracks)
}

/// Where the search by rows goes on, and for how much.
#[derive(Clone, Copy)]
pub struct Sought {
    /// The first line of the columns.
    pub first: i32,
    /// The last line of the columns.
    pub last: i64,
    /// The columns that the item takes.
    pub columns: u32,
    /// The rows that the item takes.
    pub rows: u32,
}

/// A position in the flow's order: by rows, then by columns.
#[derive(Clone, Copy)]
pub struct Position {
    pub column: i32,
    pub row: i32,
}

/// The span of so many columns in the rows of an area, from the first column on, at or after its
/// own, where they are free; `None` where they are nowhere free before they pass the last line.
fn columns_before<O: Occupancy>(cells: &O, sought: Sought, area: Area) -> Option<Span>
    requires ends { AllEndBy FARTHEST (O.areas cells.now) }
    requires near { area.columns.start ≤ℤ FARTHEST }
    requires short { sought.columns ≤ 20000 }
    requires span { area.columns ≡ to_end area.columns.start sought.columns }
    ensures { MatchOption result
        (NoneFree (O.areas cells.now) sought.columns area.rows area.columns.start
        (sought.last -ℤ pos sought.columns +ℤ pos 1))
        (λ columns. IsFirst (O.areas cells.now) sought.columns area.rows area.columns.start
        sought.last columns) }
{
    let columns = tracks_from(cells.next_column(area), sought.columns);
    if columns.end as i64 <= sought.last {
        Some(columns)
    } else {
        None
    }
}

/// A row after the one of an area up to which, from the first column on, the search finds none,
/// where it has found none at or after the area's own column in its row.
fn row_after<O: Occupancy>(cells: &O, sought: Sought, area: Area) -> i32
    requires near { area.rows.start <ℤ FARTHEST }
    requires rows { area.rows ≡ to_end area.rows.start sought.rows }
    requires none { NoneFree (O.areas cells.now) sought.columns area.rows area.columns.start
        (sought.last -ℤ pos sought.columns +ℤ pos 1) }
    ensures later { area.rows.start <ℤ result }
    ensures near { result ≤ℤ FARTHEST }
    ensures none { NoneBetween (O.areas cells.now) sought.columns sought.rows sought.first
        (sought.last -ℤ pos sought.columns +ℤ pos 1) area.rows.start result }
{
    if area.columns.start > sought.first {
        return area.rows.start + 1;
    }
    cells.next_edge(area.rows.start).min(FARTHEST)
}

/// The first area, by rows and then by columns from a position on, that is free and does not pass
/// the last column.
pub fn area_from<O: Occupancy>(cells: &O, sought: Sought, from: Position) -> Area
    requires ends { AllEndBy FARTHEST (O.areas cells.now) }
    requires near_column { from.column ≤ℤ FARTHEST }
    requires near_row { from.row <ℤ FARTHEST }
    requires first { sought.first ≤ℤ from.column }
    requires fits { (sought.first +ℤ pos sought.columns) ≤ℤ sought.last }
    requires short_columns { sought.columns ≤ 20000 }
    requires short_rows { sought.rows ≤ 20000 }
    ensures { result ≡
        area_at
        (free_position (O.areas cells.now) (record { start = sought.first; end = sought.last })
        sought.columns sought.rows (rows_to_search (O.areas cells.now) from.row)
        (record { column = from.column; row = from.row })) sought.columns sought.rows }
{
    let mut area = Area {
        columns: tracks_from(from.column, sought.columns),
        rows: tracks_from(from.row, sought.rows),
    };
    'search: loop {
        if let Some(columns) = columns_before(cells, sought, area) {
            return Area {
                columns,
                rows: area.rows,
            };
        }
        area = Area {
            columns: tracks_from(sought.first, sought.columns),
            rows: tracks_from(row_after(cells, sought, area), sought.rows),
        };
    }
}
