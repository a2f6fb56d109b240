//! Which cells are taken.

use cell_index::{IntervalCells, ListCells};
use lunit::{Area, NoMemory, Span};
use occupancy::Occupancy;
use std::process::Abort;
use std::test::Fail;

/// The lines around an area, columns first.
type Cells = (i32, i32, i32, i32);

/// An area that is asked for and then added, and whether it is free before.
struct Row {
    shows: &'static str,
    cells: Cells,
    free: bool,
}

fn area(cells: Cells) -> Area {
    let (left, right, top, bottom) = cells;
    Area {
        columns: Span {
            start: left,
            end: right,
        },
        rows: Span {
            start: top,
            end: bottom,
        },
    }
}

/// Each area is free or not, as its row says.
fn fill<O: Occupancy>(rt: &impl Abort, held: &mut O, rows: &[Row]) -> Result<(), NoMemory> {
    for row in rows {
        assert_eq!(rt; held.free(area(row.cells)), row.free, "{}", row.shows);
        held.add(area(row.cells))?;
    }
    Ok(())
}

#[test]
fn either_kind_of_cells_is_taken_once_added(rt: HostRuntime) -> Result<(), Fail> {
    static ROWS: &[Row] = &[
        Row {
            shows: "the first",
            cells: (0, 2, 0, 2),
            free: true,
        },
        Row {
            shows: "one that overlaps it in one cell, and is taken too",
            cells: (1, 3, 1, 4),
            free: false,
        },
        Row {
            shows: "no cells",
            cells: (5, 5, 0, 9),
            free: true,
        },
        Row {
            shows: "a cell of the second",
            cells: (2, 3, 3, 4),
            free: false,
        },
        Row {
            shows: "beside it, from the first row to the last",
            cells: (3, 6, -10_000, 10_000),
            free: true,
        },
        Row {
            shows: "from the first column to the last",
            cells: (-10_000, 10_000, 9_999, 10_000),
            free: false,
        },
    ];
    fill(&rt, &mut ListCells::new(rt.alloc()), ROWS)?;
    fill(&rt, &mut IntervalCells::new(rt.alloc()), ROWS)?;
    Ok(())
}

/// An area that is moved along the columns and along the rows, and where it is free first.
struct Move {
    shows: &'static str,
    cells: Cells,
    column: i32,
    row: i32,
}

/// Each area is free next where its move says, beside three that are taken.
fn search<O: Occupancy>(rt: &impl Abort, held: &mut O, moves: &[Move]) -> Result<(), NoMemory> {
    for cells in [(0, 2, 0, 2), (3, 5, 0, 1), (1, 4, 3, 4)] {
        held.add(area(cells))?;
    }
    for one in moves {
        let next = (
            held.next_column(area(one.cells)),
            held.next_row(area(one.cells)),
        );
        assert_eq!(rt; next, (one.column, one.row), "{}", one.shows);
    }
    Ok(())
}

#[test]
fn areas_are_free_next_past_what_they_meet(rt: HostRuntime) -> Result<(), Fail> {
    static MOVES: &[Move] = &[
        Move {
            shows: "one cell, beside and below the first",
            cells: (0, 1, 0, 1),
            column: 2,
            row: 2,
        },
        Move {
            shows: "two columns, which column 2 alone has no room for",
            cells: (0, 2, 0, 1),
            column: 5,
            row: 2,
        },
        Move {
            shows: "three rows, which row 2 alone has no room for",
            cells: (1, 2, 1, 4),
            column: 4,
            row: 4,
        },
        Move {
            shows: "free where it is",
            cells: (5, 6, 0, 9),
            column: 5,
            row: 0,
        },
        Move {
            shows: "no cells",
            cells: (0, 0, 0, 5),
            column: 0,
            row: 0,
        },
    ];
    search(&rt, &mut ListCells::new(rt.alloc()), MOVES)?;
    search(&rt, &mut IntervalCells::new(rt.alloc()), MOVES)?;
    Ok(())
}
