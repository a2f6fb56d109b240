//! Items of one height that are free in both axes. In sparse mode they fill bands of rows, one band
//! after another, and no cell has to be asked for (CSS Grid 2, 8.5, step 4).
ghost use Rattle.std.specs.Prelude.{◌≡◌, ◌≤◌, ◌+ℤ◌, ◌≤ℤ◌, pos, int_le, true, false, length, map, IsTrue, IfOk};
ghost use Rattle.std.specs.Int.{int_max};
ghost use Rattle.part_rules.specs.Placement.{free_length, placed};
ghost use Rattle.grid_placement.specs.Heights.{area_after, has_height, have_height, in_bands, widest};
ghost use Rattle.grid_placement.specs.Wishes.{are_placeable, area_in_flow, is_placeable, is_within, wish_in_flow};

use crate::entry::{area_in_flow, free_length, wish_in_flow};
use crate::explicit_columns;
use crate::line::tracks_from;
use crate::search::Position;
use lunit::{Area, NoMemory, Spot};
use part_rules::{Shape, Wish};
use std::alloc::Global;

/// Whether an item is free in both axes, of a column at least, and of so many rows.
fn has_height(wish: Wish, rows: u32) -> bool
    ensures { result ≡ has_height rows wish.column wish.row }
{
    match (wish.column, wish.row) {
        (Spot::Free(columns), Spot::Free(own)) => columns >= 1 && own == rows,
        _ => false,
    }
}

/// Whether each item is free in both axes, of a column at least, and of so many rows, as the flow
/// sees them.
fn have_height(items: &[Wish], column_flow: bool, rows: u32) -> bool
    ensures { result ≡ have_height column_flow rows items.now }
{
    items
        .iter()
        .all(|item| has_height(wish_in_flow(column_flow, *item), rows))
}

/// The rows that the first item spans, as the flow sees it; 0 where it is definite in them, or
/// there is none.
fn first_height(items: &[Wish], column_flow: bool) -> u32 {
    match items.first() {
        Some(item) => free_length(wish_in_flow(column_flow, *item).row),
        None => 0,
    }
}

/// Whether all items are free in both axes and span the same number of rows, as the flow sees them:
/// this number then, else 0.
pub fn common_height(items: &[Wish], column_flow: bool) -> u32
    ensures { 1 ≤ result → have_height column_flow result items.now ≡ true }
{
    let rows = first_height(items, column_flow);
    if rows >= 1 && have_height(items, column_flow, rows) {
        rows
    } else {
        0
    }
}

/// The greatest span of the items in the flow's columns.
fn widest(items: &[Wish], column_flow: bool) -> u32
    ensures { result ≡ widest column_flow items.now }
{
    let mut widest = 0;
    for item in items {
        widest = free_length(wish_in_flow(column_flow, *item).column).max(widest);
    }
    widest
}

/// The last line of the columns: the explicit ones, or as many as the widest item spans.
fn last_line(items: &[Wish], column_flow: bool, explicit: u32) -> i64
    ensures { result ≡ int_max (pos explicit) (pos (widest column_flow items.now)) }
{
    (explicit as i64).max(widest(items, column_flow) as i64)
}

/// The tracks that an item spans in an axis in which it is free, else 0.
fn tracks(spot: Spot) -> u32
    requires { IsTrue (is_within spot) }
    ensures value { result ≡ free_length spot }
    ensures few { result ≤ 20000 }
{
    free_length(spot)
}

/// The first row of the band below one of so many rows.
fn row_below(row: i32, rows: u32) -> i32
    requires row { row ≤ℤ pos 1310720000 }
    requires rows { rows ≤ 20000 }
    ensures { result ≡ row +ℤ pos rows }
{
    row + rows as i32
}

/// Whether so many columns from one on do not pass the last line.
fn fits(column: i32, columns: u32, last: i64) -> bool
    ensures { result ≡ int_le (column +ℤ pos columns) last }
{
    column as i64 + columns as i64 <= last
}

/// The area of the item that comes after one that ends at a column of a band of rows.
fn area_after(end: Position, last: i64, columns: u32, rows: u32) -> Area
    requires column { end.column ≤ℤ pos 1310720000 }
    requires row { end.row ≤ℤ pos 1310720000 }
    requires columns { columns ≤ 20000 }
    requires rows { rows ≤ 20000 }
    ensures { result ≡ area_after last end.column end.row columns rows }
{
    if fits(end.column, columns, last) {
        return Area {
            columns: tracks_from(end.column, columns),
            rows: tracks_from(end.row, rows),
        };
    }
    let row = row_below(end.row, rows);
    Area {
        columns: tracks_from(0, columns),
        rows: tracks_from(row, rows),
    }
}

/// Where an area ends in its band of rows.
fn end_of(area: Area) -> Position
    ensures { result ≡ record { column = area.columns.end; row = area.rows.start } }
{
    Position {
        column: area.columns.end,
        row: area.rows.start,
    }
}

#[inline(always)]
/// The areas of items that fill bands of rows in the columns up to a line, as the grid sees them,
/// in one of the flows.
fn fill_along(
    alloc: Global,
    items: &[Wish],
    column_flow: bool,
    last: i64,
) -> Result<Vec<Area>, NoMemory>
    requires count { length items.now ≤ 65536 }
    requires spans { IsTrue (are_placeable items.now) }
    ensures { IfOk result
        (λ areas. areas.items ≡
        map (area_in_flow column_flow)
        (in_bands last (pos 0) (pos 0) (map (wish_in_flow column_flow) items.now))) }
{
    let mut areas = Vec::with_capacity(alloc, items.len())?;
    let mut end = Position { column: 0, row: 0 };
    for item in items {
        let wish = wish_in_flow(column_flow, *item);
        let area = area_after(end, last, tracks(wish.column), tracks(wish.row));
        areas.push(area_in_flow(column_flow, area))?;
        end = end_of(area);
    }
    Ok(areas)
}

/// The areas of items that fill bands of rows in the columns up to a line, as the grid sees them.
/// Each flow has a loop of its own, which does not ask for the flow at each item.
fn fill(alloc: Global, items: &[Wish], column_flow: bool, last: i64) -> Result<Vec<Area>, NoMemory>
    requires count { length items.now ≤ 65536 }
    requires spans { IsTrue (are_placeable items.now) }
    ensures { IfOk result
        (λ areas. areas.items ≡
        map (area_in_flow column_flow)
        (in_bands last (pos 0) (pos 0) (map (wish_in_flow column_flow) items.now))) }
{
    if column_flow {
        let areas = fill_along(alloc, items, true, last)?;
        return Ok(areas);
    }
    let areas = fill_along(alloc, items, false, last)?;
    Ok(areas)
}

/// The areas of items of one height, of a row at least, that are free in both axes, in sparse mode.
pub fn place_level(
    alloc: Global,
    items: &[Wish],
    shape: Shape,
    rows: u32,
) -> Result<Vec<Area>, NoMemory>
    requires count { length items.now ≤ 65536 }
    requires spans { IsTrue (are_placeable items.now) }
    requires height { 1 ≤ rows }
    requires level { have_height shape.column_flow rows items.now ≡ true }
    requires sparse { shape.dense ≡ false }
    ensures { IfOk result (λ areas. areas.items ≡ placed items.now shape) }
{
    let flow = shape.column_flow;
    let last = last_line(items, flow, explicit_columns(shape));
    let areas = fill(alloc, items, flow, last)?;
    Ok(areas)
}
