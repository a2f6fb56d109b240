//! The items that are left (CSS Grid 2, 8.5, step 4).
ghost use Rattle.std.specs.Prelude.{◌≡◌, ◌≤◌, ◌<ℤ◌, ◌+◌, ◌++◌, ◌∷◌, [], List, Some, map, length, IsTrue, IfOk, OnOk};
ghost use Rattle.part_rules.specs.Placement.{rest_placed, with_area};
ghost use Rattle.grid_placement.specs.Entries.{all_seen, can_be_placed, count_left, final_area, one_left, seen};
ghost use Rattle.grid_placement.specs.Fields.{AllHaveRoom, HasRoom, IsNextStep, IsSet, Knows, field_of, next_of, position_from, row_from};
ghost use Rattle.lunit.specs.declared.geometry.Area.{Area};
ghost use Rattle.grid_placement.specs.Wishes.{is_placeable};
ghost use Rattle.grid_placement.specs.declared.search.Position.{Position};

use crate::entry::{Entry, area_in_flow, free_length, hold};
use crate::field::Field;
use crate::line::FARTHEST;
use crate::reached::{
    Reached, SizeReached, line_reached, position_reached, reach_line, reach_position,
};
use crate::search::{Position, Sought, area_from, rows_from};
use lunit::{Area, NoMemory, Span, Spot};
use occupancy::Occupancy;
use part_rules::Wish;
use std::alloc::Global;
use std::collections::BTreeMap;

/// No area.
const NO_AREA: Area = Area {
    columns: Span { start: 0, end: 0 },
    rows: Span { start: 0, end: 0 },
};

/// The row at which the search for an item with a definite column begins: in dense mode the first
/// one, or the one that a search of this size has come to; in sparse mode the cursor's, or the next
/// where the column goes back.
fn row_from(field: Field, cursor: Position, reached: &Reached, columns: Span, tracks: u32) -> i32
    requires { cursor.row <ℤ FARTHEST }
    ensures { result ≡ row_from field.dense field cursor reached.now columns tracks }
{
    if field.dense {
        return line_reached(&reached.rows, columns, tracks, field.row);
    }
    if columns.start < cursor.column {
        return cursor.row + 1;
    }
    cursor.row
}

/// The position at which the search for an item that is free in both axes begins: in dense mode the
/// first one, or the last one that a search for no larger size has come to; in sparse mode the
/// cursor.
fn position_from(
    field: Field,
    cursor: Position,
    reached: &Reached,
    columns: u32,
    rows: u32,
) -> Position
    ensures { result ≡ position_from field.dense field cursor reached.now columns rows }
{
    if field.dense {
        let first = Position {
            column: field.first,
            row: field.row,
        };
        position_reached(&reached.positions, columns, rows, first)
    } else {
        cursor
    }
}

/// The area that an item gets, if its row is not definite.
fn next_area<O: Occupancy>(
    field: Field,
    cursor: Position,
    reached: &Reached,
    wish: Wish,
    cells: &O,
) -> Option<Area>
    requires count { length (O.areas cells.now) + one_left wish.row ≤ 65536 }
    requires set { IsSet (O.areas cells.now) field cursor }
    requires fit { IsTrue (is_placeable wish) }
    requires room { HasRoom field.first field.last wish.column wish.row }
    requires knows { Knows field.dense field reached.now (O.areas cells.now) }
    ensures { result ≡ next_of field (O.areas cells.now) cursor wish.column wish.row }
{
    match (wish.column, wish.row) {
        (Spot::At(columns), Spot::Free(tracks)) => {
            let from = row_from(field, cursor, reached, columns, tracks);
            Some(Area {
                columns,
                rows: rows_from(cells, columns, tracks, from),
            })
        }
        (Spot::Free(columns), Spot::Free(rows)) => {
            let sought = Sought {
                first: field.first,
                last: field.last,
                columns,
                rows,
            };
            let from = position_from(field, cursor, reached, columns, rows);
            Some(area_from(cells, sought, from))
        }
        _ => None,
    }
}

/// Keeps how far the search for an item came, in dense mode.
fn keep(field: Field, reached: &mut Reached, wish: Wish, area: Area) -> Result<(), NoMemory>
    ensures { OnOk result
        ((held : List Area) (cursor : Position) → Knows field.dense field reached.old held →
        IsSet held field cursor → HasRoom field.first field.last wish.column wish.row →
        Some area ≡ next_of field held cursor wish.column wish.row →
        Knows field.dense field reached.new (held ++ area ∷ [])) }
{
    if field.dense {
        let rows = free_length(wish.row);
        match wish.column {
            Spot::At(columns) => {
                reach_line(&mut reached.rows, columns, rows, area.rows.start)?;
            }
            Spot::Free(columns) => {
                let position = Position {
                    column: area.columns.start,
                    row: area.rows.start,
                };
                let here = SizeReached {
                    columns,
                    rows,
                    position,
                };
                reach_position(&mut reached.positions, here)?;
            }
        }
    }
    Ok(())
}

/// Places an item, if its row is not definite; the cursor stays at the place found.
fn place_next<O: Occupancy>(
    field: Field,
    cursor: &mut Position,
    reached: &mut Reached,
    wish: Wish,
    cells: &mut O,
) -> Result<Option<Area>, NoMemory>
    requires count { length (O.areas cells.old) + one_left wish.row ≤ 65536 }
    requires set { IsSet (O.areas cells.old) field cursor.old }
    requires fit { IsTrue (is_placeable wish) }
    requires room { HasRoom field.first field.last wish.column wish.row }
    requires knows { Knows field.dense field reached.old (O.areas cells.old) }
    ensures { IfOk result
        (λ area. IsNextStep field (O.areas cells.old) cursor.old wish.column wish.row area
        (O.areas cells.new) cursor.new reached.new) }
{
    let area = next_area(field, *cursor, reached, wish, cells);
    hold(cells, area)?;
    if let Some(area) = area {
        keep(field, reached, wish, area)?;
        *cursor = Position {
            column: area.columns.start,
            row: area.rows.start,
        };
    }
    Ok(area)
}

/// The area of an item in the end, as the grid sees it.
fn final_area(column_flow: bool, entry: Entry, area: Option<Area>) -> Area
    ensures { result ≡ final_area column_flow (with_area (seen entry) area) }
{
    let found = match area {
        Some(area) => Some(area),
        None => entry.area,
    };
    area_in_flow(column_flow, found.unwrap_or(NO_AREA))
}

/// Places the items that are left, in their order, and gives the areas of all items as the grid
/// sees them.
pub fn place_rest<O: Occupancy>(
    alloc: Global,
    entries: &[Entry],
    field: Field,
    column_flow: bool,
    cells: &mut O,
) -> Result<Vec<Area>, NoMemory>
    requires count { length (O.areas cells.old) + count_left (all_seen entries.now) ≤ 65536 }
    requires set { (start : Position) → start.column ≡ field.first → start.row ≡ field.row →
        IsSet (O.areas cells.old) field start }
    requires fit { IsTrue (can_be_placed (all_seen entries.now)) }
    requires room { AllHaveRoom field.first field.last (all_seen entries.now) }
    ensures { IfOk result
        (λ areas. areas.items ≡
        map (final_area column_flow)
        (rest_placed (field_of field) (O.areas cells.old)
        (record { column = field.first; row = field.row }) (all_seen entries.now))) }
{
    let mut areas = Vec::with_capacity(alloc, entries.len())?;
    let mut cursor = Position {
        column: field.first,
        row: field.row,
    };
    let mut reached = Reached {
        rows: BTreeMap::new(alloc),
        positions: Vec::new(alloc),
    };
    for entry in entries {
        let area = place_next(field, &mut cursor, &mut reached, entry.wish, cells)?;
        areas.push(final_area(column_flow, *entry, area))?;
    }
    Ok(areas)
}
