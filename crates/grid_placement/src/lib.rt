//! The areas of the items of a grid (CSS Grid 2, 8.5).
//!
//! Definite places are taken as they are; an item with a definite row is placed in that row, and
//! the others follow in order. All numbers of lines are counted from the first line of the explicit
//! grid, which is 0. The areas are not cut to any limit.
#![tactic(auto)]

ghost use Rattle.std.specs.Prelude.{◌≡◌, ◌≤◌, [], length, IsTrue, IfOk};
ghost use Rattle.part_rules.specs.Placement.{NoOverlap, placed};
ghost use Rattle.grid_placement.specs.Dense.{FillsHoles};
ghost use Rattle.grid_placement.specs.Fitting.{FitWishes};
ghost use Rattle.grid_placement.specs.Wishes.{are_placeable, explicit_columns};

mod entry;
mod field;
mod level;
mod line;
mod reached;
mod rest;
mod rows;
mod search;
mod starts;

use crate::entry::begin;
use crate::field::field_of;
use crate::level::{common_height, place_level};
use crate::rest::place_rest;
use crate::rows::place_rows;
use lunit::{Area, NoMemory};
use occupancy::Occupancy;
pub use part_rules::{Shape, Wish};
use std::alloc::Global;

/// The areas of the items of a grid, which come in order-modified document order (CSS Grid 2, 8.5).
///
/// Each item has an area, with its definite lines and as many tracks as it spans where it is free.
/// The area of an item that is not definite in both axes overlaps no other. In dense mode each item
/// stands at the first place, from where its search began, that was free of the areas placed before
/// it.
///
/// Of the cells nothing may be taken before. They serve the search, in the flow's axes; what they
/// hold after the call is not said. Each definite span begins before it ends, at line 20,000 or
/// before; each free span is of at most 20,000 tracks; there are at most 65,536 items. The number
/// of explicit tracks has no limit.
///
/// `NoMemory` is answered where memory is wanting.
pub fn place<O: Occupancy>(
    alloc: Global,
    items: &[Wish],
    shape: Shape,
    cells: &mut O,
) -> Result<Vec<Area>, NoMemory>
    requires empty { O.areas cells.old ≡ [] }
    requires count { length items.now ≤ 65536 }
    requires spans { IsTrue (are_placeable items.now) }
    ensures areas { IfOk result (λ areas. areas.items ≡ placed items.now shape) }
    ensures fits { IfOk result (λ areas. FitWishes items.now areas.items) }
    ensures apart { IfOk result (λ areas. NoOverlap items.now areas.items) }
    ensures dense { IfOk result (λ areas. FillsHoles items.now shape areas.items) }
{
    let areas = place_all(alloc, items, shape, cells)?;
    Ok(areas)
}

/// The areas of items. Those that are all of one height and free in both axes are placed without a
/// look at the cells, in sparse mode.
fn place_all<O: Occupancy>(
    alloc: Global,
    items: &[Wish],
    shape: Shape,
    cells: &mut O,
) -> Result<Vec<Area>, NoMemory>
    requires empty { O.areas cells.old ≡ [] }
    requires count { length items.now ≤ 65536 }
    requires spans { IsTrue (are_placeable items.now) }
    ensures { IfOk result (λ areas. areas.items ≡ placed items.now shape) }
{
    if !shape.dense {
        let rows = common_height(items, shape.column_flow);
        if rows >= 1 {
            return place_level(alloc, items, shape, rows);
        }
    }
    place_in_steps(alloc, items, shape, cells)
}

/// The areas of any items, step by step.
fn place_in_steps<O: Occupancy>(
    alloc: Global,
    items: &[Wish],
    shape: Shape,
    cells: &mut O,
) -> Result<Vec<Area>, NoMemory>
    requires empty { O.areas cells.old ≡ [] }
    requires count { length items.now ≤ 65536 }
    requires spans { IsTrue (are_placeable items.now) }
    ensures { IfOk result (λ areas. areas.items ≡ placed items.now shape) }
{
    let flow = shape.column_flow;
    let mut entries = begin(alloc, items, flow, cells)?;
    place_rows(alloc, &mut entries, shape.dense, cells)?;
    let field = field_of(&entries, explicit_columns(shape), shape.dense);
    let areas = place_rest(alloc, &entries, field, flow, cells)?;
    Ok(areas)
}

/// The number of explicit columns as the flow sees them.
fn explicit_columns(shape: Shape) -> u32
    ensures { result ≡ explicit_columns shape.column_flow shape }
{
    if shape.column_flow {
        shape.rows
    } else {
        shape.columns
    }
}
