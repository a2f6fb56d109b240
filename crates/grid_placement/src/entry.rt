//! The items with the areas that they get, in the flow's order.
ghost use Rattle.std.specs.Prelude.{◌≡◌, ◌++◌, [], map, option_to_list, IfOk, OnOk};
ghost use Rattle.part_rules.specs.Placement.{areas_of, begun, fixed_area, free_length};
ghost use Rattle.grid_placement.specs.Entries.{all_seen};
ghost use Rattle.grid_placement.specs.Wishes.{area_in_flow, wish_in_flow};

use lunit::{Area, NoMemory, Spot};
use occupancy::Occupancy;
use part_rules::Wish;
use std::alloc::Global;

/// An item with its area once it is placed, as the flow sees it.
#[derive(Clone, Copy)]
pub struct Entry {
    pub wish: Wish,
    pub area: Option<Area>,
}

/// The item as the flow sees it: flow `column` exchanges the axes.
pub fn wish_in_flow(column_flow: bool, wish: Wish) -> Wish
    ensures { result ≡ wish_in_flow column_flow wish }
{
    if column_flow {
        Wish {
            column: wish.row,
            row: wish.column,
        }
    } else {
        wish
    }
}

/// The area as the grid sees it, of one that the flow sees.
pub fn area_in_flow(column_flow: bool, area: Area) -> Area
    ensures { result ≡ area_in_flow column_flow area }
{
    if column_flow {
        Area {
            columns: area.rows,
            rows: area.columns,
        }
    } else {
        area
    }
}

/// The area of an item with both axes definite (CSS Grid 2, 8.5, step 1).
fn fixed_area(wish: Wish) -> Option<Area>
    ensures { result ≡ fixed_area wish.column wish.row }
{
    match (wish.column, wish.row) {
        (Spot::At(columns), Spot::At(rows)) => Some(Area { columns, rows }),
        _ => None,
    }
}

/// The span of a free place, and 0 for a definite one.
pub fn free_length(spot: Spot) -> u32
    ensures { result ≡ free_length spot }
{
    match spot {
        Spot::At(_) => 0,
        Spot::Free(tracks) => tracks,
    }
}

/// Takes the cells of the area, if there is one.
pub fn hold<O: Occupancy>(cells: &mut O, area: Option<Area>) -> Result<(), NoMemory>
    ensures { OnOk result (O.areas cells.new ≡ O.areas cells.old ++ option_to_list area) }
{
    if let Some(area) = area {
        cells.add(area)?;
    }
    Ok(())
}

/// The items as placement begins: those with both axes definite have their areas, and these cells
/// are taken.
pub fn begin<O: Occupancy>(
    alloc: Global,
    items: &[Wish],
    column_flow: bool,
    cells: &mut O,
) -> Result<Vec<Entry>, NoMemory>
    requires { O.areas cells.old ≡ [] }
    ensures entries { IfOk result
        (λ entries. all_seen entries.items ≡ map begun (map (wish_in_flow column_flow) items.now)) }
    ensures cells { OnOk result
        (O.areas cells.new ≡ areas_of (map begun (map (wish_in_flow column_flow) items.now))) }
{
    let mut entries = Vec::with_capacity(alloc, items.len())?;
    for item in items {
        let wish = wish_in_flow(column_flow, *item);
        let area = fixed_area(wish);
        hold(cells, area)?;
        entries.push(Entry { wish, area })?;
    }
    Ok(entries)
}
