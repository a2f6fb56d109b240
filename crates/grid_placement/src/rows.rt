//! The items with a definite row (CSS Grid 2, 8.5, step 2).
ghost use Rattle.std.specs.Prelude.{◌≡◌, ◌≤◌, ◌≤ℤ◌, ◌+◌, ◌++◌, ℤ, pos, List, [], length, option_to_list, IsTrue, OnOk, if◌then◌else◌};
ghost use Rattle.lunit.specs.declared.geometry.Area.{Area};
ghost use Rattle.part_rules.specs.Placement.{row_area, rows_placed};
ghost use Rattle.grid_placement.specs.Near.{AllEndBy};
ghost use Rattle.grid_placement.specs.Entries.{all_seen, can_be_placed, count_in_rows, reach, rows_added};
ghost use Rattle.grid_placement.specs.Starts.{AllBy, IsReady, IsRowStep, Keeps};
ghost use Rattle.grid_placement.specs.Wishes.{is_placeable};

use crate::entry::{Entry, hold};
use crate::line::FARTHEST;
use crate::search::columns_from;
use crate::starts::RowStarts;
use lunit::{Area, NoMemory, Spot};
use occupancy::Occupancy;
use part_rules::Wish;
use std::alloc::Global;
use std::collections::BTreeMap;

/// The area of an item with a definite row, `None` for any other item.
fn row_area<O: Occupancy>(wish: Wish, dense: bool, starts: &RowStarts, cells: &O) -> Option<Area>
    requires near { AllEndBy FARTHEST (O.areas cells.now) }
    requires kept { AllBy FARTHEST starts.now }
    requires fit { IsTrue (is_placeable wish) }
    ensures { (mine : List Area) → Keeps dense starts.now (O.areas cells.now) mine →
        result ≡ row_area dense (O.areas cells.now) mine wish.column wish.row }
{
    match (wish.column, wish.row) {
        (Spot::Free(tracks), Spot::At(rows)) => {
            let start = starts.start(dense, rows, tracks);
            let columns = columns_from(cells, tracks, rows, start);
            Some(Area { columns, rows })
        }
        _ => None,
    }
}

/// Places an item, if it has a definite row and a free column.
fn place_one<O: Occupancy>(
    entry: &mut Entry,
    dense: bool,
    starts: &mut RowStarts,
    cells: &mut O,
) -> Result<(), NoMemory>
    requires room { length (O.areas cells.old) ≤ 65536 }
    requires ready { IsReady (O.areas cells.old) starts.old }
    requires fit { IsTrue (is_placeable entry.old.wish) }
    ensures step { OnOk result
        ((mine : List Area) → Keeps dense starts.old (O.areas cells.old) mine →
        IsRowStep dense (O.areas cells.old) mine entry.old entry.new (O.areas cells.new)
        starts.new) }
    ensures ready { OnOk result
        ((mine : List Area) → Keeps dense starts.old (O.areas cells.old) mine →
        IsReady (O.areas cells.new) starts.new) }
{
    let area = row_area(entry.wish, dense, starts, cells);
    hold(cells, area)?;
    starts.keep(dense, entry.wish, area)?;
    if area.is_some() {
        entry.area = area;
    }
    Ok(())
}

/// Places the items with a definite row and a free column, in their order.
pub fn place_rows<O: Occupancy>(
    alloc: Global,
    entries: &mut [Entry],
    dense: bool,
    cells: &mut O,
) -> Result<(), NoMemory>
    requires near { AllEndBy (reach (length (O.areas cells.old))) (O.areas cells.old) }
    requires room { length (O.areas cells.old) + count_in_rows (all_seen entries.old) ≤ 65536 }
    requires fit { IsTrue (can_be_placed (all_seen entries.old)) }
    ensures entries { OnOk result
        (all_seen entries.new ≡ rows_placed dense (O.areas cells.old) [] (all_seen entries.old)) }
    ensures cells { OnOk result
        (O.areas cells.new ≡
        O.areas cells.old ++ rows_added dense (O.areas cells.old) [] (all_seen entries.old)) }
    ensures near { OnOk result (AllEndBy (reach (length (O.areas cells.new))) (O.areas cells.new)) }
{
    let mut starts = RowStarts {
        ends: BTreeMap::new(alloc),
        reached: BTreeMap::new(alloc),
    };
    for entry in entries.iter_mut() {
        place_one(entry, dense, &mut starts, cells)?;
    }
    Ok(())
}
