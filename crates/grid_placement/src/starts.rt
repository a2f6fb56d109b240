//! Where the searches in definite rows begin.
ghost use Rattle.std.specs.Prelude.{◌≡◌, ◌++◌, ℤ, List, option_to_list, OnOk};
ghost use Rattle.lunit.specs.declared.geometry.Area.{Area};
ghost use Rattle.part_rules.specs.Placement.{row_area};
ghost use Rattle.grid_placement.specs.Starts.{AllBy, EndsBy, Keeps, start_at};

use crate::entry::free_length;
use crate::reached::{LinesReached, line_reached, reach_line};
use lunit::{Area, NoMemory, Span};
use part_rules::Wish;
use std::collections::BTreeMap;

/// Where the searches in definite rows begin.
#[derive(Drop)]
pub struct RowStarts {
    /// In sparse mode, by the row start, where the last area ended that was placed at it.
    pub ends: BTreeMap<i32, i32>,
    /// In dense mode, how far the searches have come.
    pub reached: LinesReached,
}

impl RowStarts {
    /// Where the search for so many columns in these rows begins.
    pub fn start(&self, dense: bool, rows: Span, tracks: u32) -> i32
        ensures { result ≡ start_at dense self.now rows tracks }
    {
        if dense {
            line_reached(&self.reached, rows, tracks, 0)
        } else {
            self.ends.get(&rows.start).copied().unwrap_or(0)
        }
    }

    /// Keeps where an item was placed.
    pub fn keep(&mut self, dense: bool, wish: Wish, area: Option<Area>) -> Result<(), NoMemory>
        ensures kept { OnOk result
            ((held mine : List Area) → Keeps dense self.old held mine →
            area ≡ row_area dense held mine wish.column wish.row →
            Keeps dense self.new (held ++ option_to_list area) (mine ++ option_to_list area)) }
        ensures by { OnOk result
            ((line : ℤ) → AllBy line self.old → EndsBy line area → AllBy line self.new) }
    {
        if let Some(area) = area {
            if dense {
                let tracks = free_length(wish.column);
                reach_line(&mut self.reached, area.rows, tracks, area.columns.start)?;
            } else {
                self.ends.insert(area.rows.start, area.columns.end)?;
            }
        }
        Ok(())
    }
}
