ghost use Rattle.std.specs.Prelude.{◌≡◌, []};

use crate::blocks::Blocks;
use crate::list::next_listed;
use crate::size::{has_cells, tracks};
use lunit::{Area, NoMemory};
use occupancy::Occupancy;
use std::alloc::Global;
use std::marker::Model;

/// The areas as they came, and beside them the cells that are taken, in blocks that grow as areas
/// follow each other, and by bands of rows in which the same columns are. A question looks at the
/// blocks and at the bands that it meets, and at no other area. After want of memory they are given
/// up, and each question looks at all areas. Contracts see the list of areas.
#[derive(Drop)]
pub struct IntervalCells {
    areas: Vec<Area>,
    blocks: Blocks,
    whole: bool,
    alloc: Global,
}

impl Model for IntervalCells {
    ghost use Rattle.std.specs.Prelude.{List};
    ghost use Rattle.lunit.specs.declared.geometry.Area.{Area};

    ghost Value = { List Area };

    ghost use Rattle.cell_index.specs.Cells.{AreTold};

    ghost view = { λ cells. cells.areas.items };

    ghost invariant = { AreTold };
}

impl IntervalCells {
    /// No cell is taken. Takes no memory.
    pub fn new(alloc: Global) -> IntervalCells
        ensures { result ≡ [] }
    {
        IntervalCells {
            areas: Vec::new(alloc),
            blocks: Blocks::new(alloc),
            whole: true,
            alloc,
        }
    }
}

impl Occupancy for IntervalCells {
    ghost areas = { λ cells. cells };

    #[inline(always)]
    fn free(&self, area: Area) -> bool {
        if self.whole && has_cells(area) {
            return self.blocks.is_free(area);
        }
        self.areas.iter().all(|held| !area.overlaps(*held))
    }

    fn next_column(&self, area: Area) -> i32 {
        let start = area.columns.start;
        if !has_cells(area) {
            return start;
        }
        let columns = tracks(area.columns);
        if self.whole {
            return self.blocks.next_column(area.rows, start, columns);
        }
        next_listed(&self.areas, false, area.rows, start, columns)
    }

    fn next_row(&self, area: Area) -> i32 {
        let start = area.rows.start;
        if !has_cells(area) {
            return start;
        }
        let rows = tracks(area.rows);
        if self.whole {
            return self.blocks.next_row(area.columns, start, rows);
        }
        next_listed(&self.areas, true, area.columns, start, rows)
    }

    fn next_edge(&self, row: i32) -> i32 {
        if self.whole {
            return self.blocks.next_edge(row);
        }
        row + 1
    }

    #[tactic(auto, using(crate::proofs::Found::area_more))]
    fn add(&mut self, area: Area) -> Result<(), NoMemory> {
        self.areas.push(area)?;
        if !self.whole {
            return Ok(());
        }
        match self.blocks.add(self.alloc, area) {
            Ok(()) => Ok(()),
            Err(NoMemory) => {
                self.whole = false;
                let _ = self.areas.pop();
                Err(NoMemory)
            }
        }
    }
}
