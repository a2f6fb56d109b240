ghost use Rattle.std.specs.Prelude.{◌≡◌, ◌<◌, []};
ghost use Rattle.occupancy.specs.Searches.{IsNext};
ghost use Rattle.cell_index.specs.Passed.{areas_passed, end_of, moved};

use crate::size::{has_cells, meets, tracks};
use lunit::{Area, NoMemory, Span};
use occupancy::Occupancy;
use std::alloc::Global;
use std::marker::Model;

/// The areas as they came. Each question looks at all of them. Contracts see the list.
#[derive(Drop)]
pub struct ListCells {
    areas: Vec<Area>,
}

impl Model for ListCells {
    ghost use Rattle.std.specs.Prelude.{List};
    ghost use Rattle.lunit.specs.declared.geometry.Area.{Area};

    ghost Value = { List Area };

    ghost view = { λ cells. cells.areas.items };
}

/// Where an area ends along an axis.
fn end_of(down: bool, area: Area) -> i32
    ensures { result ≡ end_of down area }
{
    if down {
        area.rows.end
    } else {
        area.columns.end
    }
}

/// Goes from a line on past each of these areas that so many tracks reach, one after another.
fn areas_passed(areas: &[Area], down: bool, across: Span, start: i32, tracks: u32) -> i32
    ensures { result ≡ areas_passed down across tracks areas.now start }
{
    let mut line = start;
    for area in areas {
        if meets(down, across, line, tracks, *area) {
            line = end_of(down, *area);
        }
    }
    line
}

/// The least line, from one on, from which on so many tracks meet none of these areas.
pub(crate) fn next_listed(areas: &[Area], down: bool, across: Span, start: i32, tracks: u32) -> i32
    requires { 0 < tracks }
    ensures { IsNext (moved down across tracks) areas.now start result }
{
    let mut line = start;
    'search: loop {
        let next = areas_passed(areas, down, across, line, tracks);
        if next <= line {
            return line;
        }
        line = next;
    }
}

impl ListCells {
    /// No cell is taken. Takes no memory.
    pub fn new(alloc: Global) -> ListCells
        ensures { result ≡ [] }
    {
        ListCells {
            areas: Vec::new(alloc),
        }
    }
}

impl Occupancy for ListCells {
    ghost areas = { λ cells. cells };

    fn free(&self, area: Area) -> bool {
        self.areas.iter().all(|held| !area.overlaps(*held))
    }

    fn next_column(&self, area: Area) -> i32 {
        if !has_cells(area) {
            return area.columns.start;
        }
        let columns = tracks(area.columns);
        next_listed(&self.areas, false, area.rows, area.columns.start, columns)
    }

    fn next_row(&self, area: Area) -> i32 {
        if !has_cells(area) {
            return area.rows.start;
        }
        let rows = tracks(area.rows);
        next_listed(&self.areas, true, area.columns, area.rows.start, rows)
    }

    fn next_edge(&self, row: i32) -> i32 {
        row + 1
    }

    fn add(&mut self, area: Area) -> Result<(), NoMemory> {
        self.areas.push(area)?;
        Ok(())
    }
}
