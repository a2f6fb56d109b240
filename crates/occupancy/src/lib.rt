//! What the search for free places asks of the cells of a grid (CSS Grid 2, 8.5).
#![tactic(auto)]

ghost use Rattle.std.specs.Prelude.{◌≡◌, ◌<ℤ◌, pos, ◌++◌, ◌∷◌, [], List, OnOk, OnErr};
ghost use Rattle.lunit.specs.Areas.{is_free};
ghost use Rattle.lunit.specs.declared.geometry.Area.{Area};
ghost use Rattle.occupancy.specs.Searches.{from_column, from_row, IsNext, IsSteady};

use lunit::{Area, NoMemory};

/// The cells of a grid that are taken. What it means is the list of the areas that were added.
pub trait Occupancy {
    /// The areas that were added, in order.
    ghost areas: { Self → List Area };

    /// Whether no cell of the area is taken: exactly where it overlaps none of the added areas.
    fn free(&self, area: Area) -> bool
        ensures { result ≡ is_free area (areas self.now) };

    /// The least column, from the area's first one on, from which on as many columns are free in
    /// its rows.
    fn next_column(&self, area: Area) -> i32
        ensures { IsNext (from_column area) (areas self.now) area.columns.start result };

    /// The least row, from the area's first one on, from which on as many rows are free in its
    /// columns.
    fn next_row(&self, area: Area) -> i32
        ensures { IsNext (from_row area) (areas self.now) area.rows.start result };

    /// A row after this one up to which no cell becomes free: an area that begins in between is
    /// free only where it is one row further up, too. So a search that found none in this row goes
    /// on there.
    fn next_edge(&self, row: i32) -> i32
        requires { row <ℤ pos 2147483647 }
        ensures { IsSteady (areas self.now) row result };

    /// Takes the cells of the area. `NoMemory`, where memory is wanting, leaves the areas as they
    /// were.
    fn add(&mut self, area: Area) -> Result<(), NoMemory>
        ensures ok { OnOk result (areas self.new ≡ areas self.old ++ area ∷ []) }
        ensures err { OnErr result (areas self.new ≡ areas self.old) };
}
