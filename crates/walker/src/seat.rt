use lunit::Area;
use placing::Above;

/// Where a node stands under the grid of which it is a subgrid (CSS Grid 2, section 9).
#[derive(Clone, Copy)]
pub struct Seat<'r, 'a> {
    /// The counts of the automatic repeats of the grids above it that it sees, columns first, the topmost grid first.
    pub reps: &'r [(u32, u32)],
    /// The context of the grid above it, where it is a subgrid.
    pub above: &'a Above,
    /// Its area in that grid.
    pub area: Area,
}
