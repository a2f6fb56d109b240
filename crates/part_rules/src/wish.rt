use lunit::Spot;

/// Where an item of a grid is to stand: in each axis at two lines, or free with a span (CSS Grid 2, section 8.3).
#[derive(Clone, Copy, Debug, PartialEq, Eq)]
pub struct Wish {
    pub column: Spot,
    pub row: Spot,
}

/// What placement knows of a grid (CSS Grid 2, section 8.5).
#[derive(Clone, Copy, Debug, PartialEq, Eq)]
pub struct Shape {
    /// The number of explicit columns.
    pub columns: u32,
    /// `grid-auto-flow: column`.
    pub column_flow: bool,
    /// `grid-auto-flow: dense`.
    pub dense: bool,
    /// The number of explicit rows.
    pub rows: u32,
}
