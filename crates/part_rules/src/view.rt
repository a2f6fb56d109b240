use lunit::{Lu, Sequence, Span};

/// The tracks of an axis as a subgrid sees them (CSS Grid 2, section 9): the start and the end of each, in units of 1/64 px
/// from the start of the content box, and the gutter.
#[derive(Debug, Drop, PartialEq, Eq)]
pub struct View<const AXIS: u8> {
    pub edges: Sequence<(i64, i64)>,
    pub gap: Lu,
}

/// A subgrid in one axis, on the way from an item up to the grid that sizes the tracks.
#[derive(Clone, Copy, Debug, PartialEq, Eq)]
pub struct Level {
    /// The lines of the parent that the subgrid spans.
    pub span: Span,
    /// The subgrid's gutter.
    pub gap: Lu,
    /// The parent's gutter.
    pub outer_gap: Lu,
    /// The subgrid's margin, border and padding at its start.
    pub before: Lu,
    /// The subgrid's margin, border and padding at its end.
    pub after: Lu,
}
