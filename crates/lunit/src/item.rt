use crate::{Lu, Span};

/// The minimum contribution of an item to the tracks that it spans, in units (CSS Grid 2, 12.5).
#[derive(Clone, Copy, Debug, PartialEq, Eq)]
pub enum Floor {
    /// This length, whatever the tracks are.
    Known(Lu),
    /// By the automatic minimum size, which depends on the spanned tracks (CSS Grid 2, 6.6): `size` is the content
    /// size with borders and paddings, limited by a declared maximum; `inner` is the sum of borders and paddings.
    Content { size: Lu, margins: Lu, inner: Lu },
}

/// An item as track sizing sees it: the lines that it lies between, and its min-content, max-content and minimum
/// contributions, in units (CSS Grid 2, 12.5).
#[derive(Clone, Copy, Debug, PartialEq, Eq)]
pub struct Item {
    /// The lines that it lies between.
    pub span: Span,
    /// The min-content contribution.
    pub low: Lu,
    /// The max-content contribution.
    pub high: Lu,
    /// The minimum contribution.
    pub floor: Floor,
}
