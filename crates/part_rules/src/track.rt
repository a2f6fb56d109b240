use lunit::{Along, Lu};

/// The min track sizing function (CSS Grid 2, section 7.2), resolved to units of 1/64 px.
#[derive(Clone, Copy, Debug, PartialEq, Eq)]
pub enum Least {
    Fixed(Lu),
    Auto,
    MinContent,
    MaxContent,
}

/// The max track sizing function (CSS Grid 2, section 7.2), resolved to units of 1/64 px.
#[derive(Clone, Copy, Debug, PartialEq, Eq)]
pub enum Most {
    Fixed(Lu),
    Auto,
    MinContent,
    MaxContent,
    /// `fit-content` with this argument.
    Fit(Lu),
    /// A flexible track with this factor, in thousandths.
    Flex(u32),
}

/// How one track is sized.
#[derive(Clone, Copy, Debug, PartialEq, Eq)]
pub struct Rule {
    /// The min track sizing function.
    pub least: Least,
    /// The max track sizing function.
    pub most: Most,
    /// An empty track of `auto-fit`: its size is 0 and no gutter stands beside it.
    pub collapsed: bool,
}

/// The space that tracks are sized for (CSS Grid 2, section 12.2).
#[derive(Clone, Copy, Debug, PartialEq, Eq)]
pub enum Space<const AXIS: u8> {
    Definite(Along<AXIS>),
    MinContent,
    MaxContent,
}

/// What the tracks of an axis are sized for.
#[derive(Clone, Copy, Debug, PartialEq, Eq)]
pub struct Fit<const AXIS: u8> {
    /// The available space.
    pub space: Space<AXIS>,
    /// The declared minimum of the grid, as a content size, where it is a length.
    pub min: Option<Lu>,
    /// The declared maximum of the grid, as a content size, where it is a length.
    pub max: Option<Lu>,
    /// The gutter between two tracks.
    pub gap: Lu,
    /// Whether the content distribution is `normal` or `stretch`.
    pub stretch: bool,
}
