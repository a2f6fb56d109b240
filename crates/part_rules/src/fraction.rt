use lunit::Lu;

/// A track as the size of an `fr` sees it (CSS Grid 2, section 12.7.1).
#[derive(Clone, Copy, Debug, PartialEq, Eq)]
pub struct FrRow {
    /// The base size.
    pub base: Lu,
    /// The factor of a flexible track, in thousandths, or `None` for another track.
    pub factor: Option<u32>,
}

/// The size of a thousandth of an `fr`, as a quotient: `space` over `weight`.
#[derive(Clone, Copy, Debug, PartialEq, Eq)]
pub struct Fraction {
    /// The space that the flexible tracks share, in units of 1/64 px.
    pub space: Lu,
    /// The sum of their factors in thousandths, but at least 1000.
    pub weight: u64,
}
