use lunit::Lu;

/// An item of a flex container, along the main axis (CSS Flexbox 1, section 9). Lengths are border-box sizes in units of 1/64 px.
#[derive(Clone, Copy, Debug, PartialEq, Eq)]
pub struct FlexItem {
    /// The flex base size, which is at least `inner`.
    pub base: Lu,
    /// The least main size: the min main size, or the automatic minimum in its place.
    pub min: Lu,
    /// The greatest main size: the max main size, or `None` where it has no end.
    pub max: Option<Lu>,
    /// The sum of the two margins, which can be below zero.
    pub margins: Lu,
    /// The sum of borders and paddings.
    pub inner: Lu,
    /// The grow factor, in thousandths.
    pub grow: u32,
    /// The shrink factor, in thousandths.
    pub shrink: u32,
}
