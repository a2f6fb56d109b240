use lunit::{Lu, Name};

/// What is asked of a leaf.
#[derive(Clone, Copy, Debug, PartialEq, Eq)]
pub enum Width {
    /// Its narrowest width.
    Narrowest,
    /// Its widest width.
    Widest,
    /// Its height at this content width.
    At(Lu),
}

/// What a ruler was asked.
#[derive(Clone, Copy, Debug, PartialEq, Eq)]
pub enum Event {
    /// The layout with this number began.
    Begin(u32),
    /// The leaf of this name was measured.
    Measured(Name, Width),
}
