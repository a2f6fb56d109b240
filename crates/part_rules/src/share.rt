use lunit::Lu;

/// A row that takes part where a space is handed out in equal parts (own rule).
#[derive(Clone, Copy, Debug, PartialEq, Eq)]
pub struct Share {
    /// The most that the row takes, or `None` where it has no end.
    pub room: Option<Lu>,
    /// What the row has got.
    pub got: Lu,
}
