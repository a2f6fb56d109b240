use lunit::Lu;

/// The size against which the repetitions of an automatic repeat are counted (CSS Grid 2, section 7.2.3.2).
#[derive(Clone, Copy, Debug, PartialEq, Eq)]
pub enum RepeatSpace {
    /// As many as fit this size.
    Fits(Lu),
    /// As few as fill this least size.
    Fills(Lu),
    /// There is no such size.
    Endless,
}
