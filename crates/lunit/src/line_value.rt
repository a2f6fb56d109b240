use crate::Name;

/// The value of `grid-row-start` and the like (CSS Grid 2, 8.3).
#[derive(Clone, Copy, Debug, PartialEq, Eq)]
pub enum LineValue {
    Auto,
    /// The line of this number, from the start above 0 and from the end below 0, or the so-manyth line of a name.
    Line(i32, Option<Name>),
    /// `span`: so many tracks, or up to the so-manyth line of a name.
    Reach(u32, Option<Name>),
    /// A bare name.
    Named(Name),
}
