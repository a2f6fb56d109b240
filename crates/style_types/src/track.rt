ghost use Rattle.std.specs.Prelude.{◌≡◌, IfOk};

use lunit::{Copied, Lu, NameSet, NoMemory, Sequence};
use runs::Runs;
use std::alloc::Global;

/// One side of a track size (CSS Grid 2, section 7.2.1).
#[derive(Clone, Copy, Debug, PartialEq, Eq)]
pub enum Breadth {
    /// A length in units of 1/64 px.
    Length(Lu),
    /// A percentage in thousandths of a percent.
    Percent(u32),
    /// `auto`.
    Auto,
    /// `min-content`.
    MinContent,
    /// `max-content`.
    MaxContent,
    /// A factor with `fr`, in thousandths (section 7.2.4).
    Flex(u32),
}

/// The size of a track (CSS Grid 2, section 7.2.1).
///
/// A breadth alone has itself on both sides, a factor alone has `auto` as its least side, and `fit-content(l)` is
/// `minmax(auto, max-content)` with the cap l in `fit`.
#[derive(Clone, Copy, Debug, PartialEq, Eq)]
pub struct TrackFn {
    /// The min track sizing function; never a factor.
    pub least: Breadth,
    /// The max track sizing function.
    pub most: Breadth,
    /// The argument of `fit-content`, a length or a percentage.
    pub fit: Option<Breadth>,
}

/// An automatic repeat in a track list (CSS Grid 2, section 7.2.3).
#[derive(Drop, PartialEq, Eq)]
pub struct Repeat {
    /// How many tracks of the list stand before the repeat.
    pub before: u32,
    /// `auto-fit`, else `auto-fill`.
    pub auto_fit: bool,
    /// The tracks of one repetition.
    pub sizes: Sequence<TrackFn>,
    /// The name sets of one repetition: before, between and after its tracks, one more than these.
    pub names: Sequence<NameSet>,
}

/// A track list, in which repeats with a number are written out (CSS Grid 2, section 7.2): contracts see each track. In
/// memory the tracks of such a repeat, and the names of its lines, stand once.
#[derive(Drop, PartialEq, Eq)]
pub struct TrackList {
    /// The tracks outside the automatic repeat.
    pub sizes: Runs<TrackFn>,
    /// The name sets before, between and after these tracks (section 7.2.2): one more than `sizes`, and in a list
    /// with an automatic repeat two more, of which the sets number `before` and `before + 1`, from 0, stand at the
    /// two ends of the repeat.
    pub names: Runs<NameSet>,
    /// The automatic repeat.
    pub repeat: Option<Repeat>,
}

/// The value of `grid-template-columns` and `grid-template-rows` (CSS Grid 2, section 7.2).
#[derive(Drop, PartialEq, Eq)]
pub enum Template {
    /// `none`.
    Absent,
    /// A track list.
    Tracks(TrackList),
    /// `subgrid` with the name sets of its lines (section 9), in which repeats are written out as in a track list.
    Subgrid(Runs<NameSet>),
}

impl Copied for TrackFn {
    fn copy(&self, _alloc: Global) -> Result<TrackFn, NoMemory> {
        Ok(*self)
    }
}

impl Copied for Repeat {
    fn copy(&self, alloc: Global) -> Result<Repeat, NoMemory> {
        Ok(Repeat {
            before: self.before,
            auto_fit: self.auto_fit,
            sizes: Sequence::from_slice(alloc, self.sizes.as_slice())?,
            names: self.names.copy(alloc)?,
        })
    }
}

impl Copied for TrackList {
    fn copy(&self, alloc: Global) -> Result<TrackList, NoMemory> {
        Ok(TrackList {
            sizes: self.sizes.copy(alloc)?,
            names: self.names.copy(alloc)?,
            repeat: self.repeat.copy(alloc)?,
        })
    }
}

impl Copied for Template {
    fn copy(&self, alloc: Global) -> Result<Template, NoMemory> {
        match self {
            Template::Absent => Ok(Template::Absent),
            Template::Tracks(tracks) => Ok(Template::Tracks(tracks.copy(alloc)?)),
            Template::Subgrid(names) => Ok(Template::Subgrid(names.copy(alloc)?)),
        }
    }
}
