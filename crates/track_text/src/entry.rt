use crate::side::Track;
use lunit::{Name, NameSet, Sequence};

/// What stands in a track list: a track, or a name of the line that stands there. A set is its names one after another.
#[derive(Clone, Copy, Debug)]
pub enum Entry {
    Track(Track),
    Named(Name),
}

/// What an automatic repeat does with the room that is left (CSS Grid 2, section 7.2.3.2).
#[derive(Clone, Copy, Debug)]
pub enum Filling {
    /// `auto-fill`.
    Fill,
    /// `auto-fit`.
    Fit,
}

/// How often a repeat stands in a list.
#[derive(Clone, Copy, Debug)]
pub enum Often {
    /// A fixed number of times.
    Times(u32),
    /// As often as there is room.
    Automatic(Filling),
}

/// A part of a track list.
#[derive(Debug, Drop)]
pub enum Part {
    /// Entries that stand so many times, one time after another.
    Written(u32, Sequence<Entry>),
    /// An automatic repeat of entries.
    Automatic(Filling, Sequence<Entry>),
}

/// Sets of names that stand so many times after `subgrid`, one time after another.
#[derive(Drop)]
pub struct Sets {
    pub count: u32,
    pub sets: Sequence<NameSet>,
}
