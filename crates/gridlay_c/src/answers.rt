//! The numbers that the calls answer.

/// All was done.
pub(crate) const OK: u8 = 0;

/// The room is too short.
pub(crate) const ROOM: u8 = 1;

/// There is no such name, index or box.
pub(crate) const NONE: u8 = 2;

/// The text is refused.
pub(crate) const REFUSED: u8 = 3;

/// There is no document.
pub(crate) const CLOSED: u8 = 4;

/// The document was not laid out since it was edited last.
pub(crate) const STALE: u8 = 5;

/// Memory was wanting.
pub(crate) const MEMORY: u8 = 6;

/// The text has more than 2^26 bytes.
pub(crate) const LIMIT: u8 = 7;

/// A line of the text would have more than 65,536 bytes.
pub(crate) const LONG: u8 = 8;
