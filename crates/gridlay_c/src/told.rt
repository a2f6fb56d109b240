//! The structs that C reads.
ghost use Rattle.std.specs.Prelude.{◌≡◌};
ghost use Rattle.gridlay_c.specs.Told.{box_told, told, untold};

use lunit::Rect;
use open_document::Fault;

/// The border box of a node, in units of 1/64 px.
#[repr(C)]
#[derive(Clone, Copy, Debug, PartialEq, Eq)]
pub struct BoxRect {
    pub x: i64,
    pub y: i64,
    pub width: i64,
    pub height: i64,
}

/// Why a text was refused: the number of its fault, and where it is, both counted from 1. All are 0
/// where nothing was refused.
#[repr(C)]
#[derive(Clone, Copy, Debug, PartialEq, Eq)]
pub struct FaultAt {
    pub line: u32,
    pub column: u32,
    pub fault: u8,
}

/// What a layout took: how often a leaf was measured, and how many answers were kept.
#[repr(C)]
#[derive(Clone, Copy, Debug, PartialEq, Eq)]
pub struct Counts {
    pub measured: u64,
    pub added: u64,
}

impl BoxRect {
    /// The rectangle for C.
    pub(crate) fn of(rect: Rect) -> BoxRect
        ensures { result ≡ box_told rect }
    {
        BoxRect {
            x: rect.x.units(),
            y: rect.y.units(),
            width: rect.width.units(),
            height: rect.height.units(),
        }
    }
}

impl FaultAt {
    /// The fault for C.
    pub(crate) fn of(fault: Fault) -> FaultAt
        ensures { result ≡ told fault }
    {
        FaultAt {
            line: fault.place.line,
            column: fault.place.column,
            fault: fault.number,
        }
    }

    /// No fault.
    pub(crate) fn none() -> FaultAt
        ensures { result ≡ untold }
    {
        FaultAt {
            line: 0,
            column: 0,
            fault: 0,
        }
    }
}
