//! Grid lines as numbers.
ghost use Rattle.std.specs.Prelude.{◌≡◌, ◌≤◌, ◌≤ℤ◌, ◌<ℤ◌, ◌+ℤ◌, pos, int_le};
ghost use Rattle.part_rules.specs.Placement.{to_end};

use lunit::Span;

/// No area lies farther, since each of at most 65,536 items moves the last line by at most 20,001
/// from 20,000 on.
pub const FARTHEST: i32 = 1_310_805_536;

/// The span of so many tracks from a line on.
pub fn tracks_from(line: i32, tracks: u32) -> Span
    requires near { line ≤ℤ (FARTHEST +ℤ pos 1) }
    requires short { tracks ≤ 20000 }
    ensures { result ≡ to_end line tracks }
{
    Span {
        start: line,
        end: line + tracks as i32,
    }
}
