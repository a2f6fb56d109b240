ghost use Rattle.std.specs.Prelude.{◌≡◌, ◌≤◌, ◌^◌, unsigned_abs};
ghost use Rattle.part_rules.specs.Alignment.{self_moved, auto_taken};

use crate::Mode;
use crate::rounding::{half, other_half};

/// Where an item stands in its area, in units from the start of the area. `free` is the size of the area less the outer size of
/// the item. The values that spread have no meaning here and are start, and so is every `safe` value where `free` is below 0
/// (CSS Box Alignment 3, sections 4.1, 4.4 and 6; the rounding is an own rule).
pub fn self_offset(mode: Mode, safe: bool, free: i64) -> i64
    requires { unsigned_abs free ≤ 2 ^ 56 }
    ensures { result ≡ self_moved mode safe free }
{
    match mode {
        Mode::End if free >= 0 || !safe => free,
        Mode::Center if free >= 0 || !safe => half(free),
        _ => 0,
    }
}

/// What the `auto` margins `before` and `after` an item take of the free space of its area, in units: where it is positive,
/// one takes all, and of two the first takes the half rounded down and the second the rest. Otherwise they take 0 (CSS Grid 2,
/// section 11.2; the rounding is an own rule).
pub fn auto_margins(free: i64, before: bool, after: bool) -> (i64, i64)
    requires { unsigned_abs free ≤ 2 ^ 56 }
    ensures { result ≡ auto_taken free before after }
{
    if free <= 0 {
        return (0, 0);
    }
    match (before, after) {
        (true, true) => (half(free), other_half(free)),
        (true, false) => (free, 0),
        (false, true) => (0, free),
        (false, false) => (0, 0),
    }
}
