ghost use Rattle.std.specs.Prelude.{◌≡◌, ◌≤◌, ◌<◌, ◌^◌, unsigned_abs, pos, int_lt, ◌&&◌, ◌||◌};
ghost use Rattle.part_rules.specs.Alignment.{spreads, moved, content_moved};

use crate::Mode;
use crate::rounding::{half, parts};

/// Whether the value puts space between the subjects.
fn is_spread(mode: Mode) -> bool
    ensures { result ≡ spreads mode }
{
    matches!(mode, Mode::Between | Mode::Around | Mode::Evenly)
}

/// `space-between`: the first subject stands at the start and the last at the end; a single one at the start.
fn between(free: i64, k: u32, n: u32) -> i64
    requires range { unsigned_abs free ≤ 2 ^ 56 }
    requires subject { k < n }
    ensures { result ≡ moved Mode.Between free k n }
{
    if n <= 1 {
        return 0;
    }
    parts(free, u64::from(k), u64::from(n) - 1)
}

/// Where subject `k`, from 0, of the `n` subjects of a container is moved to by the free space, in units from its place at the
/// start: the space times the share of the value, rounded down, also below zero. `free` is the size of the container less the
/// subjects and the gutters. Where it is below 0, the values that spread and every `safe` value are start (CSS Box
/// Alignment 3, sections 4.1, 4.3 and 4.4; the roundings are an own rule).
pub fn content_offset(mode: Mode, safe: bool, free: i64, k: u32, n: u32) -> i64
    requires range { unsigned_abs free ≤ 2 ^ 56 }
    requires subject { k < n }
    ensures { result ≡ content_moved mode safe free k n }
{
    if free < 0 && (safe || is_spread(mode)) {
        return 0;
    }
    match mode {
        Mode::Start | Mode::Stretch => 0,
        Mode::End => free,
        Mode::Center => half(free),
        Mode::Between => between(free, k, n),
        Mode::Around => parts(free, 2 * u64::from(k) + 1, 2 * u64::from(n)),
        Mode::Evenly => parts(free, u64::from(k) + 1, u64::from(n) + 1),
    }
}
