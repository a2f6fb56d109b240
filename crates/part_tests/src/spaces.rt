//! Spaces that are shared, by alignment and by weights, at the bounds of numbers.

use box_align::{Mode, auto_margins, content_offset, self_offset};
use lunit::Lu;
use share_out::{Share, apportion, hand_out};

/// The greatest length.
const TOP: i64 = 1 << 30;

/// The greatest weight, and the most subjects.
const ALL: u32 = 4_294_967_295;

/// The greatest free space.
const MOST: i64 = 1 << 56;

/// A row with this room, that came with 9 units.
fn share(room: Option<Lu>) -> Share {
    Share {
        room,
        got: Lu::of(9),
    }
}

/// 2^30 is three times 357,913,941 and 1, which goes to the first; with one row that has no room,
/// and one of 2^30, the latter takes all.
#[test]
fn the_greatest_length_is_shared_equally(rt: HostRuntime) {
    let mut rows = [share(None), share(None), share(None)];
    assert_eq!(rt; hand_out(Lu::of(TOP), &mut rows).units(), 0);
    let [first, second, third] = rows;
    assert_eq!(rt; first.got.units(), 357_913_942);
    assert_eq!(rt; second.got.units(), 357_913_941);
    assert_eq!(rt; third.got.units(), 357_913_941);
    let mut rows = [share(Some(Lu::of(-TOP))), share(Some(Lu::of(TOP)))];
    assert_eq!(rt; hand_out(Lu::of(TOP), &mut rows).units(), 0);
    let [first, second] = rows;
    assert_eq!(rt; (first.got.units(), second.got.units()), (0, TOP));
}

/// By the greatest weights: parts are rounded down, also below zero, and the last has what is left.
#[test]
fn the_greatest_weights_share(rt: HostRuntime) {
    let total = 3 * u64::from(ALL);
    let mut parts = [Lu::of(9), Lu::of(9), Lu::of(9)];
    apportion(Lu::of(TOP), total, &[ALL, ALL, ALL], &mut parts);
    let [first, second, third] = parts;
    assert_eq!(rt; (first.units(), second.units()), (357_913_941, 357_913_941));
    assert_eq!(rt; third.units(), 357_913_942);
    let mut parts = [Lu::of(9)];
    apportion(Lu::of(-TOP), u64::MAX, &[ALL], &mut parts);
    let [alone] = parts;
    assert_eq!(rt; alone.units(), -1);
}

/// Of 2^56 half of one of 2^32 - 1 parts is 2^55 / (2^32 - 1), a little more than 2^23 = 8,388,608.
#[test]
fn the_greatest_free_space_is_aligned(rt: HostRuntime) {
    let last = ALL - 1;
    assert_eq!(rt; content_offset(Mode::Between, false, MOST, last, ALL), MOST);
    let around = content_offset(Mode::Around, false, MOST, last, ALL);
    assert_eq!(rt; around, 72_057_594_029_539_327);
    assert_eq!(rt;
        self_offset(Mode::Center, false, -MOST),
        -36_028_797_018_963_968
    );
    assert_eq!(rt; self_offset(Mode::End, true, -MOST), 0);
    let half = 36_028_797_018_963_968;
    assert_eq!(rt; auto_margins(MOST - 1, true, true), (half - 1, half));
    assert_eq!(rt; auto_margins(-MOST, true, false), (0, 0));
}
