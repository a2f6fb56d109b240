use lunit::{Lu, Span};
use subgrid_view::{Level, extra_after, extra_before};

/// A subgrid over the one track of its parent, with these edges before and after it.
fn level(before: i64, after: i64) -> Level {
    Level {
        span: Span { start: 0, end: 1 },
        gap: Lu::of(0),
        outer_gap: Lu::of(0),
        before: Lu::of(before),
        after: Lu::of(after),
    }
}

/// The sum is limited to 2^30 at each level, and 5 less is less.
#[test]
fn extra_margins_are_limited(rt: HostRuntime) {
    let most = 1 << 30;
    let before = [level(-5, 0), level(most, 0), level(most, 0)];
    assert_eq!(rt; extra_before(&before, 0).units(), most - 5);
    let after = [level(0, 7), level(0, -most), level(0, -most)];
    assert_eq!(rt; extra_after(&after, 1).units(), 7 - most);
}
