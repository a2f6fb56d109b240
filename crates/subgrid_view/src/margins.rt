//! The extra margins of the items of a subgrid.

ghost use Rattle.std.specs.Prelude.{◌≡◌, ◌+ℤ◌, ◌-ℤ◌, pos, if◌then◌else◌};
ghost use Rattle.std.specs.Int.{int_max, int_min};
ghost use Rattle.std.specs.Ordering.{int_eq};
ghost use Rattle.lunit.specs.Units.{bottom, top};
ghost use Rattle.part_rules.specs.Views.{extra_after, extra_before, half_after, half_before, gap_difference};
ghost use Rattle.subgrid_view.specs.Ranges.{IsDifference, IsSum};
ghost use Rattle.subgrid_view.specs.Sums.{given, IsOrdered, IsWithLevel};

use crate::gaps::{difference, half_after, half_before, units};
use lunit::{Lu, Span, Wide};
use part_rules::Level;

/// What the levels so far make of the margin that the levels above them give: that margin and `sum`, but at least `least` and at
/// most `most`, since the margin is limited at each level.
#[derive(Clone, Copy)]
struct Limited {
    sum: Wide,
    least: Wide,
    most: Wide,
}

/// The number of a line.
fn line_number(line: i32) -> Wide
    ensures { result ≡ line }
{
    Wide::of(line as i128)
}

/// The number, but at most `most`, and at least `least`.
fn between(number: Wide, least: Wide, most: Wide) -> Wide
    ensures { result ≡ int_max least (int_min most number) }
{
    least.max(most.min(number))
}

/// The levels so far, and above them one that has this margin of its own.
fn with_level(levels: Limited, margin: Wide) -> Limited
    requires margin { IsDifference margin }
    requires sum { IsSum levels.sum }
    requires order { IsOrdered levels }
    ensures sum { result.sum ≡ levels.sum +ℤ margin }
    ensures order { IsOrdered result }
    ensures more { IsWithLevel levels margin result }
{
    Limited {
        sum: levels.sum + margin,
        least: between(levels.sum - units(1 << 30), levels.least, levels.most),
        most: between(levels.sum + units(1 << 30), levels.least, levels.most),
    }
}

/// No level so far.
fn no_level() -> Limited
    ensures sum { result.sum ≡ pos 0 }
    ensures order { IsOrdered result }
    ensures least { result.least ≡ bottom }
    ensures most { result.most ≡ top }
{
    Limited {
        sum: units(0),
        least: units(-(1 << 30)),
        most: units(1 << 30),
    }
}

#[tactic(auto, unfolding(lunit::specs::Units::clamp))]
/// The margin of the levels, with nothing above them.
fn whole(levels: Limited) -> Lu
    requires { IsOrdered levels }
    ensures { result ≡ given levels (pos 0) }
{
    between(levels.sum, levels.least, levels.most).clamp()
}

/// What a level itself gives before an item that starts at one of its lines.
fn own_before(level: Level, line: Wide) -> Wide
    ensures value { result ≡
        if int_eq line (pos 0) then level.before else half_after (gap_difference level) }
    ensures range { IsDifference result }
{
    if line == units(0) {
        level.before.wide()
    } else {
        half_after(difference(level.gap, level.outer_gap))
    }
}

/// The number of tracks that a subgrid spans.
fn tracks_of(span: Span) -> Wide
    ensures { result ≡ span.end -ℤ span.start }
{
    line_number(span.end) - line_number(span.start)
}

/// What a level itself gives after an item that ends at one of its lines.
fn own_after(level: Level, line: Wide) -> Wide
    ensures value { result ≡
        if int_eq line (level.span.end -ℤ level.span.start) then level.after else half_before
        (gap_difference level) }
    ensures range { IsDifference result }
{
    if line == tracks_of(level.span) {
        level.after.wide()
    } else {
        half_before(difference(level.gap, level.outer_gap))
    }
}

/// The extra margin before an item that starts at this line of a subgrid (CSS Grid 2, section 9; the rule for inner lines is an
/// own rule). `levels` goes from the subgrid up to the last one below the grid that sizes the tracks, and `line` is counted from
/// the subgrid's first line.
///
/// At the subgrid's start it is its own margin, border and padding; at an inner line, the half of the difference of gutters that
/// lies after the gutter; and at each, what the parent gives at the same line. It is limited to the range of lengths at each
/// level. Without a level it is 0.
pub fn extra_before(levels: &[Level], line: i32) -> Lu
    ensures { result ≡ extra_before levels.now line }
{
    let mut line = line_number(line);
    let mut lower = no_level();
    for level in levels {
        lower = with_level(lower, own_before(*level, line));
        line = line + line_number(level.span.start);
    }
    whole(lower)
}

/// The extra margin after an item that ends at this line of a subgrid, as `extra_before` is before it: at the subgrid's end its
/// own margin, border and padding, and at an inner line the half of the difference of gutters that lies before the gutter (CSS
/// Grid 2, section 9; the rule for inner lines is an own rule).
pub fn extra_after(levels: &[Level], line: i32) -> Lu
    ensures { result ≡ extra_after levels.now line }
{
    let mut line = line_number(line);
    let mut lower = no_level();
    for level in levels {
        lower = with_level(lower, own_after(*level, line));
        line = line + line_number(level.span.start);
    }
    whole(lower)
}
