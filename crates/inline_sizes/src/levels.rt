//! What the levels of a subgrid make of its items, for the grid that sizes its tracks (CSS Grid 2, section 9).

ghost use Rattle.std.specs.Prelude.{◌≡◌, ◌+ℤ◌, [], ◌∷◌, MatchOption};
ghost use Rattle.lunit.specs.Units.{clamp};
ghost use Rattle.tree_rules.specs.LentItems.{empty_item, extra_margins, lifted, offset_of};
ghost use Rattle.inline_sizes.specs.Lifted.{IsLifted, IsLine, IsSelfLifted};
ghost use Rattle.inline_sizes.specs.Sums.{IsPair, IsTotal};

use lunit::{Floor, Item, Lu, Span, Wide};
use part_rules::Level;
use subgrid_view::{extra_after, extra_before};

/// The number of a line.
fn line_number(line: i32) -> Wide
    ensures value { result ≡ line }
    ensures range { IsLine result }
{
    Wide::of(line as i128)
}

/// Where line 0 of a subgrid lies among the lines of the grid that sizes the tracks. The levels go from the subgrid up to the last
/// one below that grid.
pub fn offset_of(levels: &[Level]) -> Wide
    ensures value { result ≡ offset_of levels.now }
    ensures range { IsTotal result }
{
    let mut offset = Wide::of(0);
    for level in levels {
        offset = offset + line_number(level.span.start);
    }
    offset
}

/// A line so many lines further on.
fn lifted_line(line: i32, by: Wide) -> i32
    requires by { IsTotal by }
    requires line { IsLine (line +ℤ by) }
    ensures { result ≡ line +ℤ by }
{
    (line_number(line) + by).units() as i32
}

/// A span of a subgrid's lines in those of the grid that sizes the tracks.
pub fn lifted(levels: &[Level], span: Span) -> Span
    requires { IsLifted levels.now span }
    ensures { result ≡ lifted levels.now span }
{
    let by = offset_of(levels);
    Span {
        start: lifted_line(span.start, by),
        end: lifted_line(span.end, by),
    }
}

#[inline(always)]
#[tactic(auto, using(crate::proofs::Limits::both_pair))]
/// The extra margins of an item over this span of a subgrid's lines (CSS Grid 2, section 9). It is exact.
pub fn extra_margins(levels: &[Level], span: Span) -> Wide
    ensures value { result ≡ extra_margins levels.now span }
    ensures range { IsPair result }
{
    extra_before(levels, span.start).wide() + extra_after(levels, span.end).wide()
}

/// The size of the item that stands for a subgrid under these levels: its own margins, borders and paddings with its extra margins.
fn empty_size(level: &Level, outer: &[Level]) -> Lu
    ensures { result ≡
        clamp (level.now.before +ℤ level.now.after +ℤ extra_margins outer.now level.now.span) }
{
    let extra = extra_margins(outer, level.span);
    (level.before.wide() + level.after.wide() + extra).clamp()
}

/// The item that stands for a subgrid under these levels.
fn standing_item(level: &Level, outer: &[Level]) -> Item
    requires { IsLifted outer.now level.now.span }
    ensures { result ∷ [] ≡ empty_item (level.now ∷ outer.now) }
{
    let size = empty_size(level, outer);
    Item {
        span: lifted(outer, level.span),
        low: size,
        high: size,
        floor: Floor::Known(size),
    }
}

/// The item that stands for a subgrid itself, over its whole span, with its margins, extra margins, borders and paddings (own
/// rule); `None` exactly where there are no levels, since a grid that sizes its tracks itself lends nothing.
pub fn empty_item(levels: &[Level]) -> Option<Item>
    requires { IsSelfLifted levels.now }
    ensures { MatchOption result (empty_item levels.now ≡ [])
        (λ item. empty_item levels.now ≡ item ∷ []) }
{
    match levels.split_first() {
        Some((level, outer)) => Some(standing_item(level, outer)),
        None => None,
    }
}
