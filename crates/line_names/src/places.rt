//! The places that two line values stand for (CSS Grid 2, 8.3 and 8.3.1), cut to the limit.

ghost use Rattle.std.specs.Prelude.{◌≡◌, pos, Some, ◌+ℤ◌, ◌-ℤ◌, ◌≤ℤ◌, ◌<ℤ◌, neg_ℤ};
ghost use Rattle.std.specs.Int.{int_max, int_min};
ghost use Rattle.std.specs.Option.{option_copied};
ghost use Rattle.lunit.specs.declared.geometry.Spot.TheVariants.{Free};
ghost use Rattle.part_rules.specs.LineNames.{both_sides, cut_span, cut_spot, definite, free_span, going_back, line, open_side, span_back, span_on, spanning, two_lines};
ghost use Rattle.line_names.specs.Counting.{IsFar};
ghost use Rattle.line_names.specs.Levels.{told};
ghost use Rattle.line_names.specs.Sides.{seen, IsReachable};
ghost use Rattle.line_names.specs.Tables.{IsLimit};

use crate::LineTable;
use crate::counting::{NamedLines, after, before, going_back, going_on, lines_after, lines_before};
use crate::cutting::tracks_within;
use crate::side::Side;
use lunit::{Name, Span, Spot};

/// The last explicit line, or this one if it comes later.
fn last_line(table: &LineTable, line: i64) -> i64
    requires { IsFar line }
    ensures value { result ≡ int_max (pos table.now.tracks) line }
    ensures far { IsFar result }
{
    let last = table.tracks() as i64;
    last.max(line)
}

/// The first explicit line, or this one if it comes before.
fn first_line(line: i64) -> i64
    requires { IsFar line }
    ensures value { result ≡ int_min (pos 0) line }
    ensures far { IsFar result }
{
    line.min(0)
}

/// The so-manyth line of a name after this one.
fn named_on(table: &LineTable, start: i64, count: u32, name: &Name) -> i64
    requires { IsFar start }
    ensures { result ≡ span_on table.now start count (Some name.now) }
{
    let lines = lines_after(table.lines_of(name), start);
    going_on(lines, count, last_line(table, start))
}

/// The so-manyth of these lines back; where there are fewer, each line before the first one or this one counts as one.
fn back_in(lines: NamedLines, count: u32, end: i64) -> i64
    requires { IsFar end }
    ensures { result ≡ going_back (told lines.entry) count (int_min (pos 0) end) }
{
    going_back(lines, count, first_line(end))
}

/// The so-manyth line of a name before this one.
fn named_back(table: &LineTable, end: i64, count: u32, name: &Name) -> i64
    requires { IsFar end }
    ensures { result ≡ span_back table.now end count (Some name.now) }
{
    back_in(lines_before(table.lines_of(name), end), count, end)
}

/// The line where a span from a line on ends.
fn span_on(table: &LineTable, start: i64, count: u32, name: Option<&Name>) -> i64
    requires { IsFar start }
    ensures { result ≡ span_on table.now start count (option_copied name.entry) }
{
    match name {
        None => after(start, count),
        Some(name) => named_on(table, start, count, name),
    }
}

/// The line where a span back from a line begins.
fn span_back(table: &LineTable, end: i64, count: u32, name: Option<&Name>) -> i64
    requires { IsFar end }
    ensures { result ≡ span_back table.now end count (option_copied name.entry) }
{
    match name {
        None => before(end, count),
        Some(name) => named_back(table, end, count, name),
    }
}

/// A line within the limit as the limit has it.
fn narrow(line: i64) -> i32
    requires low { neg_ℤ (pos 100000) ≤ℤ line }
    requires high { line ≤ℤ pos 100000 }
    ensures { result ≡ line }
{
    line as i32
}

/// The first line of the limit, or this one if it comes later.
fn first_within(limit: Span, start: i64) -> i32
    requires limit { IsLimit limit }
    requires some { start <ℤ limit.end }
    ensures { result ≡ int_max limit.start start }
{
    if start < limit.start as i64 {
        limit.start
    } else {
        narrow(start)
    }
}

/// The last line of the limit, or this one if it comes before.
fn last_within(limit: Span, end: i64) -> i32
    requires limit { IsLimit limit }
    requires some { limit.start <ℤ end }
    ensures { result ≡ int_min limit.end end }
{
    if end < limit.end as i64 {
        narrow(end)
    } else {
        limit.end
    }
}

/// The first track of the limit.
fn first_track(limit: Span) -> Span
    requires { IsLimit limit }
    ensures { result ≡ record { start = limit.start; end = limit.start +ℤ pos 1 } }
{
    Span {
        start: limit.start,
        end: limit.start + 1,
    }
}

/// The last track of the limit.
fn last_track(limit: Span) -> Span
    requires { IsLimit limit }
    ensures { result ≡ record { start = limit.end -ℤ pos 1; end = limit.end } }
{
    Span {
        start: limit.end - 1,
        end: limit.end,
    }
}

/// A span cut to the limit; one wholly outside becomes the last track on that side.
fn cut(limit: Span, start: i64, end: i64) -> Span
    requires { IsLimit limit }
    ensures { result ≡ cut_span limit.start limit.end (record { start = start; end = end }) }
{
    if end <= limit.start as i64 {
        first_track(limit)
    } else if limit.end as i64 <= start {
        last_track(limit)
    } else {
        Span {
            start: first_within(limit, start),
            end: last_within(limit, end),
        }
    }
}

/// A definite place.
fn fixed(limit: Span, start: i64, end: i64) -> Spot
    requires { IsLimit limit }
    ensures { result ≡ cut_spot limit.start limit.end (definite start end) }
{
    Spot::At(cut(limit, start, end))
}

#[tactic(auto, using(crate::proofs::Counted::width))]
/// A free place for so many tracks, which are no more than the limit has.
pub(crate) fn free(limit: Span, count: u32) -> Spot
    requires { IsLimit limit }
    ensures { result ≡ cut_spot limit.start limit.end (Free count) }
{
    Spot::Free(count.min(tracks_within(limit, limit)))
}

/// The place between two lines: in the wrong order they are swapped, and of two equal ones the end is dropped.
fn between(limit: Span, automatic: u32, start: i64, end: i64) -> Spot
    requires limit { IsLimit limit }
    requires far { IsFar start }
    ensures { result ≡ cut_spot limit.start limit.end (two_lines automatic start end) }
{
    if start < end {
        return fixed(limit, start, end);
    }
    if end < start {
        return fixed(limit, end, start);
    }
    fixed(limit, start, after(start, automatic))
}

/// The place from a line to what the end stands for.
fn on_from(table: &LineTable, automatic: u32, start: i64, end: Side) -> Spot
    requires { IsFar start }
    ensures { result ≡
        cut_spot table.now.low table.now.high
        (both_sides table.now automatic (line start) (seen end.entry)) }
{
    let limit = table.limit();
    match end {
        Side::At(end) => between(limit, automatic, start, end),
        Side::Spanning(count, name) => fixed(limit, start, span_on(table, start, count, name)),
        Side::Open => fixed(limit, start, after(start, automatic)),
    }
}

/// The place that a span and what the end stands for make.
fn spanning_to(
    table: &LineTable,
    automatic: u32,
    count: u32,
    name: Option<&Name>,
    end: Side,
) -> Spot
    requires { IsReachable end }
    ensures { result ≡
        cut_spot table.now.low table.now.high
        (both_sides table.now automatic (spanning count (option_copied name.entry))
        (seen end.entry)) }
{
    let limit = table.limit();
    match end {
        Side::At(end) => fixed(limit, span_back(table, end, count, name), end),
        Side::Spanning(_, _) => free(limit, free_span(count, name)),
        Side::Open => free(limit, free_span(count, name)),
    }
}

/// The place that what the end stands for makes alone.
fn open_to(table: &LineTable, automatic: u32, end: Side) -> Spot
    requires { IsReachable end }
    ensures { result ≡
        cut_spot table.now.low table.now.high
        (both_sides table.now automatic open_side (seen end.entry)) }
{
    let limit = table.limit();
    match end {
        Side::At(end) => fixed(limit, before(end, automatic), end),
        Side::Spanning(count, name) => free(limit, free_span(count, name)),
        Side::Open => free(limit, automatic),
    }
}

/// A span beside no line: one with a name counts as 1.
fn free_span(count: u32, name: Option<&Name>) -> u32
    ensures { result ≡ free_span count (option_copied name.entry) }
{
    match name {
        None => count,
        Some(_) => 1,
    }
}

/// The place that two sides stand for, with the span of an item that has none, cut to the limit.
pub(crate) fn place(table: &LineTable, automatic: u32, start: Side, end: Side) -> Spot
    requires start { IsReachable start }
    requires end { IsReachable end }
    ensures { result ≡
        cut_spot table.now.low table.now.high
        (both_sides table.now automatic (seen start.entry) (seen end.entry)) }
{
    match start {
        Side::At(start) => on_from(table, automatic, start, end),
        Side::Spanning(count, name) => spanning_to(table, automatic, count, name, end),
        Side::Open => open_to(table, automatic, end),
    }
}
