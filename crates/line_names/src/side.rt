//! What one line value stands for (CSS Grid 2, 8.3).

ghost use Rattle.std.specs.Prelude.{◌≡◌, ◌≤◌, ◌<◌, pos, List, ℕ, length, IsTrue};
ghost use Rattle.part_rules.specs.LineNames.{named, numbered, numbered_named, side};
ghost use Rattle.line_names.specs.Counting.{IsFar};
ghost use Rattle.line_names.specs.Sides.{has_edges, seen, IsReachable};

use crate::LineTable;
use crate::counting::{after, before, first_of, going_back, going_on};
use lunit::{LineValue, Name};

/// What a line value stands for: a line, a span with or without a name, or nothing.
#[derive(Clone, Copy)]
pub(crate) enum Side<'a> {
    At(i64),
    Spanning(u32, Option<&'a Name>),
    Open,
}

#[tactic(auto, using(crate::proofs::Sides::by_sign))]
/// The line of a number: from the start above 0, from the end below 0.
fn numbered(table: &LineTable, number: i32) -> i64
    ensures value { result ≡ numbered table.now number }
    ensures far { IsFar result }
{
    let count = number.unsigned_abs();
    if number < 0 {
        return before(table.tracks() as i64, count - 1);
    }
    before(count as i64, 1)
}

#[tactic(auto, using(crate::proofs::Sides::by_sign))]
/// The so-manyth line of a name.
fn numbered_named(table: &LineTable, number: i32, name: &Name) -> i64
    ensures value { result ≡ numbered_named table.now number name.now }
    ensures far { IsFar result }
{
    let count = number.unsigned_abs();
    let lines = table.lines_of(name);
    if number < 0 {
        return going_back(lines, count, 0);
    }
    going_on(lines, count, table.tracks() as i64)
}

/// A bare name: the first line that an area of this name begins or ends at, else the first line of the name itself.
fn named(table: &LineTable, end: bool, name: &Name) -> i64
    requires { length name.now ≤ 58 }
    ensures value { result ≡ named table.now end name.now }
    ensures far { IsFar result }
{
    match first_of(table.lines_of(&name.edge(end))) {
        Some(line) => line,
        None => going_on(table.lines_of(name), 1, table.tracks() as i64),
    }
}

/// What the value at the start, or at the end, stands for.
pub(crate) fn side_of<'a>(table: &LineTable, end: bool, value: &'a LineValue) -> Side<'a>
    requires { IsTrue (has_edges value.now) }
    ensures value { seen result ≡ side table.now end value.now }
    ensures far { IsReachable result }
{
    match value {
        LineValue::Auto => Side::Open,
        LineValue::Line(number, None) => Side::At(numbered(table, *number)),
        LineValue::Line(number, Some(name)) => Side::At(numbered_named(table, *number, name)),
        LineValue::Reach(count, name) => Side::Spanning(*count, name.as_ref()),
        LineValue::Named(name) => Side::At(named(table, end, name)),
    }
}
