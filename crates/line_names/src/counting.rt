//! Lines that are found by counting: the so-manyth one of a name, on from a line or back from it (CSS Grid 2, 8.3).

ghost use Rattle.std.specs.Prelude.{◌≡◌, ◌≤◌, ◌<◌, ◌+◌, ◌-◌, ℕ, pos, length, get_or, slice_get, IfSome, drop, take, filter, int_le, int_lt, ◌+ℤ◌, ◌-ℤ◌, ◌≤ℤ◌, ◌<ℤ◌, neg_ℤ};
ghost use Rattle.part_rules.specs.LineNames.{going_back, going_on};
ghost use Rattle.line_names.specs.Counting.{IsFar, IsNear, IsWide};
ghost use Rattle.line_names.specs.Levels.{told};

use crate::line_list::LinesIn;

/// The line that lies so many lines after this one.
pub(crate) fn after(line: i64, more: u32) -> i64
    requires { IsFar line }
    ensures value { result ≡ line +ℤ pos more }
    ensures far { IsNear line → IsFar result }
{
    line + more as i64
}

/// The line that lies so many lines before this one.
pub(crate) fn before(line: i64, more: u32) -> i64
    requires { IsFar line }
    ensures value { result ≡ line -ℤ pos more }
    ensures far { IsNear line → IsFar result }
{
    line - more as i64
}

/// The line of the topmost grid that counts as line 0.
#[derive(Clone, Copy)]
pub(crate) struct Base {
    pub(crate) line: i32,
}

/// The lines of a name in order, as lines of the topmost grid, beside the one that counts as line 0.
#[derive(Clone, Copy)]
pub(crate) struct NamedLines<'a> {
    pub(crate) lines: LinesIn<'a>,
    pub(crate) base: Base,
}

#[tactic(auto, using(crate::proofs::Told::told_laws))]
/// How many lines there are.
fn count_of(lines: NamedLines) -> usize
    ensures { result ≡ length (told lines.entry) }
{
    lines.lines.len()
}

#[tactic(auto, using(crate::proofs::Told::told_laws))]
/// The line at an index.
pub(crate) fn line_at(lines: NamedLines, at: usize) -> i64
    requires { at < length (told lines) }
    ensures value { result ≡ get_or (told lines.entry) at (pos 0) }
    ensures near { IsNear result }
{
    lines.lines.at(at) - i64::from(lines.base.line)
}

/// The first of these lines.
pub(crate) fn first_of(lines: NamedLines) -> Option<i64>
    ensures value { result ≡ slice_get (told lines.entry) 0 }
    ensures near { IfSome result (λ line. IsNear line) }
{
    if count_of(lines) == 0 {
        return None;
    }
    Some(line_at(lines, 0))
}

/// How many are left of a count.
fn left_of(count: u32, taken: usize) -> u32
    ensures { result ≡ count - taken }
{
    (count as usize).saturating_sub(taken) as u32
}

/// The so-manyth of these lines; where there are fewer, each line after `last` counts as one.
pub(crate) fn going_on(lines: NamedLines, count: u32, last: i64) -> i64
    requires { IsFar last }
    ensures value { result ≡ going_on (told lines.entry) count last }
    ensures far { IsNear last → IsFar result }
{
    let place = count.saturating_sub(1) as usize;
    if place < count_of(lines) {
        return line_at(lines, place);
    }
    after(last, left_of(count, count_of(lines)))
}

/// The so-manyth of these lines from the last one back; where there are fewer, each line before `first` counts as one.
pub(crate) fn going_back(lines: NamedLines, count: u32, first: i64) -> i64
    requires { IsFar first }
    ensures value { result ≡ going_back (told lines.entry) count first }
    ensures far { IsNear first → IsFar result }
{
    let place = count.saturating_sub(1) as usize;
    if place < count_of(lines) {
        return line_at(lines, count_of(lines) - 1 - place);
    }
    before(first, left_of(count, count_of(lines)))
}

/// A line as one of the topmost grid.
fn from_base(lines: NamedLines, line: i64) -> i64
    requires low { neg_ℤ (pos 68719476737) ≤ℤ line }
    requires high { line ≤ℤ pos 68719476737 }
    ensures value { result ≡ line +ℤ lines.entry.base.line }
    ensures wide { IsWide result }
{
    line + i64::from(lines.base.line)
}

/// Those of these lines that do not come before a line.
pub(crate) fn lines_from(lines: NamedLines<'_>, line: i64) -> NamedLines<'_>
    requires { IsFar line }
    ensures value { told result ≡ filter (λ l. int_le line l) (told lines.entry) }
    ensures base { result.base ≡ lines.entry.base }
{
    NamedLines {
        lines: lines.lines.from(from_base(lines, line)),
        base: lines.base,
    }
}

/// Those of these lines that do not come after a line.
pub(crate) fn lines_up_to(lines: NamedLines<'_>, line: i64) -> NamedLines<'_>
    requires { IsFar line }
    ensures value { told result ≡ filter (λ l. int_le l line) (told lines.entry) }
    ensures base { result.base ≡ lines.entry.base }
{
    NamedLines {
        lines: lines.lines.up_to(from_base(lines, line)),
        base: lines.base,
    }
}

/// Those of these lines that come after a line.
pub(crate) fn lines_after(lines: NamedLines<'_>, line: i64) -> NamedLines<'_>
    requires { IsFar line }
    ensures { told result ≡ filter (λ l. int_lt line l) (told lines.entry) }
{
    NamedLines {
        lines: lines.lines.from(from_base(lines, after(line, 1))),
        base: lines.base,
    }
}

/// Those of these lines that come before a line.
pub(crate) fn lines_before(lines: NamedLines<'_>, line: i64) -> NamedLines<'_>
    requires { IsFar line }
    ensures { told result ≡ filter (λ l. int_lt l line) (told lines.entry) }
{
    NamedLines {
        lines: lines.lines.up_to(from_base(lines, before(line, 1))),
        base: lines.base,
    }
}
