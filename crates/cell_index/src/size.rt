//! How many tracks an area has, and what so many reach.

ghost use Rattle.std.specs.Prelude.{◌≡◌, pos, ◌+ℤ◌, ◌-ℤ◌, ◌<ℤ◌, true, int_lt, ◌&&◌};
ghost use Rattle.lunit.specs.Areas.{areas_overlap, spans_overlap};
ghost use Rattle.cell_index.specs.Passed.{moved};
ghost use Rattle.lunit.specs.declared.geometry.Span.{Span};

use lunit::{Area, Span};

/// Whether an area has rows and columns.
pub(crate) fn has_cells(area: Area) -> bool
    ensures value { result ≡
        (int_lt area.rows.start area.rows.end && int_lt area.columns.start area.columns.end) }
    ensures rows { result ≡ true → area.rows.start <ℤ area.rows.end }
    ensures columns { result ≡ true → area.columns.start <ℤ area.columns.end }
{
    area.rows.start < area.rows.end && area.columns.start < area.columns.end
}

/// How many tracks lie in a span.
pub(crate) fn tracks(span: Span) -> u32
    requires { span.start <ℤ span.end }
    ensures { pos result ≡ span.end -ℤ span.start }
{
    span.end.abs_diff(span.start)
}

/// Whether some track lies in a span that is one of so many from a line on.
fn is_met(span: Span, start: i32, tracks: u32) -> bool
    ensures { (let reached : Span = record { start = start; end = start +ℤ pos tracks } in result ≡
        spans_overlap reached span) }
{
    (start.max(span.start) as i64) < (start as i64 + tracks as i64).min(span.end as i64)
}

#[inline(always)]
/// Whether so many tracks from a line on, down or along the rows and across a span, meet an area.
pub(crate) fn meets(down: bool, across: Span, start: i32, tracks: u32, area: Area) -> bool
    ensures { result ≡ areas_overlap (moved down across tracks start) area }
{
    if down {
        across.overlaps(area.columns) && is_met(area.rows, start, tracks)
    } else {
        is_met(area.columns, start, tracks) && across.overlaps(area.rows)
    }
}
