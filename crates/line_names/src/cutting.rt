//! Areas cut to a span of lines and told from its start, as a subgrid sees them (CSS Grid 2, section 9).

ghost use Rattle.std.specs.Prelude.{◌≡◌, ◌++◌, pos, ◌+ℤ◌, ◌-ℤ◌, ◌≤ℤ◌, ◌<ℤ◌, ◌≤◌, IsTrue, OnOk};
ghost use Rattle.std.specs.Int.{int_max, int_min};
ghost use Rattle.lunit.specs.Areas.{spans_overlap};
ghost use Rattle.part_rules.specs.LineNames.{cut_area, cut_areas};
ghost use Rattle.line_names.specs.Parts.{cut_part, cut_parts, lies_in};
ghost use Rattle.line_names.specs.Tables.{IsLimit, IsWithinLines};

use lunit::{Name, NoMemory, Sequence, Span};

/// One line told from another that does not come after it.
fn told_from(line: i32, first: i32) -> i32
    requires order { first ≤ℤ line }
    requires near { line ≤ℤ (first +ℤ pos 100000) }
    ensures { result ≡ line -ℤ first }
{
    line - first
}

#[tactic(auto, using(crate::proofs::Cut::common_lines))]
/// What a span has in common with another one, told from its start.
fn common(span: Span, other: Span) -> Span
    requires lines { IsWithinLines span }
    requires overlap { IsTrue (spans_overlap span other) }
    ensures { result ≡
        record {
          start = int_max span.start other.start -ℤ span.start;
          end = int_min span.end other.end
              -ℤ span.start;
        } }
{
    Span {
        start: told_from(span.start.max(other.start), span.start),
        end: told_from(span.end.min(other.end), span.start),
    }
}

/// Adds what a span has in common with an area, if some track lies in both.
fn cut_into(
    out: &mut Sequence<(Name, Span)>,
    span: Span,
    area: &(Name, Span),
) -> Result<(), NoMemory>
    requires { IsWithinLines span }
    ensures { OnOk result (out.new ≡ out.old ++ cut_area span area.now) }
{
    let (name, lines) = area;
    if span.overlaps(*lines) {
        out.push((*name, common(span, *lines)))?;
    }
    Ok(())
}

/// Adds what a span has in common with each of these areas.
pub(crate) fn cut_all(
    out: &mut Sequence<(Name, Span)>,
    span: Span,
    areas: &[(Name, Span)],
) -> Result<(), NoMemory>
    requires { IsWithinLines span }
    ensures { OnOk result (out.new ≡ out.old ++ cut_areas span areas.now) }
{
    for area in areas {
        cut_into(out, span, area)?;
    }
    Ok(())
}

/// Whether a span has all tracks of another one.
fn lies_in(span: Span, other: Span) -> bool
    ensures { result ≡ lies_in span other }
{
    span.start <= other.start && other.end <= span.end
}

/// Adds what a span has in common with an area, if some track lies in both and another one does not.
fn part_into(
    out: &mut Sequence<(Name, Span)>,
    span: Span,
    area: &(Name, Span),
) -> Result<(), NoMemory>
    requires { IsWithinLines span }
    ensures { OnOk result (out.new ≡ out.old ++ cut_part span area.now) }
{
    if lies_in(span, area.1) {
        return Ok(());
    }
    cut_into(out, span, area)
}

/// Adds what a span has in common with each of these areas that does not lie in it whole.
pub(crate) fn cut_parts(
    out: &mut Sequence<(Name, Span)>,
    span: Span,
    areas: &[(Name, Span)],
) -> Result<(), NoMemory>
    requires { IsWithinLines span }
    ensures { OnOk result (out.new ≡ out.old ++ cut_parts span areas.now) }
{
    for area in areas {
        part_into(out, span, area)?;
    }
    Ok(())
}

/// How many tracks a span within the limit has.
pub(crate) fn tracks_within(limit: Span, span: Span) -> u32
    requires limit { IsLimit limit }
    requires low { limit.start ≤ℤ span.start }
    requires some { span.start <ℤ span.end }
    requires high { span.end ≤ℤ limit.end }
    ensures value { span.end ≡ span.start +ℤ pos result }
    ensures few { result ≤ 20000 }
{
    told_from(span.end, span.start) as u32
}
