//! The context of a grid in its seat: its lines, its gaps, and the subgrids from it up (CSS Grid 2, sections 7 and 9).

ghost use Rattle.std.specs.Prelude.{◌≡◌, ◌≤◌, ◌∷◌, ◌++◌, ◌+ℤ◌, [], List, ℤ, pos, map, Option, None, Some, IfOk, IsTrue, length, insert, reverse};
ghost use Rattle.std.specs.Option.{option_copied, unwrap_or};
ghost use Rattle.line_names.specs.Tables.{are_areas};
ghost use Rattle.part_rules.specs.LineNames.{NamedSpan, subgrid_table};
ghost use Rattle.tree_rules.specs.Answers.{Pair};
ghost use Rattle.tree_rules.specs.Contexts.{level_of, lower_context, top_context};
ghost use Rattle.tree_rules.specs.Labels.{grid_of, length_or_zero};
ghost use Rattle.tree_rules.specs.NodeSizes.{outer_end, outer_start};
ghost use Rattle.tree_rules.specs.Places.{Seen};
ghost use Rattle.tree_rules.specs.Repetitions.{gap_by};
ghost use Rattle.tree_rules.specs.Templates.{written};
ghost use Rattle.placing.specs.Along.{along_under, cells_along, named_along, own_along, shared_along};
ghost use Rattle.placing.specs.Insides.{IsInside, IsWithin};
ghost use Rattle.placing.specs.Ranges.{IsEdge, IsGridStyle, IsMargin};
ghost use Rattle.placing.specs.Seats.{axis_context_of, context_at, context_in, context_of, seat_by, IsInsideOf, IsSeat};
ghost use Rattle.placing.specs.Axes.{grid_axis};

use crate::contexts::{Above, AxisContext, Context};
use crate::placement::span_along;
use crate::style::{
    areas, border_end, border_start, gap, is_subgrid, margin_end, margin_start, padding_end,
    padding_start, subgrid_sets,
};
use crate::template::{TrackSizes, lines};
use line_names::LineTable;
use lunit::{Area, Lu, Name, NameSet, NoMemory, Sequence, Span};
use part_rules::Level;
use runs::Runs;
use std::alloc::Global;
use style_types::{Areas, Size, Style};

#[tactic(auto, using(crate::proofs::Named::named_is))]
/// The named areas of `grid-template-areas` along an axis.
fn named_of(alloc: Global, axis: u8, areas: &Areas) -> Result<Vec<(Name, Span)>, NoMemory>
    ensures { IfOk result (λ named. named.items ≡ named_along axis (Some areas.now)) }
{
    let mut named = Vec::new(alloc);
    for (name, area) in areas.named.as_slice() {
        named.push((*name, span_along(axis, *area)))?;
    }
    Ok(named)
}

/// The named areas of a grid along an axis.
fn named<const AXIS: u8>(alloc: Global, style: &Style) -> Result<Vec<(Name, Span)>, NoMemory>
    ensures { IfOk result (λ named. named.items ≡ named_along AXIS (grid_of style.now).areas) }
{
    match areas(style) {
        Some(areas) => named_of(alloc, AXIS, areas),
        None => Ok(Vec::new(alloc)),
    }
}

/// How many cells the named areas of a grid have along an axis.
fn cells<const AXIS: u8>(style: &Style) -> u32
    ensures { result ≡ cells_along AXIS (grid_of style.now).areas }
{
    match areas(style) {
        None => 0,
        Some(areas) => { if AXIS == 0 { areas.columns } else { areas.rows } }
    }
}

#[tactic(auto, unfolding(lunit::specs::Units::clamp))]
/// A length of 0.
fn zero() -> Lu
    ensures { result ≡ pos 0 }
{
    Lu::of(0)
}

/// The gap between two tracks for lent items, where `normal` is this length and a percentage counts 0 (own rule).
fn lent_gap(normal: Lu, size: Size) -> Lu
    ensures { result ≡ gap_by None normal size }
{
    match size {
        Size::Normal => normal,
        Size::Length(length) => length,
        Size::Percent(_) => zero(),
        Size::Auto => zero(),
        Size::Absent => zero(),
        Size::Content => zero(),
    }
}

#[tactic(auto, unfolding(lunit::specs::Units::clamp))]
/// Margin, border and padding on one side, where `auto` counts 0.
fn edge(margin: Option<Lu>, border: Lu, padding: Lu) -> Lu
    requires margin { IsMargin margin }
    requires border { IsEdge border }
    requires padding { IsEdge padding }
    ensures { result ≡ length_or_zero margin +ℤ (border +ℤ padding) }
{
    let inner = border.wide() + padding.wide();
    match margin {
        Some(margin) => (margin.wide() + inner).clamp(),
        None => inner.clamp(),
    }
}

/// The subgrid over this span of its parent.
fn level<const AXIS: u8>(style: &Style, span: Span, gap: Lu, outer_gap: Lu) -> Level
    requires { IsGridStyle (grid_of style.now) }
    ensures { result ≡ level_of (grid_axis AXIS (grid_of style.now)) span gap outer_gap }
{
    Level {
        span,
        gap,
        outer_gap,
        before: edge(
            margin_start::<AXIS>(style),
            border_start::<AXIS>(style),
            padding_start::<AXIS>(style),
        ),
        after: edge(
            margin_end::<AXIS>(style),
            border_end::<AXIS>(style),
            padding_end::<AXIS>(style),
        ),
    }
}

/// A level before others.
fn with_level(alloc: Global, level: Level, levels: &[Level]) -> Result<Sequence<Level>, NoMemory>
    ensures { IfOk result (λ all. all ≡ level ∷ levels.now) }
{
    let mut all = Sequence::from_slice(alloc, levels)?;
    all.insert(0, level)?;
    Ok(all)
}

/// How many tracks the template of a grid has along an axis, in which its automatic repeat stands so often.
fn written_tracks<const AXIS: u8>(style: &Style, count: u32) -> u32
    requires { IsGridStyle (grid_of style.now) }
    ensures value { result ≡
        length (written (grid_axis AXIS (grid_of style.now)).template count).sizes }
    ensures few { result ≤ 10000 }
{
    TrackSizes::of::<AXIS>(style, count).len() as u32
}

/// The context of a grid along an axis whose tracks it sizes itself.
fn own_axis<const AXIS: u8>(
    alloc: Global,
    style: &Style,
    count: u32,
) -> Result<AxisContext, NoMemory>
    requires { IsGridStyle (grid_of style.now) }
    ensures { IfOk result
        (λ made. axis_context_of made ≡ own_along AXIS (grid_of style.now) count) }
{
    let names = lines::<AXIS>(alloc, style, count)?;
    let tracks = written_tracks::<AXIS>(style, count).max(cells::<AXIS>(style));
    let named = named::<AXIS>(alloc, style)?;
    Ok(AxisContext {
        subgrid: false,
        table: LineTable::new(alloc, names.as_slice(), tracks, &named)?,
        gap: lent_gap(zero(), gap::<AXIS>(style)),
        levels: Sequence::new(alloc),
    })
}

/// The lines of a subgrid with these name sets over a span of its parent's lines.
fn table_under(
    alloc: Global,
    parent: &LineTable,
    span: Span,
    sets: Option<&Runs<NameSet>>,
    areas: &[(Name, Span)],
) -> Result<LineTable, NoMemory>
    requires span { IsWithin parent.now.low parent.now.high span }
    requires areas { IsTrue (are_areas 65536 areas.now) }
    ensures { IfOk result
        (λ table. table ≡
        subgrid_table parent.now span (unwrap_or (option_copied sets.entry) []) areas.now) }
{
    match sets {
        Some(sets) => {
            let written = sets.written(alloc)?;
            LineTable::inherit(alloc, parent, span, written.as_slice(), areas)
        }
        None => LineTable::inherit(alloc, parent, span, &[], areas),
    }
}

/// The context of a grid along an axis in which it has the tracks of its parent over a span.
fn shared_axis<const AXIS: u8>(
    alloc: Global,
    parent: &AxisContext,
    span: Span,
    style: &Style,
) -> Result<AxisContext, NoMemory>
    requires style { IsGridStyle (grid_of style.now) }
    requires span { IsWithin parent.now.table.low parent.now.table.high span }
    ensures { IfOk result
        (λ made. axis_context_of made ≡
        shared_along AXIS (axis_context_of parent.now) span (grid_of style.now)) }
{
    let sets = subgrid_sets::<AXIS>(style);
    let named = named::<AXIS>(alloc, style)?;
    let table = table_under(alloc, &parent.table, span, sets, &named)?;
    let gap = lent_gap(parent.gap, gap::<AXIS>(style));
    let level = level::<AXIS>(style, span, gap, parent.gap);
    Ok(AxisContext {
        subgrid: true,
        table,
        gap,
        levels: with_level(alloc, level, parent.levels.as_slice())?,
    })
}

/// The context of a grid along an axis, under a parent.
fn axis_under<const AXIS: u8>(
    alloc: Global,
    parent: &AxisContext,
    span: Span,
    style: &Style,
    count: u32,
) -> Result<AxisContext, NoMemory>
    requires style { IsGridStyle (grid_of style.now) }
    requires span { IsWithin parent.now.table.low parent.now.table.high span }
    ensures { IfOk result
        (λ made. axis_context_of made ≡
        along_under AXIS (axis_context_of parent.now) span (grid_of style.now) count) }
{
    if is_subgrid::<AXIS>(style) {
        shared_axis::<AXIS>(alloc, parent, span, style)
    } else {
        own_axis::<AXIS>(alloc, style, count)
    }
}

/// The context of a grid that is no subgrid.
fn top_context(alloc: Global, style: &Style, counts: (u32, u32)) -> Result<Context, NoMemory>
    requires { IsGridStyle (grid_of style.now) }
    ensures { IfOk result (λ made. context_of made ≡ top_context (grid_of style.now) counts) }
{
    Ok(Context {
        columns: own_axis::<0>(alloc, style, counts.0)?,
        rows: own_axis::<1>(alloc, style, counts.1)?,
    })
}

/// The context of a grid in an area of its parent.
fn lower_context(
    alloc: Global,
    parent: &Context,
    area: Area,
    style: &Style,
    counts: (u32, u32),
) -> Result<Context, NoMemory>
    requires style { IsGridStyle (grid_of style.now) }
    requires area { IsInside (context_of parent.now) area }
    ensures { IfOk result
        (λ made. context_of made ≡
        lower_context (context_of parent.now) area (grid_of style.now) counts) }
{
    Ok(Context {
        columns: axis_under::<0>(alloc, &parent.columns, area.columns, style, counts.0)?,
        rows: axis_under::<1>(alloc, &parent.rows, area.rows, style, counts.1)?,
    })
}

#[tactic(auto, using(crate::proofs::Seated::seat_laws))]
/// The context of a grid in its seat, by the counts of its own automatic repeats, columns first (CSS Grid 2, sections 7
/// and 9). `NoMemory` where memory is wanting.
pub fn context_in(
    alloc: Global,
    above: &Above,
    area: Area,
    style: &Style,
    counts: (u32, u32),
) -> Result<Context, NoMemory>
    requires style { IsGridStyle (grid_of style.now) }
    requires area { IsInsideOf above.now area }
    ensures value { IfOk result
        (λ made. context_of made ≡ context_in (seat_by above.now area) (grid_of style.now) counts) }
    ensures seat { (s : Seen) (outer : List Pair) → s.label.grid ≡ grid_of style.now →
        IsSeat s outer above.now area →
        IfOk result (λ made. context_of made ≡ context_at s (outer ++ counts ∷ [])) }
{
    match above {
        Above::Nothing => top_context(alloc, style, counts),
        Above::Grid(parent) => lower_context(alloc, parent, area, style, counts),
    }
}
