//! The areas of the children of a grid, cut to the limit of its lines (CSS Grid 2, 8.5).

ghost use Rattle.std.specs.Prelude.{◌≡◌, ◌<◌, ◌≤◌, ◌+◌, ◌∷◌, ◌++◌, ◌<ℤ◌, ℕ, ℤ, List, All, drop, length, map, IfOk, IsTrue, Some, get_or};
ghost use Rattle.line_names.specs.Tables.{IsLimit};
ghost use Rattle.lunit.specs.declared.geometry.Area.{Area};
ghost use Rattle.lunit.specs.declared.geometry.Span.{Span};
ghost use Rattle.node_arena.specs.Numbers.{child_at};
ghost use Rattle.node_arena.specs.declared.number.NodeId.{NodeId};
ghost use Rattle.part_rules.specs.LineNames.{cut_span};
ghost use Rattle.part_rules.specs.Placement.{range_of, with_span};
ghost use Rattle.tree_rules.specs.Contexts.{area_of, cut_area, shape_of};
ghost use Rattle.tree_rules.specs.Labels.{grid_of};
ghost use Rattle.placing.specs.Areas.{IsPlaced, child_in, orders_at, placed_of, siblings_at};
ghost use Rattle.placing.specs.Along.{span_along};
ghost use Rattle.placing.specs.Insides.{AreFull, IsInside, IsUncut, IsWithin, cut_to};
ghost use Rattle.placing.specs.Nodes.{bare, children_at, kids_at, sight_at, IsLive};
ghost use Rattle.placing.specs.Order.{are_ascending, numbers_in_order};
ghost use Rattle.placing.specs.Ranges.{AreReadable};
ghost use Rattle.placing.specs.Seats.{context_of};
ghost use Rattle.placing.specs.Wishes.{IsLimitOf, areas_by, limit_of};

use crate::contexts::{Context, Placed};
use crate::node::Node;
use crate::order::{numbers_as_they_come, numbers_in_order};
use crate::sight::{child_among, children, node_at};
use crate::style::{is_column_flow, is_dense, order};
use crate::wishes::wishes;
use cell_index::IntervalCells;
use grid_placement::{Shape, place};
use lunit::{Area, NoMemory, Sequence, Span};
use node_arena::{Arena, NodeId};
use std::alloc::Global;
use style_types::Style;

/// The values of `order` of the children of a node, in document order.
fn orders(
    alloc: Global,
    tree: &Arena<Node>,
    id: NodeId,
    children: &[NodeId],
) -> Result<Vec<i32>, NoMemory>
    requires list { children.now ≡ children_at (bare tree.now.tree) id }
    requires count { length children.now ≡ length (kids_at (bare tree.now.tree) id) }
    ensures { IfOk result (λ orders. orders.items ≡ orders_at (bare tree.now.tree) id) }
{
    let mut orders = Vec::with_capacity(alloc, children.len())?;
    for index in 0..children.len() {
        let child = child_among(tree, id, children, index);
        orders.push(order(&node_at(tree, child).style))?;
    }
    Ok(orders)
}

/// Whether no value of `order` of the children of a node is less than this one, nor than one before it.
fn are_ascending(tree: &Arena<Node>, id: NodeId, children: &[NodeId], least: i32) -> bool
    requires list { children.now ≡ children_at (bare tree.now.tree) id }
    requires count { length children.now ≡ length (kids_at (bare tree.now.tree) id) }
    ensures { result ≡ are_ascending least (orders_at (bare tree.now.tree) id) }
{
    let mut last = least;
    for index in 0..children.len() {
        let child = child_among(tree, id, children, index);
        let order = order(&node_at(tree, child).style);
        if order < last {
            return false;
        }
        last = order;
    }
    true
}

/// The numbers of the children of a node in order-modified document order. Values of `order` that ascend are not sorted.
fn sorted_numbers(
    alloc: Global,
    tree: &Arena<Node>,
    id: NodeId,
    children: &[NodeId],
) -> Result<Sequence<usize>, NoMemory>
    requires list { children.now ≡ children_at (bare tree.now.tree) id }
    requires count { length children.now ≡ length (kids_at (bare tree.now.tree) id) }
    ensures { IfOk result
        (λ numbers. numbers ≡ numbers_in_order (orders_at (bare tree.now.tree) id)) }
{
    if are_ascending(tree, id, children, i32::MIN) {
        return numbers_as_they_come(alloc, children.len());
    }
    let orders = orders(alloc, tree, id, children)?;
    numbers_in_order(alloc, &orders)
}

/// The numbers of the children of a node in order-modified document order (CSS Grid 2, 6.3). `NoMemory` where memory is
/// wanting.
pub fn ordered(alloc: Global, tree: &Arena<Node>, id: NodeId) -> Result<Sequence<usize>, NoMemory>
    requires { IsLive (bare tree.now.tree) id }
    ensures value { IfOk result
        (λ numbers. numbers ≡ numbers_in_order (orders_at (bare tree.now.tree) id)) }
    ensures count { IfOk result
        (λ numbers. length numbers ≡ length (kids_at (bare tree.now.tree) id)) }
    ensures within { IfOk result
        (λ numbers. All (λ n. n < length (kids_at (bare tree.now.tree) id)) numbers) }
{
    let numbers = sorted_numbers(alloc, tree, id, children(tree, id))?;
    Ok(numbers)
}

/// What placement knows of a grid.
fn shape(context: &Context, style: &Style) -> Shape
    ensures { result ≡ shape_of (context_of context.now) (grid_of style.now) }
{
    Shape {
        columns: context.columns.table.tracks(),
        column_flow: is_column_flow(style),
        dense: is_dense(style),
        rows: context.rows.table.tracks(),
    }
}

/// A span cut to a limit; one wholly outside becomes the last track on that side (CSS Grid 2, 5.4).
fn cut_span(limit: Span, span: Span) -> Span
    requires { IsLimit limit }
    ensures { result ≡ cut_span limit.start limit.end span }
{
    if span.end <= limit.start {
        return Span {
            start: limit.start,
            end: limit.start + 1,
        };
    }
    if limit.end <= span.start {
        return Span {
            start: limit.end - 1,
            end: limit.end,
        };
    }
    Span {
        start: limit.start.max(span.start),
        end: limit.end.min(span.end),
    }
}

/// The limits of a context.
fn limits(context: &Context) -> Area
    ensures columns { result.columns ≡ limit_of context.now.columns.table }
    ensures rows { result.rows ≡ limit_of context.now.rows.table }
    ensures fit { IsLimitOf context.now.columns.table × IsLimitOf context.now.rows.table }
{
    Area {
        columns: context.columns.table.limit(),
        rows: context.rows.table.limit(),
    }
}

/// Whether a span has a track and lies within a limit.
fn is_within(limit: Span, span: Span) -> bool
    ensures { IsTrue result → IsWithin limit.start limit.end span }
{
    if span.start < limit.start {
        return false;
    }
    if limit.end < span.end {
        return false;
    }
    span.start < span.end
}

#[tactic(auto, using(crate::proofs::Uncut::uncut))]
/// Whether limits leave an area as it is, as they do with most.
fn is_uncut(limits: Area, area: Area) -> bool
    ensures { IsTrue result → IsUncut limits area }
{
    is_within(limits.columns, area.columns) && is_within(limits.rows, area.rows)
}

/// An area cut to limits.
fn cut_area(limits: Area, area: Area) -> Area
    requires columns { IsLimit limits.columns }
    requires rows { IsLimit limits.rows }
    ensures { result ≡ cut_to limits area }
{
    if is_uncut(limits, area) {
        return area;
    }
    Area {
        columns: cut_span(limits.columns, area.columns),
        rows: cut_span(limits.rows, area.rows),
    }
}

/// The children of these numbers with their areas, cut to limits.
fn cut_areas(
    alloc: Global,
    tree: &Arena<Node>,
    id: NodeId,
    children: &[NodeId],
    limits: Area,
    numbers: &[usize],
    areas: &[Area],
) -> Result<Sequence<(NodeId, Area)>, NoMemory>
    requires list { children.now ≡ children_at (bare tree.now.tree) id }
    requires numbers { All (λ n. n < length children.now) numbers.now }
    requires count { length areas.now ≡ length numbers.now }
    requires columns { IsLimit limits.columns }
    requires rows { IsLimit limits.rows }
    ensures children { IfOk result
        (λ cut. map (child_at (bare tree.now.tree) id) numbers.now ≡ map child_in cut) }
    ensures areas { IfOk result
        (λ cut. map (λ (e : NodeId × Area). e.1) cut ≡ map (cut_to limits) areas.now) }
{
    let mut cut = Vec::with_capacity(alloc, numbers.len())?;
    for index in 0..numbers.len() {
        let child = child_among(tree, id, children, numbers[index]);
        cut.push((child, cut_area(limits, areas[index])))?;
    }
    Ok(Sequence::from_vec(cut))
}

/// The span of an area along an axis.
pub(crate) fn span_along(axis: u8, area: Area) -> Span
    ensures { result ≡ span_along axis area }
{
    if axis == 0 { area.columns } else { area.rows }
}

/// The least range that has both spans.
fn with_span(range: Span, span: Span) -> Span
    ensures { result ≡ with_span range span }
{
    Span {
        start: range.start.min(span.start),
        end: range.end.max(span.end),
    }
}

/// The least range that has so many explicit tracks and all areas along an axis (CSS Grid 2, 7.5).
fn range(axis: u8, explicit: u32, areas: &[(NodeId, Area)]) -> Span
    requires { explicit ≤ 65536 }
    ensures { result ≡
        range_of explicit (map (λ (e : NodeId × Area). span_along axis e.1) areas.now) }
{
    let mut range = Span {
        start: 0,
        end: explicit as i32,
    };
    for (_, area) in areas {
        range = with_span(range, span_along(axis, *area));
    }
    range
}

#[tactic(auto, using(crate::proofs::Full::placed_laws))]
/// The areas of children before they are cut.
fn placed(
    alloc: Global,
    tree: &Arena<Node>,
    id: NodeId,
    children: &[NodeId],
    context: &Context,
    numbers: &[usize],
) -> Result<Vec<Area>, NoMemory>
    requires live { IsLive (bare tree.now.tree) id }
    requires readable { AreReadable (bare tree.now.tree) }
    requires list { children.now ≡ children_at (bare tree.now.tree) id }
    requires numbers { All (λ n. n < length children.now) numbers.now }
    requires few { length numbers.now ≤ 65536 }
    requires columns { IsLimitOf context.now.columns.table }
    requires rows { IsLimitOf context.now.rows.table }
    ensures value { IfOk result
        (λ areas. areas.items ≡
        areas_by (context_of context.now) (sight_at (bare tree.now.tree) id).label.grid
        (siblings_at (bare tree.now.tree) id) numbers.now) }
    ensures full { IfOk result (λ areas. AreFull areas.items) }
    ensures count { IfOk result (λ areas. length areas.items ≡ length numbers.now) }
{
    let wishes = wishes(alloc, tree, id, children, context, numbers)?;
    let mut cells = IntervalCells::new(alloc);
    place(
        alloc,
        &wishes,
        shape(context, &node_at(tree, id).style),
        &mut cells,
    )
}

/// The areas of the children of a grid in its context, cut to the limits of its lines, and the tracks of both axes (CSS
/// Grid 2, 8.3 to 8.5). `NoMemory` where memory is wanting.
pub fn areas_in(
    alloc: Global,
    tree: &Arena<Node>,
    id: NodeId,
    context: &Context,
) -> Result<Placed, NoMemory>
    requires live { IsLive (bare tree.now.tree) id }
    requires readable { AreReadable (bare tree.now.tree) }
    ensures { IfOk result
        (λ placed. IsPlaced (bare tree.now.tree) id (context_of context.now) placed) }
{
    let limits = limits(context);
    let children = children(tree, id);
    let numbers = ordered(alloc, tree, id)?;
    let areas = placed(alloc, tree, id, children, context, numbers.as_slice())?;
    let areas = cut_areas(
        alloc,
        tree,
        id,
        children,
        limits,
        numbers.as_slice(),
        &areas,
    )?;
    let columns = range(0, context.columns.table.tracks(), areas.as_slice());
    let rows = range(1, context.rows.table.tracks(), areas.as_slice());
    Ok(Placed {
        areas,
        numbers,
        columns,
        rows,
    })
}
