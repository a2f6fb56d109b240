//! Where the children of a grid are to stand (CSS Grid 2, 8.3).

ghost use Rattle.std.specs.Prelude.{◌≡◌, ◌<◌, ℕ, List, All, length, map, IfOk, IfSome, IsTrue};
ghost use Rattle.std.specs.Option.{option_copied, unwrap_or};
ghost use Rattle.line_names.specs.Tables.{IsLimit};
ghost use Rattle.lunit.specs.declared.geometry.Span.{Span};
ghost use Rattle.lunit.specs.declared.line_value.LineValue.TheVariants.{Auto};
ghost use Rattle.part_rules.specs.LineNames.{resolved};
ghost use Rattle.tree_rules.specs.Chains.{is_grid_kind, sibling_of};
ghost use Rattle.tree_rules.specs.Contexts.{automatic_span, wish_of};
ghost use Rattle.tree_rules.specs.Labels.{grid_of};
ghost use Rattle.placing.specs.Areas.{siblings_at};
ghost use Rattle.placing.specs.Insides.{AreFilled, IsFilled};
ghost use Rattle.placing.specs.Nodes.{bare, bare_of, children_at, label_of_bare};
ghost use Rattle.placing.specs.Ranges.{AreReadable, IsGridStyle};
ghost use Rattle.placing.specs.Seats.{context_of};
ghost use Rattle.placing.specs.Axes.{grid_axis};
ghost use Rattle.placing.specs.Wishes.{spot_along, wish_by, IsLimitOf, IsOpen, IsTold};

use crate::contexts::Context;
use crate::node::Node;
use crate::sight::{child_among, node_at};
use crate::style::{end_glance, end_line, set_count, start_glance, start_line};
use line_names::LineTable;
use lunit::{LineValue, NoMemory, Spot};
use node_arena::{Arena, NodeId};
use part_rules::Wish;
use std::alloc::Global;
use style_types::{Glance, Style};
use tree_rules::NodeKind;

/// Whether it is a grid container.
pub(crate) fn is_grid(kind: &NodeKind) -> bool
    ensures { result ≡ is_grid_kind kind.now }
{
    match kind {
        NodeKind::Grid => true,
        NodeKind::Flex => false,
        NodeKind::Leaf(_) => false,
    }
}

#[tactic(auto, using(crate::proofs::Siblings::span_laws))]
/// The automatic span of a child along an axis (CSS Grid 2, 8.3 and section 9). Its kind counts only where it has name sets for
/// more than a track.
fn automatic_span<const AXIS: u8>(kind: &NodeKind, style: &Style) -> u32
    requires { IsGridStyle (grid_of style.now) }
    ensures { result ≡
        automatic_span (is_grid_kind kind.now) (grid_axis AXIS (grid_of style.now)).template }
{
    let sets = set_count::<AXIS>(style);
    if sets <= 2 {
        return 1;
    }
    if !is_grid(kind) {
        return 1;
    }
    (sets.saturating_sub(1) as u32).max(1)
}

/// What a line value tells: nothing, a span of tracks, or a line or a name.
#[derive(Clone, Copy)]
enum Told {
    Nothing,
    Span(u32),
    Line,
}

/// What a line value tells; one that is not set is `auto`.
fn read(value: Option<&LineValue>) -> Told
    ensures { IsTold result (unwrap_or (option_copied value.entry) Auto) }
{
    match value {
        None => Told::Nothing,
        Some(LineValue::Auto) => Told::Nothing,
        Some(LineValue::Reach(tracks, None)) => Told::Span(*tracks),
        Some(_) => Told::Line,
    }
}

/// What the line value of its start tells. It is read only where a glance at the style does not tell.
fn told_at_start<const AXIS: u8>(style: &Style) -> Told
    ensures { IsTold result (grid_axis AXIS (grid_of style.now)).start_line }
{
    match start_glance::<AXIS>(style) {
        Glance::Read => read(start_line::<AXIS>(style)),
        Glance::Auto => Told::Nothing,
        Glance::Span(tracks) => Told::Span(tracks as u32),
    }
}

/// What the line value of its end tells. It is read only where a glance at the style does not tell.
fn told_at_end<const AXIS: u8>(style: &Style) -> Told
    ensures { IsTold result (grid_axis AXIS (grid_of style.now)).end_line }
{
    match end_glance::<AXIS>(style) {
        Glance::Read => read(end_line::<AXIS>(style)),
        Glance::Auto => Told::Nothing,
        Glance::Span(tracks) => Told::Span(tracks as u32),
    }
}

#[tactic(auto, using(crate::proofs::Open::open_laws))]
/// The tracks that a child spans along an axis of which no line is told; `None` where one is told, or a name. What its end tells
/// is read where it counts alone.
fn open_span<const AXIS: u8>(kind: &NodeKind, style: &Style) -> Option<u32>
    requires { IsGridStyle (grid_of style.now) }
    ensures { IfSome result
        (λ tracks. IsOpen (grid_axis AXIS (grid_of style.now)).start_line
        (grid_axis AXIS (grid_of style.now)).end_line
        (automatic_span (is_grid_kind kind.now) (grid_axis AXIS (grid_of style.now)).template)
        tracks) }
{
    match told_at_start::<AXIS>(style) {
        Told::Nothing => match told_at_end::<AXIS>(style) {
            Told::Nothing => Some(automatic_span::<AXIS>(kind, style)),
            Told::Span(tracks) => Some(tracks),
            Told::Line => None,
        },
        Told::Span(tracks) => match told_at_end::<AXIS>(style) {
            Told::Nothing => Some(tracks),
            Told::Span(_) => Some(tracks),
            Told::Line => None,
        },
        Told::Line => None,
    }
}

/// Where a child is to stand along an axis, by its line values and the lines of the table.
fn spot_by_lines<const AXIS: u8>(table: &LineTable, kind: &NodeKind, style: &Style) -> Spot
    requires { IsGridStyle (grid_of style.now) }
    ensures { result ≡ spot_along AXIS table.now (is_grid_kind kind.now) (grid_of style.now) }
{
    let start = start_line::<AXIS>(style);
    let end = end_line::<AXIS>(style);
    let span = automatic_span::<AXIS>(kind, style);
    let auto = LineValue::Auto;
    table.resolve(start.unwrap_or(&auto), end.unwrap_or(&auto), span)
}

/// Where a child is to stand along an axis, by its line values.
fn spot_by<const AXIS: u8>(table: &LineTable, kind: &NodeKind, style: &Style) -> Spot
    requires { IsGridStyle (grid_of style.now) }
    ensures { result ≡ spot_along AXIS table.now (is_grid_kind kind.now) (grid_of style.now) }
{
    match open_span::<AXIS>(kind, style) {
        Some(tracks) => table.free_place(tracks),
        None => spot_by_lines::<AXIS>(table, kind, style),
    }
}

#[tactic(auto, using(crate::proofs::Filled::filled))]
/// Where a child is to stand along an axis.
fn spot<const AXIS: u8>(table: &LineTable, kind: &NodeKind, style: &Style) -> Spot
    requires { IsGridStyle (grid_of style.now) }
    ensures value { result ≡ spot_along AXIS table.now (is_grid_kind kind.now) (grid_of style.now) }
    ensures filled { IsLimitOf table.now → IsFilled result }
{
    spot_by::<AXIS>(table, kind, style)
}

#[tactic(auto, using(crate::proofs::Siblings::wish_is))]
/// Where a child is to stand.
fn wish(context: &Context, node: &Node) -> Wish
    requires { IsGridStyle (grid_of node.now.style) }
    ensures value { result ≡
        wish_of (context_of context.now) (sibling_of (label_of_bare (bare_of node.now))) }
    ensures column { IsLimitOf context.now.columns.table → IsFilled result.column }
    ensures row { IsLimitOf context.now.rows.table → IsFilled result.row }
{
    let column = spot::<0>(&context.columns.table, &node.kind, &node.style);
    let row = spot::<1>(&context.rows.table, &node.kind, &node.style);
    Wish { column, row }
}

/// Where the child of a number is to stand.
fn wish_at(
    tree: &Arena<Node>,
    id: NodeId,
    children: &[NodeId],
    context: &Context,
    number: usize,
) -> Wish
    requires readable { AreReadable (bare tree.now.tree) }
    requires list { children.now ≡ children_at (bare tree.now.tree) id }
    requires number { number < length children.now }
    ensures value { result ≡
        wish_by (context_of context.now) (siblings_at (bare tree.now.tree) id) number }
    ensures column { IsLimitOf context.now.columns.table → IsFilled result.column }
    ensures row { IsLimitOf context.now.rows.table → IsFilled result.row }
{
    let child = child_among(tree, id, children, number);
    wish(context, node_at(tree, child))
}

/// Where the children of these numbers, of all children of a node, are to stand. `NoMemory` where memory is wanting.
pub(crate) fn wishes(
    alloc: Global,
    tree: &Arena<Node>,
    id: NodeId,
    children: &[NodeId],
    context: &Context,
    numbers: &[usize],
) -> Result<Vec<Wish>, NoMemory>
    requires readable { AreReadable (bare tree.now.tree) }
    requires list { children.now ≡ children_at (bare tree.now.tree) id }
    requires numbers { All (λ n. n < length children.now) numbers.now }
    requires columns { IsLimitOf context.now.columns.table }
    requires rows { IsLimitOf context.now.rows.table }
    ensures value { IfOk result
        (λ wishes. wishes.items ≡
        map (wish_by (context_of context.now) (siblings_at (bare tree.now.tree) id)) numbers.now) }
    ensures filled { IfOk result (λ wishes. AreFilled wishes.items) }
{
    let mut wishes = Vec::with_capacity(alloc, numbers.len())?;
    for number in numbers {
        wishes.push(wish_at(tree, id, children, context, *number))?;
    }
    Ok(wishes)
}
