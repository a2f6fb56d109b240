//! The rows of a grid by what it is given in the block axis (CSS Grid 2, sections 9 and 12).

ghost use Rattle.std.specs.Prelude.{◌≡◌, ◌+◌, ◌≤◌, ◌≤ℤ◌, List, Some, map, pos, true, IfOk, IfSome};
ghost use Rattle.std.specs.Option.{option_copied};
ghost use Rattle.lunit.specs.declared.geometry.Area.{Area};
ghost use Rattle.node_arena.specs.declared.number.NodeId.{NodeId};
ghost use Rattle.placing.specs.Nodes.{bare, level_at, sight_at, IsLive};
ghost use Rattle.placing.specs.Ranges.{AreReadable};
ghost use Rattle.tree_rules.specs.Answers.{Pair};
ghost use Rattle.tree_rules.specs.GridSizes.{view_by};
ghost use Rattle.tree_rules.specs.Queries.{IsGivenFor, outer_context, sees_rows};
ghost use Rattle.tree_rules.specs.declared.kind.NodeKind.TheVariants as kind;
ghost use Rattle.tree_rules.specs.declared.query.Given.{Given};
ghost use Rattle.tree_rules.specs.declared.query.Given.TheVariants as given;
ghost use Rattle.inline_sizes.specs.GridsSeen.{grid_seen};
ghost use Rattle.block_sizes.specs.Spans.{HasZero, tracks_to};
ghost use Rattle.placing.specs.Spread.{IsSpread};
ghost use Rattle.block_sizes.specs.Wides.{IsWide, farthest, rows_seen};
ghost use Rattle.box_layout.specs.GridFrames.{AreTracks};

use block_sizes::view_by;
use inline_sizes::{TrackInput, items_lie_in_their_tracks};
use layout_cache::Given;
use lunit::{Area, NoMemory, Sequence, Span, Steps};
use node_arena::{Arena, NodeId};
use part_rules::View;
use placing::counts::own_pair;
use placing::{GridWide, Node, RowsAt, node_at, root};
use std::alloc::Global;
use std::sync::ledger::Ledger;

/// The spans of the children of a grid along the rows.
fn row_spans(alloc: Global, areas: &[(NodeId, Area)]) -> Result<Vec<Span>, NoMemory>
    ensures { IfOk result (λ spans. spans.items ≡ map (λ (e : NodeId × Area). e.1.rows) areas.now) }
{
    let mut spans = Vec::with_capacity(alloc, areas.len())?;
    for (_, area) in areas {
        spans.push(area.rows)?;
    }
    Ok(spans)
}

/// The rows of a subgrid in the rows are the tracks that it spans, and line 0 lies in the rows of every grid. The function does
/// next to nothing: the law is its contract.
fn rows_reach(tree: &Arena<Node>, id: NodeId)
    requires { AreReadable (bare tree.now.tree) }
    ensures shared { (outer : List Pair) (width : Given) →
        sees_rows (sight_at (bare tree.now.tree) id) ≡ true →
        (grid_seen (bare tree.now.tree) id outer width).placed.rows ≡
        tracks_to (outer_context (sight_at (bare tree.now.tree) id) outer).rows.table.tracks }
    ensures zero { (outer : List Pair) (width : Given) →
        HasZero (grid_seen (bare tree.now.tree) id outer width).placed.rows }
{
    tree.root();
}

/// The rows that a grid holds for a content box of this height, if it does.
fn held_rows<'a>(wide: &'a GridWide, height: &Given) -> Option<&'a RowsAt>
    ensures rows { IfSome (option_copied result) (λ rows. wide.now.rows ≡ Some rows) }
    ensures height { IfSome (option_copied result) (λ rows. height.now ≡ given.Size rows.size) }
{
    let Given::Size(size) = height else {
        return None;
    };
    match &wide.rows {
        Some(rows) => {
            if rows.size.units() == size.units() {
                Some(rows)
            } else {
                None
            }
        }
        None => None,
    }
}

/// Rows once more; `NoMemory` where memory is wanting.
fn copied_rows(alloc: Global, rows: &RowsAt) -> Result<View<1>, NoMemory>
    ensures { IfOk result (λ view. view ≡ rows.now.view) }
{
    let edges = Sequence::from_slice(alloc, rows.view.edges.as_slice())?;
    let gap = rows.view.gap;
    Ok(View { edges, gap })
}

/// The rows of a grid by what it is given in the block axis: those that it holds for this size, or sized for it anew.
pub(crate) fn rows_of<L: Ledger>(
    alloc: Global,
    tree: &Arena<Node>,
    id: NodeId,
    reps: &[(u32, u32)],
    width: &Given,
    wide: &GridWide,
    height: &Given,
    passes: &mut Steps<L>,
) -> Result<View<1>, NoMemory>
    requires live { IsLive (bare tree.now.tree) id }
    requires readable { AreReadable (bare tree.now.tree) }
    requires kind { (sight_at (bare tree.now.tree) id).label.kind ≡ kind.Grid }
    requires wide { IsWide (bare tree.now.tree) id reps.now width.now wide.now }
    requires block { IsGivenFor true (sees_rows (sight_at (bare tree.now.tree) id))
        (outer_context (sight_at (bare tree.now.tree) id) reps.now).rows.table.tracks height.now }
    requires spread { IsSpread (farthest (level_at (bare tree.now.tree) id)) height.now }
    ensures value { IfOk result
        (λ view. view ≡
        view_by {axis = 1} (rows_seen (bare tree.now.tree) id reps.now width.now) height.now) }
    ensures tracks { IfOk result (λ view. AreTracks wide.now.parts.base.placed.rows view.edges) }
    ensures gap { IfOk result (λ view. pos 0 ≤ℤ view.gap) }
    ensures ticks { passes.new ≤ passes.old + 1 }
{
    root(tree);
    rows_reach(tree, id);
    if let Some(rows) = held_rows(wide, height) {
        return copied_rows(alloc, rows);
    }
    rows_anew(alloc, tree, id, reps, width, wide, height, passes)
}

/// The rows of a grid by what it is given in the block axis: they are sized for a size and distributed in it, in one step, or they
/// are the tracks that it is given. `NoMemory` where memory is wanting.
fn rows_anew<L: Ledger>(
    alloc: Global,
    tree: &Arena<Node>,
    id: NodeId,
    reps: &[(u32, u32)],
    width: &Given,
    wide: &GridWide,
    height: &Given,
    passes: &mut Steps<L>,
) -> Result<View<1>, NoMemory>
    requires live { IsLive (bare tree.now.tree) id }
    requires readable { AreReadable (bare tree.now.tree) }
    requires kind { (sight_at (bare tree.now.tree) id).label.kind ≡ kind.Grid }
    requires wide { IsWide (bare tree.now.tree) id reps.now width.now wide.now }
    requires block { IsGivenFor true (sees_rows (sight_at (bare tree.now.tree) id))
        (outer_context (sight_at (bare tree.now.tree) id) reps.now).rows.table.tracks height.now }
    requires spread { IsSpread (farthest (level_at (bare tree.now.tree) id)) height.now }
    ensures value { IfOk result
        (λ view. view ≡
        view_by {axis = 1} (rows_seen (bare tree.now.tree) id reps.now width.now) height.now) }
    ensures tracks { IfOk result (λ view. AreTracks wide.now.parts.base.placed.rows view.edges) }
    ensures gap { IfOk result (λ view. pos 0 ≤ℤ view.gap) }
    ensures ticks { passes.new ≤ passes.old + 1 }
{
    root(tree);
    items_lie_in_their_tracks(tree, id);
    rows_reach(tree, id);
    let base = wide.parts.base.grid();
    let style = &node_at(tree, id).style;
    let pair = own_pair(alloc, style, &Given::None)?;
    let spans = row_spans(alloc, base.placed.areas.as_slice())?;
    let input = TrackInput {
        style,
        count: pair.1,
        spans: &spans,
        tracks: base.placed.rows,
        items: wide.items.as_slice(),
    };
    let view = view_by::<1, L>(alloc, &input, height, passes)?;
    Ok(view)
}
