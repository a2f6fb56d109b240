//! What a grid answers in the inline axis once its children have answered (CSS Grid 2, 5.2 and section 9).

ghost use Rattle.std.specs.Prelude.{◌≡◌, ◌++◌, ◌+◌, ◌≤◌, ◌∷◌, [], List, false, IfOk, OnOk, OnErr};
ghost use Rattle.placing.specs.Nodes.{bare, sight_at, BareTrees, IsLive};
ghost use Rattle.placing.specs.Ranges.{AreReadable};
ghost use Rattle.tree_rules.specs.Answers.{Pair};
ghost use Rattle.tree_rules.specs.GridSizes.{grid_inline, grid_lends_columns};
ghost use Rattle.tree_rules.specs.Queries.{sees_columns};
ghost use Rattle.tree_rules.specs.declared.query.Given.{Given};
ghost use Rattle.node_arena.specs.declared.number.NodeId.{NodeId};
ghost use Rattle.inline_sizes.specs.Grids.{IsGrid, IsSomeGrid, column_levels};
ghost use Rattle.inline_sizes.specs.GridsSeen.{grid_seen};
ghost use Rattle.inline_sizes.specs.Lifted.{IsSelfLifted};

use crate::grid::{column_levels, column_spans};
use crate::laws::items_lie_in_their_tracks;
use crate::levels::empty_item;
use crate::tracks::{TrackInput, intrinsic_totals};
use lunit::{Item, Lu, NoMemory, Sequence, Steps};
use node_arena::{Arena, NodeId};
use placing::{GridParts, Node, node_at};
use std::alloc::Global;
use std::sync::ledger::Ledger;

/// No items, with room for this many.
pub fn with_room<T>(alloc: Global, count: usize) -> Result<Sequence<T>, NoMemory>
    ensures { IfOk result (λ items. items ≡ []) }
{
    Ok(Sequence::from_vec(Vec::with_capacity(alloc, count)?))
}

/// Items put after others.
pub(crate) fn append(items: &mut Sequence<Item>, more: &[Item]) -> Result<(), NoMemory>
    ensures { OnOk result (items.new ≡ items.old ++ more.now) }
{
    for item in more {
        items.push(*item)?;
    }
    Ok(())
}

#[tactic(auto, using(crate::proofs::ColumnAxes::can_size, crate::proofs::ColumnAxes::totals_are))]
/// The two intrinsic inline sizes of the content of a grid that sizes its columns: their totals under a min-content and a
/// max-content space, the second at least the first (CSS Grid 2, 5.2). It makes two steps. `NoMemory` where memory is wanting.
pub(crate) fn grid_inline<L: Ledger>(
    alloc: Global,
    tree: &Arena<Node>,
    id: NodeId,
    parts: &GridParts,
    passes: &mut Steps<L>,
) -> Result<(Lu, Lu), NoMemory>
    requires live { IsLive (bare tree.now.tree) id }
    requires readable { AreReadable (bare tree.now.tree) }
    requires own { sees_columns (sight_at (bare tree.now.tree) id) ≡ false }
    requires grid { IsSomeGrid (bare tree.now.tree) id parts.now }
    ensures value { (outer : List Pair) (width : Given) →
        IsGrid (bare tree.now.tree) id outer width parts.now →
        IfOk result (λ sizes. sizes ≡ grid_inline (grid_seen (bare tree.now.tree) id outer width)) }
    ensures step { OnOk result (passes.new ≡ passes.old + 2) }
    ensures stopped { OnErr result ((passes.old ≤ passes.new) × (passes.new ≤ passes.old + 2)) }
{
    items_lie_in_their_tracks(tree, id);
    let base = parts.base.grid();
    let spans = column_spans(alloc, base.placed.areas.as_slice())?;
    let input = TrackInput {
        style: &node_at(tree, id).style,
        count: base.pair.0,
        spans: spans.as_slice(),
        tracks: base.placed.columns,
        items: parts.items.as_slice(),
    };
    intrinsic_totals(alloc, &input, passes)
}

/// The items that a subgrid in the columns lends: one that stands for itself, and those of its children (CSS Grid 2, section 9).
/// `NoMemory` where memory is wanting.
pub(crate) fn grid_lends(alloc: Global, parts: &GridParts) -> Result<Sequence<Item>, NoMemory>
    requires lifted { IsSelfLifted (column_levels parts.now.base.above) }
    ensures { (b : BareTrees) (id : NodeId) (outer : List Pair) (width : Given) →
        IsGrid b id outer width parts.now →
        IfOk result (λ items. items ≡ grid_lends_columns (grid_seen b id outer width)) }
{
    let mut items = Sequence::new(alloc);
    if let Some(item) = empty_item(column_levels(&parts.base.grid().above)) {
        items.push(item)?;
    }
    append(&mut items, parts.items.as_slice())?;
    Ok(items)
}
