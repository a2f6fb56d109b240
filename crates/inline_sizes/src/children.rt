//! The children of a grid along its columns: whether a child is a subgrid in them, which item another child is, and what the children
//! told, kept.

ghost use Rattle.std.specs.Prelude.{◌≡◌, ◌∷◌, ◌++◌, ◌&&◌, [], ℕ, IfOk, OnOk};
ghost use Rattle.placing.specs.Bases.{HoldsPlaces};
ghost use Rattle.placing.specs.Nodes.{bare, children_at, kid_at, sight_at, IsLive};
ghost use Rattle.placing.specs.Ranges.{AreReadable};
ghost use Rattle.placing.specs.Told.{AreColumns, Each};
ghost use Rattle.placing.specs.Walks.{State, WalkedBelow};
ghost use Rattle.tree_rules.specs.Chains.{is_grid_kind, is_subgrid};
ghost use Rattle.tree_rules.specs.LentItems.{child_item};
ghost use Rattle.tree_rules.specs.declared.query.Query.{Query};
ghost use Rattle.walker.specs.Walkers.{nodes, seen, SameParts, Stands};
ghost use Rattle.inline_sizes.specs.Grids.{column_levels, has_subgrid_kind};
ghost use Rattle.inline_sizes.specs.Lifted.{IsLifted};

use crate::columns::with_room;
use crate::grid::column_levels;
use crate::sized::child_item;
use lunit::{Item, Lu, NoMemory, Sequence};
use node_arena::{Arena, NodeId};
use outside::Ruler;
use placing::style::is_subgrid;
use placing::{ChildArea, GridBase, MANY, Node, NodeKind, ToldColumns, node_at};
use std::alloc::Global;
use std::sync::ledger::Ledger;
use walker::Walker;

/// Whether a node is a grid.
pub(crate) fn is_grid(kind: &NodeKind) -> bool
    ensures { result ≡ is_grid_kind kind.now }
{
    match kind {
        NodeKind::Grid => true,
        _ => false,
    }
}

/// Whether a child of a grid is a subgrid in the columns.
pub(crate) fn shares_columns(tree: &Arena<Node>, id: NodeId) -> bool
    requires { IsLive (bare tree.now.tree) id }
    ensures { result ≡
        (has_subgrid_kind (sight_at (bare tree.now.tree) id).label &&
        is_subgrid (sight_at (bare tree.now.tree) id).label.grid.columns.template) }
{
    let node = node_at(tree, id);
    is_grid(&node.kind) && is_subgrid::<0>(&node.style)
}

/// A child of a grid that is no subgrid in the columns as an item along the columns, by its two inline sizes.
pub(crate) fn own_item(
    tree: &Arena<Node>,
    base: &GridBase,
    entry: ChildArea,
    low: Lu,
    high: Lu,
) -> Item
    requires live { IsLive (bare tree.now.tree) entry.child }
    requires readable { AreReadable (bare tree.now.tree) }
    requires lifted { IsLifted (column_levels base.now.above) entry.area.columns }
    ensures { result ≡
        child_item (column_levels base.now.above)
        (kid_at (bare tree.now.tree) entry.child).label.content.border_box
        (kid_at (bare tree.now.tree) entry.child).label.content.scrolls
        (kid_at (bare tree.now.tree) entry.child).label.grid.columns
        (kid_at (bare tree.now.tree) entry.child).label.content.inline entry.area.columns
        (low, high) }
{
    let style = &node_at(tree, entry.child).style;
    child_item::<0>(
        column_levels(&base.above),
        style,
        entry.area.columns,
        (low, high),
    )
}

/// Nothing told by the children of a grid, with room for this many: no sizes, no items and no ends. `NoMemory` where memory is
/// wanting.
pub(crate) fn no_entries(
    alloc: Global,
    count: usize,
) -> Result<(Sequence<(Lu, Lu)>, Sequence<Item>, Sequence<usize>), NoMemory>
    ensures inlines { IfOk result (λ told. told.0 ≡ []) }
    ensures items { IfOk result (λ told. told.1 ≡ []) }
    ensures ends { IfOk result (λ told. told.2 ≡ []) }
{
    let inlines = with_room(alloc, count)?;
    let items = with_room(alloc, count)?;
    let ends = with_room(alloc, count)?;
    Ok((inlines, items, ends))
}

/// Puts the two inline sizes of one more child, and where its items end, after those of the children before it. `NoMemory` where
/// memory is wanting.
pub(crate) fn add_entry(
    inlines: &mut Sequence<(Lu, Lu)>,
    ends: &mut Sequence<usize>,
    sizes: (Lu, Lu),
    end: usize,
) -> Result<(), NoMemory>
    ensures inlines { OnOk result (inlines.new ≡ inlines.old ++ sizes ∷ []) }
    ensures ends { OnOk result (ends.new ≡ ends.old ++ end ∷ []) }
{
    inlines.push(sizes)?;
    ends.push(end)?;
    Ok(())
}

/// Keeps what the children of a grid told for its inline sizes, where they are many. A walk goes on after it as before it. `NoMemory`
/// where memory is wanting; nothing has changed then.
pub(crate) fn keep_told<R: Ruler, L: Ledger>(
    walk: &mut Walker<R, L>,
    id: NodeId,
    told: ToldColumns,
) -> Result<(), NoMemory>
    requires stands { Stands walk.old }
    requires live { IsLive (nodes walk.old) id }
    requires places { HoldsPlaces (sight_at (nodes walk.old) id) (children_at (nodes walk.old) id)
        told.parts.base }
    requires told { AreColumns (sight_at (nodes walk.old) id) (kid_at (nodes walk.old)) Each told }
    ensures stands { Stands walk.new }
    ensures parts { SameParts walk.old walk.new }
    ensures below { (q : Query) (more : ℕ) (old : State) →
        WalkedBelow id q more old (seen R.log walk.old) →
        WalkedBelow id q more old (seen R.log walk.new) }
{
    if told.ends.len() < MANY {
        return Ok(());
    }
    walk.keep_columns(id, told)
}
