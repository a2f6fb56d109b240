//! The children of a grid in their areas, and whether a node is a subgrid.

ghost use Rattle.std.specs.Prelude.{◌≡◌, ◌<◌, ◌+◌, ◌∷◌, ◌||◌, ◌&&◌, [], List, drop, length, slice_get, Some, true, false};
ghost use Rattle.node_arena.specs.Numbers.{child_at};
ghost use Rattle.tree_rules.specs.Answers.{Pair};
ghost use Rattle.tree_rules.specs.Chains.{has_chain, has_subgrid, is_grid_kind};
ghost use Rattle.tree_rules.specs.Contexts as rules;
ghost use Rattle.tree_rules.specs.Labels.{grid_of};
ghost use Rattle.placing.specs.Areas.{HasChildren, IsPlaced, entries_at, entry_by};
ghost use Rattle.placing.specs.Insides.{IsInside};
ghost use Rattle.placing.specs.Nodes.{bare, sight_at, IsLive};
ghost use Rattle.placing.specs.Seats.{context_at, context_of, IsSeat};
ghost use Rattle.placing.specs.declared.contexts.Above.TheVariants as above;
ghost use Rattle.placing.specs.declared.contexts.Context.{Context};

use crate::contexts::Placed;
use crate::node::Node;
use crate::sight::root;
use crate::style::is_subgrid;
use crate::wishes::is_grid;
use lunit::Area;
use node_arena::{Arena, NodeId};
use style_types::Style;

/// A child of a grid in its area.
#[derive(Clone, Copy)]
pub struct ChildArea {
    /// The number of the node.
    pub child: NodeId,
    /// Its place in document order, from 0.
    pub number: usize,
    /// The area, cut to the limits of the grid's lines.
    pub area: Area,
}

/// Whether a node is a subgrid where its parent is a grid: a grid whose template is `subgrid` in either axis (CSS Grid 2,
/// section 9).
pub fn has_subgrid(node: &Node) -> bool
    ensures { result ≡ (is_grid_kind node.now.kind && has_subgrid (grid_of node.now.style)) }
{
    is_grid(&node.kind) && has_subgrid_template(&node.style)
}

/// Whether a template is `subgrid` in either axis.
fn has_subgrid_template(style: &Style) -> bool
    ensures { result ≡ has_subgrid (grid_of style.now) }
{
    is_subgrid::<0>(style) || is_subgrid::<1>(style)
}

/// The child of a grid whose area is told at an index. Its seat is the grid's context and that area where it is a subgrid.
pub fn entry(tree: &Arena<Node>, id: NodeId, placed: &Placed, index: usize) -> ChildArea
    requires live { IsLive (bare tree.now.tree) id }
    requires children { HasChildren (bare tree.now.tree) id placed.now }
    requires index { index < length placed.now.areas }
    ensures live { IsLive (bare tree.now.tree) result.child }
    ensures child { child_at (bare tree.now.tree) id result.number ≡ Some result.child }
    ensures told { slice_get placed.now.areas index ≡ Some (result.child, result.area) }
    ensures next { drop index (entries_at (bare tree.now.tree) id placed.now) ≡
        entry_by (bare tree.now.tree) result ∷
        drop (index + 1) (entries_at (bare tree.now.tree) id placed.now) }
    ensures inside { (c : rules.Context) → IsPlaced (bare tree.now.tree) id c placed.now →
        IsInside c result.area }
    ensures seat { (c : Context) (reps : List Pair) →
        context_of c ≡ context_at (sight_at (bare tree.now.tree) id) reps →
        IsPlaced (bare tree.now.tree) id (context_of c) placed.now →
        has_chain (sight_at (bare tree.now.tree) result.child).chain ≡ true →
        IsSeat (sight_at (bare tree.now.tree) result.child) reps (above.Grid c) result.area }
    ensures alone { has_chain (sight_at (bare tree.now.tree) result.child).chain ≡ false →
        IsSeat (sight_at (bare tree.now.tree) result.child) [] above.Nothing result.area }
{
    root(tree);
    let number = placed.numbers.as_slice()[index];
    let (child, area) = placed.areas.as_slice()[index];
    ChildArea {
        child,
        number,
        area,
    }
}
