//! The context and the areas of any grid of a tree, from the top of its chain (CSS Grid 2, section 9).

ghost use Rattle.std.specs.Prelude.{◌≡◌, ◌+◌, length, IfOk};
ghost use Rattle.placing.specs.Areas.{IsPlaced, found_area};
ghost use Rattle.placing.specs.Nodes.{bare, sight_at, IsLive};
ghost use Rattle.placing.specs.Ranges.{AreReadable};
ghost use Rattle.placing.specs.Seats.{HasGrid, context_at, context_of, IsSeat};

use crate::contexts::{Above, Context, Placed};
use crate::grids::context_in;
use crate::items::has_subgrid;
use crate::node::Node;
use crate::placement::areas_in;
use crate::sight::{node_at, parent};
use crate::wishes::is_grid;
use lunit::{Area, NoMemory, Span};
use node_arena::{Arena, NodeId};
use std::alloc::Global;

/// No area.
const NO_AREA: Area = Area {
    columns: Span { start: 0, end: 0 },
    rows: Span { start: 0, end: 0 },
};

/// The grid of which a node is a subgrid.
fn grid_above(tree: &Arena<Node>, id: NodeId) -> Option<NodeId>
    requires { IsLive (bare tree.now.tree) id }
    ensures { HasGrid (bare tree.now.tree) id result }
{
    let parent = parent(tree, id)?;
    if is_grid(&node_at(tree, parent).kind) && has_subgrid(node_at(tree, id)) {
        Some(parent)
    } else {
        None
    }
}

/// The area of a child; no area where it is none of these.
fn area_of(areas: &[(NodeId, Area)], id: NodeId) -> Area
    ensures { result ≡ found_area id areas.now }
{
    for (child, area) in areas {
        if child.is(id) {
            return *area;
        }
    }
    NO_AREA
}

#[cycle(chain)]
#[tactic(auto, using(crate::proofs::Seated::chain_laws))]
/// The seat of a node: the context of the grid of which it is a subgrid and its area there, by the counts of the
/// repetitions of the grids above it, columns first, the topmost grid first. `NoMemory` where memory is wanting.
pub fn seat(
    alloc: Global,
    tree: &Arena<Node>,
    id: NodeId,
    outer: &[(u32, u32)],
) -> Result<(Above, Area), NoMemory>
    requires live { IsLive (bare tree.now.tree) id }
    requires readable { AreReadable (bare tree.now.tree) }
    requires outer { length outer.now ≡ length (sight_at (bare tree.now.tree) id).chain }
    ensures { IfOk result
        (λ seat. IsSeat (sight_at (bare tree.now.tree) id) outer.now seat.0 seat.1) }
{
    match grid_above(tree, id) {
        None => Ok((Above::Nothing, NO_AREA)),
        Some(parent) => {
            let context = context(alloc, tree, parent, outer)?;
            let placed = areas_in(alloc, tree, parent, &context)?;
            let area = area_of(placed.areas.as_slice(), id);
            Ok((Above::Grid(context), area))
        }
    }
}

#[cycle(chain)]
#[tactic(auto, using(crate::proofs::Seated::chain_laws))]
/// The context of a grid, by the counts of the repetitions of the grids on its chain, columns first, the topmost grid first
/// and its own last (CSS Grid 2, sections 7 and 9). `NoMemory` where memory is wanting.
pub fn context(
    alloc: Global,
    tree: &Arena<Node>,
    id: NodeId,
    reps: &[(u32, u32)],
) -> Result<Context, NoMemory>
    requires live { IsLive (bare tree.now.tree) id }
    requires readable { AreReadable (bare tree.now.tree) }
    requires reps { length reps.now ≡ length (sight_at (bare tree.now.tree) id).chain + 1 }
    ensures { IfOk result
        (λ made. context_of made ≡ context_at (sight_at (bare tree.now.tree) id) reps.now) }
{
    match reps.split_last() {
        Some((counts, outer)) => {
            let (above, area) = seat(alloc, tree, id, outer)?;
            context_in(alloc, &above, area, &node_at(tree, id).style, *counts)
        }
        None => unreachable!(),
    }
}

/// The areas of the children of a grid, by the same counts (CSS Grid 2, 8.3 to 8.5). `NoMemory` where memory is wanting.
pub fn areas(
    alloc: Global,
    tree: &Arena<Node>,
    id: NodeId,
    reps: &[(u32, u32)],
) -> Result<Placed, NoMemory>
    requires live { IsLive (bare tree.now.tree) id }
    requires readable { AreReadable (bare tree.now.tree) }
    requires reps { length reps.now ≡ length (sight_at (bare tree.now.tree) id).chain + 1 }
    ensures { IfOk result
        (λ placed. IsPlaced (bare tree.now.tree) id
        (context_at (sight_at (bare tree.now.tree) id) reps.now) placed) }
{
    let context = context(alloc, tree, id, reps)?;
    areas_in(alloc, tree, id, &context)
}
