//! A grid once the counts of its repetitions are known: its context, the areas of its children, and, once these are asked, their
//! inline sizes and their items along the columns (CSS Grid 2, sections 7 to 9 and 12.5).

ghost use Rattle.std.specs.Prelude.{◌≡◌, ◌++◌, ◌∷◌, [], ℕ, length, map, IfOk, List};
ghost use Rattle.lunit.specs.declared.geometry.Area.{Area};
ghost use Rattle.node_arena.specs.declared.number.NodeId.{NodeId};
ghost use Rattle.placing.specs.Bases.{HoldsPlaces};
ghost use Rattle.placing.specs.Counted.{IsGivenSize};
ghost use Rattle.placing.specs.Nodes.{bare, children_at, sight_at, IsLive};
ghost use Rattle.placing.specs.Ranges.{AreReadable};
ghost use Rattle.placing.specs.Seats.{IsInsideOf, IsSeat};
ghost use Rattle.placing.specs.Walks.{State, Stopped, WalkedBelow};
ghost use Rattle.tree_rules.specs.Answers.{Pair};
ghost use Rattle.tree_rules.specs.declared.query.Given.{Given};
ghost use Rattle.tree_rules.specs.declared.query.Query.{Query};
ghost use Rattle.walker.specs.Walkers.{nodes, seen, HasSeat, SameParts, Stands};
ghost use Rattle.inline_sizes.specs.Grids.{IsBase, IsCounted, column_levels};

use layout_cache::Given;
use lunit::{Area, NoMemory, Sequence, Span};
use node_arena::{Arena, NodeId};
use outside::Ruler;
use part_rules::Level;
use placing::counts::own_pair;
use placing::{Above, GridBase, Node, SharedBase, areas_in, context_in, find_base, node_at};
use std::alloc::Global;
use std::sync::ledger::Ledger;
use walker::{Seat, Walker};

/// Counts, and then others.
fn with_pair(
    alloc: Global,
    outer: &[(u32, u32)],
    pair: (u32, u32),
) -> Result<Sequence<(u32, u32)>, NoMemory>
    ensures { IfOk result (λ pairs. pairs ≡ outer.now ++ pair ∷ []) }
{
    let mut pairs = Vec::with_capacity(alloc, outer.len().saturating_add(1))?;
    pairs.extend_from_slice(outer)?;
    pairs.push(pair)?;
    Ok(Sequence::from_vec(pairs))
}

/// The subgrids from a grid up to the grid that sizes its columns, itself first.
pub(crate) fn column_levels(above: &Above) -> &[Level]
    ensures { result.now ≡ column_levels above.now }
{
    match above {
        Above::Nothing => &[],
        Above::Grid(context) => context.columns.levels.as_slice(),
    }
}

/// The spans of the children of a grid along the columns.
pub(crate) fn column_spans(alloc: Global, areas: &[(NodeId, Area)]) -> Result<Vec<Span>, NoMemory>
    ensures { IfOk result
        (λ spans. spans.items ≡ map (λ (e : NodeId × Area). e.1.columns) areas.now) }
{
    let mut spans = Vec::with_capacity(alloc, areas.len())?;
    for (_, area) in areas {
        spans.push(area.columns)?;
    }
    Ok(spans)
}

/// The counts of a grid's own automatic repeats, columns first, by what it is given in the inline axis, and those that its subgrids
/// see: the counts above it, and its own last. `NoMemory` where memory is wanting.
fn counts_in(
    alloc: Global,
    tree: &Arena<Node>,
    id: NodeId,
    reps: &[(u32, u32)],
    width: &Given,
) -> Result<((u32, u32), Sequence<(u32, u32)>), NoMemory>
    requires live { IsLive (bare tree.now.tree) id }
    requires readable { AreReadable (bare tree.now.tree) }
    requires width { IsGivenSize width.now }
    ensures { IfOk result (IsCounted (bare tree.now.tree) id reps.now width.now) }
{
    let style = &node_at(tree, id).style;
    let pair = own_pair(alloc, style, width)?;
    let pairs = with_pair(alloc, reps, pair)?;
    Ok((pair, pairs))
}

/// The context of a grid in its seat and the areas of its children, by its counts. `NoMemory` where memory is wanting.
fn base_by(
    alloc: Global,
    tree: &Arena<Node>,
    id: NodeId,
    counts: ((u32, u32), Sequence<(u32, u32)>),
    above: &Above,
    area: Area,
) -> Result<GridBase, NoMemory>
    requires live { IsLive (bare tree.now.tree) id }
    requires readable { AreReadable (bare tree.now.tree) }
    requires area { IsInsideOf above.now area }
    ensures { (outer : List Pair) (width : Given) →
        length outer ≡ length (sight_at (bare tree.now.tree) id).chain →
        IsCounted (bare tree.now.tree) id outer width counts →
        IsSeat (sight_at (bare tree.now.tree) id) outer above.now area →
        IfOk result (IsBase (bare tree.now.tree) id outer width) }
{
    let (pair, pairs) = counts;
    let style = &node_at(tree, id).style;
    let context = context_in(alloc, above, area, style, pair)?;
    let placed = areas_in(alloc, tree, id, &context)?;
    Ok(GridBase {
        pair,
        pairs,
        above: Above::Grid(context),
        placed,
    })
}

/// The context of a grid in its seat and the areas of its children, by the counts of the repetitions above it and what it is given
/// in the inline axis, of which a size is at least 0 (CSS Grid 2, sections 7 to 9). No child is asked. `NoMemory` where memory is
/// wanting.
pub fn base_at(
    alloc: Global,
    tree: &Arena<Node>,
    id: NodeId,
    reps: &[(u32, u32)],
    above: &Above,
    area: Area,
    width: &Given,
) -> Result<GridBase, NoMemory>
    requires live { IsLive (bare tree.now.tree) id }
    requires readable { AreReadable (bare tree.now.tree) }
    requires reps { length reps.now ≡ length (sight_at (bare tree.now.tree) id).chain }
    requires seat { IsSeat (sight_at (bare tree.now.tree) id) reps.now above.now area }
    requires width { IsGivenSize width.now }
    ensures { IfOk result (IsBase (bare tree.now.tree) id reps.now width.now) }
{
    let counts = counts_in(alloc, tree, id, reps, width)?;
    base_by(alloc, tree, id, counts, above, area)
}

/// A base that a node keeps from now on, and once more for the one who made it; `NoMemory` where memory is wanting.
fn kept_base<R: Ruler, L: Ledger>(
    walk: &mut Walker<R, L>,
    id: NodeId,
    base: GridBase,
) -> Result<SharedBase, NoMemory>
    requires stands { Stands walk.old }
    requires live { IsLive (nodes walk.old) id }
    requires holds { HoldsPlaces (sight_at (nodes walk.old) id) (children_at (nodes walk.old) id)
        base }
    ensures value { IfOk result (λ kept. kept ≡ base) }
    ensures stands { Stands walk.new }
    ensures parts { SameParts walk.old walk.new }
    ensures same { nodes walk.new ≡ nodes walk.old }
    ensures below { (q : Query) (more : ℕ) (new : State) →
        WalkedBelow id q more (seen R.log walk.new) new →
        WalkedBelow id q more (seen R.log walk.old) new }
    ensures stopped { (q : Query) (new : State) → Stopped id q (seen R.log walk.new) new →
        Stopped id q (seen R.log walk.old) new }
{
    let base = SharedBase::new(walk.alloc, base)?;
    let other = base.again()?;
    walk.keep_base(id, other);
    Ok(base)
}

/// The context of a grid in its seat and the areas of its children, as `base_at` makes them: those that the grid keeps by these
/// counts, or made anew and kept from now on, so that a walk begins after it as before it. `NoMemory` where memory is wanting.
pub(crate) fn shared_base<R: Ruler, L: Ledger>(
    walk: &mut Walker<R, L>,
    id: NodeId,
    seat: &Seat,
    width: &Given,
) -> Result<SharedBase, NoMemory>
    requires stands { Stands walk.old }
    requires live { IsLive (nodes walk.old) id }
    requires reps { length seat.now.reps.now ≡ length (sight_at (nodes walk.old) id).chain }
    requires seat { HasSeat (sight_at (nodes walk.old) id) seat.now }
    requires width { IsGivenSize width.now }
    ensures value { IfOk result (IsBase (nodes walk.old) id seat.now.reps.now width.now) }
    ensures stands { Stands walk.new }
    ensures parts { SameParts walk.old walk.new }
    ensures same { nodes walk.new ≡ nodes walk.old }
    ensures below { (q : Query) (more : ℕ) (new : State) →
        WalkedBelow id q more (seen R.log walk.new) new →
        WalkedBelow id q more (seen R.log walk.old) new }
    ensures stopped { (q : Query) (new : State) → Stopped id q (seen R.log walk.new) new →
        Stopped id q (seen R.log walk.old) new }
{
    let counts = counts_in(walk.alloc, walk.tree, id, seat.reps, width)?;
    if let Some(base) = find_base(walk.tree, id, counts.1.as_slice()) {
        return base.again();
    }
    let base = base_by(walk.alloc, walk.tree, id, counts, seat.above, seat.area)?;
    kept_base(walk, id, base)
}
