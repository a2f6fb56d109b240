//! Where the children of a grid stand that are subgrids of it: found once a grid, and only where there is one (CSS Grid 2, section 9).

ghost use Rattle.std.specs.Prelude.{◌≡◌, ◌<◌, [], true, false, ℕ, None, Some, length, map, get_or, if◌then◌else◌, IfOk};
ghost use Rattle.lunit.specs.declared.geometry.Area.{Area};
ghost use Rattle.node_arena.specs.declared.number.NodeId.{NodeId};
ghost use Rattle.placing.specs.Areas.{HasChildren};
ghost use Rattle.placing.specs.Counted.{IsGivenSize};
ghost use Rattle.placing.specs.Kept.{IsRight, frame_of};
ghost use Rattle.placing.specs.Nodes.{bare, kids_at, sight_at, IsLive};
ghost use Rattle.placing.specs.Ranges.{AreReadable};
ghost use Rattle.placing.specs.Seats.{IsSeat};
ghost use Rattle.placing.specs.declared.contexts.Above.TheVariants as above;
ghost use Rattle.tree_rules.specs.Chains.{is_grid_kind};
ghost use Rattle.tree_rules.specs.declared.query.Query.{Query};
ghost use Rattle.inline_sizes.specs.Grids.{IsBase};
ghost use Rattle.box_layout.specs.Beneath.{AreSeats, AreTelling, HasPairs, IsAreaOf, above_held, base_held, has_lower, is_lower, is_tracks, pairs_held};

use block_sizes::kept_wide;
use inline_sizes::base_at;
use layout_cache::Given;
use lunit::{Area, NoMemory, Sequence, Span};
use node_arena::{Arena, NodeId};
use placing::{Above, Frame, GridBase, Node, NodeKind, Placed, SharedWide, entry, node_at, root};
use std::alloc::Global;
use std::rc::Rc;

/// No area.
const NO_AREA: Area = Area {
    columns: Span { start: 0, end: 0 },
    rows: Span { start: 0, end: 0 },
};

/// A grid before its children are asked.
#[derive(Drop)]
pub(crate) enum HeldBase {
    /// Made for its children; behind a pointer, so that the seats are small.
    Made(Rc<GridBase>),
    /// In the grid in its columns that its answer for the block size holds.
    Kept(SharedWide),
}

/// What the children of a node see of it that are subgrids of it.
#[derive(Drop)]
pub(crate) struct ChildSeats {
    /// Whether there are such children.
    pub(crate) some: bool,
    /// What they see of the node.
    pub(crate) held: Option<HeldBase>,
    /// The area of each child, in document order.
    pub(crate) areas: Sequence<Area>,
}

/// Whether a node is a grid.
fn is_grid(kind: &NodeKind) -> bool
    ensures { result ≡ is_grid_kind kind.now }
{
    match kind {
        NodeKind::Grid => true,
        NodeKind::Flex => false,
        NodeKind::Leaf(_) => false,
    }
}

/// Whether tracks are given.
fn is_tracks(given: &Given) -> bool
    ensures { result ≡ is_tracks given.now }
{
    match given {
        Given::Tracks(_, _) => true,
        Given::Size(_) => false,
        Given::None => false,
    }
}

/// Whether the child of a frame is a subgrid of its parent: then it is given tracks in an axis.
pub(crate) fn is_lower(frame: &Frame) -> bool
    ensures { result ≡ is_lower (frame_of frame.now) }
{
    is_tracks(&frame.inline) || is_tracks(&frame.block)
}

/// Whether some child is a subgrid of its parent, by the frames of all children.
fn has_lower(frames: &[Frame]) -> bool
    ensures { result ≡ has_lower (map frame_of frames.now) }
{
    for index in 0..frames.len() {
        if is_lower(&frames[index]) {
            return true;
        }
    }
    false
}

#[inline(never)]
/// Areas without the numbers of their children.
fn all_areas(alloc: Global, placed: &[(NodeId, Area)]) -> Result<Sequence<Area>, NoMemory>
    ensures { IfOk result (λ areas. areas ≡ map (λ (e : NodeId × Area). e.1) placed.now) }
{
    let mut areas = Sequence::from_vec(Vec::with_capacity(alloc, placed.len())?);
    for (_, area) in placed {
        areas.push(*area)?;
    }
    Ok(areas)
}

#[inline(never)]
/// The area of each child of a grid, in document order.
fn areas_by_number(
    alloc: Global,
    tree: &Arena<Node>,
    id: NodeId,
    placed: &Placed,
) -> Result<Sequence<Area>, NoMemory>
    requires live { IsLive (bare tree.now.tree) id }
    requires children { HasChildren (bare tree.now.tree) id placed.now }
    ensures counted { IfOk result
        (λ areas. length areas ≡ length (kids_at (bare tree.now.tree) id)) }
    ensures areas { IfOk result
        (λ areas. (number : ℕ) → number < length (kids_at (bare tree.now.tree) id) → (d : Area) →
        IsAreaOf (bare tree.now.tree) id placed.now number (get_or areas number d)) }
{
    root(tree);
    let mut areas = all_areas(alloc, placed.areas.as_slice())?;
    for index in 0..placed.areas.len() {
        let child = entry(tree, id, placed, index);
        areas.set(child.number, child.area);
    }
    Ok(areas)
}

/// No child is a subgrid of the node. It takes no memory.
pub(crate) fn no_seats(alloc: Global) -> ChildSeats
    ensures { result ≡ record { some = false; held = None; areas = [] } }
{
    ChildSeats {
        some: false,
        held: None,
        areas: Sequence::new(alloc),
    }
}

/// The grid before its children are asked.
fn base_of(held: &HeldBase) -> &GridBase
    ensures { result.now ≡ base_held held.now }
{
    match held {
        HeldBase::Made(base) => base.as_ref(),
        HeldBase::Kept(wide) => wide.grid().parts.base.grid(),
    }
}

#[inline(never)]
#[tactic(auto, using(crate::proofs::Seating::bases))]
/// A grid in its seat before its children are asked: as its answer for the block size holds it, or made anew. `NoMemory` where memory
/// is wanting.
fn held_base(
    alloc: Global,
    tree: &Arena<Node>,
    id: NodeId,
    reps: &[(u32, u32)],
    above: &Above,
    area: Area,
    inline: &Given,
) -> Result<HeldBase, NoMemory>
    requires live { IsLive (bare tree.now.tree) id }
    requires right { IsRight tree.now.tree }
    requires readable { AreReadable (bare tree.now.tree) }
    requires reps { length reps.now ≡ length (sight_at (bare tree.now.tree) id).chain }
    requires seat { IsSeat (sight_at (bare tree.now.tree) id) reps.now above.now area }
    requires width { IsGivenSize inline.now }
    ensures { IfOk result
        (λ held. IsBase (bare tree.now.tree) id reps.now inline.now (base_held held)) }
{
    if let Some(wide) = kept_wide(tree, id, reps, inline) {
        let wide = wide.again()?;
        return Ok(HeldBase::Kept(wide));
    }
    let base = base_at(alloc, tree, id, reps, above, area, inline)?;
    let made = Rc::new(alloc, base)?;
    Ok(HeldBase::Made(made))
}

/// The seats in a grid, with the areas of its children.
fn seats_in(held: HeldBase, areas: Sequence<Area>) -> ChildSeats
    ensures { result ≡ record { some = true; held = Some held; areas = areas } }
{
    ChildSeats {
        some: true,
        held: Some(held),
        areas,
    }
}

#[inline(always)]
/// The seats of the children of a node in its own seat, by the counts of the repetitions above it and what it is given in the inline
/// axis. The frames of its children tell which of them are subgrids of it, so that no child is looked up. The context of a grid is made
/// only where there is one and the grid keeps none. `NoMemory` where memory is wanting.
pub(crate) fn seats_below(
    alloc: Global,
    tree: &Arena<Node>,
    id: NodeId,
    reps: &[(u32, u32)],
    above: &Above,
    area: Area,
    inline: &Given,
    frames: &[Frame],
) -> Result<ChildSeats, NoMemory>
    requires live { IsLive (bare tree.now.tree) id }
    requires readable { AreReadable (bare tree.now.tree) }
    requires reps { length reps.now ≡ length (sight_at (bare tree.now.tree) id).chain }
    requires right { IsRight tree.now.tree }
    requires seat { IsSeat (sight_at (bare tree.now.tree) id) reps.now above.now area }
    requires width { IsGivenSize inline.now }
    requires tell { AreTelling (bare tree.now.tree) id (map frame_of frames.now) }
    requires counted { length frames.now ≡ length (kids_at (bare tree.now.tree) id) }
    ensures seats { IfOk result (AreSeats (bare tree.now.tree) id) }
    ensures pairs { IfOk result
        (λ seats. (q : Query) → q.reps ≡ reps.now → q.inline ≡ inline.now →
        HasPairs (bare tree.now.tree) id q seats) }
{
    root(tree);
    if !has_lower(frames) {
        return Ok(no_seats(alloc));
    }
    if !is_grid(&node_at(tree, id).kind) {
        return Ok(no_seats(alloc));
    }
    let held = held_base(alloc, tree, id, reps, above, area, inline)?;
    let base = base_of(&held);
    let areas = areas_by_number(alloc, tree, id, &base.placed)?;
    let seats = seats_in(held, areas);
    Ok(seats)
}

/// The counts of the repetitions that a child sees.
pub(crate) fn pairs_for(seats: &ChildSeats, lower: bool) -> &[(u32, u32)]
    ensures { result.now ≡ (if lower then pairs_held seats.now.held else []) }
{
    if !lower {
        return &[];
    }
    match &seats.held {
        Some(held) => base_of(held).pairs.as_slice(),
        None => &[],
    }
}

/// What a child sees above it, where the others see nothing.
pub(crate) fn above_for<'a>(seats: &'a ChildSeats, nothing: &'a Above, lower: bool) -> &'a Above
    requires { nothing.now ≡ above.Nothing }
    ensures { result.now ≡
        (if lower then above_held seats.now.held above.Nothing else above.Nothing) }
{
    if !lower {
        return nothing;
    }
    match &seats.held {
        Some(held) => &base_of(held).above,
        None => nothing,
    }
}

/// The area of the child of a number; none where there are no seats.
pub(crate) fn area_for(seats: &ChildSeats, number: usize) -> Area
    ensures { number < length seats.now.areas → (d : Area) →
        result ≡ get_or seats.now.areas number d }
{
    match seats.areas.get(number) {
        Some(area) => *area,
        None => NO_AREA,
    }
}
