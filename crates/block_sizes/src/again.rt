//! What the children of a grid told when they were asked last: what of it serves again, and how it is kept (own rule).

ghost use Rattle.std.specs.Prelude.{◌≡◌, ◌&&◌, ℕ, ℤ, true, IfOk, IfSome};
ghost use Rattle.std.specs.Ordering.{int_eq};
ghost use Rattle.placing.specs.Bases.{HoldsPlaces};
ghost use Rattle.placing.specs.Nodes.{bare, children_at, kid_at, sight_at, IsLive};
ghost use Rattle.placing.specs.Told.{AreColumns, AreRows, AreRowsFor, Each, IsPastColumns, IsPastRows};
ghost use Rattle.placing.specs.Walks.{State, Stopped, WalkedBelow};
ghost use Rattle.tree_rules.specs.Queries.{same_items};
ghost use Rattle.tree_rules.specs.declared.query.Query.{Query};
ghost use Rattle.walker.specs.Walkers.{nodes, seen, SameParts, Stands};
ghost use Rattle.inline_sizes.specs.Grids.{IsGrid};
ghost use Rattle.block_sizes.specs.Told.{ArePastIn};

use layout_cache::{Given, same_counts};
use lunit::{Lu, NoMemory, Sequence};
use node_arena::{Arena, NodeId};
use outside::Ruler;
use part_rules::View;
use placing::style::items;
use placing::{
    GridParts, GridWide, MANY, Node, PastColumns, PastRows, PastWide, SharedWide, node_at,
};
use std::sync::ledger::Ledger;
use style_types::Align;
use walker::Walker;

/// A grid in its columns with its children in them, and where the items of each child end.
#[derive(Drop)]
pub struct ToldWide {
    /// The grid.
    pub wide: GridWide,
    /// How many items along the columns stand up to the last one of each child, in the order of the areas.
    pub column_ends: Sequence<usize>,
    /// How many items along the rows stand up to the last one of each child.
    pub row_ends: Sequence<usize>,
}

/// What the children of a grid told last for its columns, and for its rows, with those that must be asked again. A walk goes on
/// after it as before it. `NoMemory` where memory is wanting; it is lost then.
pub(crate) fn take_past<R: Ruler, L: Ledger>(
    walk: &mut Walker<R, L>,
    id: NodeId,
) -> Result<(Option<PastColumns>, Option<PastRows>), NoMemory>
    requires stands { Stands walk.old }
    requires live { IsLive (nodes walk.old) id }
    ensures columns { IfOk result (λ past. IfSome past.0 (IsPastColumns (nodes walk.old) id)) }
    ensures rows { IfOk result (λ past. IfSome past.1 (IsPastRows (nodes walk.old) id)) }
    ensures stands { Stands walk.new }
    ensures parts { SameParts walk.old walk.new }
    ensures bare { nodes walk.new ≡ nodes walk.old }
    ensures below { (q : Query) (more : ℕ) (new : State) →
        WalkedBelow id q more (seen R.log walk.new) new →
        WalkedBelow id q more (seen R.log walk.old) new }
    ensures stopped { (q : Query) (new : State) → Stopped id q (seen R.log walk.new) new →
        Stopped id q (seen R.log walk.old) new }
{
    match walk.take_wide(id)? {
        Some(past) => {
            let PastWide { columns, rows } = past;
            Ok((Some(columns), Some(rows)))
        }
        None => Ok((None, None)),
    }
}

/// Whether two tracks lie at the same place.
fn same_track(a: (i64, i64), b: (i64, i64)) -> bool
    ensures { result ≡ (int_eq a.0 b.0 && int_eq a.1 b.1) }
{
    a.0 == b.0 && a.1 == b.1
}

#[tactic(auto, using(layout_cache::proofs::Sames::item_laws))]
/// Whether some tracks lie where others do.
fn same_tracks(a: &[(i64, i64)], b: &[(i64, i64)]) -> bool
    ensures { result ≡
        same_items (λ (x : ℤ × ℤ) (y : ℤ × ℤ). int_eq x.0 y.0 && int_eq x.1 y.1) a.now b.now }
{
    if a.len() != b.len() {
        return false;
    }
    for index in 0..a.len() {
        if !same_track(a[index], b[index]) {
            return false;
        }
    }
    true
}

/// Whether two lengths are the same: `true` only where they are.
pub(crate) fn same_length(a: Lu, b: Lu) -> bool
    ensures { result ≡ true → a ≡ b }
{
    a == b
}

/// Whether two views are the same: `true` only where they are.
pub fn same_view<const AXIS: u8>(a: &View<AXIS>, b: &View<AXIS>) -> bool
    ensures { result ≡ true → a.now ≡ b.now }
{
    if !same_tracks(a.edges.as_slice(), b.edges.as_slice()) {
        return false;
    }
    same_length(a.gap, b.gap)
}

/// Whether two containers align their items alike.
fn same_align(a: Align, b: Align) -> bool
    ensures { result ≡ true → a ≡ b }
{
    a == b
}

/// Whether the children were asked under the same counts of the repetitions, in the same columns, and aligned alike in them.
fn serves(parts: &GridParts, columns: &View<0>, align: Align, past: &PastRows) -> bool
    ensures pairs { result ≡ true → past.now.base.pairs ≡ parts.now.base.pairs }
    ensures columns { result ≡ true → past.now.told.columns ≡ columns.now }
    ensures align { result ≡ true → past.now.told.align ≡ align }
{
    let before = past.base.grid().pairs.as_slice();
    if !same_counts(before, parts.base.grid().pairs.as_slice()) {
        return false;
    }
    if !same_align(past.told.align, align) {
        return false;
    }
    same_view(&past.told.columns, columns)
}

/// What the children told, where it serves in these columns.
pub(crate) fn past_for(
    tree: &Arena<Node>,
    id: NodeId,
    reps: &[(u32, u32)],
    width: &Given,
    parts: &GridParts,
    columns: &View<0>,
    past: Option<PastRows>,
) -> Option<PastRows>
    requires live { IsLive (bare tree.now.tree) id }
    requires grid { IsGrid (bare tree.now.tree) id reps.now width.now parts.now }
    requires past { IfSome past (IsPastRows (bare tree.now.tree) id) }
    ensures { IfSome result (ArePastIn (bare tree.now.tree) id parts.now.base columns.now) }
{
    let past = past?;
    let align = items::<0>(&node_at(tree, id).style);
    if !serves(parts, columns, align, &past) {
        return None;
    }
    Some(past)
}

/// Keeps what the children of a grid told, where they are many. A walk goes on after it as before it. `NoMemory` where memory is
/// wanting; nothing has changed then.
pub(crate) fn keep_told<R: Ruler, L: Ledger>(
    walk: &mut Walker<R, L>,
    id: NodeId,
    held: &SharedWide,
    column_ends: Sequence<usize>,
    row_ends: Sequence<usize>,
) -> Result<(), NoMemory>
    requires stands { Stands walk.old }
    requires live { IsLive (nodes walk.old) id }
    requires places { HoldsPlaces (sight_at (nodes walk.old) id) (children_at (nodes walk.old) id)
        held.now.parts.base }
    requires columns { AreColumns (sight_at (nodes walk.old) id) (kid_at (nodes walk.old)) Each
        (record { parts = held.now.parts; ends = column_ends }) }
    requires rows { AreRows (sight_at (nodes walk.old) id) (kid_at (nodes walk.old))
        held.now.parts.base Each
        (record {
          columns = held.now.columns;
          align = (sight_at (nodes walk.old) id).label.content.inline.items;
          children = held.now.children;
          items = held.now.items;
          ends = row_ends;
        }) }
    requires laid { IfSome held.now.rows
        (AreRowsFor (sight_at (nodes walk.old) id) held.now.parts.base held.now.items) }
    ensures stands { Stands walk.new }
    ensures parts { SameParts walk.old walk.new }
    ensures below { (q : Query) (more : ℕ) (old : State) →
        WalkedBelow id q more old (seen R.log walk.old) →
        WalkedBelow id q more old (seen R.log walk.new) }
{
    if row_ends.len() < MANY {
        return Ok(());
    }
    let align = items::<0>(&node_at(walk.tree, id).style);
    let shared = held.again()?;
    walk.keep_wide(id, shared, align, column_ends, row_ends)
}
