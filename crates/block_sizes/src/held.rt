//! A grid in its columns, a row and a column for those who lay out its children: as its answer for the block size holds it, or made
//! anew.

ghost use Rattle.std.specs.Prelude.{◌≡◌, false, true, length, IfOk, OnOk, OnErr};
ghost use Rattle.placing.specs.Nodes.{level_at, sight_at, IsLive};
ghost use Rattle.placing.specs.Spread.{IsSpread};
ghost use Rattle.placing.specs.Walks.{Stopped, WalkedBelow};
ghost use Rattle.tree_rules.specs.Frames.{given_size};
ghost use Rattle.tree_rules.specs.Queries.{needs_inline, outer_context, sees_columns, IsGivenFor};
ghost use Rattle.tree_rules.specs.declared.kind.NodeKind.TheVariants as kind;
ghost use Rattle.tree_rules.specs.declared.query.Query.{Query};
ghost use Rattle.walker.specs.Walkers.{nodes, seen, HasSeat, SameParts, Stands};
ghost use Rattle.block_sizes.specs.Settling.{IsColumn, IsRow};
ghost use Rattle.block_sizes.specs.Wides.{farthest, IsWide};

use crate::asking::wide_at;
use crate::queries::{kept_column, kept_row, kept_wide};
use crate::walk::{column_in, row_in};
use layout_cache::Given;
use lunit::{Lu, NoMemory};
use node_arena::NodeId;
use outside::Ruler;
use placing::{SharedColumnParts, SharedRowParts, SharedWide, root};
use std::sync::ledger::Ledger;
use walker::{Seat, Walker};

/// A grid in its seat in its columns, and its children as wide as they are there: as `wide_at` tells it, which is asked where the
/// grid keeps none. Nothing is kept for the grid itself. The edges of tracks that it is given differ from 0 and from each other by at
/// most 2^54, and 2^33 more for each level. `NoMemory` where memory is wanting.
pub fn wide_for<R: Ruler, L: Ledger>(
    walk: &mut Walker<R, L>,
    id: NodeId,
    seat: &Seat,
    width: &Given,
) -> Result<SharedWide, NoMemory>
    requires stands { Stands walk.old }
    requires live { IsLive (nodes walk.old) id }
    requires grid { (sight_at (nodes walk.old) id).label.kind ≡ kind.Grid }
    requires reps { length seat.now.reps.now ≡ length (sight_at (nodes walk.old) id).chain }
    requires seat { HasSeat (sight_at (nodes walk.old) id) seat.now }
    requires inline { IsGivenFor true (sees_columns (sight_at (nodes walk.old) id))
        (outer_context (sight_at (nodes walk.old) id) seat.now.reps.now).columns.table.tracks
        width.now }
    requires spread { IsSpread (farthest (level_at (nodes walk.old) id)) width.now }
    ensures value { IfOk result (IsWide (nodes walk.old) id seat.now.reps.now width.now) }
    ensures stands { Stands walk.new }
    ensures parts { SameParts walk.old walk.new }
    ensures below { OnOk result
        ((q : Query) → q.reps ≡ seat.now.reps.now → q.inline ≡ width.now →
        needs_inline q.ask ≡ true →
        WalkedBelow id q 1 (seen R.log walk.old)
        (seen R.log walk.new)) }
    ensures stopped { OnErr result
        ((q : Query) → q.reps ≡ seat.now.reps.now → q.inline ≡ width.now →
        needs_inline q.ask ≡ true →
        Stopped id q (seen R.log walk.old)
        (seen R.log walk.new)) }
{
    if let Some(wide) = kept_wide(walk.tree, id, seat.reps, width) {
        return wide.again();
    }
    let wide = wide_at(walk, id, seat, width)?;
    SharedWide::new(walk.alloc, wide)
}

/// A row of a known inline size: as `row_in` tells it, which is asked where the row keeps none. Nothing is kept for the container itself. It makes one step at most. `NoMemory` where memory is wanting.
pub fn row_for<R: Ruler, L: Ledger>(
    walk: &mut Walker<R, L>,
    id: NodeId,
    width: Lu,
) -> Result<SharedRowParts, NoMemory>
    requires stands { Stands walk.old }
    requires live { IsLive (nodes walk.old) id }
    requires flex { (sight_at (nodes walk.old) id).label.kind ≡ kind.Flex }
    requires direction { (sight_at (nodes walk.old) id).label.content.column ≡ false }
    ensures value { IfOk result (IsRow (nodes walk.old) id width) }
    ensures stands { Stands walk.new }
    ensures parts { SameParts walk.old walk.new }
    ensures below { OnOk result
        ((q : Query) → given_size q.inline ≡ width → needs_inline q.ask ≡ true →
        WalkedBelow id q 1 (seen R.log walk.old) (seen R.log walk.new)) }
    ensures stopped { OnErr result
        ((q : Query) → given_size q.inline ≡ width → needs_inline q.ask ≡ true →
        Stopped id q (seen R.log walk.old) (seen R.log walk.new)) }
{
    root(walk.tree);
    let given = Given::Size(width);
    if let Some(held) = kept_row(walk.tree, id, &given) {
        return held.again();
    }
    let parts = row_in(walk, id, width)?;
    SharedRowParts::new(walk.alloc, parts)
}

/// A column of a known inline size: as `column_in` tells it, which is asked where the column keeps none. Nothing is kept for the container itself. It makes no step. `NoMemory` where memory is wanting.
pub fn column_for<R: Ruler, L: Ledger>(
    walk: &mut Walker<R, L>,
    id: NodeId,
    width: Lu,
) -> Result<SharedColumnParts, NoMemory>
    requires stands { Stands walk.old }
    requires live { IsLive (nodes walk.old) id }
    requires flex { (sight_at (nodes walk.old) id).label.kind ≡ kind.Flex }
    requires direction { (sight_at (nodes walk.old) id).label.content.column ≡ true }
    ensures value { IfOk result (IsColumn (nodes walk.old) id width) }
    ensures stands { Stands walk.new }
    ensures parts { SameParts walk.old walk.new }
    ensures below { OnOk result
        ((q : Query) → given_size q.inline ≡ width → needs_inline q.ask ≡ true →
        WalkedBelow id q 0 (seen R.log walk.old) (seen R.log walk.new)) }
    ensures stopped { OnErr result
        ((q : Query) → given_size q.inline ≡ width → needs_inline q.ask ≡ true →
        Stopped id q (seen R.log walk.old) (seen R.log walk.new)) }
{
    root(walk.tree);
    let given = Given::Size(width);
    if let Some(held) = kept_column(walk.tree, id, &given) {
        return held.again();
    }
    let parts = column_in(walk, id, width)?;
    SharedColumnParts::new(walk.alloc, parts)
}
