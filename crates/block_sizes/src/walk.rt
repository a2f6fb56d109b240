//! The walk down the tree for the block axis: a kept answer is taken as it is, else the children are asked, and what is found is
//! kept last, once. The seat of a node is handed down, so that a context is made once for each grid.

ghost use Rattle.std.specs.Prelude.{◌≡◌, ◌≤ℤ◌, ◌∷◌, [], true, false, map, IfOk, IfSome, OnOk, OnErr};
ghost use Rattle.placing.specs.Keeping.{is_leaf};
ghost use Rattle.placing.specs.Members.{member_in};
ghost use Rattle.placing.specs.Nodes.{bare, kid_at, level_at, sight_at, IsLive};
ghost use Rattle.placing.specs.Walks.{kept_with, Stopped, Walked, WalkedBelow};
ghost use Rattle.placing.specs.declared.node.Answer.TheVariants as answer;
ghost use Rattle.tree_rules.specs.AskedQueries.{block_query};
ghost use Rattle.tree_rules.specs.Chains.{has_chain, is_grid_kind};
ghost use Rattle.tree_rules.specs.KeptAnswers.{IsAbsent};
ghost use Rattle.tree_rules.specs.Queries.{answer_of, block_size, lent_items, needs_inline, Fits};
ghost use Rattle.tree_rules.specs.declared.kind.NodeKind.TheVariants as kind;
ghost use Rattle.tree_rules.specs.declared.query.Ask.TheVariants as ask;
ghost use Rattle.tree_rules.specs.declared.query.Query.{Query};
ghost use Rattle.walker.specs.Walkers.{kept, nodes, seen, HasSeat, SameParts, Stands};
ghost use Rattle.inline_sizes.specs.Calls.{Found, Keeps};
ghost use Rattle.placing.specs.Spread.{IsSpread};
ghost use Rattle.block_sizes.specs.Keeping.{GrowsBy, KeepsSize};
ghost use Rattle.block_sizes.specs.Wides.{farthest};
ghost use Rattle.block_sizes.specs.Settling.{block_of, row_items_seen, settled_seen, AreKnown, AreRoomy, IsColumn, IsRow, LeadsTo, TellsBlock};
ghost use Rattle.inline_sizes.specs.Flexes.{AreMembers, flex_seen};
ghost use Rattle.tree_rules.specs.FlexSizes as rules;
ghost use Rattle.tree_rules.specs.Frames.{given_size};
ghost use Rattle.tree_rules.specs.NodeSizes.{inner};

use crate::answered::{column_answered, grid_answered, row_answered, rows_answered};
use crate::asking::told_wide_at;
use crate::begun::{begin_column, begin_row};
use crate::children::given_box;
use crate::flex::{box_at, known_block, known_of, last_along, member_at, size_of};
use crate::queries::{block_query, kept_block, kept_rows};
use inline_sizes::with_room;
use layout_cache::{Given, Query};
use lunit::{Area, Item, Lu, NoMemory, Sequence, Span};
use node_arena::{Arena, NodeId};
use outside::Ruler;
use part_rules::FlexItem;
use placing::style::is_column;
use placing::{
    Above, ColumnParts, Member, Node, NodeKind, RowParts, ToldAlong, node_at, parent, root,
};
use std::sync::ledger::Ledger;
use walker::{Seat, Walker};

/// No area.
const NO_AREA: Area = Area {
    columns: Span { start: 0, end: 0 },
    rows: Span { start: 0, end: 0 },
};

/// Whether a node is a leaf.
fn is_leaf(kind: &NodeKind) -> bool
    ensures { result ≡ is_leaf kind.now }
{
    match kind {
        NodeKind::Leaf(_) => true,
        _ => false,
    }
}

/// Whether a node is a grid.
pub(crate) fn is_grid(kind: &NodeKind) -> bool
    ensures { result ≡ is_grid_kind kind.now }
{
    match kind {
        NodeKind::Grid => true,
        _ => false,
    }
}

/// A node that sees a grid above it is a grid itself. The function does next to nothing: the law is its contract.
fn subgrids_are_grids(tree: &Arena<Node>, id: NodeId)
    requires { IsLive (bare tree.now.tree) id }
    ensures { has_chain (sight_at (bare tree.now.tree) id).chain ≡ true →
        (sight_at (bare tree.now.tree) id).label.kind ≡ kind.Grid }
{
    parent(tree, id);
}

// ---- the children of a flex container

#[cycle(walk)]
/// The block size of the content of a child of a flex container with a border box of this inline size: it is asked where it did not tell
/// that last.
fn member_block<R: Ruler, L: Ledger>(
    walk: &mut Walker<R, L>,
    child: NodeId,
    size: Lu,
    last: Option<ToldAlong>,
) -> Result<Lu, NoMemory>
    requires stands { Stands walk.old }
    requires live { IsLive (nodes walk.old) child }
    requires alone { (sight_at (nodes walk.old) child).chain ≡ [] }
    requires room { inner (sight_at (nodes walk.old) child).label.grid.columns ≤ℤ size }
    requires last { IfSome last (TellsBlock (kid_at (nodes walk.old) child)) }
    ensures value { IfOk result
        (λ block. block ≡
        (rules.settled_at (member_in (kid_at (nodes walk.old) child)) size).down.block) }
    ensures stands { Stands walk.new }
    ensures parts { SameParts walk.old walk.new }
    ensures walked { OnOk result
        (Walked child
        (block_query false []
        (rules.settled_at (member_in (kid_at (nodes walk.old) child)) size).inline)
        (seen R.log walk.old) (seen R.log walk.new)) }
    ensures stopped { OnErr result
        (Stopped child
        (block_query false []
        (rules.settled_at (member_in (kid_at (nodes walk.old) child)) size).inline)
        (seen R.log walk.old) (seen R.log walk.new)) }
{
    if let Some(block) = known_block(last, size) {
        return Ok(block);
    }
    let width = given_box::<0>(&node_at(walk.tree, child).style, size);
    let seat = Seat {
        reps: &[],
        above: &Above::Nothing,
        area: NO_AREA,
    };
    let block = block_in(walk, child, &seat, &width)?;
    Ok(block)
}

#[cycle(walk)]
/// The block size of the content of each child of a flex container of this inline size, with border boxes of these inline sizes: a child
/// is asked where it did not tell that last.
fn ask_members<R: Ruler, L: Ledger>(
    walk: &mut Walker<R, L>,
    id: NodeId,
    width: Lu,
    members: &[Member],
    boxes: &[Lu],
    past: &[ToldAlong],
) -> Result<Sequence<Lu>, NoMemory>
    requires stands { Stands walk.old }
    requires live { IsLive (nodes walk.old) id }
    requires flex { (sight_at (nodes walk.old) id).label.kind ≡ kind.Flex }
    requires members { AreMembers (nodes walk.old) id members.now }
    requires roomy { AreRoomy (flex_seen (nodes walk.old) id).members boxes.now }
    requires past { AreKnown (nodes walk.old) id width past.now }
    ensures value { IfOk result
        (λ blocks. blocks ≡ map block_of (settled_seen (nodes walk.old) id boxes.now)) }
    ensures stands { Stands walk.new }
    ensures parts { SameParts walk.old walk.new }
    ensures below { OnOk result
        ((q : Query) → LeadsTo (nodes walk.old) id boxes.now q →
        WalkedBelow id q 0 (seen R.log walk.old) (seen R.log walk.new)) }
    ensures stopped { OnErr result
        ((q : Query) → LeadsTo (nodes walk.old) id boxes.now q →
        Stopped id q (seen R.log walk.old) (seen R.log walk.new)) }
{
    root(walk.tree);
    let mut blocks = with_room(walk.alloc, members.len())?;
    for index in 0..members.len() {
        let member = member_at(members, index);
        let size = box_at(boxes, index);
        let last = known_of(walk.tree, id, width, past, index, &member);
        let block = member_block(walk, member.child, size, last)?;
        blocks.push(block)?;
    }
    Ok(blocks)
}

#[cycle(walk)]
/// A row of a known inline size: the lines and the main sizes of its children, and the block size of each at its main size (CSS
/// Flexbox 1, 9.3 and 9.4), with the children along the inline axis. What they told last is not asked again. Nothing is kept for the
/// container itself. It makes one step. `NoMemory` where memory is wanting.
fn row_told<R: Ruler, L: Ledger>(
    walk: &mut Walker<R, L>,
    id: NodeId,
    width: Lu,
    past: &[ToldAlong],
) -> Result<(RowParts, Vec<FlexItem>), NoMemory>
    requires stands { Stands walk.old }
    requires live { IsLive (nodes walk.old) id }
    requires flex { (sight_at (nodes walk.old) id).label.kind ≡ kind.Flex }
    requires direction { (sight_at (nodes walk.old) id).label.content.column ≡ false }
    requires past { AreKnown (nodes walk.old) id width past.now }
    ensures value { IfOk result (λ made. IsRow (nodes walk.old) id width made.0) }
    ensures items { IfOk result
        (λ made. made.1.items ≡ row_items_seen (nodes walk.old) id width) }
    ensures stands { Stands walk.new }
    ensures parts { SameParts walk.old walk.new }
    ensures below { OnOk result
        ((q : Query) → given_size q.inline ≡ width → needs_inline q.ask ≡ true →
        WalkedBelow id q 1 (seen R.log walk.old) (seen R.log walk.new)) }
    ensures stopped { OnErr result
        ((q : Query) → given_size q.inline ≡ width → needs_inline q.ask ≡ true →
        Stopped id q (seen R.log walk.old) (seen R.log walk.new)) }
{
    let (members, items, lines) = begin_row(walk, id, width, past)?;
    let mains = lines.mains.as_slice();
    let blocks = ask_members(walk, id, width, members.as_slice(), mains, past)?;
    let row = RowParts {
        members,
        lines,
        blocks,
    };
    Ok((row, items))
}

/// A row of a known inline size: the lines and the main sizes of its children, and the block size of each at its main size (CSS
/// Flexbox 1, 9.3 and 9.4). Nothing is kept for the container itself. It makes one step. `NoMemory` where memory is wanting.
pub fn row_in<R: Ruler, L: Ledger>(
    walk: &mut Walker<R, L>,
    id: NodeId,
    width: Lu,
) -> Result<RowParts, NoMemory>
    requires stands { Stands walk.old }
    requires live { IsLive (nodes walk.old) id }
    requires flex { (sight_at (nodes walk.old) id).label.kind ≡ kind.Flex }
    requires direction { (sight_at (nodes walk.old) id).label.content.column ≡ false }
    ensures value { IfOk result (IsRow (nodes walk.old) id width) }
    ensures stands { Stands walk.new }
    ensures parts { SameParts walk.old walk.new }
    ensures below { OnOk result
        ((q : Query) → given_size q.inline ≡ width → needs_inline q.ask ≡ true →
        WalkedBelow id q 1 (seen R.log walk.old) (seen R.log walk.new)) }
    ensures stopped { OnErr result
        ((q : Query) → given_size q.inline ≡ width → needs_inline q.ask ≡ true →
        Stopped id q (seen R.log walk.old) (seen R.log walk.new)) }
{
    let (row, _items) = row_told(walk, id, width, &[])?;
    Ok(row)
}

#[cycle(walk)]
/// A column of a known inline size: the inline size of each child, and its block size there (CSS Flexbox 1, 9.3 and 9.4). What they told
/// last is not asked again. Nothing is kept for the container itself. `NoMemory` where memory is wanting.
fn column_told<R: Ruler, L: Ledger>(
    walk: &mut Walker<R, L>,
    id: NodeId,
    width: Lu,
    past: &[ToldAlong],
) -> Result<ColumnParts, NoMemory>
    requires stands { Stands walk.old }
    requires live { IsLive (nodes walk.old) id }
    requires flex { (sight_at (nodes walk.old) id).label.kind ≡ kind.Flex }
    requires direction { (sight_at (nodes walk.old) id).label.content.column ≡ true }
    requires past { AreKnown (nodes walk.old) id width past.now }
    ensures value { IfOk result (IsColumn (nodes walk.old) id width) }
    ensures stands { Stands walk.new }
    ensures parts { SameParts walk.old walk.new }
    ensures below { OnOk result
        ((q : Query) → given_size q.inline ≡ width → needs_inline q.ask ≡ true →
        WalkedBelow id q 0 (seen R.log walk.old) (seen R.log walk.new)) }
    ensures stopped { OnErr result
        ((q : Query) → given_size q.inline ≡ width → needs_inline q.ask ≡ true →
        Stopped id q (seen R.log walk.old) (seen R.log walk.new)) }
{
    let (members, boxes) = begin_column(walk, id, width, past)?;
    let blocks = ask_members(walk, id, width, members.as_slice(), boxes.as_slice(), past)?;
    Ok(ColumnParts {
        members,
        boxes,
        blocks,
    })
}

/// A column of a known inline size: the inline size of each child, and its block size there (CSS Flexbox 1, 9.3 and 9.4). Nothing is
/// kept for the container itself. `NoMemory` where memory is wanting.
pub fn column_in<R: Ruler, L: Ledger>(
    walk: &mut Walker<R, L>,
    id: NodeId,
    width: Lu,
) -> Result<ColumnParts, NoMemory>
    requires stands { Stands walk.old }
    requires live { IsLive (nodes walk.old) id }
    requires flex { (sight_at (nodes walk.old) id).label.kind ≡ kind.Flex }
    requires direction { (sight_at (nodes walk.old) id).label.content.column ≡ true }
    ensures value { IfOk result (IsColumn (nodes walk.old) id width) }
    ensures stands { Stands walk.new }
    ensures parts { SameParts walk.old walk.new }
    ensures below { OnOk result
        ((q : Query) → given_size q.inline ≡ width → needs_inline q.ask ≡ true →
        WalkedBelow id q 0 (seen R.log walk.old) (seen R.log walk.new)) }
    ensures stopped { OnErr result
        ((q : Query) → given_size q.inline ≡ width → needs_inline q.ask ≡ true →
        Stopped id q (seen R.log walk.old) (seen R.log walk.new)) }
{
    let column = column_told(walk, id, width, &[])?;
    Ok(column)
}

// ---- the block size of a node

#[cycle(walk)]
/// The block size of the content of a grid that keeps none for this question. The grid in its columns is kept with it.
fn grid_anew<R: Ruler, L: Ledger>(
    walk: &mut Walker<R, L>,
    id: NodeId,
    query: Query,
    seat: &Seat,
) -> Result<Lu, NoMemory>
    requires stands { Stands walk.old }
    requires live { IsLive (nodes walk.old) id }
    requires grid { (sight_at (nodes walk.old) id).label.kind ≡ kind.Grid }
    requires query { query ≡ block_query false seat.now.reps.now query.inline }
    requires fits { Fits (sight_at (nodes walk.old) id) query }
    requires absent { IsAbsent query (kept walk.old id) }
    requires seat { HasSeat (sight_at (nodes walk.old) id) seat.now }
    requires spread { IsSpread (farthest (level_at (nodes walk.old) id)) query.inline }
    ensures value { IfOk result
        (λ size. block_size size ≡ answer_of (sight_at (nodes walk.old) id) query) }
    ensures stands { Stands walk.new }
    ensures parts { SameParts walk.old walk.new }
    ensures walked { OnOk result
        (Walked id query (seen R.log walk.old) (seen R.log walk.new)) }
    ensures stopped { OnErr result
        (Stopped id query (seen R.log walk.old) (seen R.log walk.new)) }
    ensures own { IfOk result
        (λ size. GrowsBy (kept walk.old id) query size (kept walk.new id)) }
{
    let told = told_wide_at(walk, id, seat, &query.inline)?;
    grid_answered(walk, id, query, seat.reps, told)
}

#[cycle(walk)]
/// The block size of the content of a column that keeps none for this question: a child that told it before is asked only where its
/// answers went since. The column is kept with it, and what the children tell, where they are many.
fn column_anew<R: Ruler, L: Ledger>(
    walk: &mut Walker<R, L>,
    id: NodeId,
    query: Query,
) -> Result<Lu, NoMemory>
    requires stands { Stands walk.old }
    requires live { IsLive (nodes walk.old) id }
    requires flex { (sight_at (nodes walk.old) id).label.kind ≡ kind.Flex }
    requires direction { (sight_at (nodes walk.old) id).label.content.column ≡ true }
    requires ask { query.ask ≡ ask.Block }
    requires fits { Fits (sight_at (nodes walk.old) id) query }
    requires absent { IsAbsent query (kept walk.old id) }
    requires spread { IsSpread (farthest (level_at (nodes walk.old) id)) query.inline }
    ensures value { IfOk result
        (λ size. block_size size ≡ answer_of (sight_at (nodes walk.old) id) query) }
    ensures stands { Stands walk.new }
    ensures parts { SameParts walk.old walk.new }
    ensures walked { OnOk result
        (Walked id query (seen R.log walk.old) (seen R.log walk.new)) }
    ensures stopped { OnErr result
        (Stopped id query (seen R.log walk.old) (seen R.log walk.new)) }
    ensures own { IfOk result
        (λ size. GrowsBy (kept walk.old id) query size (kept walk.new id)) }
{
    let width = size_of(&query.inline);
    let past = last_along(walk, id, width)?;
    let parts = column_told(walk, id, width, past.as_slice())?;
    column_answered(walk, id, query, parts, past.as_slice())
}

#[cycle(walk)]
/// The block size of the content of a row that keeps none for this question: a child that told it before is asked only where its answers
/// went since. The row is kept with it, and what the children tell, where they are many.
fn row_anew<R: Ruler, L: Ledger>(
    walk: &mut Walker<R, L>,
    id: NodeId,
    query: Query,
) -> Result<Lu, NoMemory>
    requires stands { Stands walk.old }
    requires live { IsLive (nodes walk.old) id }
    requires flex { (sight_at (nodes walk.old) id).label.kind ≡ kind.Flex }
    requires direction { (sight_at (nodes walk.old) id).label.content.column ≡ false }
    requires ask { query.ask ≡ ask.Block }
    requires fits { Fits (sight_at (nodes walk.old) id) query }
    requires absent { IsAbsent query (kept walk.old id) }
    requires spread { IsSpread (farthest (level_at (nodes walk.old) id)) query.inline }
    ensures value { IfOk result
        (λ size. block_size size ≡ answer_of (sight_at (nodes walk.old) id) query) }
    ensures stands { Stands walk.new }
    ensures parts { SameParts walk.old walk.new }
    ensures walked { OnOk result
        (Walked id query (seen R.log walk.old) (seen R.log walk.new)) }
    ensures stopped { OnErr result
        (Stopped id query (seen R.log walk.old) (seen R.log walk.new)) }
    ensures own { IfOk result
        (λ size. GrowsBy (kept walk.old id) query size (kept walk.new id)) }
{
    let width = size_of(&query.inline);
    let past = last_along(walk, id, width)?;
    let (parts, items) = row_told(walk, id, width, past.as_slice())?;
    row_answered(walk, id, query, parts, &items)
}

#[cycle(walk)]
/// The block size of the content of a node in its seat that keeps none for this question: it is found, and kept last.
pub(crate) fn block_anew<R: Ruler, L: Ledger>(
    walk: &mut Walker<R, L>,
    id: NodeId,
    query: Query,
    seat: &Seat,
) -> Result<Lu, NoMemory>
    requires stands { Stands walk.old }
    requires live { IsLive (nodes walk.old) id }
    requires query { query ≡ block_query false seat.now.reps.now query.inline }
    requires fits { Fits (sight_at (nodes walk.old) id) query }
    requires absent { IsAbsent query (kept walk.old id) }
    requires seat { HasSeat (sight_at (nodes walk.old) id) seat.now }
    requires spread { IsSpread (farthest (level_at (nodes walk.old) id)) query.inline }
    ensures value { IfOk result
        (λ size. block_size size ≡ answer_of (sight_at (nodes walk.old) id) query) }
    ensures stands { Stands walk.new }
    ensures parts { SameParts walk.old walk.new }
    ensures walked { OnOk result
        (Walked id query (seen R.log walk.old) (seen R.log walk.new)) }
    ensures stopped { OnErr result
        (Stopped id query (seen R.log walk.old) (seen R.log walk.new)) }
    ensures own { IfOk result
        (λ size. GrowsBy (kept walk.old id) query size (kept walk.new id)) }
{
    let kind = &node_at(walk.tree, id).kind;
    if is_grid(kind) {
        return grid_anew(walk, id, query, seat);
    }
    if is_leaf(kind) {
        return walk.leaf_height(id, query);
    }
    if is_column(&node_at(walk.tree, id).style) {
        return column_anew(walk, id, query);
    }
    row_anew(walk, id, query)
}

#[cycle(walk)]
/// The block size of the content of a node in its seat, by the counts of the repetitions above it and what it is given in the
/// inline axis.
pub fn block_in<R: Ruler, L: Ledger>(
    walk: &mut Walker<R, L>,
    id: NodeId,
    seat: &Seat,
    width: &Given,
) -> Result<Lu, NoMemory>
    requires stands { Stands walk.old }
    requires live { IsLive (nodes walk.old) id }
    requires fits { Fits (sight_at (nodes walk.old) id)
        (block_query false seat.now.reps.now width.now) }
    requires seat { HasSeat (sight_at (nodes walk.old) id) seat.now }
    requires spread { IsSpread (farthest (level_at (nodes walk.old) id)) width.now }
    ensures value { IfOk result
        (λ size. block_size size ≡
        answer_of (sight_at (nodes walk.old) id) (block_query false seat.now.reps.now width.now)) }
    ensures stands { Stands walk.new }
    ensures parts { SameParts walk.old walk.new }
    ensures walked { OnOk result
        (Walked id (block_query false seat.now.reps.now width.now)
        (seen R.log walk.old) (seen R.log walk.new)) }
    ensures stopped { OnErr result
        (Stopped id (block_query false seat.now.reps.now width.now)
        (seen R.log walk.old) (seen R.log walk.new)) }
    ensures found { Found id (block_query false seat.now.reps.now width.now)
        (seen R.log walk.old) (seen R.log walk.new) }
    ensures own { IfOk result
        (λ size. KeepsSize id (block_query false seat.now.reps.now width.now)
        (seen R.log walk.old) (seen R.log walk.new) size) }
{
    if let Some(size) = kept_block(walk.tree, id, seat.reps, width) {
        return Ok(size);
    }
    let query = block_query(walk.alloc, false, seat.reps, width)?;
    block_anew(walk, id, query, seat)
}

// ---- the items that a subgrid lends along the rows

#[cycle(walk)]
/// The items that a subgrid in the rows lends in its seat, of which it keeps none for this question: they are found, and kept
/// last.
pub(crate) fn rows_anew<R: Ruler, L: Ledger>(
    walk: &mut Walker<R, L>,
    id: NodeId,
    query: Query,
    seat: &Seat,
) -> Result<Sequence<Item>, NoMemory>
    requires stands { Stands walk.old }
    requires live { IsLive (nodes walk.old) id }
    requires query { query ≡ block_query true seat.now.reps.now query.inline }
    requires fits { Fits (sight_at (nodes walk.old) id) query }
    requires absent { IsAbsent query (kept walk.old id) }
    requires seat { HasSeat (sight_at (nodes walk.old) id) seat.now }
    requires spread { IsSpread (farthest (level_at (nodes walk.old) id)) query.inline }
    ensures value { IfOk result
        (λ items. lent_items items ≡ answer_of (sight_at (nodes walk.old) id) query) }
    ensures stands { Stands walk.new }
    ensures parts { SameParts walk.old walk.new }
    ensures walked { OnOk result
        (Walked id query (seen R.log walk.old) (seen R.log walk.new)) }
    ensures stopped { OnErr result
        (Stopped id query (seen R.log walk.old) (seen R.log walk.new)) }
    ensures own { IfOk result
        (λ items. kept walk.new id ≡
        kept_with (kept walk.old id) ((query, answer.Lent items) ∷ [])) }
{
    subgrids_are_grids(walk.tree, id);
    let told = told_wide_at(walk, id, seat, &query.inline)?;
    rows_answered(walk, id, query, seat.reps, told)
}

#[cycle(walk)]
/// The items that a subgrid in the rows lends in its seat, by the counts of the repetitions above it and what it is given in the
/// inline axis.
pub fn lend_rows_at<R: Ruler, L: Ledger>(
    walk: &mut Walker<R, L>,
    id: NodeId,
    seat: &Seat,
    width: &Given,
) -> Result<Sequence<Item>, NoMemory>
    requires stands { Stands walk.old }
    requires live { IsLive (nodes walk.old) id }
    requires fits { Fits (sight_at (nodes walk.old) id)
        (block_query true seat.now.reps.now width.now) }
    requires seat { HasSeat (sight_at (nodes walk.old) id) seat.now }
    requires spread { IsSpread (farthest (level_at (nodes walk.old) id)) width.now }
    ensures value { IfOk result
        (λ items. lent_items items ≡
        answer_of (sight_at (nodes walk.old) id) (block_query true seat.now.reps.now width.now)) }
    ensures stands { Stands walk.new }
    ensures parts { SameParts walk.old walk.new }
    ensures walked { OnOk result
        (Walked id (block_query true seat.now.reps.now width.now)
        (seen R.log walk.old) (seen R.log walk.new)) }
    ensures stopped { OnErr result
        (Stopped id (block_query true seat.now.reps.now width.now)
        (seen R.log walk.old) (seen R.log walk.new)) }
    ensures found { Found id (block_query true seat.now.reps.now width.now)
        (seen R.log walk.old) (seen R.log walk.new) }
    ensures own { IfOk result
        (λ items. Keeps id (block_query true seat.now.reps.now width.now)
        (seen R.log walk.old) (seen R.log walk.new) (answer.Lent items)) }
{
    if let Some(items) = kept_rows(walk.tree, id, seat.reps, width) {
        return Sequence::from_slice(walk.alloc, items.as_slice());
    }
    let query = block_query(walk.alloc, true, seat.reps, width)?;
    rows_anew(walk, id, query, seat)
}
