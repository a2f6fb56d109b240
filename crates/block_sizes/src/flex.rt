//! The children of a flex container once its inline size is known, and the block size of its content (CSS Flexbox 1, 9.2 to 9.4).

ghost use Rattle.std.specs.Prelude.{◌≡◌, ◌<◌, ◌≤ℤ◌, [], ℕ, None, Some, false, get_or, length, map, true, IfOk, IfSome};
ghost use Rattle.placing.specs.Nodes.{bare, kid_at, sight_at, BareTrees, IsLive};
ghost use Rattle.placing.specs.Ranges.{AreReadable};
ghost use Rattle.tree_rules.specs.FlexSizes as rules;
ghost use Rattle.tree_rules.specs.Frames.{given_size};
ghost use Rattle.tree_rules.specs.NodeSizes.{inner};
ghost use Rattle.tree_rules.specs.declared.query.Query.{Query};
ghost use Rattle.placing.specs.Told.{IsPastAlong};
ghost use Rattle.placing.specs.Walks.{State, Stopped, WalkedBelow};
ghost use Rattle.node_arena.specs.declared.number.NodeId.{NodeId};
ghost use Rattle.walker.specs.Walkers.{kept, nodes, seen, SameParts, Stands};
ghost use Rattle.inline_sizes.specs.Flexes.{AreMembers, flex_seen, member_of, IsChild};
ghost use Rattle.block_sizes.specs.Flexes.{HaveInner};
ghost use Rattle.block_sizes.specs.Settling.{along_of, alongs, block_of, column_boxes_seen, row_items_seen, settled_seen, AreKnown, AreRoomy, HasBlock, HasItem, IsColumn, IsKnown, IsRow};

use crate::again::same_length;
use crate::flexes::{column_block, row_block};
use inline_sizes::{column_box, cross_box, flex_item, outer_cross, with_room};
use layout_cache::Given;
use lunit::{Lu, NoMemory, Sequence};
use node_arena::{Arena, NodeId};
use outside::Ruler;
use part_rules::FlexItem;
use placing::{ColumnParts, KeptAlong, MANY, Member, Node, RowParts, ToldAlong, node_at, root};
use std::alloc::Global;
use std::sync::ledger::Ledger;
use walker::Walker;

/// The inline size that a question gives; 0 where it gives none.
pub(crate) fn size_of(given: &Given) -> Lu
    ensures { result ≡ given_size given.now }
{
    match given {
        Given::Size(size) => *size,
        _ => Lu::default(),
    }
}

// ---- what the children told last

/// What children told last, where the container had this inline size then; else nothing.
fn told_at(alloc: Global, past: Option<KeptAlong>, width: Lu) -> Sequence<ToldAlong>
    ensures { (b : BareTrees) (n : NodeId) → IfSome past (IsPastAlong b n) →
        AreKnown b n width result }
{
    let Some(past) = past else {
        return Sequence::new(alloc);
    };
    let KeptAlong { width: kept, told } = past;
    if !same_length(kept, width) {
        return Sequence::new(alloc);
    }
    told
}

/// What the children of a flex container of this inline size told last, where those have the last turn of which it is not known. A walk
/// goes on after it as before it. `NoMemory` where memory is wanting.
pub(crate) fn last_along<R: Ruler, L: Ledger>(
    walk: &mut Walker<R, L>,
    id: NodeId,
    width: Lu,
) -> Result<Sequence<ToldAlong>, NoMemory>
    requires stands { Stands walk.old }
    requires live { IsLive (nodes walk.old) id }
    ensures past { IfOk result (AreKnown (nodes walk.old) id width) }
    ensures stands { Stands walk.new }
    ensures parts { SameParts walk.old walk.new }
    ensures bare { nodes walk.new ≡ nodes walk.old }
    ensures kept { (n : NodeId) → kept walk.new n ≡ kept walk.old n }
    ensures below { (q : Query) (more : ℕ) (new : State) →
        WalkedBelow id q more (seen R.log walk.new) new →
        WalkedBelow id q more (seen R.log walk.old) new }
    ensures stopped { (q : Query) (new : State) → Stopped id q (seen R.log walk.new) new →
        Stopped id q (seen R.log walk.old) new }
{
    let past = walk.take_along(id)?;
    let told = told_at(walk.alloc, past, width);
    Ok(told)
}

/// What a child told last, where it need not be asked; `index` is its place in order-modified document order.
pub(crate) fn known_of(
    tree: &Arena<Node>,
    id: NodeId,
    width: Lu,
    past: &[ToldAlong],
    index: usize,
    member: &Member,
) -> Option<ToldAlong>
    requires child { IsChild (bare tree.now.tree) id member.now }
    requires past { AreKnown (bare tree.now.tree) id width past.now }
    ensures { IsKnown (bare tree.now.tree) id width member.now.child result }
{
    if index >= past.len() {
        return None;
    }
    let last = past[index];
    if last.number != member.number {
        return None;
    }
    if last.turn >= u64::MAX {
        return None;
    }
    Some(last)
}

/// The block size that a child told at this inline size.
pub(crate) fn known_block(last: Option<ToldAlong>, size: Lu) -> Option<Lu>
    ensures { IfSome result (HasBlock last size) }
{
    let Some(last) = last else {
        return None;
    };
    if !same_length(last.size, size) {
        return None;
    }
    Some(last.block)
}

/// The item that a child of this block size told.
fn known_item(last: Option<ToldAlong>, block: Lu) -> Option<FlexItem>
    ensures { IfSome result (HasItem last block) }
{
    let Some(last) = last else {
        return None;
    };
    if !same_length(last.block, block) {
        return None;
    }
    Some(last.item)
}

// ---- the children along the main axis

/// A child of a row as an item along the inline axis, where percentages are of this inline size.
fn row_item(
    tree: &Arena<Node>,
    id: NodeId,
    width: Lu,
    member: &Member,
    last: Option<ToldAlong>,
) -> FlexItem
    requires live { IsLive (bare tree.now.tree) member.now.child }
    requires readable { AreReadable (bare tree.now.tree) }
    requires direction { (sight_at (bare tree.now.tree) id).label.content.column ≡ false }
    requires inline { member.now.inline ≡
        (kid_at (bare tree.now.tree) member.now.child).answers.inline [] }
    requires last { IsKnown (bare tree.now.tree) id width member.now.child last }
    ensures { result ≡
        rules.flex_item false (Some width) (kid_at (bare tree.now.tree) member.now.child).label
        member.now.inline }
{
    if let Some(last) = last {
        return last.item;
    }
    let style = &node_at(tree, member.child).style;
    flex_item(false, &Some(width), style, member.inline)
}

/// The children of a row as items along the inline axis, where percentages are of this inline size.
pub(crate) fn items_in_row(
    alloc: Global,
    tree: &Arena<Node>,
    id: NodeId,
    width: Lu,
    members: &[Member],
    past: &[ToldAlong],
) -> Result<Vec<FlexItem>, NoMemory>
    requires live { IsLive (bare tree.now.tree) id }
    requires readable { AreReadable (bare tree.now.tree) }
    requires direction { (sight_at (bare tree.now.tree) id).label.content.column ≡ false }
    requires members { AreMembers (bare tree.now.tree) id members.now }
    requires past { AreKnown (bare tree.now.tree) id width past.now }
    ensures value { IfOk result
        (λ items. items.items ≡ row_items_seen (bare tree.now.tree) id width) }
    ensures inner { IfOk result (λ items. HaveInner items.items) }
{
    root(tree);
    let mut items = Vec::with_capacity(alloc, members.len())?;
    for index in 0..members.len() {
        let member = &members[index];
        let last = known_of(tree, id, width, past, index, member);
        items.push(row_item(tree, id, width, member, last))?;
    }
    Ok(items)
}

/// The inline size of a child of a column as a border-box size, before its line is known.
fn column_size_of(
    tree: &Arena<Node>,
    id: NodeId,
    width: Lu,
    member: &Member,
    last: Option<ToldAlong>,
) -> Lu
    requires live { IsLive (bare tree.now.tree) id }
    requires child { IsLive (bare tree.now.tree) member.now.child }
    requires readable { AreReadable (bare tree.now.tree) }
    requires direction { (sight_at (bare tree.now.tree) id).label.content.column ≡ true }
    requires inline { member.now.inline ≡
        (kid_at (bare tree.now.tree) member.now.child).answers.inline [] }
    requires last { IsKnown (bare tree.now.tree) id width member.now.child last }
    ensures value { result ≡
        rules.column_box (sight_at (bare tree.now.tree) id).label width
        (member_of (bare tree.now.tree) member.now) }
    ensures least { inner (kid_at (bare tree.now.tree) member.now.child).label.grid.columns ≤ℤ
        result }
{
    if let Some(last) = last {
        return last.size;
    }
    let container = &node_at(tree, id).style;
    let style = &node_at(tree, member.child).style;
    column_box(container, style, width, member.inline)
}

/// The inline size of each child of a column as a border-box size, before its line is known.
pub(crate) fn boxes_in_column(
    alloc: Global,
    tree: &Arena<Node>,
    id: NodeId,
    width: Lu,
    members: &[Member],
    past: &[ToldAlong],
) -> Result<Sequence<Lu>, NoMemory>
    requires live { IsLive (bare tree.now.tree) id }
    requires readable { AreReadable (bare tree.now.tree) }
    requires direction { (sight_at (bare tree.now.tree) id).label.content.column ≡ true }
    requires members { AreMembers (bare tree.now.tree) id members.now }
    requires past { AreKnown (bare tree.now.tree) id width past.now }
    ensures value { IfOk result (λ boxes. boxes ≡ column_boxes_seen (bare tree.now.tree) id width) }
    ensures roomy { IfOk result (AreRoomy (flex_seen (bare tree.now.tree) id).members) }
{
    root(tree);
    let mut boxes = with_room(alloc, members.len())?;
    for index in 0..members.len() {
        let member = &members[index];
        let last = known_of(tree, id, width, past, index, member);
        boxes.push(column_size_of(tree, id, width, member, last))?;
    }
    Ok(boxes)
}

/// The hypothetical cross size of each child of a row with its margins, where that of the container is not known.
fn outers_in_row(
    alloc: Global,
    tree: &Arena<Node>,
    id: NodeId,
    parts: &RowParts,
) -> Result<Vec<Lu>, NoMemory>
    requires live { IsLive (bare tree.now.tree) id }
    requires readable { AreReadable (bare tree.now.tree) }
    requires members { AreMembers (bare tree.now.tree) id parts.now.members }
    requires blocks { parts.now.blocks ≡
        map block_of (settled_seen (bare tree.now.tree) id parts.now.lines.mains) }
    requires counted { length parts.now.lines.mains ≡ length parts.now.members }
    ensures { IfOk result
        (λ sizes. sizes.items ≡
        map (rules.outer_cross false None)
        (settled_seen (bare tree.now.tree) id parts.now.lines.mains)) }
{
    root(tree);
    let members = parts.members.as_slice();
    let mut sizes = Vec::with_capacity(alloc, members.len())?;
    for index in 0..members.len() {
        let style = &node_at(tree, members[index].child).style;
        let block = parts.blocks.as_slice()[index];
        let size = cross_box(false, None, style, Lu::default(), block);
        sizes.push(outer_cross(false, style, size))?;
    }
    Ok(sizes)
}

/// A child of a column of this block size as an item along the block axis, where the container's block size is not known.
fn column_item(
    tree: &Arena<Node>,
    id: NodeId,
    width: Lu,
    member: &Member,
    block: Lu,
    last: Option<ToldAlong>,
) -> FlexItem
    requires live { IsLive (bare tree.now.tree) member.now.child }
    requires readable { AreReadable (bare tree.now.tree) }
    requires direction { (sight_at (bare tree.now.tree) id).label.content.column ≡ true }
    requires last { IsKnown (bare tree.now.tree) id width member.now.child last }
    ensures { result ≡
        rules.flex_item true None (kid_at (bare tree.now.tree) member.now.child).label
        (block, block) }
{
    if let Some(item) = known_item(last, block) {
        return item;
    }
    let style = &node_at(tree, member.child).style;
    flex_item(true, &None, style, (block, block))
}

/// The children of a column as items along the block axis, where the container's block size is not known.
fn items_in_column(
    alloc: Global,
    tree: &Arena<Node>,
    id: NodeId,
    width: Lu,
    parts: &ColumnParts,
    past: &[ToldAlong],
) -> Result<Vec<FlexItem>, NoMemory>
    requires live { IsLive (bare tree.now.tree) id }
    requires readable { AreReadable (bare tree.now.tree) }
    requires direction { (sight_at (bare tree.now.tree) id).label.content.column ≡ true }
    requires members { AreMembers (bare tree.now.tree) id parts.now.members }
    requires blocks { parts.now.blocks ≡
        map block_of (settled_seen (bare tree.now.tree) id parts.now.boxes) }
    requires counted { length parts.now.boxes ≡ length parts.now.members }
    requires past { AreKnown (bare tree.now.tree) id width past.now }
    ensures { IfOk result
        (λ items. items.items ≡
        map (rules.column_item None) (settled_seen (bare tree.now.tree) id parts.now.boxes)) }
{
    root(tree);
    let members = parts.members.as_slice();
    let mut items = Vec::with_capacity(alloc, members.len())?;
    for index in 0..members.len() {
        let member = &members[index];
        let block = parts.blocks.as_slice()[index];
        let last = known_of(tree, id, width, past, index, member);
        items.push(column_item(tree, id, width, member, block, last))?;
    }
    Ok(items)
}

/// The block size of the content of a row. `NoMemory` where memory is wanting.
pub(crate) fn row_size(
    alloc: Global,
    tree: &Arena<Node>,
    id: NodeId,
    width: Lu,
    parts: &RowParts,
) -> Result<Lu, NoMemory>
    requires live { IsLive (bare tree.now.tree) id }
    requires readable { AreReadable (bare tree.now.tree) }
    requires row { IsRow (bare tree.now.tree) id width parts.now }
    ensures { IfOk result
        (λ size. size ≡
        rules.row_block (flex_seen (bare tree.now.tree) id)
        (rules.row_lines (flex_seen (bare tree.now.tree) id) width)
        (rules.row_settled (flex_seen (bare tree.now.tree) id)
        (rules.row_lines (flex_seen (bare tree.now.tree) id) width))) }
{
    let outers = outers_in_row(alloc, tree, id, parts)?;
    let ranges = parts.lines.ranges.as_slice();
    row_block(alloc, &node_at(tree, id).style, &outers, ranges)
}

/// The block size of the content of a column, and its children as items along the block axis. `NoMemory` where memory is wanting.
pub(crate) fn column_size(
    alloc: Global,
    tree: &Arena<Node>,
    id: NodeId,
    width: Lu,
    parts: &ColumnParts,
    past: &[ToldAlong],
) -> Result<(Lu, Vec<FlexItem>), NoMemory>
    requires live { IsLive (bare tree.now.tree) id }
    requires readable { AreReadable (bare tree.now.tree) }
    requires direction { (sight_at (bare tree.now.tree) id).label.content.column ≡ true }
    requires column { IsColumn (bare tree.now.tree) id width parts.now }
    requires past { AreKnown (bare tree.now.tree) id width past.now }
    ensures value { IfOk result
        (λ made. made.0 ≡
        rules.column_block (flex_seen (bare tree.now.tree) id)
        (rules.column_settled (flex_seen (bare tree.now.tree) id) width)) }
    ensures items { IfOk result
        (λ made. made.1.items ≡
        map (rules.column_item None) (settled_seen (bare tree.now.tree) id parts.now.boxes)) }
{
    let items = items_in_column(alloc, tree, id, width, parts, past)?;
    let size = column_block(&node_at(tree, id).style, &items);
    Ok((size, items))
}

// ---- what the children tell, kept

/// A child with what it tells.
fn along_of(member: &Member, size: Lu, block: Lu, item: FlexItem) -> ToldAlong
    ensures { result ≡ along_of member.now size block item }
{
    ToldAlong {
        child: member.child,
        number: member.number,
        size,
        block,
        item,
        turn: 0,
    }
}

/// Children with what they tell.
fn all_along(
    alloc: Global,
    members: &[Member],
    sizes: &[Lu],
    blocks: &[Lu],
    items: &[FlexItem],
) -> Result<Sequence<ToldAlong>, NoMemory>
    requires sizes { length sizes.now ≡ length members.now }
    requires blocks { length blocks.now ≡ length members.now }
    requires items { length items.now ≡ length members.now }
    ensures { IfOk result (λ told. told ≡ alongs members.now sizes.now blocks.now items.now) }
{
    let mut told = with_room(alloc, members.len())?;
    for index in 0..members.len() {
        let child = along_of(&members[index], sizes[index], blocks[index], items[index]);
        told.push(child)?;
    }
    Ok(told)
}

/// Keeps what the children of a row of this inline size tell for its block size, where they are many. A walk goes on after it as before
/// it. `NoMemory` where memory is wanting; nothing has changed then.
pub(crate) fn keep_row<R: Ruler, L: Ledger>(
    walk: &mut Walker<R, L>,
    id: NodeId,
    width: Lu,
    parts: &RowParts,
    items: &[FlexItem],
) -> Result<(), NoMemory>
    requires stands { Stands walk.old }
    requires live { IsLive (nodes walk.old) id }
    requires direction { (sight_at (nodes walk.old) id).label.content.column ≡ false }
    requires row { IsRow (nodes walk.old) id width parts.now }
    requires items { items.now ≡ row_items_seen (nodes walk.old) id width }
    ensures stands { Stands walk.new }
    ensures parts { SameParts walk.old walk.new }
    ensures bare { nodes walk.new ≡ nodes walk.old }
    ensures below { (q : Query) (more : ℕ) (old : State) →
        WalkedBelow id q more old (seen R.log walk.old) →
        WalkedBelow id q more old (seen R.log walk.new) }
{
    let members = parts.members.as_slice();
    if members.len() < MANY {
        return Ok(());
    }
    let mains = parts.lines.mains.as_slice();
    let blocks = parts.blocks.as_slice();
    let told = all_along(walk.alloc, members, mains, blocks, items)?;
    walk.keep_along(id, width, told.as_slice())
}

/// Keeps what the children of a column of this inline size tell for its block size, where they are many. A walk goes on after it as before
/// it. `NoMemory` where memory is wanting; nothing has changed then.
pub(crate) fn keep_column<R: Ruler, L: Ledger>(
    walk: &mut Walker<R, L>,
    id: NodeId,
    width: Lu,
    parts: &ColumnParts,
    items: &[FlexItem],
) -> Result<(), NoMemory>
    requires stands { Stands walk.old }
    requires live { IsLive (nodes walk.old) id }
    requires direction { (sight_at (nodes walk.old) id).label.content.column ≡ true }
    requires column { IsColumn (nodes walk.old) id width parts.now }
    requires items { items.now ≡
        map (rules.column_item None) (settled_seen (nodes walk.old) id parts.now.boxes) }
    ensures stands { Stands walk.new }
    ensures parts { SameParts walk.old walk.new }
    ensures bare { nodes walk.new ≡ nodes walk.old }
    ensures below { (q : Query) (more : ℕ) (old : State) →
        WalkedBelow id q more old (seen R.log walk.old) →
        WalkedBelow id q more old (seen R.log walk.new) }
{
    let members = parts.members.as_slice();
    if members.len() < MANY {
        return Ok(());
    }
    let boxes = parts.boxes.as_slice();
    let blocks = parts.blocks.as_slice();
    let told = all_along(walk.alloc, members, boxes, blocks, items)?;
    walk.keep_along(id, width, told.as_slice())
}

/// The child at an index.
pub(crate) fn member_at(members: &[Member], index: usize) -> Member
    requires { index < length members.now }
    ensures { result ≡ get_or members.now index result }
{
    members[index]
}

/// The box at an index.
pub(crate) fn box_at(boxes: &[Lu], index: usize) -> Lu
    requires { index < length boxes.now }
    ensures { result ≡ get_or boxes.now index result }
{
    boxes[index]
}
