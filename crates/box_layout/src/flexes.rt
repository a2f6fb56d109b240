//! The frames of the children of a flex container of a tree, once their sizes and their lines are known.

ghost use Rattle.std.specs.Prelude.{◌≡◌, ◌≤◌, ℤ, List, false, length, map, IfOk, Some};
ghost use Rattle.lunit.specs.Units.{IsUnits};
ghost use Rattle.flex_lines.specs.Lines.{AreRanges};
ghost use Rattle.part_rules.specs.Lists.{zipped};
ghost use Rattle.placing.specs.Nodes.{bare, kid_at, sight_at, IsLive};
ghost use Rattle.placing.specs.Ranges.{AreReadable, IsGridStyle};
ghost use Rattle.tree_rules.specs.Labels.{grid_of};
ghost use Rattle.inline_sizes.specs.Flexes.{AreMembers, IsChild, flex_seen};
ghost use Rattle.block_sizes.specs.Flexes.{crosses_by};
ghost use Rattle.box_layout.specs.FlexFrames.{block_of, flex_told, member_cross, member_outer, member_sitting, numbered, settled_by, zipped3};
ghost use Rattle.box_layout.specs.Near.{AreUnits};
ghost use Rattle.box_layout.specs.Sittings.{HasStyle, container_by};

use crate::lines::flex_frames;
use crate::sitting::{Container, Sitting, container_of, sitting_of};
use block_sizes::crosses_of;
use inline_sizes::{cross_box, outer_cross};
use lunit::{Lu, NoMemory, Sequence};
use node_arena::{Arena, NodeId};
use placing::{Frame, Member, Node, node_at, root};
use std::alloc::Global;
use style_types::Style;

/// The style of a child.
pub(crate) fn style_of<'a>(tree: &'a Arena<Node>, id: NodeId, member: &Member) -> &'a Style
    requires readable { AreReadable (bare tree.now.tree) }
    requires child { IsChild (bare tree.now.tree) id member.now }
    ensures has { HasStyle result.now (kid_at (bare tree.now.tree) member.now.child).label }
    ensures grid { IsGridStyle (grid_of result.now) }
{
    &node_at(tree, member.child).style
}

/// The hypothetical cross size of a child, by its inline size and the block size of its content.
fn member_cross(
    tree: &Arena<Node>,
    id: NodeId,
    column: bool,
    cross: Lu,
    member: &Member,
    inline: Lu,
    block: Lu,
) -> Lu
    requires readable { AreReadable (bare tree.now.tree) }
    requires child { IsChild (bare tree.now.tree) id member.now }
    ensures { result ≡ member_cross (bare tree.now.tree) column cross member.now inline block }
{
    let style = style_of(tree, id, member);
    cross_box(column, Some(cross), style, inline, block)
}

/// The hypothetical cross size of a child with its margins.
fn member_outer(tree: &Arena<Node>, id: NodeId, column: bool, member: &Member, own: Lu) -> Lu
    requires readable { AreReadable (bare tree.now.tree) }
    requires child { IsChild (bare tree.now.tree) id member.now }
    ensures { result ≡ member_outer (bare tree.now.tree) column member.now own }
{
    let style = style_of(tree, id, member);
    outer_cross(column, style, own)
}

/// A child as its line places it, by its main size and its hypothetical cross size.
fn member_sitting(
    tree: &Arena<Node>,
    id: NodeId,
    flex: &Container,
    member: &Member,
    main: Lu,
    own: Lu,
) -> Sitting
    requires live { IsLive (bare tree.now.tree) id }
    requires readable { AreReadable (bare tree.now.tree) }
    requires child { IsChild (bare tree.now.tree) id member.now }
    ensures value { result ≡
        member_sitting (bare tree.now.tree) id flex.now.column flex.now.cross member.now main own }
    ensures units { IsUnits main }
{
    root(tree);
    let container = &node_at(tree, id).style;
    let style = style_of(tree, id, member);
    let number = member.number;
    let main = main.wide().clamp();
    sitting_of(flex, container, style, number, member.child, main, own)
}

/// The hypothetical cross sizes of all children.
fn own_crosses(
    alloc: Global,
    tree: &Arena<Node>,
    id: NodeId,
    column: bool,
    cross: Lu,
    members: &[Member],
    boxes: &[Lu],
    blocks: &[Lu],
) -> Result<Vec<Lu>, NoMemory>
    requires readable { AreReadable (bare tree.now.tree) }
    requires members { AreMembers (bare tree.now.tree) id members.now }
    requires boxes { length boxes.now ≡ length members.now }
    requires blocks { length blocks.now ≡ length members.now }
    ensures { IfOk result
        (λ sizes. sizes.items ≡
        zipped3 (member_cross (bare tree.now.tree) column cross) members.now boxes.now
        blocks.now) }
{
    let mut sizes = Vec::with_capacity(alloc, members.len())?;
    for index in 0..members.len() {
        let member = &members[index];
        let size = member_cross(tree, id, column, cross, member, boxes[index], blocks[index]);
        sizes.push(size)?;
    }
    Ok(sizes)
}

/// The hypothetical cross sizes of all children with their margins.
fn own_outers(
    alloc: Global,
    tree: &Arena<Node>,
    id: NodeId,
    column: bool,
    members: &[Member],
    crosses: &[Lu],
) -> Result<Vec<Lu>, NoMemory>
    requires readable { AreReadable (bare tree.now.tree) }
    requires members { AreMembers (bare tree.now.tree) id members.now }
    requires counted { length crosses.now ≡ length members.now }
    ensures { IfOk result
        (λ sizes. sizes.items ≡
        zipped (member_outer (bare tree.now.tree) column) members.now crosses.now) }
{
    let mut sizes = Vec::with_capacity(alloc, members.len())?;
    for index in 0..members.len() {
        let size = member_outer(tree, id, column, &members[index], crosses[index]);
        sizes.push(size)?;
    }
    Ok(sizes)
}

/// All children as their lines place them.
fn sittings(
    alloc: Global,
    tree: &Arena<Node>,
    id: NodeId,
    flex: &Container,
    members: &[Member],
    mains: &[Lu],
    crosses: &[Lu],
) -> Result<Vec<Sitting>, NoMemory>
    requires live { IsLive (bare tree.now.tree) id }
    requires readable { AreReadable (bare tree.now.tree) }
    requires members { AreMembers (bare tree.now.tree) id members.now }
    requires mains { length mains.now ≡ length members.now }
    requires counted { length crosses.now ≡ length members.now }
    ensures value { IfOk result
        (λ children. children.items ≡
        zipped3 (member_sitting (bare tree.now.tree) id flex.now.column flex.now.cross)
        members.now mains.now crosses.now) }
    ensures units { IfOk result (λ children. AreUnits mains.now) }
{
    let mut children = Vec::with_capacity(alloc, members.len())?;
    for index in 0..members.len() {
        let member = &members[index];
        let child = member_sitting(tree, id, flex, member, mains[index], crosses[index]);
        children.extend_from_slice(&[child])?;
    }
    Ok(children)
}

/// The container of a number, whose content box has these sizes.
fn flex_of(tree: &Arena<Node>, id: NodeId, column: bool, main: Lu, cross: Lu) -> Container
    requires live { IsLive (bare tree.now.tree) id }
    requires readable { AreReadable (bare tree.now.tree) }
    ensures { result ≡ container_by column (sight_at (bare tree.now.tree) id).label main cross }
{
    container_of(column, &node_at(tree, id).style, main, cross)
}

/// The cross sizes of its lines, by those of its children with their margins.
fn line_sizes(
    alloc: Global,
    tree: &Arena<Node>,
    id: NodeId,
    column: bool,
    cross: Lu,
    outers: &[Lu],
    ranges: &[(usize, usize)],
) -> Result<Sequence<Lu>, NoMemory>
    requires live { IsLive (bare tree.now.tree) id }
    requires ranges { AreRanges (length outers.now) ranges.now }
    ensures { IfOk result
        (λ sizes. sizes ≡
        crosses_by column (sight_at (bare tree.now.tree) id).label outers.now ranges.now
        (Some cross)) }
{
    let container = &node_at(tree, id).style;
    crosses_of(alloc, column, container, outers, ranges, Some(cross))
}

/// The children of a flex container in order-modified document order, once their sizes and their lines are known.
#[derive(Clone, Copy)]
pub struct LinedChildren<'a> {
    /// The children.
    pub members: &'a [Member],
    /// Their inline sizes as border-box sizes, in units of 1/64 px: in a row the main sizes.
    pub boxes: &'a [Lu],
    /// The block sizes of their contents at these.
    pub blocks: &'a [Lu],
    /// The children of each line: the index of its first child, and the one after its last.
    pub ranges: &'a [(usize, usize)],
    /// The main size of each child.
    pub mains: &'a [Lu],
}

/// The frames of the children of a flex container of a tree, in document order (CSS Flexbox 1, 9.4 to 9.6). Its content box has
/// these sizes along the main axis, which in a `column` is the block axis, and across it.
///
/// `NoMemory` where memory is wanting.
pub fn frames_in_lines(
    alloc: Global,
    tree: &Arena<Node>,
    id: NodeId,
    column: bool,
    main: Lu,
    cross: Lu,
    lined: &LinedChildren<'_>,
) -> Result<Sequence<Frame>, NoMemory>
    requires live { IsLive (bare tree.now.tree) id }
    requires readable { AreReadable (bare tree.now.tree) }
    requires members { AreMembers (bare tree.now.tree) id lined.now.members.now }
    requires boxes { length lined.now.boxes.now ≡ length lined.now.members.now }
    requires blocks { lined.now.blocks.now ≡
        map block_of (settled_by (bare tree.now.tree) lined.now.members.now lined.now.boxes.now) }
    requires mains { length lined.now.mains.now ≡ length lined.now.members.now }
    requires row { column ≡ false → lined.now.boxes.now ≡ lined.now.mains.now }
    requires ranges { AreRanges (length lined.now.members.now) lined.now.ranges.now }
    requires lines { length lined.now.ranges.now ≤ 65536 }
    ensures { IfOk result
        (λ frames. frames ≡
        flex_told (numbered (bare tree.now.tree) id) column (flex_seen (bare tree.now.tree) id)
        main cross (record { ranges = lined.now.ranges.now; mains = lined.now.mains.now })
        (settled_by (bare tree.now.tree) lined.now.members.now lined.now.boxes.now)) }
{
    let members = lined.members;
    let boxes = lined.boxes;
    let blocks = lined.blocks;
    let ranges = lined.ranges;
    let own = own_crosses(alloc, tree, id, column, cross, members, boxes, blocks)?;
    let outers = own_outers(alloc, tree, id, column, members, &own)?;
    let sizes = line_sizes(alloc, tree, id, column, cross, &outers, ranges)?;
    let flex = flex_of(tree, id, column, main, cross);
    let children = sittings(alloc, tree, id, &flex, members, lined.mains, &own)?;
    flex_frames(alloc, &flex, sizes.as_slice(), ranges, &children)
}
