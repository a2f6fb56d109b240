//! The lines of a column of a tree at the height that it is given (CSS Flexbox 1, 9.3).

ghost use Rattle.std.specs.Prelude.{◌≡◌, ◌≤◌, ◌+◌, ℤ, List, length, map, pos, IfOk, Some};
ghost use Rattle.flex_lines.specs.Lines.{AreRanges};
ghost use Rattle.part_rules.specs.Lists.{zipped};
ghost use Rattle.placing.specs.Nodes.{bare, sight_at, IsLive};
ghost use Rattle.placing.specs.Ranges.{AreReadable};
ghost use Rattle.tree_rules.specs.Repetitions.{gap_by};
ghost use Rattle.inline_sizes.specs.Flexes.{AreMembers, IsChild};
ghost use Rattle.block_sizes.specs.Flexes.{lines_of};
ghost use Rattle.box_layout.specs.FlexFrames.{block_of, column_lines_seen, member_item, settled_by};

use crate::flexes::style_of;
use crate::sitting::gap_in;
use block_sizes::lines_by;
use inline_sizes::flex_item;
use lunit::{Lu, NoMemory, Steps};
use node_arena::{Arena, NodeId};
use part_rules::FlexItem;
use placing::{Lines, Member, Node, node_at};
use std::alloc::Global;
use std::sync::ledger::Ledger;

/// A child of a column along its main axis, in a column of this height.
fn member_item(tree: &Arena<Node>, id: NodeId, height: Lu, member: &Member, block: Lu) -> FlexItem
    requires readable { AreReadable (bare tree.now.tree) }
    requires child { IsChild (bare tree.now.tree) id member.now }
    ensures { result ≡ member_item (bare tree.now.tree) height member.now block }
{
    let style = style_of(tree, id, member);
    flex_item(true, &Some(height), style, (block, block))
}

/// All children along the main axis.
fn items_at(
    alloc: Global,
    tree: &Arena<Node>,
    id: NodeId,
    height: Lu,
    members: &[Member],
    blocks: &[Lu],
) -> Result<Vec<FlexItem>, NoMemory>
    requires readable { AreReadable (bare tree.now.tree) }
    requires members { AreMembers (bare tree.now.tree) id members.now }
    requires counted { length blocks.now ≡ length members.now }
    ensures { IfOk result
        (λ items. items.items ≡
        zipped (member_item (bare tree.now.tree) height) members.now blocks.now) }
{
    let mut items = Vec::with_capacity(alloc, members.len())?;
    for index in 0..members.len() {
        let item = member_item(tree, id, height, &members[index], blocks[index]);
        items.extend_from_slice(&[item])?;
    }
    Ok(items)
}

/// The gap between two children of a column of this height.
fn column_gap(tree: &Arena<Node>, id: NodeId, height: Lu) -> Lu
    requires { IsLive (bare tree.now.tree) id }
    ensures { result ≡
        gap_by (Some height) (pos 0) (sight_at (bare tree.now.tree) id).label.grid.rows.gap }
{
    gap_in::<1>(&node_at(tree, id).style, height)
}

/// The lines of a column whose content box has this height, of which percentages are. `blocks` are the block sizes of the contents of
/// the children. All lines are resolved in one step. `NoMemory` where memory is wanting.
pub fn column_lines<L: Ledger>(
    alloc: Global,
    tree: &Arena<Node>,
    id: NodeId,
    height: Lu,
    members: &[Member],
    blocks: &[Lu],
    passes: &mut Steps<L>,
) -> Result<Lines, NoMemory>
    requires live { IsLive (bare tree.now.tree) id }
    requires readable { AreReadable (bare tree.now.tree) }
    requires members { AreMembers (bare tree.now.tree) id members.now }
    requires counted { length blocks.now ≡ length members.now }
    ensures value { (boxes : List ℤ) →
        blocks.now ≡ map block_of (settled_by (bare tree.now.tree) members.now boxes) →
        IfOk result
        (λ lines. lines_of lines ≡
        column_lines_seen (bare tree.now.tree) id height
        (settled_by (bare tree.now.tree) members.now boxes)) }
    ensures ranges { IfOk result (λ lines. AreRanges (length members.now) lines.ranges) }
    ensures kept { passes.old ≤ passes.new }
    ensures ticks { passes.new ≤ passes.old + 1 }
{
    let items = items_at(alloc, tree, id, height, members, blocks)?;
    let container = &node_at(tree, id).style;
    let gap = column_gap(tree, id, height);
    lines_by::<1, L>(alloc, container, height, gap, &items, passes)
}
