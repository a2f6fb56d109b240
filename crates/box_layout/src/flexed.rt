//! The frames of a row and of a column of a tree (CSS Flexbox 1, 9.3 to 9.6).

ghost use Rattle.std.specs.Prelude.{◌≡◌, false, length, true, IfOk, OnErr, OnOk};
ghost use Rattle.flex_lines.specs.Lines.{AreRanges};
ghost use Rattle.placing.specs.Nodes.{bare, sight_at, IsLive};
ghost use Rattle.placing.specs.Ranges.{AreReadable};
ghost use Rattle.placing.specs.Walks.{Stopped, WalkedBelow};
ghost use Rattle.tree_rules.specs.Frames.{given_size};
ghost use Rattle.tree_rules.specs.Queries.{needs_inline};
ghost use Rattle.tree_rules.specs.declared.kind.NodeKind.TheVariants as kind;
ghost use Rattle.tree_rules.specs.declared.query.Query.{Query};
ghost use Rattle.inline_sizes.specs.Flexes.{flex_seen};
ghost use Rattle.block_sizes.specs.Flexes.{lines_of};
ghost use Rattle.block_sizes.specs.Settling.{IsColumn, IsRow};
ghost use Rattle.walker.specs.Walkers.{nodes, seen, SameParts, Stands};
ghost use Rattle.box_layout.specs.FlexFrames.{AreFrames, AreStyled, AsksWidths, column_lines_seen, column_seen, row_seen, settled_by};

use crate::columns::column_lines;
use crate::flexes::{LinedChildren, frames_in_lines};
use crate::sizes::height_in;
use block_sizes::{column_for, row_for};
use lunit::{Area, Lu, NoMemory, Sequence, Span};
use node_arena::{Arena, NodeId};
use outside::Ruler;
use placing::{
    ColumnParts, Frame, Lines, Node, RowParts, SharedColumnParts, SharedRowParts, count, root,
};
use std::alloc::Global;
use std::sync::ledger::Ledger;
use walker::Walker;

/// No area.
const NO_AREA: Area = Area {
    columns: Span { start: 0, end: 0 },
    rows: Span { start: 0, end: 0 },
};

/// The frames of the children of a row whose content box has these sizes, once its lines are known.
fn frames_in_row(
    alloc: Global,
    tree: &Arena<Node>,
    id: NodeId,
    width: Lu,
    height: Lu,
    row: &RowParts,
) -> Result<Sequence<Frame>, NoMemory>
    requires live { IsLive (bare tree.now.tree) id }
    requires readable { AreReadable (bare tree.now.tree) }
    requires row { IsRow (bare tree.now.tree) id width row.now }
    ensures { IfOk result
        (AreFrames (bare tree.now.tree) id (row_seen (bare tree.now.tree) id width height)) }
{
    count(tree, id);
    let members = row.members.as_slice();
    let mains = row.lines.mains.as_slice();
    let blocks = row.blocks.as_slice();
    let ranges = row.lines.ranges.as_slice();
    let lined = LinedChildren {
        members,
        boxes: mains,
        blocks,
        ranges,
        mains,
    };
    frames_in_lines(alloc, tree, id, false, width, height, &lined)
}

/// The frames of the children of a row, as `frames_in_row` finds them. The row is let go here, in one place.
fn frames_of_row(
    alloc: Global,
    tree: &Arena<Node>,
    id: NodeId,
    width: Lu,
    height: Lu,
    row: SharedRowParts,
) -> Result<Sequence<Frame>, NoMemory>
    requires live { IsLive (bare tree.now.tree) id }
    requires readable { AreReadable (bare tree.now.tree) }
    requires row { IsRow (bare tree.now.tree) id width row }
    ensures { IfOk result
        (AreFrames (bare tree.now.tree) id (row_seen (bare tree.now.tree) id width height)) }
{
    frames_in_row(alloc, tree, id, width, height, row.parts())
}

/// The frames of the children of a column whose content box has these sizes, once its lines are known.
fn frames_in_column(
    alloc: Global,
    tree: &Arena<Node>,
    id: NodeId,
    width: Lu,
    height: Lu,
    column: &ColumnParts,
    lines: &Lines,
) -> Result<Sequence<Frame>, NoMemory>
    requires live { IsLive (bare tree.now.tree) id }
    requires readable { AreReadable (bare tree.now.tree) }
    requires column { IsColumn (bare tree.now.tree) id width column.now }
    requires lines { lines_of lines.now ≡
        column_lines_seen (bare tree.now.tree) id height
        (settled_by (bare tree.now.tree) column.now.members column.now.boxes) }
    requires ranges { AreRanges (length column.now.members) lines.now.ranges }
    ensures { IfOk result
        (AreFrames (bare tree.now.tree) id (column_seen (bare tree.now.tree) id width height)) }
{
    count(tree, id);
    let members = column.members.as_slice();
    let boxes = column.boxes.as_slice();
    let blocks = column.blocks.as_slice();
    let ranges = lines.ranges.as_slice();
    let mains = lines.mains.as_slice();
    let lined = LinedChildren {
        members,
        boxes,
        blocks,
        ranges,
        mains,
    };
    frames_in_lines(alloc, tree, id, true, height, width, &lined)
}

/// The frames of the children of a column, as `frames_in_column` finds them. The column and its lines are let go here, in one place.
fn frames_of_column(
    alloc: Global,
    tree: &Arena<Node>,
    id: NodeId,
    width: Lu,
    height: Lu,
    column: SharedColumnParts,
    lines: Lines,
) -> Result<Sequence<Frame>, NoMemory>
    requires live { IsLive (bare tree.now.tree) id }
    requires readable { AreReadable (bare tree.now.tree) }
    requires column { IsColumn (bare tree.now.tree) id width column }
    requires lines { lines_of lines ≡
        column_lines_seen (bare tree.now.tree) id height
        (settled_by (bare tree.now.tree) column.members column.boxes) }
    requires ranges { AreRanges (length column.members) lines.ranges }
    ensures { IfOk result
        (AreFrames (bare tree.now.tree) id (column_seen (bare tree.now.tree) id width height)) }
{
    frames_in_column(alloc, tree, id, width, height, column.parts(), &lines)
}

/// The frames of the children of a row of this inline size that is given this block size. Nothing is kept for the row itself. It
/// makes one step at most, and none where the row keeps its lines with its block size. `NoMemory` where memory is wanting.
pub fn row_frames<R: Ruler, L: Ledger>(
    walk: &mut Walker<R, L>,
    id: NodeId,
    width: Lu,
    height: Lu,
) -> Result<Sequence<Frame>, NoMemory>
    requires stands { Stands walk.old }
    requires live { IsLive (nodes walk.old) id }
    requires flex { (sight_at (nodes walk.old) id).label.kind ≡ kind.Flex }
    requires direction { (sight_at (nodes walk.old) id).label.content.column ≡ false }
    ensures value { IfOk result
        (AreFrames (nodes walk.old) id (row_seen (nodes walk.old) id width height)) }
    ensures stands { Stands walk.new }
    ensures parts { SameParts walk.old walk.new }
    ensures below { OnOk result
        ((q : Query) → given_size q.inline ≡ width → needs_inline q.ask ≡ true →
        WalkedBelow id q 1 (seen R.log walk.old) (seen R.log walk.new)) }
    ensures stopped { OnErr result
        ((q : Query) → given_size q.inline ≡ width → needs_inline q.ask ≡ true →
        Stopped id q (seen R.log walk.old) (seen R.log walk.new)) }
{
    let row = row_for(walk, id, width)?;
    let frames = frames_of_row(walk.alloc, walk.tree, id, width, height, row)?;
    Ok(frames)
}

/// The block sizes of the children of a column at the widths of their frames, which are kept.
fn ask_widths<R: Ruler, L: Ledger>(
    walk: &mut Walker<R, L>,
    id: NodeId,
    width: Lu,
    height: Lu,
    frames: &[Frame],
) -> Result<(), NoMemory>
    requires stands { Stands walk.old }
    requires live { IsLive (nodes walk.old) id }
    requires flex { (sight_at (nodes walk.old) id).label.kind ≡ kind.Flex }
    requires direction { (sight_at (nodes walk.old) id).label.content.column ≡ true }
    requires grids { AreStyled (flex_seen (nodes walk.old) id).members }
    requires frames { AreFrames (nodes walk.old) id
        (column_seen (nodes walk.old) id width height) frames.now }
    ensures stands { Stands walk.new }
    ensures parts { SameParts walk.old walk.new }
    ensures below { OnOk result
        ((q : Query) → AsksWidths width height q →
        WalkedBelow id q 0 (seen R.log walk.old) (seen R.log walk.new)) }
    ensures stopped { OnErr result
        ((q : Query) → AsksWidths width height q →
        Stopped id q (seen R.log walk.old) (seen R.log walk.new)) }
{
    root(walk.tree);
    for index in 0..frames.len() {
        let frame = &frames[index];
        height_in(walk, frame.child, NO_AREA, &frame.inline)?;
    }
    Ok(())
}

/// The frames of the children of a column of this inline size that is given this block size; the block size of each child at the
/// width of its frame is kept. Nothing is kept for the column itself. It makes one step. `NoMemory` where memory is wanting.
pub fn column_frames<R: Ruler, L: Ledger>(
    walk: &mut Walker<R, L>,
    id: NodeId,
    width: Lu,
    height: Lu,
) -> Result<Sequence<Frame>, NoMemory>
    requires stands { Stands walk.old }
    requires live { IsLive (nodes walk.old) id }
    requires flex { (sight_at (nodes walk.old) id).label.kind ≡ kind.Flex }
    requires direction { (sight_at (nodes walk.old) id).label.content.column ≡ true }
    ensures value { IfOk result
        (AreFrames (nodes walk.old) id (column_seen (nodes walk.old) id width height)) }
    ensures stands { Stands walk.new }
    ensures parts { SameParts walk.old walk.new }
    ensures below { OnOk result
        ((q : Query) → AsksWidths width height q →
        WalkedBelow id q 1 (seen R.log walk.old) (seen R.log walk.new)) }
    ensures stopped { OnErr result
        ((q : Query) → AsksWidths width height q →
        Stopped id q (seen R.log walk.old) (seen R.log walk.new)) }
{
    let column = column_for(walk, id, width)?;
    let parts = column.parts();
    let members = parts.members.as_slice();
    let blocks = parts.blocks.as_slice();
    let lines = column_lines(
        walk.alloc,
        walk.tree,
        id,
        height,
        members,
        blocks,
        walk.passes,
    )?;
    let frames = frames_of_column(walk.alloc, walk.tree, id, width, height, column, lines)?;
    let told = frames.as_slice();
    ask_widths(walk, id, width, height, told)?;
    Ok(frames)
}
