//! The sizes of nodes that see no counts above them, asked on a walk.

ghost use Rattle.std.specs.Prelude.{◌≡◌, [], false, IfOk, OnErr, OnOk};
ghost use Rattle.placing.specs.Nodes.{level_at, sight_at, IsLive};
ghost use Rattle.placing.specs.Seats.{IsSeat};
ghost use Rattle.placing.specs.Spread.{IsSpread};
ghost use Rattle.placing.specs.Walks.{Stopped, Walked};
ghost use Rattle.placing.specs.declared.contexts.Above.TheVariants as over;
ghost use Rattle.placing.specs.declared.node.Answer.TheVariants as answer;
ghost use Rattle.tree_rules.specs.AskedQueries.{block_query, inline_query};
ghost use Rattle.tree_rules.specs.Queries.{answer_of, block_size, inline_sizes, Fits};
ghost use Rattle.inline_sizes.specs.Calls.{Found, Keeps};
ghost use Rattle.block_sizes.specs.Keeping.{KeepsSize};
ghost use Rattle.block_sizes.specs.Wides.{farthest};
ghost use Rattle.walker.specs.Walkers.{nodes, seen, SameParts, Stands};

use block_sizes::{block_in, block_of};
use inline_sizes::inline_of;
use layout_cache::Given;
use lunit::{Area, Lu, NoMemory};
use node_arena::NodeId;
use outside::Ruler;
use placing::Above;
use std::sync::ledger::Ledger;
use walker::{Seat, Walker};

/// The two inline sizes of a node that sees no counts above it.
pub(crate) fn widths_alone<R: Ruler, L: Ledger>(
    walk: &mut Walker<R, L>,
    id: NodeId,
) -> Result<(Lu, Lu), NoMemory>
    requires stands { Stands walk.old }
    requires live { IsLive (nodes walk.old) id }
    requires fits { Fits (sight_at (nodes walk.old) id) (inline_query false []) }
    ensures value { IfOk result
        (λ sizes. inline_sizes sizes ≡
        answer_of (sight_at (nodes walk.old) id) (inline_query false [])) }
    ensures stands { Stands walk.new }
    ensures parts { SameParts walk.old walk.new }
    ensures walked { OnOk result
        (Walked id (inline_query false []) (seen R.log walk.old) (seen R.log walk.new)) }
    ensures stopped { OnErr result
        (Stopped id (inline_query false []) (seen R.log walk.old) (seen R.log walk.new)) }
    ensures found { Found id (inline_query false []) (seen R.log walk.old) (seen R.log walk.new) }
    ensures own { IfOk result
        (λ sizes. Keeps id (inline_query false []) (seen R.log walk.old) (seen R.log walk.new)
        (answer.Sizes sizes.0 sizes.1)) }
{
    let sizes = inline_of(
        walk.alloc,
        walk.tree,
        id,
        &[],
        walk.ruler,
        walk.tally,
        walk.passes,
    )?;
    Ok(sizes)
}

/// The block size of a node that sees no counts above it, where it is given this in the inline axis.
pub(crate) fn height_alone<R: Ruler, L: Ledger>(
    walk: &mut Walker<R, L>,
    id: NodeId,
    width: &Given,
) -> Result<Lu, NoMemory>
    requires stands { Stands walk.old }
    requires live { IsLive (nodes walk.old) id }
    requires fits { Fits (sight_at (nodes walk.old) id) (block_query false [] width.now) }
    requires spread { IsSpread (farthest (level_at (nodes walk.old) id)) width.now }
    ensures value { IfOk result
        (λ size. block_size size ≡
        answer_of (sight_at (nodes walk.old) id) (block_query false [] width.now)) }
    ensures stands { Stands walk.new }
    ensures parts { SameParts walk.old walk.new }
    ensures walked { OnOk result
        (Walked id (block_query false [] width.now) (seen R.log walk.old) (seen R.log walk.new)) }
    ensures stopped { OnErr result
        (Stopped id (block_query false [] width.now) (seen R.log walk.old) (seen R.log walk.new)) }
    ensures found { Found id (block_query false [] width.now)
        (seen R.log walk.old) (seen R.log walk.new) }
    ensures own { IfOk result
        (λ size. KeepsSize id (block_query false [] width.now)
        (seen R.log walk.old) (seen R.log walk.new) size) }
{
    let size = block_of(
        walk.alloc,
        walk.tree,
        id,
        &[],
        width,
        walk.ruler,
        walk.tally,
        walk.passes,
    )?;
    Ok(size)
}

/// The block size of a node in its area that sees no counts above it, where it is given this in the inline axis.
pub(crate) fn height_in<R: Ruler, L: Ledger>(
    walk: &mut Walker<R, L>,
    id: NodeId,
    area: Area,
    width: &Given,
) -> Result<Lu, NoMemory>
    requires stands { Stands walk.old }
    requires live { IsLive (nodes walk.old) id }
    requires fits { Fits (sight_at (nodes walk.old) id) (block_query false [] width.now) }
    requires seat { IsSeat (sight_at (nodes walk.old) id) [] over.Nothing area }
    requires spread { IsSpread (farthest (level_at (nodes walk.old) id)) width.now }
    ensures stands { Stands walk.new }
    ensures parts { SameParts walk.old walk.new }
    ensures walked { OnOk result
        (Walked id (block_query false [] width.now) (seen R.log walk.old) (seen R.log walk.new)) }
    ensures stopped { OnErr result
        (Stopped id (block_query false [] width.now) (seen R.log walk.old) (seen R.log walk.new)) }
{
    let seat = Seat {
        reps: &[],
        above: &Above::Nothing,
        area,
    };
    block_in(walk, id, &seat, width)
}
