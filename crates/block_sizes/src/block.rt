//! The answers of any node of a tree in the block axis, from the top of its chain.

ghost use Rattle.std.specs.Prelude.{◌≡◌, ◌∷◌, [], true, false, IfOk, OnOk, OnErr};
ghost use Rattle.placing.specs.Kept.{IsRight};
ghost use Rattle.placing.specs.Nodes.{bare, level_at, sight_at, IsLive};
ghost use Rattle.placing.specs.Ranges.{AreReadable};
ghost use Rattle.placing.specs.Seats.{IsSeat};
ghost use Rattle.placing.specs.Walks.{kept_with, state, Stopped, Walked};
ghost use Rattle.placing.specs.declared.node.Answer.TheVariants as answer;
ghost use Rattle.tree_rules.specs.AskedQueries.{block_query};
ghost use Rattle.tree_rules.specs.KeptAnswers.{IsAbsent};
ghost use Rattle.tree_rules.specs.Queries.{answer_of, block_size, lent_items, Fits};
ghost use Rattle.inline_sizes.specs.Calls.{Found, Keeps};
ghost use Rattle.placing.specs.Spread.{IsSpread};
ghost use Rattle.walker.specs.Walkers.{kept, nodes, seen, SameParts, Stands};
ghost use Rattle.block_sizes.specs.Keeping.{GrowsBy, KeepsSize};
ghost use Rattle.block_sizes.specs.Wides.{farthest};

use crate::queries::{block_query, kept_block, kept_rows};
use crate::walk::{block_anew, rows_anew};
use layout_cache::{Given, Query};
use lunit::{Area, Item, Lu, NoMemory, Sequence, Steps};
use node_arena::{Arena, NodeId};
use outside::{Ruler, Tally};
use placing::{Above, Node, seat};
use std::alloc::Global;
use std::sync::ledger::Ledger;
use walker::{Seat, Walker};

/// The block size of a node under this context, of which it keeps none for this question.
fn size_under<R: Ruler, L: Ledger>(
    walk: &mut Walker<R, L>,
    id: NodeId,
    query: Query,
    reps: &[(u32, u32)],
    above: Above,
    area: Area,
) -> Result<Lu, NoMemory>
    requires stands { Stands walk.old }
    requires live { IsLive (nodes walk.old) id }
    requires query { query ≡ block_query false reps.now query.inline }
    requires fits { Fits (sight_at (nodes walk.old) id) query }
    requires absent { IsAbsent query (kept walk.old id) }
    requires seat { IsSeat (sight_at (nodes walk.old) id) reps.now above area }
    requires spread { IsSpread (farthest (level_at (nodes walk.old) id)) query.inline }
    ensures value { IfOk result
        (λ size. block_size size ≡ answer_of (sight_at (nodes walk.old) id) query) }
    ensures stands { Stands walk.new }
    ensures parts { SameParts walk.old walk.new }
    ensures walked { OnOk result
        (Walked id query (seen R.log walk.old) (seen R.log walk.new)) }
    ensures stopped { OnErr result
        (Stopped id query (seen R.log walk.old) (seen R.log walk.new)) }
    ensures own { IfOk result
        (λ size. GrowsBy (kept walk.old id) query size (kept walk.new id)) }
{
    let seat = Seat {
        reps,
        above: &above,
        area,
    };
    block_anew(walk, id, query, &seat)
}

/// The items that a subgrid in the rows lends under this context, of which it keeps none for this question.
fn rows_under<R: Ruler, L: Ledger>(
    walk: &mut Walker<R, L>,
    id: NodeId,
    query: Query,
    reps: &[(u32, u32)],
    above: Above,
    area: Area,
) -> Result<Sequence<Item>, NoMemory>
    requires stands { Stands walk.old }
    requires live { IsLive (nodes walk.old) id }
    requires query { query ≡ block_query true reps.now query.inline }
    requires fits { Fits (sight_at (nodes walk.old) id) query }
    requires absent { IsAbsent query (kept walk.old id) }
    requires seat { IsSeat (sight_at (nodes walk.old) id) reps.now above area }
    requires spread { IsSpread (farthest (level_at (nodes walk.old) id)) query.inline }
    ensures value { IfOk result
        (λ items. lent_items items ≡ answer_of (sight_at (nodes walk.old) id) query) }
    ensures stands { Stands walk.new }
    ensures parts { SameParts walk.old walk.new }
    ensures walked { OnOk result
        (Walked id query (seen R.log walk.old) (seen R.log walk.new)) }
    ensures stopped { OnErr result
        (Stopped id query (seen R.log walk.old) (seen R.log walk.new)) }
    ensures own { IfOk result
        (λ items. kept walk.new id ≡
        kept_with (kept walk.old id) ((query, answer.Lent items) ∷ [])) }
{
    let seat = Seat {
        reps,
        above: &above,
        area,
    };
    rows_anew(walk, id, query, &seat)
}

/// The block size of the content of a node that is no subgrid in the rows, in units of 1/64 px, once it is given this in the inline
/// axis: a content size, or, for a subgrid in the columns, the tracks that it spans (CSS Grid 2, 5.2; for flex containers and
/// leaves own rules). `reps` holds the counts of the automatic repeats of the grids above it that it sees, columns first, the
/// topmost grid first. The edges of given tracks differ from 0 and from each other by at most 2^54, and 2^33 more for each level.
///
/// A kept answer is taken as it is, and then nothing changes; else the answer is found, and kept last. `NoMemory` where memory is
/// wanting; what was kept by then is right.
pub fn block_of<R: Ruler, L: Ledger>(
    alloc: Global,
    tree: &mut Arena<Node>,
    id: NodeId,
    reps: &[(u32, u32)],
    width: &Given,
    ruler: &mut R,
    tally: &mut Tally,
    passes: &mut Steps<L>,
) -> Result<Lu, NoMemory>
    requires live { IsLive (bare tree.old.tree) id }
    requires right { IsRight tree.old.tree }
    requires readable { AreReadable (bare tree.old.tree) }
    requires fits { Fits (sight_at (bare tree.old.tree) id) (block_query false reps.now width.now) }
    requires spread { IsSpread (farthest (level_at (bare tree.old.tree) id)) width.now }
    ensures value { IfOk result
        (λ size. block_size size ≡
        answer_of (sight_at (bare tree.old.tree) id) (block_query false reps.now width.now)) }
    ensures right { IsRight tree.new.tree }
    ensures walked { OnOk result
        (Walked id (block_query false reps.now width.now)
        (state tree.old tally.old passes.old (R.log ruler.old))
        (state tree.new tally.new passes.new (R.log ruler.new))) }
    ensures stopped { OnErr result
        (Stopped id (block_query false reps.now width.now)
        (state tree.old tally.old passes.old (R.log ruler.old))
        (state tree.new tally.new passes.new (R.log ruler.new))) }
    ensures found { Found id (block_query false reps.now width.now)
        (state tree.old tally.old passes.old (R.log ruler.old))
        (state tree.new tally.new passes.new (R.log ruler.new)) }
    ensures own { IfOk result
        (λ size. KeepsSize id (block_query false reps.now width.now)
        (state tree.old tally.old passes.old (R.log ruler.old))
        (state tree.new tally.new passes.new (R.log ruler.new)) size) }
{
    if let Some(size) = kept_block(tree, id, reps, width) {
        return Ok(size);
    }
    let query = block_query(alloc, false, reps, width)?;
    let (above, area) = seat(alloc, tree, id, reps)?;
    let mut walk = Walker {
        alloc,
        tree,
        ruler,
        tally,
        passes,
    };
    size_under(&mut walk, id, query, reps, above, area)
}

/// The items that a subgrid in the rows lends to the grid that sizes them, spans in that grid's lines and lengths in units of
/// 1/64 px, once it is given this in the inline axis: one that stands for itself, then those of its children in order-modified
/// document order (CSS Grid 2, section 9). `reps` and `width` are as in `block_of`.
///
/// A kept answer is taken as it is, and then nothing changes; else the answer is found, and kept last. `NoMemory` where memory is
/// wanting; what was kept by then is right.
pub fn lend_rows<R: Ruler, L: Ledger>(
    alloc: Global,
    tree: &mut Arena<Node>,
    id: NodeId,
    reps: &[(u32, u32)],
    width: &Given,
    ruler: &mut R,
    tally: &mut Tally,
    passes: &mut Steps<L>,
) -> Result<Sequence<Item>, NoMemory>
    requires live { IsLive (bare tree.old.tree) id }
    requires right { IsRight tree.old.tree }
    requires readable { AreReadable (bare tree.old.tree) }
    requires fits { Fits (sight_at (bare tree.old.tree) id) (block_query true reps.now width.now) }
    requires spread { IsSpread (farthest (level_at (bare tree.old.tree) id)) width.now }
    ensures value { IfOk result
        (λ items. lent_items items ≡
        answer_of (sight_at (bare tree.old.tree) id) (block_query true reps.now width.now)) }
    ensures right { IsRight tree.new.tree }
    ensures walked { OnOk result
        (Walked id (block_query true reps.now width.now)
        (state tree.old tally.old passes.old (R.log ruler.old))
        (state tree.new tally.new passes.new (R.log ruler.new))) }
    ensures stopped { OnErr result
        (Stopped id (block_query true reps.now width.now)
        (state tree.old tally.old passes.old (R.log ruler.old))
        (state tree.new tally.new passes.new (R.log ruler.new))) }
    ensures found { Found id (block_query true reps.now width.now)
        (state tree.old tally.old passes.old (R.log ruler.old))
        (state tree.new tally.new passes.new (R.log ruler.new)) }
    ensures own { IfOk result
        (λ items. Keeps id (block_query true reps.now width.now)
        (state tree.old tally.old passes.old (R.log ruler.old))
        (state tree.new tally.new passes.new (R.log ruler.new)) (answer.Lent items)) }
{
    if let Some(items) = kept_rows(tree, id, reps, width) {
        return Sequence::from_slice(alloc, items.as_slice());
    }
    let query = block_query(alloc, true, reps, width)?;
    let (above, area) = seat(alloc, tree, id, reps)?;
    let mut walk = Walker {
        alloc,
        tree,
        ruler,
        tally,
        passes,
    };
    rows_under(&mut walk, id, query, reps, above, area)
}
