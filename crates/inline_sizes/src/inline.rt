//! The answers of any node of a tree in the inline axis, from the top of its chain.

ghost use Rattle.std.specs.Prelude.{◌≡◌, ◌∷◌, [], true, false, IfOk, OnOk, OnErr};
ghost use Rattle.placing.specs.Kept.{IsRight};
ghost use Rattle.placing.specs.Nodes.{bare, sight_at, IsLive};
ghost use Rattle.placing.specs.Ranges.{AreReadable};
ghost use Rattle.placing.specs.Seats.{IsSeat};
ghost use Rattle.placing.specs.Walks.{kept_with, state, Stopped, Walked};
ghost use Rattle.placing.specs.declared.node.Answer.TheVariants as answer;
ghost use Rattle.tree_rules.specs.AskedQueries.{inline_query};
ghost use Rattle.tree_rules.specs.KeptAnswers.{IsAbsent};
ghost use Rattle.tree_rules.specs.Queries.{answer_of, inline_sizes, lent_items, Fits};
ghost use Rattle.walker.specs.Walkers.{kept, nodes, seen, SameParts, Stands};
ghost use Rattle.inline_sizes.specs.Calls.{Found, Keeps};

use crate::queries::{inline_query, kept_items, kept_sizes};
use crate::walk::{columns_anew, sizes_anew};
use layout_cache::Query;
use lunit::{Area, Item, Lu, NoMemory, Sequence, Steps};
use node_arena::{Arena, NodeId};
use outside::{Ruler, Tally};
use placing::{Above, Node, seat};
use std::alloc::Global;
use std::sync::ledger::Ledger;
use walker::{Seat, Walker};

/// The two inline sizes of a node under this context, of which it keeps none for this question.
fn sizes_under<R: Ruler, L: Ledger>(
    walk: &mut Walker<R, L>,
    id: NodeId,
    query: Query,
    reps: &[(u32, u32)],
    above: Above,
    area: Area,
) -> Result<(Lu, Lu), NoMemory>
    requires stands { Stands walk.old }
    requires live { IsLive (nodes walk.old) id }
    requires query { query ≡ inline_query false reps.now }
    requires fits { Fits (sight_at (nodes walk.old) id) query }
    requires absent { IsAbsent query (kept walk.old id) }
    requires seat { IsSeat (sight_at (nodes walk.old) id) reps.now above area }
    ensures value { IfOk result
        (λ sizes. inline_sizes sizes ≡ answer_of (sight_at (nodes walk.old) id) query) }
    ensures stands { Stands walk.new }
    ensures parts { SameParts walk.old walk.new }
    ensures walked { OnOk result
        (Walked id query (seen R.log walk.old) (seen R.log walk.new)) }
    ensures stopped { OnErr result
        (Stopped id query (seen R.log walk.old) (seen R.log walk.new)) }
    ensures own { IfOk result
        (λ sizes. kept walk.new id ≡
        kept_with (kept walk.old id) ((query, answer.Sizes sizes.0 sizes.1) ∷ [])) }
{
    let seat = Seat {
        reps,
        above: &above,
        area,
    };
    sizes_anew(walk, id, query, &seat)
}

/// The items that a subgrid in the columns lends under this context, of which it keeps none for this question.
fn columns_under<R: Ruler, L: Ledger>(
    walk: &mut Walker<R, L>,
    id: NodeId,
    query: Query,
    reps: &[(u32, u32)],
    above: Above,
    area: Area,
) -> Result<Sequence<Item>, NoMemory>
    requires stands { Stands walk.old }
    requires live { IsLive (nodes walk.old) id }
    requires query { query ≡ inline_query true reps.now }
    requires fits { Fits (sight_at (nodes walk.old) id) query }
    requires absent { IsAbsent query (kept walk.old id) }
    requires seat { IsSeat (sight_at (nodes walk.old) id) reps.now above area }
    ensures value { IfOk result
        (λ items. lent_items items ≡ answer_of (sight_at (nodes walk.old) id) query) }
    ensures stands { Stands walk.new }
    ensures parts { SameParts walk.old walk.new }
    ensures walked { OnOk result
        (Walked id query (seen R.log walk.old) (seen R.log walk.new)) }
    ensures stopped { OnErr result
        (Stopped id query (seen R.log walk.old) (seen R.log walk.new)) }
    ensures own { IfOk result
        (λ items. kept walk.new id ≡
        kept_with (kept walk.old id) ((query, answer.Lent items) ∷ [])) }
{
    let seat = Seat {
        reps,
        above: &above,
        area,
    };
    columns_anew(walk, id, query, &seat)
}

/// The two intrinsic inline sizes of the content of a node that is no subgrid in the columns, min-content first, in units of
/// 1/64 px (CSS Sizing 3, section 5; CSS Grid 2, 5.2; for flex containers and leaves own rules). `reps` holds the counts of the
/// automatic repeats of the grids above it that it sees, columns first, the topmost grid first.
///
/// A kept answer is taken as it is, and then nothing changes; else the answer is found, and kept last. `NoMemory` where memory is
/// wanting; what was kept by then is right.
pub fn inline_of<R: Ruler, L: Ledger>(
    alloc: Global,
    tree: &mut Arena<Node>,
    id: NodeId,
    reps: &[(u32, u32)],
    ruler: &mut R,
    tally: &mut Tally,
    passes: &mut Steps<L>,
) -> Result<(Lu, Lu), NoMemory>
    requires live { IsLive (bare tree.old.tree) id }
    requires right { IsRight tree.old.tree }
    requires readable { AreReadable (bare tree.old.tree) }
    requires fits { Fits (sight_at (bare tree.old.tree) id) (inline_query false reps.now) }
    ensures value { IfOk result
        (λ sizes. inline_sizes sizes ≡
        answer_of (sight_at (bare tree.old.tree) id) (inline_query false reps.now)) }
    ensures right { IsRight tree.new.tree }
    ensures walked { OnOk result
        (Walked id (inline_query false reps.now)
        (state tree.old tally.old passes.old (R.log ruler.old))
        (state tree.new tally.new passes.new (R.log ruler.new))) }
    ensures stopped { OnErr result
        (Stopped id (inline_query false reps.now)
        (state tree.old tally.old passes.old (R.log ruler.old))
        (state tree.new tally.new passes.new (R.log ruler.new))) }
    ensures found { Found id (inline_query false reps.now)
        (state tree.old tally.old passes.old (R.log ruler.old))
        (state tree.new tally.new passes.new (R.log ruler.new)) }
    ensures own { IfOk result
        (λ sizes. Keeps id (inline_query false reps.now)
        (state tree.old tally.old passes.old (R.log ruler.old))
        (state tree.new tally.new passes.new (R.log ruler.new)) (answer.Sizes sizes.0 sizes.1)) }
{
    if let Some(sizes) = kept_sizes(tree, id, reps) {
        return Ok(sizes);
    }
    let query = inline_query(alloc, false, reps)?;
    let (above, area) = seat(alloc, tree, id, reps)?;
    let mut walk = Walker {
        alloc,
        tree,
        ruler,
        tally,
        passes,
    };
    sizes_under(&mut walk, id, query, reps, above, area)
}

/// The items that a subgrid in the columns lends to the grid that sizes them, spans in that grid's lines and lengths in units of
/// 1/64 px: one that stands for itself, then those of its children in order-modified document order (CSS Grid 2, section 9). `reps`
/// is as in `inline_of`.
///
/// A kept answer is taken as it is, and then nothing changes; else the answer is found, and kept last. `NoMemory` where memory is
/// wanting; what was kept by then is right.
pub fn lend_columns<R: Ruler, L: Ledger>(
    alloc: Global,
    tree: &mut Arena<Node>,
    id: NodeId,
    reps: &[(u32, u32)],
    ruler: &mut R,
    tally: &mut Tally,
    passes: &mut Steps<L>,
) -> Result<Sequence<Item>, NoMemory>
    requires live { IsLive (bare tree.old.tree) id }
    requires right { IsRight tree.old.tree }
    requires readable { AreReadable (bare tree.old.tree) }
    requires fits { Fits (sight_at (bare tree.old.tree) id) (inline_query true reps.now) }
    ensures value { IfOk result
        (λ items. lent_items items ≡
        answer_of (sight_at (bare tree.old.tree) id) (inline_query true reps.now)) }
    ensures right { IsRight tree.new.tree }
    ensures walked { OnOk result
        (Walked id (inline_query true reps.now)
        (state tree.old tally.old passes.old (R.log ruler.old))
        (state tree.new tally.new passes.new (R.log ruler.new))) }
    ensures stopped { OnErr result
        (Stopped id (inline_query true reps.now)
        (state tree.old tally.old passes.old (R.log ruler.old))
        (state tree.new tally.new passes.new (R.log ruler.new))) }
    ensures found { Found id (inline_query true reps.now)
        (state tree.old tally.old passes.old (R.log ruler.old))
        (state tree.new tally.new passes.new (R.log ruler.new)) }
    ensures own { IfOk result
        (λ items. Keeps id (inline_query true reps.now)
        (state tree.old tally.old passes.old (R.log ruler.old))
        (state tree.new tally.new passes.new (R.log ruler.new)) (answer.Lent items)) }
{
    if let Some(items) = kept_items(tree, id, reps) {
        return Sequence::from_slice(alloc, items.as_slice());
    }
    let query = inline_query(alloc, true, reps)?;
    let (above, area) = seat(alloc, tree, id, reps)?;
    let mut walk = Walker {
        alloc,
        tree,
        ruler,
        tally,
        passes,
    };
    columns_under(&mut walk, id, query, reps, above, area)
}
