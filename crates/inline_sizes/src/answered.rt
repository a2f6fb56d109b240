//! What a container answers in the inline axis once its children have answered. What they told is kept, where they are many, and the
//! answer is kept last, once: a walk that came to the children comes to its end.

ghost use Rattle.std.specs.Prelude.{◌≡◌, ◌∷◌, [], IfOk, OnOk, OnErr};
ghost use Rattle.placing.specs.Nodes.{kid_at, sight_at, IsLive};
ghost use Rattle.placing.specs.Told.{AreColumns, AreToldMembers, Each};
ghost use Rattle.placing.specs.Walks.{kept_with, State, Stopped, Walked, WalkedBelow};
ghost use Rattle.placing.specs.declared.node.Answer.TheVariants as answer;
ghost use Rattle.tree_rules.specs.KeptAnswers.{IsAbsent};
ghost use Rattle.tree_rules.specs.Queries.{answer_of, inline_sizes, lent_items, Fits};
ghost use Rattle.tree_rules.specs.declared.kind.NodeKind.TheVariants as kind;
ghost use Rattle.tree_rules.specs.declared.query.Ask.TheVariants as ask;
ghost use Rattle.tree_rules.specs.declared.query.Given.TheVariants as given;
ghost use Rattle.walker.specs.Walkers.{kept, nodes, seen, SameParts, Stands};
ghost use Rattle.inline_sizes.specs.Grids.{IsGrid};

use crate::children::keep_told;
use crate::columns::{grid_inline, grid_lends};
use crate::flex::{flex_inline, keep_members};
use crate::laws::items_lie_in_their_tracks;
use layout_cache::Query;
use lunit::{Item, Lu, NoMemory, Sequence};
use node_arena::NodeId;
use outside::Ruler;
use placing::{Answer, GridParts, ToldColumns, ToldMember};
use std::sync::ledger::Ledger;
use walker::Walker;

/// The two inline sizes of a grid by what its children told for its columns, min-content first (CSS Grid 2, 5.2). `NoMemory` where
/// memory is wanting.
pub(crate) fn grid_answered<R: Ruler, L: Ledger>(
    walk: &mut Walker<R, L>,
    id: NodeId,
    query: Query,
    told: ToldColumns,
) -> Result<(Lu, Lu), NoMemory>
    requires stands { Stands walk.old }
    requires live { IsLive (nodes walk.old) id }
    requires kind { (sight_at (nodes walk.old) id).label.kind ≡ kind.Grid }
    requires ask { query.ask ≡ ask.Inline }
    requires fits { Fits (sight_at (nodes walk.old) id) query }
    requires absent { IsAbsent query (kept walk.old id) }
    requires grid { IsGrid (nodes walk.old) id query.reps given.None told.parts }
    requires columns { AreColumns (sight_at (nodes walk.old) id) (kid_at (nodes walk.old)) Each
        told }
    ensures value { IfOk result
        (λ sizes. inline_sizes sizes ≡ answer_of (sight_at (nodes walk.old) id) query) }
    ensures stands { Stands walk.new }
    ensures parts { SameParts walk.old walk.new }
    ensures walked { OnOk result
        ((old : State) → WalkedBelow id query 0 old (seen R.log walk.old) →
        Walked id query old (seen R.log walk.new)) }
    ensures stopped { OnErr result
        ((old : State) → WalkedBelow id query 0 old (seen R.log walk.old) →
        Stopped id query old (seen R.log walk.new)) }
    ensures own { IfOk result
        (λ sizes. kept walk.new id ≡
        kept_with (kept walk.old id) ((query, answer.Sizes sizes.0 sizes.1) ∷ [])) }
{
    let (low, high) = grid_inline(walk.alloc, walk.tree, id, &told.parts, walk.passes)?;
    keep_told(walk, id, told)?;
    walk.put(id, query, Answer::Sizes(low, high))?;
    Ok((low, high))
}

/// The two inline sizes of a flex container by what its children told for them, min-content first (own rule). `NoMemory` where memory
/// is wanting.
pub(crate) fn flex_answered<R: Ruler, L: Ledger>(
    walk: &mut Walker<R, L>,
    id: NodeId,
    query: Query,
    told: &[ToldMember],
) -> Result<(Lu, Lu), NoMemory>
    requires stands { Stands walk.old }
    requires live { IsLive (nodes walk.old) id }
    requires kind { (sight_at (nodes walk.old) id).label.kind ≡ kind.Flex }
    requires ask { query.ask ≡ ask.Inline }
    requires fits { Fits (sight_at (nodes walk.old) id) query }
    requires absent { IsAbsent query (kept walk.old id) }
    requires told { AreToldMembers (nodes walk.old) id told.now }
    ensures value { IfOk result
        (λ sizes. inline_sizes sizes ≡ answer_of (sight_at (nodes walk.old) id) query) }
    ensures stands { Stands walk.new }
    ensures parts { SameParts walk.old walk.new }
    ensures walked { OnOk result
        ((old : State) → WalkedBelow id query 0 old (seen R.log walk.old) →
        Walked id query old (seen R.log walk.new)) }
    ensures stopped { OnErr result
        ((old : State) → WalkedBelow id query 0 old (seen R.log walk.old) →
        Stopped id query old (seen R.log walk.new)) }
    ensures own { IfOk result
        (λ sizes. kept walk.new id ≡
        kept_with (kept walk.old id) ((query, answer.Sizes sizes.0 sizes.1) ∷ [])) }
{
    let (low, high) = flex_inline(walk.alloc, walk.tree, id, told)?;
    keep_members(walk, id, told)?;
    walk.put(id, query, Answer::Sizes(low, high))?;
    Ok((low, high))
}

/// The items that a subgrid in the columns lends by what its children told (CSS Grid 2, section 9). `NoMemory` where memory is
/// wanting.
pub(crate) fn columns_answered<R: Ruler, L: Ledger>(
    walk: &mut Walker<R, L>,
    id: NodeId,
    query: Query,
    parts: &GridParts,
) -> Result<Sequence<Item>, NoMemory>
    requires stands { Stands walk.old }
    requires live { IsLive (nodes walk.old) id }
    requires kind { (sight_at (nodes walk.old) id).label.kind ≡ kind.Grid }
    requires ask { query.ask ≡ ask.LendColumns }
    requires fits { Fits (sight_at (nodes walk.old) id) query }
    requires absent { IsAbsent query (kept walk.old id) }
    requires grid { IsGrid (nodes walk.old) id query.reps given.None parts.now }
    ensures value { IfOk result
        (λ items. lent_items items ≡ answer_of (sight_at (nodes walk.old) id) query) }
    ensures stands { Stands walk.new }
    ensures parts { SameParts walk.old walk.new }
    ensures walked { OnOk result
        ((old : State) → WalkedBelow id query 0 old (seen R.log walk.old) →
        Walked id query old (seen R.log walk.new)) }
    ensures stopped { OnErr result
        ((old : State) → WalkedBelow id query 0 old (seen R.log walk.old) →
        Stopped id query old (seen R.log walk.new)) }
    ensures own { IfOk result
        (λ items. kept walk.new id ≡
        kept_with (kept walk.old id) ((query, answer.Lent items) ∷ [])) }
{
    items_lie_in_their_tracks(walk.tree, id);
    let items = grid_lends(walk.alloc, parts)?;
    let lent = Sequence::from_slice(walk.alloc, items.as_slice())?;
    walk.put(id, query, Answer::Lent(items))?;
    Ok(lent)
}
