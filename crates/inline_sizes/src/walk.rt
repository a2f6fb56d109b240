//! The walk down the tree for the inline axis: a kept answer is taken as it is, else the children are asked, and what is found is
//! kept last, once.

ghost use Rattle.std.specs.Prelude.{◌≡◌, ◌<◌, ◌∷◌, [], true, false, IfOk, OnOk, OnErr};
ghost use Rattle.placing.specs.Keeping.{is_leaf};
ghost use Rattle.placing.specs.Members.{place_of, Tells};
ghost use Rattle.placing.specs.Nodes.{bare, kid_at, sight_at, IsLive};
ghost use Rattle.placing.specs.Told.{last_turn, ArePastMembers, AreToldMembers};
ghost use Rattle.placing.specs.Walks.{kept_with, Stopped, Walked, WalkedBelow};
ghost use Rattle.placing.specs.declared.node.Answer.TheVariants as answer;
ghost use Rattle.tree_rules.specs.AskedQueries.{inline_query};
ghost use Rattle.tree_rules.specs.KeptAnswers.{IsAbsent};
ghost use Rattle.tree_rules.specs.Chains.{has_chain};
ghost use Rattle.tree_rules.specs.Queries.{answer_of, inline_sizes, lent_items, Fits};
ghost use Rattle.tree_rules.specs.declared.kind.NodeKind.TheVariants as kind;
ghost use Rattle.tree_rules.specs.declared.query.Ask.TheVariants as ask;
ghost use Rattle.tree_rules.specs.declared.query.Query.{Query};
ghost use Rattle.walker.specs.Walkers.{kept, nodes, seen, HasSeat, SameParts, Stands};
ghost use Rattle.inline_sizes.specs.Calls.{Found, Keeps};
ghost use Rattle.inline_sizes.specs.Flexes.{AreMembers};

use crate::answered::{columns_answered, flex_answered, grid_answered};
use crate::asking::{ask_alone, grid_in};
use crate::children::is_grid;
use crate::columns::with_room;
use crate::flex::{FlexParts, keep_members, known, last_members, members_of, told_by};
use crate::queries::{inline_query, kept_items, kept_sizes};
use layout_cache::Query;
use lunit::{Area, Item, Lu, NoMemory, Sequence, Span};
use node_arena::{Arena, NodeId};
use outside::Ruler;
use placing::{Node, NodeKind, ToldMember, node_at, parent, root};
use std::sync::ledger::Ledger;
use walker::{Seat, Walker};

/// No area.
const NO_AREA: Area = Area {
    columns: Span { start: 0, end: 0 },
    rows: Span { start: 0, end: 0 },
};

/// Whether a node is a leaf.
fn is_leaf(kind: &NodeKind) -> bool
    ensures { result ≡ is_leaf kind.now }
{
    match kind {
        NodeKind::Leaf(_) => true,
        _ => false,
    }
}

/// A node that sees a grid above it is a grid itself. The function does next to nothing: the law is its contract.
fn subgrids_are_grids(tree: &Arena<Node>, id: NodeId)
    requires { IsLive (bare tree.now.tree) id }
    ensures { has_chain (sight_at (bare tree.now.tree) id).chain ≡ true →
        (sight_at (bare tree.now.tree) id).label.kind ≡ kind.Grid }
{
    parent(tree, id);
}

// ---- the children of a flex container

#[cycle(walk)]
/// A child of a flex container with what it tells for the inline sizes of the container: it is asked where that is not known.
fn tell_member<R: Ruler, L: Ledger>(
    walk: &mut Walker<R, L>,
    last: &ToldMember,
) -> Result<ToldMember, NoMemory>
    requires stands { Stands walk.old }
    requires live { IsLive (nodes walk.old) last.now.member.child }
    requires alone { (sight_at (nodes walk.old) last.now.member.child).chain ≡ [] }
    requires last { last.now.turn < last_turn →
        Tells (kid_at (nodes walk.old) last.now.member.child) last.now }
    ensures place { IfOk result (λ told. place_of told ≡ place_of last.now) }
    ensures told { IfOk result (Tells (kid_at (nodes walk.old) last.now.member.child)) }
    ensures stands { Stands walk.new }
    ensures parts { SameParts walk.old walk.new }
    ensures walked { OnOk result
        (Walked last.now.member.child (inline_query false [])
        (seen R.log walk.old) (seen R.log walk.new)) }
    ensures stopped { OnErr result
        (Stopped last.now.member.child (inline_query false [])
        (seen R.log walk.old) (seen R.log walk.new)) }
{
    if let Some(told) = known(last) {
        return Ok(told);
    }
    let inline = ask_alone(walk, last.member.child, NO_AREA)?;
    Ok(told_by(walk.tree, last, inline))
}

#[cycle(walk)]
/// The children of a flex container with what they tell for its inline sizes: those are asked of which it is not known.
fn tell_members<R: Ruler, L: Ledger>(
    walk: &mut Walker<R, L>,
    id: NodeId,
    past: &[ToldMember],
) -> Result<Sequence<ToldMember>, NoMemory>
    requires stands { Stands walk.old }
    requires flex { (sight_at (nodes walk.old) id).label.kind ≡ kind.Flex }
    requires past { ArePastMembers (nodes walk.old) id past.now }
    ensures told { IfOk result (AreToldMembers (nodes walk.old) id) }
    ensures stands { Stands walk.new }
    ensures parts { SameParts walk.old walk.new }
    ensures below { OnOk result
        ((q : Query) →
        WalkedBelow id q 0 (seen R.log walk.old) (seen R.log walk.new)) }
    ensures stopped { OnErr result
        ((q : Query) →
        Stopped id q (seen R.log walk.old) (seen R.log walk.new)) }
{
    root(walk.tree);
    let mut told = with_room(walk.alloc, past.len())?;
    for last in past {
        let child = tell_member(walk, last)?;
        told.push(child)?;
    }
    Ok(told)
}

#[cycle(walk)]
/// The children of a flex container with what they tell for its inline sizes: a child that told it before is asked only where its answers
/// went since. Nothing is kept.
fn told_members<R: Ruler, L: Ledger>(
    walk: &mut Walker<R, L>,
    id: NodeId,
) -> Result<Sequence<ToldMember>, NoMemory>
    requires stands { Stands walk.old }
    requires live { IsLive (nodes walk.old) id }
    requires flex { (sight_at (nodes walk.old) id).label.kind ≡ kind.Flex }
    ensures told { IfOk result (AreToldMembers (nodes walk.old) id) }
    ensures stands { Stands walk.new }
    ensures parts { SameParts walk.old walk.new }
    ensures below { OnOk result
        ((q : Query) →
        WalkedBelow id q 0 (seen R.log walk.old) (seen R.log walk.new)) }
    ensures stopped { OnErr result
        ((q : Query) →
        Stopped id q (seen R.log walk.old) (seen R.log walk.new)) }
{
    let past = last_members(walk, id)?;
    let told = tell_members(walk, id, past.as_slice())?;
    Ok(told)
}

/// A flex container with what its children answer for the inline axis: a child that told it before is asked only where its answers went
/// since. What the children tell is kept, where they are many; no answer is kept for the container itself. `NoMemory` where memory is
/// wanting.
pub fn flex_in<R: Ruler, L: Ledger>(
    walk: &mut Walker<R, L>,
    id: NodeId,
) -> Result<FlexParts, NoMemory>
    requires stands { Stands walk.old }
    requires live { IsLive (nodes walk.old) id }
    requires flex { (sight_at (nodes walk.old) id).label.kind ≡ kind.Flex }
    ensures value { IfOk result (λ parts. AreMembers (nodes walk.old) id parts.members) }
    ensures stands { Stands walk.new }
    ensures parts { SameParts walk.old walk.new }
    ensures below { OnOk result
        ((q : Query) →
        WalkedBelow id q 0 (seen R.log walk.old) (seen R.log walk.new)) }
    ensures stopped { OnErr result
        ((q : Query) →
        Stopped id q (seen R.log walk.old) (seen R.log walk.new)) }
{
    root(walk.tree);
    let told = told_members(walk, id)?;
    let members = members_of(walk.alloc, told.as_slice())?;
    keep_members(walk, id, told.as_slice())?;
    Ok(FlexParts { members })
}

// ---- the two inline sizes of a node

#[cycle(walk)]
/// The two inline sizes of a grid that keeps none for this question: a child that told it before is asked only where its answers went
/// since.
fn grid_anew<R: Ruler, L: Ledger>(
    walk: &mut Walker<R, L>,
    id: NodeId,
    query: Query,
    seat: &Seat,
) -> Result<(Lu, Lu), NoMemory>
    requires stands { Stands walk.old }
    requires live { IsLive (nodes walk.old) id }
    requires grid { (sight_at (nodes walk.old) id).label.kind ≡ kind.Grid }
    requires query { query ≡ inline_query false seat.now.reps.now }
    requires fits { Fits (sight_at (nodes walk.old) id) query }
    requires absent { IsAbsent query (kept walk.old id) }
    requires seat { HasSeat (sight_at (nodes walk.old) id) seat.now }
    ensures value { IfOk result
        (λ sizes. inline_sizes sizes ≡ answer_of (sight_at (nodes walk.old) id) query) }
    ensures stands { Stands walk.new }
    ensures parts { SameParts walk.old walk.new }
    ensures walked { OnOk result
        (Walked id query (seen R.log walk.old) (seen R.log walk.new)) }
    ensures stopped { OnErr result
        (Stopped id query (seen R.log walk.old) (seen R.log walk.new)) }
    ensures own { IfOk result
        (λ sizes. kept walk.new id ≡
        kept_with (kept walk.old id) ((query, answer.Sizes sizes.0 sizes.1) ∷ [])) }
{
    let past = walk.take_columns(id)?;
    let told = grid_in(walk, id, seat, &query.inline, past)?;
    grid_answered(walk, id, query, told)
}

#[cycle(walk)]
/// The two inline sizes of a flex container that keeps none for this question: a child that told it before is asked only where its
/// answers went since.
fn flex_anew<R: Ruler, L: Ledger>(
    walk: &mut Walker<R, L>,
    id: NodeId,
    query: Query,
) -> Result<(Lu, Lu), NoMemory>
    requires stands { Stands walk.old }
    requires live { IsLive (nodes walk.old) id }
    requires flex { (sight_at (nodes walk.old) id).label.kind ≡ kind.Flex }
    requires ask { query.ask ≡ ask.Inline }
    requires fits { Fits (sight_at (nodes walk.old) id) query }
    requires absent { IsAbsent query (kept walk.old id) }
    ensures value { IfOk result
        (λ sizes. inline_sizes sizes ≡ answer_of (sight_at (nodes walk.old) id) query) }
    ensures stands { Stands walk.new }
    ensures parts { SameParts walk.old walk.new }
    ensures walked { OnOk result
        (Walked id query (seen R.log walk.old) (seen R.log walk.new)) }
    ensures stopped { OnErr result
        (Stopped id query (seen R.log walk.old) (seen R.log walk.new)) }
    ensures own { IfOk result
        (λ sizes. kept walk.new id ≡
        kept_with (kept walk.old id) ((query, answer.Sizes sizes.0 sizes.1) ∷ [])) }
{
    let told = told_members(walk, id)?;
    flex_answered(walk, id, query, told.as_slice())
}

#[cycle(walk)]
/// The two inline sizes of a node in its seat that keeps none for this question: they are found, and kept last.
pub(crate) fn sizes_anew<R: Ruler, L: Ledger>(
    walk: &mut Walker<R, L>,
    id: NodeId,
    query: Query,
    seat: &Seat,
) -> Result<(Lu, Lu), NoMemory>
    requires stands { Stands walk.old }
    requires live { IsLive (nodes walk.old) id }
    requires query { query ≡ inline_query false seat.now.reps.now }
    requires fits { Fits (sight_at (nodes walk.old) id) query }
    requires absent { IsAbsent query (kept walk.old id) }
    requires seat { HasSeat (sight_at (nodes walk.old) id) seat.now }
    ensures value { IfOk result
        (λ sizes. inline_sizes sizes ≡ answer_of (sight_at (nodes walk.old) id) query) }
    ensures stands { Stands walk.new }
    ensures parts { SameParts walk.old walk.new }
    ensures walked { OnOk result
        (Walked id query (seen R.log walk.old) (seen R.log walk.new)) }
    ensures stopped { OnErr result
        (Stopped id query (seen R.log walk.old) (seen R.log walk.new)) }
    ensures own { IfOk result
        (λ sizes. kept walk.new id ≡
        kept_with (kept walk.old id) ((query, answer.Sizes sizes.0 sizes.1) ∷ [])) }
{
    let kind = &node_at(walk.tree, id).kind;
    if is_grid(kind) {
        return grid_anew(walk, id, query, seat);
    }
    if is_leaf(kind) {
        return walk.leaf_sizes(id, query);
    }
    flex_anew(walk, id, query)
}

#[cycle(walk)]
/// The two inline sizes of a node in its seat, by the counts of the repetitions above it.
pub fn inline_at<R: Ruler, L: Ledger>(
    walk: &mut Walker<R, L>,
    id: NodeId,
    seat: &Seat,
) -> Result<(Lu, Lu), NoMemory>
    requires stands { Stands walk.old }
    requires live { IsLive (nodes walk.old) id }
    requires fits { Fits (sight_at (nodes walk.old) id) (inline_query false seat.now.reps.now) }
    requires seat { HasSeat (sight_at (nodes walk.old) id) seat.now }
    ensures value { IfOk result
        (λ sizes. inline_sizes sizes ≡
        answer_of (sight_at (nodes walk.old) id) (inline_query false seat.now.reps.now)) }
    ensures stands { Stands walk.new }
    ensures parts { SameParts walk.old walk.new }
    ensures walked { OnOk result
        (Walked id (inline_query false seat.now.reps.now)
        (seen R.log walk.old) (seen R.log walk.new)) }
    ensures stopped { OnErr result
        (Stopped id (inline_query false seat.now.reps.now)
        (seen R.log walk.old) (seen R.log walk.new)) }
    ensures found { Found id (inline_query false seat.now.reps.now)
        (seen R.log walk.old) (seen R.log walk.new) }
    ensures own { IfOk result
        (λ sizes. Keeps id (inline_query false seat.now.reps.now)
        (seen R.log walk.old) (seen R.log walk.new) (answer.Sizes sizes.0 sizes.1)) }
{
    if let Some(sizes) = kept_sizes(walk.tree, id, seat.reps) {
        return Ok(sizes);
    }
    let query = inline_query(walk.alloc, false, seat.reps)?;
    sizes_anew(walk, id, query, seat)
}

// ---- the items that a subgrid lends along the columns

#[cycle(walk)]
/// The items that a subgrid in the columns lends in its seat, of which it keeps none for this question: they are found, and kept
/// last.
pub(crate) fn columns_anew<R: Ruler, L: Ledger>(
    walk: &mut Walker<R, L>,
    id: NodeId,
    query: Query,
    seat: &Seat,
) -> Result<Sequence<Item>, NoMemory>
    requires stands { Stands walk.old }
    requires live { IsLive (nodes walk.old) id }
    requires query { query ≡ inline_query true seat.now.reps.now }
    requires fits { Fits (sight_at (nodes walk.old) id) query }
    requires absent { IsAbsent query (kept walk.old id) }
    requires seat { HasSeat (sight_at (nodes walk.old) id) seat.now }
    ensures value { IfOk result
        (λ items. lent_items items ≡ answer_of (sight_at (nodes walk.old) id) query) }
    ensures stands { Stands walk.new }
    ensures parts { SameParts walk.old walk.new }
    ensures walked { OnOk result
        (Walked id query (seen R.log walk.old) (seen R.log walk.new)) }
    ensures stopped { OnErr result
        (Stopped id query (seen R.log walk.old) (seen R.log walk.new)) }
    ensures own { IfOk result
        (λ items. kept walk.new id ≡
        kept_with (kept walk.old id) ((query, answer.Lent items) ∷ [])) }
{
    subgrids_are_grids(walk.tree, id);
    let told = grid_in(walk, id, seat, &query.inline, None)?;
    columns_answered(walk, id, query, &told.parts)
}

#[cycle(walk)]
/// The items that a subgrid in the columns lends in its seat, by the counts of the repetitions above it.
pub fn lend_columns_at<R: Ruler, L: Ledger>(
    walk: &mut Walker<R, L>,
    id: NodeId,
    seat: &Seat,
) -> Result<Sequence<Item>, NoMemory>
    requires stands { Stands walk.old }
    requires live { IsLive (nodes walk.old) id }
    requires fits { Fits (sight_at (nodes walk.old) id) (inline_query true seat.now.reps.now) }
    requires seat { HasSeat (sight_at (nodes walk.old) id) seat.now }
    ensures value { IfOk result
        (λ items. lent_items items ≡
        answer_of (sight_at (nodes walk.old) id) (inline_query true seat.now.reps.now)) }
    ensures stands { Stands walk.new }
    ensures parts { SameParts walk.old walk.new }
    ensures walked { OnOk result
        (Walked id (inline_query true seat.now.reps.now)
        (seen R.log walk.old) (seen R.log walk.new)) }
    ensures stopped { OnErr result
        (Stopped id (inline_query true seat.now.reps.now)
        (seen R.log walk.old) (seen R.log walk.new)) }
    ensures found { Found id (inline_query true seat.now.reps.now)
        (seen R.log walk.old) (seen R.log walk.new) }
    ensures own { IfOk result
        (λ items. Keeps id (inline_query true seat.now.reps.now)
        (seen R.log walk.old) (seen R.log walk.new) (answer.Lent items)) }
{
    if let Some(items) = kept_items(walk.tree, id, seat.reps) {
        return Sequence::from_slice(walk.alloc, items.as_slice());
    }
    let query = inline_query(walk.alloc, true, seat.reps)?;
    columns_anew(walk, id, query, seat)
}
