//! The questions of the block axis, and their answers where a node keeps them.

ghost use Rattle.std.specs.Prelude.{◌≡◌, true, false, Some, None, IfOk, IfSome, IfNone, IsSome, MatchOption};
ghost use Rattle.layout_cache.specs.Kept.{answer_to};
ghost use Rattle.placing.specs.Kept.{kept_at, IsRight};
ghost use Rattle.placing.specs.Nodes.{bare, children_at, sight_at, IsLive};
ghost use Rattle.placing.specs.Lined.{HoldsColumn, HoldsRow};
ghost use Rattle.placing.specs.Wides.{HoldsWide};
ghost use Rattle.placing.specs.Walks.{State, Walked, WalkedBelow};
ghost use Rattle.placing.specs.declared.node.Answer.TheVariants as answer;
ghost use Rattle.tree_rules.specs.AskedQueries.{block_query};
ghost use Rattle.tree_rules.specs.Frames.{given_size};
ghost use Rattle.tree_rules.specs.KeptAnswers.{IsAbsent};
ghost use Rattle.tree_rules.specs.Queries.{answer_of, block_size, lent_items};

use layout_cache::{Ask, Counts, Given, Query};
use lunit::{Copied, Item, Lu, NoMemory, Sequence};
use node_arena::{Arena, NodeId};
use placing::{Answer, Node, SharedColumnParts, SharedRowParts, SharedWide, find_by};
use std::alloc::Global;

/// The question for the block size of a node that sees these counts above it and is given this in the inline axis, or, where it is
/// a subgrid in the rows, for the items that it lends. Counts and tracks are copied; where there are none it takes no memory.
pub fn block_query(
    alloc: Global,
    shared: bool,
    reps: &[(u32, u32)],
    width: &Given,
) -> Result<Query, NoMemory>
    ensures { IfOk result (λ query. query ≡ block_query shared reps.now width.now) }
{
    Ok(Query {
        ask: if shared { Ask::LendRows } else { Ask::Block },
        reps: Counts::from_slice(alloc, reps)?,
        inline: width.copy(alloc)?,
        block: Given::None,
    })
}

/// The block size that a node keeps by these counts above it and what it is given in the inline axis; `None` exactly where it keeps
/// none.
pub(crate) fn kept_block(
    tree: &Arena<Node>,
    id: NodeId,
    reps: &[(u32, u32)],
    width: &Given,
) -> Option<Lu>
    requires live { IsLive (bare tree.now.tree) id }
    requires right { IsRight tree.now.tree }
    ensures kept { MatchOption result
        (answer_to (block_query false reps.now width.now) (kept_at tree.now.tree id) ≡ None)
        (λ size. IsSome
        (answer_to (block_query false reps.now width.now) (kept_at tree.now.tree id))) }
    ensures value { IfSome result
        (λ size. block_size size ≡
        answer_of (sight_at (bare tree.now.tree) id) (block_query false reps.now width.now)) }
    ensures absent { IfNone result
        (IsAbsent (block_query false reps.now width.now) (kept_at tree.now.tree id)) }
    ensures start { (s : State) → s.arena ≡ tree.now →
        WalkedBelow id (block_query false reps.now width.now) 0 s s }
    ensures found { (s : State) → s.arena ≡ tree.now →
        Walked id (block_query false reps.now width.now) s s }
{
    let none = Given::None;
    match find_by(tree, id, Ask::Block, reps, width, &none) {
        Some(Answer::Block(size)) => Some(*size),
        Some(Answer::Laid(size, _)) => Some(*size),
        Some(Answer::Row(size, _)) => Some(*size),
        Some(Answer::Column(size, _)) => Some(*size),
        _ => None,
    }
}

/// The grid in its columns that a node keeps with its block size by these counts above it and what it is given in the inline axis.
pub fn kept_wide<'a>(
    tree: &'a Arena<Node>,
    id: NodeId,
    reps: &[(u32, u32)],
    width: &Given,
) -> Option<&'a SharedWide>
    requires live { IsLive (bare tree.now.tree) id }
    requires right { IsRight tree.now.tree }
    ensures { IfSome result
        (λ wide. HoldsWide (sight_at (bare tree.now.tree) id) (children_at (bare tree.now.tree) id)
        reps.now width.now wide.now) }
{
    let none = Given::None;
    match find_by(tree, id, Ask::Block, reps, width, &none) {
        Some(Answer::Laid(_, wide)) => Some(wide),
        _ => None,
    }
}

/// The row that a node keeps with its block size by what it is given in the inline axis.
pub(crate) fn kept_row<'a>(
    tree: &'a Arena<Node>,
    id: NodeId,
    width: &Given,
) -> Option<&'a SharedRowParts>
    requires live { IsLive (bare tree.now.tree) id }
    requires right { IsRight tree.now.tree }
    ensures { IfSome result
        (λ row. HoldsRow (sight_at (bare tree.now.tree) id) (children_at (bare tree.now.tree) id)
        (given_size width.now) row.now) }
{
    let none = Given::None;
    match find_by(tree, id, Ask::Block, &[], width, &none) {
        Some(Answer::Row(_, row)) => Some(row),
        _ => None,
    }
}

/// The column that a node keeps with its block size by what it is given in the inline axis.
pub(crate) fn kept_column<'a>(
    tree: &'a Arena<Node>,
    id: NodeId,
    width: &Given,
) -> Option<&'a SharedColumnParts>
    requires live { IsLive (bare tree.now.tree) id }
    requires right { IsRight tree.now.tree }
    ensures { IfSome result
        (λ column. HoldsColumn (sight_at (bare tree.now.tree) id)
        (children_at (bare tree.now.tree) id) (given_size width.now) column.now) }
{
    let none = Given::None;
    match find_by(tree, id, Ask::Block, &[], width, &none) {
        Some(Answer::Column(_, column)) => Some(column),
        _ => None,
    }
}

#[inline(always)]
/// The items along the rows that a node keeps by these counts above it and what it is given in the inline axis; `None` exactly where
/// it keeps none.
pub(crate) fn kept_rows<'a>(
    tree: &'a Arena<Node>,
    id: NodeId,
    reps: &[(u32, u32)],
    width: &Given,
) -> Option<&'a Sequence<Item>>
    requires live { IsLive (bare tree.now.tree) id }
    requires right { IsRight tree.now.tree }
    ensures kept { MatchOption result
        (answer_to (block_query true reps.now width.now) (kept_at tree.now.tree id) ≡ None)
        (λ items. answer_to (block_query true reps.now width.now) (kept_at tree.now.tree id) ≡
        Some (answer.Lent items.now)) }
    ensures value { IfSome result
        (λ items. lent_items items.now ≡
        answer_of (sight_at (bare tree.now.tree) id) (block_query true reps.now width.now)) }
    ensures absent { IfNone result
        (IsAbsent (block_query true reps.now width.now) (kept_at tree.now.tree id)) }
    ensures start { (s : State) → s.arena ≡ tree.now →
        WalkedBelow id (block_query true reps.now width.now) 0 s s }
    ensures found { (s : State) → s.arena ≡ tree.now →
        Walked id (block_query true reps.now width.now) s s }
{
    let none = Given::None;
    match find_by(tree, id, Ask::LendRows, reps, width, &none) {
        Some(Answer::Lent(items)) => Some(items),
        _ => None,
    }
}
