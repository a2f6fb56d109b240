//! The questions of the inline axis, and their answers where a node keeps them.

ghost use Rattle.std.specs.Prelude.{◌≡◌, ◌≤◌, Some, None, false, true, IfOk, IfSome, IfNone, MatchOption};
ghost use Rattle.layout_cache.specs.Kept.{answer_to};
ghost use Rattle.placing.specs.Kept.{kept_at, IsRight};
ghost use Rattle.placing.specs.Nodes.{bare, sight_at, IsLive};
ghost use Rattle.placing.specs.Walks.{State, Walked, WalkedBelow};
ghost use Rattle.placing.specs.declared.node.Answer.TheVariants as answer;
ghost use Rattle.tree_rules.specs.AskedQueries.{inline_query};
ghost use Rattle.tree_rules.specs.KeptAnswers.{IsAbsent};
ghost use Rattle.tree_rules.specs.Queries.{answer_of, inline_sizes, lent_items};

use layout_cache::{Ask, Counts, Given, Query};
use lunit::{Item, Lu, NoMemory, Sequence};
use node_arena::{Arena, NodeId};
use placing::{Answer, Node, find_by};
use std::alloc::Global;

/// The question for the inline sizes of a node that sees these counts above it, or, where it is a subgrid in the columns, for the
/// items that it lends. Counts are copied; where there are none it takes no memory.
pub fn inline_query(alloc: Global, shared: bool, reps: &[(u32, u32)]) -> Result<Query, NoMemory>
    ensures { IfOk result (λ query. query ≡ inline_query shared reps.now) }
{
    Ok(Query {
        ask: if shared {
            Ask::LendColumns
        } else {
            Ask::Inline
        },
        reps: Counts::from_slice(alloc, reps)?,
        inline: Given::None,
        block: Given::None,
    })
}

/// The two inline sizes that a node that sees these counts above it keeps; `None` exactly where it keeps none. It takes no memory.
pub(crate) fn kept_sizes(tree: &Arena<Node>, id: NodeId, reps: &[(u32, u32)]) -> Option<(Lu, Lu)>
    requires live { IsLive (bare tree.now.tree) id }
    requires right { IsRight tree.now.tree }
    ensures kept { MatchOption result
        (answer_to (inline_query false reps.now) (kept_at tree.now.tree id) ≡ None)
        (λ sizes. answer_to (inline_query false reps.now) (kept_at tree.now.tree id) ≡
        Some (answer.Sizes sizes.0 sizes.1)) }
    ensures value { IfSome result
        (λ sizes. inline_sizes sizes ≡
        answer_of (sight_at (bare tree.now.tree) id) (inline_query false reps.now)) }
    ensures absent { IfNone result
        (IsAbsent (inline_query false reps.now) (kept_at tree.now.tree id)) }
    ensures start { (s : State) → s.arena ≡ tree.now →
        WalkedBelow id (inline_query false reps.now) 0 s s }
    ensures found { (s : State) → s.arena ≡ tree.now → Walked id (inline_query false reps.now) s s }
{
    match find_by(tree, id, Ask::Inline, reps, &Given::None, &Given::None) {
        Some(Answer::Sizes(low, high)) => Some((*low, *high)),
        _ => None,
    }
}

/// The items that a node that sees these counts above it keeps as those it lends along the columns; `None` exactly where it keeps
/// none. It takes no memory.
pub(crate) fn kept_items<'a>(
    tree: &'a Arena<Node>,
    id: NodeId,
    reps: &[(u32, u32)],
) -> Option<&'a Sequence<Item>>
    requires live { IsLive (bare tree.now.tree) id }
    requires right { IsRight tree.now.tree }
    ensures kept { MatchOption result
        (answer_to (inline_query true reps.now) (kept_at tree.now.tree id) ≡ None)
        (λ items. answer_to (inline_query true reps.now) (kept_at tree.now.tree id) ≡
        Some (answer.Lent items.now)) }
    ensures value { IfSome result
        (λ items. lent_items items.now ≡
        answer_of (sight_at (bare tree.now.tree) id) (inline_query true reps.now)) }
    ensures absent { IfNone result
        (IsAbsent (inline_query true reps.now) (kept_at tree.now.tree id)) }
    ensures start { (s : State) → s.arena ≡ tree.now →
        WalkedBelow id (inline_query true reps.now) 0 s s }
    ensures found { (s : State) → s.arena ≡ tree.now → Walked id (inline_query true reps.now) s s }
{
    match find_by(tree, id, Ask::LendColumns, reps, &Given::None, &Given::None) {
        Some(Answer::Lent(items)) => Some(items),
        _ => None,
    }
}
