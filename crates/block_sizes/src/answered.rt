//! What a container answers in the block axis once its children have answered: it is sized, what they told is kept, where they are
//! many, and the answer is kept last, once. A walk that came to the children comes to its end.

ghost use Rattle.std.specs.Prelude.{◌≡◌, ◌∷◌, [], true, false, IfOk, OnOk, OnErr};
ghost use Rattle.placing.specs.Nodes.{sight_at, IsLive};
ghost use Rattle.placing.specs.Walks.{kept_with, State, Stopped, Walked, WalkedBelow};
ghost use Rattle.placing.specs.declared.node.Answer.TheVariants as answer;
ghost use Rattle.tree_rules.specs.AskedQueries.{block_query};
ghost use Rattle.tree_rules.specs.Frames.{given_size};
ghost use Rattle.tree_rules.specs.KeptAnswers.{IsAbsent};
ghost use Rattle.tree_rules.specs.Queries.{answer_of, block_size, lent_items, Fits};
ghost use Rattle.tree_rules.specs.declared.kind.NodeKind.TheVariants as kind;
ghost use Rattle.tree_rules.specs.declared.query.Ask.TheVariants as ask;
ghost use Rattle.walker.specs.Walkers.{kept, nodes, seen, SameParts, Stands};
ghost use Rattle.block_sizes.specs.Keeping.{GrowsBy};
ghost use Rattle.block_sizes.specs.Settling.{row_items_seen, AreKnown, IsColumn, IsRow};
ghost use Rattle.block_sizes.specs.Told.{IsToldWide};

use crate::again::{ToldWide, keep_told};
use crate::flex::{column_size, keep_column, keep_row, row_size, size_of};
use crate::row_sizes::laid_rows;
use crate::wide::lent_of;
use layout_cache::Query;
use lunit::{Item, Lu, NoMemory, Sequence};
use node_arena::NodeId;
use outside::Ruler;
use part_rules::FlexItem;
use placing::{
    Answer, ColumnParts, RowParts, SharedColumnParts, SharedRowParts, SharedWide, ToldAlong, root,
};
use std::sync::ledger::Ledger;
use walker::Walker;

/// The block size of the content of a grid in its columns by what its children told there, in units of 1/64 px (CSS Grid 2, 5.2). The
/// grid in its columns is kept with it. `NoMemory` where memory is wanting.
pub(crate) fn grid_answered<R: Ruler, L: Ledger>(
    walk: &mut Walker<R, L>,
    id: NodeId,
    query: Query,
    reps: &[(u32, u32)],
    told: ToldWide,
) -> Result<Lu, NoMemory>
    requires stands { Stands walk.old }
    requires live { IsLive (nodes walk.old) id }
    requires kind { (sight_at (nodes walk.old) id).label.kind ≡ kind.Grid }
    requires query { query ≡ block_query false reps.now query.inline }
    requires fits { Fits (sight_at (nodes walk.old) id) query }
    requires absent { IsAbsent query (kept walk.old id) }
    requires told { IsToldWide (nodes walk.old) id reps.now query.inline told }
    ensures value { IfOk result
        (λ size. block_size size ≡ answer_of (sight_at (nodes walk.old) id) query) }
    ensures stands { Stands walk.new }
    ensures parts { SameParts walk.old walk.new }
    ensures walked { OnOk result
        ((old : State) → WalkedBelow id query 1 old (seen R.log walk.old) →
        Walked id query old (seen R.log walk.new)) }
    ensures stopped { OnErr result
        ((old : State) → WalkedBelow id query 1 old (seen R.log walk.old) →
        Stopped id query old (seen R.log walk.new)) }
    ensures own { IfOk result
        (λ size. GrowsBy (kept walk.old id) query size (kept walk.new id)) }
{
    let ToldWide {
        wide,
        column_ends,
        row_ends,
    } = told;
    let width = &query.inline;
    let (size, laid) = laid_rows(walk.alloc, walk.tree, id, reps, width, wide, walk.passes)?;
    let held = SharedWide::new(walk.alloc, laid)?;
    keep_told(walk, id, &held, column_ends, row_ends)?;
    walk.put(id, query, Answer::Laid(size, held))?;
    Ok(size)
}

/// The block size of the content of a column by what its children told, in units of 1/64 px (own rule). The column is kept with it.
/// `past` is what they told before. `NoMemory` where memory is wanting.
pub(crate) fn column_answered<R: Ruler, L: Ledger>(
    walk: &mut Walker<R, L>,
    id: NodeId,
    query: Query,
    parts: ColumnParts,
    past: &[ToldAlong],
) -> Result<Lu, NoMemory>
    requires stands { Stands walk.old }
    requires live { IsLive (nodes walk.old) id }
    requires kind { (sight_at (nodes walk.old) id).label.kind ≡ kind.Flex }
    requires direction { (sight_at (nodes walk.old) id).label.content.column ≡ true }
    requires ask { query.ask ≡ ask.Block }
    requires fits { Fits (sight_at (nodes walk.old) id) query }
    requires absent { IsAbsent query (kept walk.old id) }
    requires column { IsColumn (nodes walk.old) id (given_size query.inline) parts }
    requires past { AreKnown (nodes walk.old) id (given_size query.inline) past.now }
    ensures value { IfOk result
        (λ size. block_size size ≡ answer_of (sight_at (nodes walk.old) id) query) }
    ensures stands { Stands walk.new }
    ensures parts { SameParts walk.old walk.new }
    ensures walked { OnOk result
        ((old : State) → WalkedBelow id query 0 old (seen R.log walk.old) →
        Walked id query old (seen R.log walk.new)) }
    ensures stopped { OnErr result
        ((old : State) → WalkedBelow id query 0 old (seen R.log walk.old) →
        Stopped id query old (seen R.log walk.new)) }
    ensures own { IfOk result
        (λ size. GrowsBy (kept walk.old id) query size (kept walk.new id)) }
{
    root(walk.tree);
    let width = size_of(&query.inline);
    let (size, items) = column_size(walk.alloc, walk.tree, id, width, &parts, past)?;
    keep_column(walk, id, width, &parts, &items)?;
    let held = SharedColumnParts::new(walk.alloc, parts)?;
    walk.put(id, query, Answer::Column(size, held))?;
    Ok(size)
}

/// The block size of the content of a row by what its children told, in units of 1/64 px (own rule). The row is kept with it. `items`
/// are its children along the inline axis. `NoMemory` where memory is wanting.
pub(crate) fn row_answered<R: Ruler, L: Ledger>(
    walk: &mut Walker<R, L>,
    id: NodeId,
    query: Query,
    parts: RowParts,
    items: &[FlexItem],
) -> Result<Lu, NoMemory>
    requires stands { Stands walk.old }
    requires live { IsLive (nodes walk.old) id }
    requires kind { (sight_at (nodes walk.old) id).label.kind ≡ kind.Flex }
    requires direction { (sight_at (nodes walk.old) id).label.content.column ≡ false }
    requires ask { query.ask ≡ ask.Block }
    requires fits { Fits (sight_at (nodes walk.old) id) query }
    requires absent { IsAbsent query (kept walk.old id) }
    requires row { IsRow (nodes walk.old) id (given_size query.inline) parts }
    requires items { items.now ≡ row_items_seen (nodes walk.old) id (given_size query.inline) }
    ensures value { IfOk result
        (λ size. block_size size ≡ answer_of (sight_at (nodes walk.old) id) query) }
    ensures stands { Stands walk.new }
    ensures parts { SameParts walk.old walk.new }
    ensures walked { OnOk result
        ((old : State) → WalkedBelow id query 1 old (seen R.log walk.old) →
        Walked id query old (seen R.log walk.new)) }
    ensures stopped { OnErr result
        ((old : State) → WalkedBelow id query 1 old (seen R.log walk.old) →
        Stopped id query old (seen R.log walk.new)) }
    ensures own { IfOk result
        (λ size. GrowsBy (kept walk.old id) query size (kept walk.new id)) }
{
    root(walk.tree);
    let width = size_of(&query.inline);
    let size = row_size(walk.alloc, walk.tree, id, width, &parts)?;
    keep_row(walk, id, width, &parts, items)?;
    let held = SharedRowParts::new(walk.alloc, parts)?;
    walk.put(id, query, Answer::Row(size, held))?;
    Ok(size)
}

/// The items that a subgrid in the rows lends by what its children told (CSS Grid 2, section 9). `NoMemory` where memory is wanting.
pub(crate) fn rows_answered<R: Ruler, L: Ledger>(
    walk: &mut Walker<R, L>,
    id: NodeId,
    query: Query,
    reps: &[(u32, u32)],
    told: ToldWide,
) -> Result<Sequence<Item>, NoMemory>
    requires stands { Stands walk.old }
    requires live { IsLive (nodes walk.old) id }
    requires kind { (sight_at (nodes walk.old) id).label.kind ≡ kind.Grid }
    requires query { query ≡ block_query true reps.now query.inline }
    requires fits { Fits (sight_at (nodes walk.old) id) query }
    requires absent { IsAbsent query (kept walk.old id) }
    requires told { IsToldWide (nodes walk.old) id reps.now query.inline told }
    ensures value { IfOk result
        (λ items. lent_items items ≡ answer_of (sight_at (nodes walk.old) id) query) }
    ensures stands { Stands walk.new }
    ensures parts { SameParts walk.old walk.new }
    ensures walked { OnOk result
        ((old : State) → WalkedBelow id query 1 old (seen R.log walk.old) →
        Walked id query old (seen R.log walk.new)) }
    ensures stopped { OnErr result
        ((old : State) → WalkedBelow id query 1 old (seen R.log walk.old) →
        Stopped id query old (seen R.log walk.new)) }
    ensures own { IfOk result
        (λ items. kept walk.new id ≡
        kept_with (kept walk.old id) ((query, answer.Lent items) ∷ [])) }
{
    let ToldWide { wide, .. } = told;
    let items = lent_of(walk.alloc, walk.tree, id, reps, &query.inline, wide)?;
    let lent = Sequence::from_slice(walk.alloc, items.as_slice())?;
    walk.put(id, query, Answer::Lent(items))?;
    Ok(lent)
}
