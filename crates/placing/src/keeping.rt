//! Kept answers: one is looked up before anything else is computed, and what is computed is put last.

ghost use Rattle.std.specs.Prelude.{◌≡◌, ◌∷◌, ◌++◌, ◌≤◌, ◌||◌, [], ℕ, false, true, take, IfOk, IfSome, IfNone, OnOk, OnErr, List, Option};
ghost use Rattle.std.specs.Option.{option_copied};
ghost use Rattle.layout_cache.specs.Kept.{answer_to};
ghost use Rattle.outside.specs.declared.event.Event.{Event};
ghost use Rattle.outside.specs.declared.event.Event.TheVariants.{Measured};
ghost use Rattle.outside.specs.declared.event.Width.TheVariants.{Narrowest, Widest, At};
ghost use Rattle.part_rules.specs.WordLines.{height_at, narrowest, widest};
ghost use Rattle.tree_rules.specs.declared.query.Ask.TheVariants as ask;
ghost use Rattle.tree_rules.specs.Frames.{given_size};
ghost use Rattle.tree_rules.specs.KeptAnswers.{IsAbsent};
ghost use Rattle.tree_rules.specs.Queries.{answer_of, block_size, inline_sizes, Fits};
ghost use Rattle.tree_rules.specs.declared.query.Query.{Query};
ghost use Rattle.word_leaf.specs.Leaves.{IsMeasurable};
ghost use Rattle.layout_cache.specs.Reach.{all_forgot};
ghost use Rattle.outside.specs.declared.tally.Tally.{Tally as Told};
ghost use Rattle.placing.specs.Bases.{base_with, HoldsPlaces};
ghost use Rattle.placing.specs.Kept.{bases_at, kept_at, plain_answer, IsRight, IsOfNode};
ghost use Rattle.placing.specs.declared.node.Answer.TheVariants as answer;
ghost use Rattle.placing.specs.Keeping.{is_subgrid_node, without_past_of, Counts, CountsSome, is_leaf, Keeps};
ghost use Rattle.placing.specs.Nodes.{bare, children_at, sight_at, IsLive};
ghost use Rattle.placing.specs.Ranges.{IsKind};
ghost use Rattle.placing.specs.Walks.{events_at, kept_with, state, State, Stopped, Walked, WalkedBelow};

use crate::node::{Answer, Node};
use crate::shared::SharedBase;
use crate::sight::node_at;
use layout_cache::{Ask, Given, Linked, Query};
use lunit::{Lu, Name, NoMemory};
use node_arena::{Arena, NodeId};
use outside::{Ruler, Tally, Width};
use part_rules::Content;
use tree_rules::NodeKind;

/// The answer that a node keeps for a question; `None` exactly where it keeps none.
pub fn find<'a>(tree: &'a Arena<Node>, id: NodeId, query: &Query) -> Option<&'a Answer>
    requires live { IsLive (bare tree.now.tree) id }
    requires right { IsRight tree.now.tree }
    ensures kept { option_copied result ≡ answer_to query.now (kept_at tree.now.tree id) }
    ensures value { IfSome (option_copied result)
        (λ answer. plain_answer answer ≡ answer_of (sight_at (bare tree.now.tree) id) query.now) }
    ensures children { IfSome (option_copied result)
        (λ answer. IsOfNode (sight_at (bare tree.now.tree) id) (children_at (bare tree.now.tree) id)
        query.now answer) }
    ensures absent { IfNone result (IsAbsent query.now (kept_at tree.now.tree id)) }
    ensures start { (s : State) → s.arena ≡ tree.now → WalkedBelow id query.now 0 s s }
    ensures found { (s : State) → s.arena ≡ tree.now → Walked id query.now s s }
{
    node_at(tree, id).kept.find(query)
}

/// The answer that a node keeps for the question of these parts; `None` exactly where it keeps none. The question itself need not
/// be made.
pub fn find_by<'a>(
    tree: &'a Arena<Node>,
    id: NodeId,
    ask: Ask,
    reps: &[(u32, u32)],
    inline: &Given,
    block: &Given,
) -> Option<&'a Answer>
    requires live { IsLive (bare tree.now.tree) id }
    requires right { IsRight tree.now.tree }
    ensures kept { option_copied result ≡
        answer_to (record { ask = ask; reps = reps.now; inline = inline.now; block = block.now })
        (kept_at tree.now.tree id) }
    ensures value { IfSome (option_copied result)
        (λ answer. plain_answer answer ≡
        answer_of (sight_at (bare tree.now.tree) id)
        (record { ask = ask; reps = reps.now; inline = inline.now; block = block.now })) }
    ensures children { IfSome (option_copied result)
        (λ answer. IsOfNode (sight_at (bare tree.now.tree) id) (children_at (bare tree.now.tree) id)
        (record { ask = ask; reps = reps.now; inline = inline.now; block = block.now }) answer) }
    ensures absent { IfNone result
        (IsAbsent (record { ask = ask; reps = reps.now; inline = inline.now; block = block.now })
        (kept_at tree.now.tree id)) }
    ensures start { (s : State) → s.arena ≡ tree.now →
        WalkedBelow id
        (record { ask = ask; reps = reps.now; inline = inline.now; block = block.now }) 0 s s }
    ensures found { (s : State) → s.arena ≡ tree.now →
        Walked id (record { ask = ask; reps = reps.now; inline = inline.now; block = block.now }) s
        s }
{
    node_at(tree, id).kept.find_by(ask, reps, inline, block)
}

/// Keeps an answer in a node, and nothing else; it tells whether an older one went for it. `NoMemory` where memory is wanting, and
/// nothing has changed then.
fn keep(tree: &mut Arena<Node>, id: NodeId, query: Query, answer: Answer) -> Result<bool, NoMemory>
    requires live { IsLive (bare tree.old.tree) id }
    requires absent { IsAbsent query (kept_at tree.old.tree id) }
    ensures ok { OnOk result (Keeps tree.old tree.new id query answer) }
    ensures all { IfOk result
        (λ gone. gone ≡ false →
        kept_at tree.new.tree id ≡ kept_at tree.old.tree id ++ (query, answer) ∷ []) }
    ensures err { OnErr result (tree.new ≡ tree.old) }
{
    let node = tree.get_mut(id).unwrap();
    let gone = node.kept.put(query, answer)?;
    Ok(gone)
}

/// Keeps the answer of a container to a question of which it keeps none; the oldest of sixteen goes. `NoMemory` where memory is
/// wanting, and nothing has changed then.
pub fn put(
    tree: &mut Arena<Node>,
    id: NodeId,
    query: Query,
    answer: Answer,
    tally: &mut Tally,
) -> Result<(), NoMemory>
    requires live { IsLive (bare tree.old.tree) id }
    requires right { IsRight tree.old.tree }
    requires absent { IsAbsent query (kept_at tree.old.tree id) }
    requires fits { Fits (sight_at (bare tree.old.tree) id) query }
    requires value { plain_answer answer ≡ answer_of (sight_at (bare tree.old.tree) id) query }
    requires children { IsOfNode (sight_at (bare tree.old.tree) id)
        (children_at (bare tree.old.tree) id) query answer }
    requires quiet { events_at (bare tree.old.tree) id query ≡ [] }
    ensures right { IsRight tree.new.tree }
    ensures same { bare tree.new.tree ≡ bare tree.old.tree }
    ensures own { OnOk result
        (kept_at tree.new.tree id ≡ kept_with (kept_at tree.old.tree id) ((query, answer) ∷ [])) }
    ensures joins { OnOk result
        ((old : State) (more passes : ℕ) (log : Option (List Event)) → more ≤ 4 →
        WalkedBelow id query more old (state tree.old tally.old passes log) →
        Walked id query old (state tree.new tally.new passes log)) }
    ensures err { OnErr result ((tree.new ≡ tree.old) × (tally.new ≡ tally.old)) }
    ensures stopped { OnErr result
        ((old : State) (more passes : ℕ) (log : Option (List Event)) →
        WalkedBelow id query more old (state tree.old tally.old passes log) →
        Stopped id query old (state tree.new tally.new passes log)) }
{
    let gone = keep(tree, id, query, answer)?;
    tally.count_added(gone);
    Ok(())
}

/// The context with the areas of its children that a node keeps by these counts, its own last; `None` exactly where it keeps none.
pub fn find_base<'a>(
    tree: &'a Arena<Node>,
    id: NodeId,
    pairs: &[(u32, u32)],
) -> Option<&'a SharedBase>
    requires live { IsLive (bare tree.now.tree) id }
    requires right { IsRight tree.now.tree }
    ensures kept { option_copied result ≡ base_with pairs.now (bases_at tree.now.tree id) }
    ensures pairs { IfSome (option_copied result) (λ base. base.pairs ≡ pairs.now) }
    ensures holds { IfSome (option_copied result)
        (HoldsPlaces (sight_at (bare tree.now.tree) id) (children_at (bare tree.now.tree) id)) }
{
    node_at(tree, id).past.bases.find(pairs)
}

/// Keeps a context with the areas of its children in a node, and nothing else, so that a walk begins after it as before it. Takes no
/// memory.
pub fn keep_base(tree: &mut Arena<Node>, id: NodeId, base: SharedBase)
    requires live { IsLive (bare tree.old.tree) id }
    requires right { IsRight tree.old.tree }
    requires holds { HoldsPlaces (sight_at (bare tree.old.tree) id)
        (children_at (bare tree.old.tree) id) base }
    ensures right { IsRight tree.new.tree }
    ensures same { bare tree.new.tree ≡ bare tree.old.tree }
    ensures kept { (m : NodeId) → kept_at tree.new.tree m ≡ kept_at tree.old.tree m }
    ensures own { bases_at tree.new.tree id ≡ base ∷ take 1 (bases_at tree.old.tree id) }
    ensures below { (q : Query) (more passes : ℕ) (tally : Told) (log : Option (List Event))
        (new : State) → WalkedBelow id q more (state tree.new tally passes log) new →
        WalkedBelow id q more (state tree.old tally passes log) new }
    ensures stopped { (q : Query) (passes : ℕ) (tally : Told) (log : Option (List Event))
        (new : State) → Stopped id q (state tree.new tally passes log) new →
        Stopped id q (state tree.old tally passes log) new }
{
    let node = tree.get_mut(id).unwrap();
    node.past.bases.put(base);
}

/// Whether what a node keeps longer than its answers is to go: that of any node, or only that of one that may be a subgrid.
fn goes(node: &Node, all: bool) -> bool
    ensures { result ≡ (all || is_subgrid_node node.now) }
{
    all || node.is_subgrid()
}

#[tactic(auto, using(crate::proofs::KeptTrees::goes_or_stays))]
/// Lets go what a node keeps longer than its answers, where it is to go.
fn forget_past(node: &mut Node, all: bool)
    ensures { node.new ≡ without_past_of all node.old }
{
    if !goes(node, all) {
        return;
    }
    node.past.clear();
}

#[tactic(auto, using(layout_cache::proofs::Forgets::forget_laws))]
/// Lets go what these nodes keep longer than their answers, of `all` of them or of those alone that may be subgrids, and of no
/// others. It passes over a number that names no node. Takes no memory.
pub fn drop_past(tree: &mut Arena<Node>, ids: &[NodeId], all: bool)
    ensures { tree.new ≡ all_forgot (without_past_of all) ids.now tree.old }
{
    for id in ids {
        let Some(node) = tree.get_mut(*id) else {
            continue;
        };
        forget_past(node, all);
    }
}

/// Asks for both widths of a leaf.
fn measure_widths<R: Ruler>(
    name: &Name,
    content: &Content,
    ruler: &mut R,
    tally: &mut Tally,
) -> Result<(Lu, Lu), NoMemory>
    requires { IsMeasurable content.now }
    ensures value { IfOk result (λ sizes. sizes ≡ (narrowest content.now, widest content.now)) }
    ensures counts { OnOk result
        (Counts tally.old tally.new (R.log ruler.old) (R.log ruler.new)
        (Measured name.now Narrowest ∷ Measured name.now Widest ∷ [])) }
    ensures some { OnErr result
        (CountsSome tally.old tally.new (R.log ruler.old) (R.log ruler.new)
        (Measured name.now Narrowest ∷ Measured name.now Widest ∷ [])) }
{
    let low = ruler.measure(name, content, Width::Narrowest)?;
    tally.count_measured();
    let high = ruler.measure(name, content, Width::Widest)?;
    tally.count_measured();
    Ok((low, high))
}

/// Asks for the height of a leaf at a width.
fn measure_height<R: Ruler>(
    name: &Name,
    content: &Content,
    width: Lu,
    ruler: &mut R,
    tally: &mut Tally,
) -> Result<Lu, NoMemory>
    requires { IsMeasurable content.now }
    ensures value { IfOk result (λ height. height ≡ height_at content.now width) }
    ensures counts { OnOk result
        (Counts tally.old tally.new (R.log ruler.old) (R.log ruler.new)
        (Measured name.now (At width) ∷ [])) }
    ensures some { OnErr result
        (CountsSome tally.old tally.new (R.log ruler.old) (R.log ruler.new)
        (Measured name.now (At width) ∷ [])) }
{
    let height = ruler.measure(name, content, Width::At(width))?;
    tally.count_measured();
    Ok(height)
}

/// The inline size that a question gives; 0 where it gives none.
fn size_of(given: &Given) -> Lu
    ensures { result ≡ given_size given.now }
{
    match given {
        Given::Size(size) => *size,
        _ => Lu::default(),
    }
}

/// The answer of a leaf to the question for its two inline sizes, of which it keeps none: the ruler is asked for both, and the
/// answer is kept. `NoMemory` is that of the ruler, or memory is wanting to keep the answer; nothing is kept then.
pub fn leaf_sizes<R: Ruler>(
    tree: &mut Arena<Node>,
    id: NodeId,
    query: Query,
    ruler: &mut R,
    tally: &mut Tally,
) -> Result<(Lu, Lu), NoMemory>
    requires live { IsLive (bare tree.old.tree) id }
    requires right { IsRight tree.old.tree }
    requires leaf { is_leaf (sight_at (bare tree.old.tree) id).label.kind ≡ true }
    requires measurable { IsKind (sight_at (bare tree.old.tree) id).label.kind }
    requires ask { query.ask ≡ ask.Inline }
    requires absent { IsAbsent query (kept_at tree.old.tree id) }
    requires fits { Fits (sight_at (bare tree.old.tree) id) query }
    ensures value { IfOk result
        (λ sizes. inline_sizes sizes ≡ answer_of (sight_at (bare tree.old.tree) id) query) }
    ensures right { IsRight tree.new.tree }
    ensures walked { OnOk result
        ((passes : ℕ) →
        Walked id query (state tree.old tally.old passes (R.log ruler.old))
        (state tree.new tally.new passes (R.log ruler.new))) }
    ensures stopped { OnErr result
        ((passes : ℕ) →
        Stopped id query (state tree.old tally.old passes (R.log ruler.old))
        (state tree.new tally.new passes (R.log ruler.new))) }
    ensures own { IfOk result
        (λ sizes. kept_at tree.new.tree id ≡
        kept_with (kept_at tree.old.tree id) ((query, answer.Sizes sizes.0 sizes.1) ∷ [])) }
{
    let leaf = node_at(tree, id);
    let NodeKind::Leaf(content) = &leaf.kind else {
        return Err(NoMemory);
    };
    let (low, high) = measure_widths(&leaf.name, content.content(), ruler, tally)?;
    let gone = keep(tree, id, query, Answer::Sizes(low, high))?;
    tally.count_added(gone);
    Ok((low, high))
}

/// The answer of a leaf to the question for its block size, of which it keeps none: the ruler is asked for the height at the
/// width that the question gives, and the answer is kept. `NoMemory` is that of the ruler, or memory is wanting to keep the
/// answer; nothing is kept then.
pub fn leaf_height<R: Ruler>(
    tree: &mut Arena<Node>,
    id: NodeId,
    query: Query,
    ruler: &mut R,
    tally: &mut Tally,
) -> Result<Lu, NoMemory>
    requires live { IsLive (bare tree.old.tree) id }
    requires right { IsRight tree.old.tree }
    requires leaf { is_leaf (sight_at (bare tree.old.tree) id).label.kind ≡ true }
    requires measurable { IsKind (sight_at (bare tree.old.tree) id).label.kind }
    requires ask { query.ask ≡ ask.Block }
    requires absent { IsAbsent query (kept_at tree.old.tree id) }
    requires fits { Fits (sight_at (bare tree.old.tree) id) query }
    ensures value { IfOk result
        (λ size. block_size size ≡ answer_of (sight_at (bare tree.old.tree) id) query) }
    ensures right { IsRight tree.new.tree }
    ensures walked { OnOk result
        ((passes : ℕ) →
        Walked id query (state tree.old tally.old passes (R.log ruler.old))
        (state tree.new tally.new passes (R.log ruler.new))) }
    ensures stopped { OnErr result
        ((passes : ℕ) →
        Stopped id query (state tree.old tally.old passes (R.log ruler.old))
        (state tree.new tally.new passes (R.log ruler.new))) }
    ensures own { IfOk result
        (λ size. kept_at tree.new.tree id ≡
        kept_with (kept_at tree.old.tree id) ((query, answer.Block size) ∷ [])) }
{
    let leaf = node_at(tree, id);
    let NodeKind::Leaf(content) = &leaf.kind else {
        return Err(NoMemory);
    };
    let height = measure_height(
        &leaf.name,
        content.content(),
        size_of(&query.inline),
        ruler,
        tally,
    )?;
    let gone = keep(tree, id, query, Answer::Block(height))?;
    tally.count_added(gone);
    Ok(height)
}
