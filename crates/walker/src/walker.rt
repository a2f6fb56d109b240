//! A walk as one value: its calls keep what always holds between two of them, and say what they change in one state.

use layout_cache::Query;
use lunit::{Lu, NoMemory, Sequence, Steps};
use node_arena::{Arena, NodeId};
use outside::{Ruler, Tally};
use placing::{
    Answer, Node, PastColumns, PastWide, SharedBase, SharedWide, ToldColumns, keep_base,
    keep_columns, keep_wide, leaf_height, leaf_sizes, put, take_columns, take_wide,
};
use std::alloc::Global;
use std::sync::ledger::Ledger;
use style_types::Align;

/// The tree that is walked, the ruler that its leaves are measured by, and what counts: all is borrowed.
#[derive(Drop)]
pub struct Walker<'a, R: Ruler, L: Ledger> {
    /// Where memory is taken.
    pub alloc: Global,
    /// The nodes, with what they keep.
    pub tree: &'a mut Arena<Node>,
    /// What measures the leaves.
    pub ruler: &'a mut R,
    /// How many answers were put, and how often a leaf was measured.
    pub tally: &'a mut Tally,
    /// The passes over the items of a grid or a flex container.
    pub passes: &'a mut Steps<L>,
}

impl<'a, R: Ruler, L: Ledger> Walker<'a, R, L> {
    ghost use Rattle.std.specs.Prelude.{◌≡◌, ◌≤◌, ◌∷◌, [], ℕ, true, IfOk, IfSome, OnOk, OnErr};
    ghost use Rattle.placing.specs.Bases.{HoldsPlaces};
    ghost use Rattle.placing.specs.Keeping.{is_leaf};
    ghost use Rattle.placing.specs.Kept.{plain_answer, IsOfNode};
    ghost use Rattle.placing.specs.Nodes.{children_at, kid_at, sight_at, IsLive};
    ghost use Rattle.placing.specs.Told.{AreColumns, AreRows, AreRowsFor, Each, IsPastColumns, IsPastWide};
    ghost use Rattle.placing.specs.Walks.{events_at, kept_with, State, Stopped, Walked, WalkedBelow};
    ghost use Rattle.placing.specs.declared.node.Answer.TheVariants as answer;
    ghost use Rattle.tree_rules.specs.KeptAnswers.{IsAbsent};
    ghost use Rattle.tree_rules.specs.Queries.{answer_of, block_size, inline_sizes, Fits};
    ghost use Rattle.tree_rules.specs.declared.query.Ask.TheVariants as ask;
    ghost use Rattle.tree_rules.specs.declared.query.Query.{Query};
    ghost use Rattle.walker.specs.Walkers.{kept, nodes, seen, SameParts, Stands};

    /// Keeps the answer of a container to a question of which it keeps none, as `placing::put` does: the question is answered then.
    pub fn put(&mut self, id: NodeId, query: Query, answer: Answer) -> Result<(), NoMemory>
        requires stands { Stands self.old }
        requires live { IsLive (nodes self.old) id }
        requires absent { IsAbsent query (kept self.old id) }
        requires fits { Fits (sight_at (nodes self.old) id) query }
        requires value { plain_answer answer ≡ answer_of (sight_at (nodes self.old) id) query }
        requires children { IsOfNode (sight_at (nodes self.old) id)
            (children_at (nodes self.old) id) query answer }
        requires quiet { events_at (nodes self.old) id query ≡ [] }
        ensures stands { Stands self.new }
        ensures parts { SameParts self.old self.new }
        ensures own { OnOk result
            (kept self.new id ≡ kept_with (kept self.old id) ((query, answer) ∷ [])) }
        ensures joins { OnOk result
            ((old : State) (more : ℕ) → more ≤ 4 →
            WalkedBelow id query more old (seen R.log self.old) →
            Walked id query old (seen R.log self.new)) }
        ensures stopped { OnErr result
            ((old : State) (more : ℕ) → WalkedBelow id query more old (seen R.log self.old) →
            Stopped id query old (seen R.log self.new)) }
    {
        put(self.tree, id, query, answer, self.tally)?;
        Ok(())
    }

    /// The answer of a leaf to the question for its two inline sizes, as `placing::leaf_sizes` finds it.
    pub fn leaf_sizes(&mut self, id: NodeId, query: Query) -> Result<(Lu, Lu), NoMemory>
        requires stands { Stands self.old }
        requires live { IsLive (nodes self.old) id }
        requires leaf { is_leaf (sight_at (nodes self.old) id).label.kind ≡ true }
        requires ask { query.ask ≡ ask.Inline }
        requires absent { IsAbsent query (kept self.old id) }
        requires fits { Fits (sight_at (nodes self.old) id) query }
        ensures value { IfOk result
            (λ sizes. inline_sizes sizes ≡ answer_of (sight_at (nodes self.old) id) query) }
        ensures stands { Stands self.new }
        ensures parts { SameParts self.old self.new }
        ensures walked { OnOk result (Walked id query (seen R.log self.old) (seen R.log self.new)) }
        ensures stopped { OnErr result
            (Stopped id query (seen R.log self.old) (seen R.log self.new)) }
        ensures own { IfOk result
            (λ sizes. kept self.new id ≡
            kept_with (kept self.old id) ((query, answer.Sizes sizes.0 sizes.1) ∷ [])) }
    {
        let sizes = leaf_sizes(self.tree, id, query, self.ruler, self.tally)?;
        Ok(sizes)
    }

    /// Takes what the children of a grid told last for its inline sizes, as `placing::take_columns` does: a walk goes on after it
    /// as before it.
    pub fn take_columns(&mut self, id: NodeId) -> Result<Option<PastColumns>, NoMemory>
        requires stands { Stands self.old }
        requires live { IsLive (nodes self.old) id }
        ensures told { IfOk result (λ past. IfSome past (IsPastColumns (nodes self.old) id)) }
        ensures stands { Stands self.new }
        ensures parts { SameParts self.old self.new }
        ensures bare { nodes self.new ≡ nodes self.old }
        ensures below { (q : Query) (more : ℕ) (new : State) →
            WalkedBelow id q more (seen R.log self.new) new →
            WalkedBelow id q more (seen R.log self.old) new }
        ensures stopped { (q : Query) (new : State) → Stopped id q (seen R.log self.new) new →
            Stopped id q (seen R.log self.old) new }
    {
        let past = take_columns(self.alloc, self.tree, id)?;
        Ok(past)
    }

    /// Keeps what the children of a grid told for its inline sizes, as `placing::keep_columns` does: a walk goes on after it as
    /// before it.
    pub fn keep_columns(&mut self, id: NodeId, told: ToldColumns) -> Result<(), NoMemory>
        requires stands { Stands self.old }
        requires live { IsLive (nodes self.old) id }
        requires places { HoldsPlaces (sight_at (nodes self.old) id)
            (children_at (nodes self.old) id) told.parts.base }
        requires told { AreColumns (sight_at (nodes self.old) id) (kid_at (nodes self.old)) Each
            told }
        ensures stands { Stands self.new }
        ensures parts { SameParts self.old self.new }
        ensures below { (q : Query) (more : ℕ) (old : State) →
            WalkedBelow id q more old (seen R.log self.old) →
            WalkedBelow id q more old (seen R.log self.new) }
    {
        keep_columns(self.alloc, self.tree, id, told)?;
        Ok(())
    }

    /// Keeps a context with the areas of its children in a node, as `placing::keep_base` does: a walk begins after it as before it.
    pub fn keep_base(&mut self, id: NodeId, base: SharedBase)
        requires stands { Stands self.old }
        requires live { IsLive (nodes self.old) id }
        requires holds { HoldsPlaces (sight_at (nodes self.old) id)
            (children_at (nodes self.old) id) base }
        ensures stands { Stands self.new }
        ensures parts { SameParts self.old self.new }
        ensures same { nodes self.new ≡ nodes self.old }
        ensures below { (q : Query) (more : ℕ) (new : State) →
            WalkedBelow id q more (seen R.log self.new) new →
            WalkedBelow id q more (seen R.log self.old) new }
        ensures stopped { (q : Query) (new : State) → Stopped id q (seen R.log self.new) new →
            Stopped id q (seen R.log self.old) new }
    {
        keep_base(self.tree, id, base);
    }

    /// The answer of a leaf to the question for its block size, as `placing::leaf_height` finds it.
    pub fn leaf_height(&mut self, id: NodeId, query: Query) -> Result<Lu, NoMemory>
        requires stands { Stands self.old }
        requires live { IsLive (nodes self.old) id }
        requires leaf { is_leaf (sight_at (nodes self.old) id).label.kind ≡ true }
        requires ask { query.ask ≡ ask.Block }
        requires absent { IsAbsent query (kept self.old id) }
        requires fits { Fits (sight_at (nodes self.old) id) query }
        ensures value { IfOk result
            (λ size. block_size size ≡ answer_of (sight_at (nodes self.old) id) query) }
        ensures stands { Stands self.new }
        ensures parts { SameParts self.old self.new }
        ensures walked { OnOk result (Walked id query (seen R.log self.old) (seen R.log self.new)) }
        ensures stopped { OnErr result
            (Stopped id query (seen R.log self.old) (seen R.log self.new)) }
        ensures own { IfOk result
            (λ size. kept self.new id ≡
            kept_with (kept self.old id) ((query, answer.Block size) ∷ [])) }
    {
        let size = leaf_height(self.tree, id, query, self.ruler, self.tally)?;
        Ok(size)
    }

    /// Takes what the children of a grid told last for its block size, as `placing::take_wide` does: a walk goes on after it as
    /// before it.
    pub fn take_wide(&mut self, id: NodeId) -> Result<Option<PastWide>, NoMemory>
        requires stands { Stands self.old }
        requires live { IsLive (nodes self.old) id }
        ensures told { IfOk result (λ past. IfSome past (IsPastWide (nodes self.old) id)) }
        ensures stands { Stands self.new }
        ensures parts { SameParts self.old self.new }
        ensures bare { nodes self.new ≡ nodes self.old }
        ensures below { (q : Query) (more : ℕ) (new : State) →
            WalkedBelow id q more (seen R.log self.new) new →
            WalkedBelow id q more (seen R.log self.old) new }
        ensures stopped { (q : Query) (new : State) → Stopped id q (seen R.log self.new) new →
            Stopped id q (seen R.log self.old) new }
    {
        let past = take_wide(self.alloc, self.tree, id)?;
        Ok(past)
    }

    /// Keeps what the children of a grid told for its block size, as `placing::keep_wide` does: a walk goes on after it as before
    /// it.
    pub fn keep_wide(
        &mut self,
        id: NodeId,
        wide: SharedWide,
        align: Align,
        column_ends: Sequence<usize>,
        row_ends: Sequence<usize>,
    ) -> Result<(), NoMemory>
        requires stands { Stands self.old }
        requires live { IsLive (nodes self.old) id }
        requires places { HoldsPlaces (sight_at (nodes self.old) id)
            (children_at (nodes self.old) id) wide.parts.base }
        requires columns { AreColumns (sight_at (nodes self.old) id) (kid_at (nodes self.old)) Each
            (record { parts = wide.parts; ends = column_ends }) }
        requires rows { AreRows (sight_at (nodes self.old) id) (kid_at (nodes self.old))
            wide.parts.base Each
            (record {
              columns = wide.columns;
              align = align;
              children = wide.children;
              items = wide.items;
              ends = row_ends;
            }) }
        requires laid { IfSome wide.rows
            (AreRowsFor (sight_at (nodes self.old) id) wide.parts.base wide.items) }
        ensures stands { Stands self.new }
        ensures parts { SameParts self.old self.new }
        ensures below { (q : Query) (more : ℕ) (old : State) →
            WalkedBelow id q more old (seen R.log self.old) →
            WalkedBelow id q more old (seen R.log self.new) }
    {
        keep_wide(
            self.alloc,
            self.tree,
            id,
            wide,
            align,
            column_ends,
            row_ends,
        )?;
        Ok(())
    }
}
