//! What the children of a flex container told last for its inline sizes and for its block size, taken and kept on a walk.

use crate::walker::Walker;
use lunit::{Lu, NoMemory, Sequence};
use node_arena::NodeId;
use outside::Ruler;
use placing::{
    KeptAlong, ToldAlong, ToldMember, keep_along, keep_members, take_along, take_members,
};
use std::sync::ledger::Ledger;

impl<'a, R: Ruler, L: Ledger> Walker<'a, R, L> {
    ghost use Rattle.std.specs.Prelude.{◌≡◌, ℕ, IfOk, IfSome};
    ghost use Rattle.placing.specs.Nodes.{IsLive};
    ghost use Rattle.placing.specs.Told.{ArePastMembers, AreToldAlong, AreToldMembers, IsPastAlong};
    ghost use Rattle.placing.specs.Walks.{State, Stopped, WalkedBelow};
    ghost use Rattle.tree_rules.specs.declared.query.Query.{Query};
    ghost use Rattle.node_arena.specs.declared.number.NodeId.{NodeId};
    ghost use Rattle.walker.specs.Walkers.{kept, nodes, seen, SameParts, Stands};

    /// Takes what the children of a flex container told last for its inline sizes, as `placing::take_members` does: a walk goes on after
    /// it as before it.
    pub fn take_members(&mut self, id: NodeId) -> Result<Option<Sequence<ToldMember>>, NoMemory>
        requires stands { Stands self.old }
        requires live { IsLive (nodes self.old) id }
        ensures told { IfOk result (λ past. IfSome past (ArePastMembers (nodes self.old) id)) }
        ensures stands { Stands self.new }
        ensures parts { SameParts self.old self.new }
        ensures bare { nodes self.new ≡ nodes self.old }
        ensures below { (q : Query) (more : ℕ) (new : State) →
            WalkedBelow id q more (seen R.log self.new) new →
            WalkedBelow id q more (seen R.log self.old) new }
        ensures stopped { (q : Query) (new : State) → Stopped id q (seen R.log self.new) new →
            Stopped id q (seen R.log self.old) new }
    {
        let past = take_members(self.alloc, self.tree, id)?;
        Ok(past)
    }

    /// Keeps what the children of a flex container tell for its inline sizes, as `placing::keep_members` does: a walk goes on after it as
    /// before it.
    pub fn keep_members(&mut self, id: NodeId, told: &[ToldMember]) -> Result<(), NoMemory>
        requires stands { Stands self.old }
        requires live { IsLive (nodes self.old) id }
        requires told { AreToldMembers (nodes self.old) id told.now }
        ensures stands { Stands self.new }
        ensures parts { SameParts self.old self.new }
        ensures bare { nodes self.new ≡ nodes self.old }
        ensures below { (q : Query) (more : ℕ) (old : State) →
            WalkedBelow id q more old (seen R.log self.old) →
            WalkedBelow id q more old (seen R.log self.new) }
    {
        keep_members(self.alloc, self.tree, id, told)?;
        Ok(())
    }

    /// Takes what the children of a flex container told last for its block size, as `placing::take_along` does: a walk goes on after it as
    /// before it.
    pub fn take_along(&mut self, id: NodeId) -> Result<Option<KeptAlong>, NoMemory>
        requires stands { Stands self.old }
        requires live { IsLive (nodes self.old) id }
        ensures told { IfOk result (λ past. IfSome past (IsPastAlong (nodes self.old) id)) }
        ensures stands { Stands self.new }
        ensures parts { SameParts self.old self.new }
        ensures bare { nodes self.new ≡ nodes self.old }
        ensures kept { (n : NodeId) → kept self.new n ≡ kept self.old n }
        ensures below { (q : Query) (more : ℕ) (new : State) →
            WalkedBelow id q more (seen R.log self.new) new →
            WalkedBelow id q more (seen R.log self.old) new }
        ensures stopped { (q : Query) (new : State) → Stopped id q (seen R.log self.new) new →
            Stopped id q (seen R.log self.old) new }
    {
        let past = take_along(self.alloc, self.tree, id)?;
        Ok(past)
    }

    /// Keeps what the children of a flex container of this inline size tell for its block size, as `placing::keep_along` does: a walk goes
    /// on after it as before it.
    pub fn keep_along(&mut self, id: NodeId, width: Lu, told: &[ToldAlong]) -> Result<(), NoMemory>
        requires stands { Stands self.old }
        requires live { IsLive (nodes self.old) id }
        requires told { AreToldAlong (nodes self.old) id width told.now }
        ensures stands { Stands self.new }
        ensures parts { SameParts self.old self.new }
        ensures bare { nodes self.new ≡ nodes self.old }
        ensures kept { (n : NodeId) → kept self.new n ≡ kept self.old n }
        ensures below { (q : Query) (more : ℕ) (old : State) →
            WalkedBelow id q more old (seen R.log self.old) →
            WalkedBelow id q more old (seen R.log self.new) }
    {
        keep_along(self.alloc, self.tree, id, width, told)?;
        Ok(())
    }
}
