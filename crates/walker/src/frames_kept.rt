//! The frames that a grid gave its children last, taken and kept on a walk.

use crate::walker::Walker;
use lunit::NoMemory;
use node_arena::NodeId;
use outside::Ruler;
use part_rules::View;
use placing::{PastFrames, SharedBase, SharedFrames, keep_frames, take_frames};
use std::sync::ledger::Ledger;

impl<'a, R: Ruler, L: Ledger> Walker<'a, R, L> {
    ghost use Rattle.std.specs.Prelude.{◌≡◌, ℕ, IfOk, IfSome};
    ghost use Rattle.node_arena.specs.declared.number.NodeId.{NodeId};
    ghost use Rattle.placing.specs.Bases.{HoldsPlaces};
    ghost use Rattle.placing.specs.Nodes.{children_at, kid_at, sight_at, IsLive};
    ghost use Rattle.placing.specs.Told.{AreFrames, ArePastFrames, Each};
    ghost use Rattle.placing.specs.Walks.{State, WalkedBelow};
    ghost use Rattle.tree_rules.specs.declared.query.Query.{Query};
    ghost use Rattle.walker.specs.Walkers.{kept, nodes, seen, SameParts, Stands};

    /// Takes the frames that a grid gave its children last, as `placing::take_frames` does: a walk goes on after it as before it.
    pub fn take_frames(&mut self, id: NodeId) -> Result<Option<PastFrames>, NoMemory>
        requires stands { Stands self.old }
        requires live { IsLive (nodes self.old) id }
        ensures frames { IfOk result (λ past. IfSome past (ArePastFrames (nodes self.old) id)) }
        ensures stands { Stands self.new }
        ensures parts { SameParts self.old self.new }
        ensures bare { nodes self.new ≡ nodes self.old }
        ensures kept { (n : NodeId) → kept self.new n ≡ kept self.old n }
        ensures below { (q : Query) (more : ℕ) (old : State) →
            WalkedBelow id q more old (seen R.log self.old) →
            WalkedBelow id q more old (seen R.log self.new) }
    {
        let past = take_frames(self.alloc, self.tree, id)?;
        Ok(past)
    }

    /// Keeps the frames that a grid gives its children in these columns and rows, as `placing::keep_frames` does: a walk goes on
    /// after it as before it.
    pub fn keep_frames(
        &mut self,
        id: NodeId,
        base: SharedBase,
        columns: View<0>,
        rows: View<1>,
        frames: SharedFrames,
    ) -> Result<(), NoMemory>
        requires stands { Stands self.old }
        requires live { IsLive (nodes self.old) id }
        requires places { HoldsPlaces (sight_at (nodes self.old) id)
            (children_at (nodes self.old) id) base }
        requires frames { AreFrames (sight_at (nodes self.old) id) (kid_at (nodes self.old)) base
            columns rows Each frames }
        ensures stands { Stands self.new }
        ensures parts { SameParts self.old self.new }
        ensures bare { nodes self.new ≡ nodes self.old }
        ensures kept { (n : NodeId) → kept self.new n ≡ kept self.old n }
        ensures below { (q : Query) (more : ℕ) (old : State) →
            WalkedBelow id q more old (seen R.log self.old) →
            WalkedBelow id q more old (seen R.log self.new) }
    {
        keep_frames(self.alloc, self.tree, id, base, columns, rows, frames)?;
        Ok(())
    }
}
