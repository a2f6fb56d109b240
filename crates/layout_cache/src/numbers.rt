ghost use Rattle.std.specs.Prelude.{◌≡◌, ◌||◌, [], OnOk};
ghost use Rattle.node_arena.specs.Numbers.{same, is_among};
ghost use Rattle.node_arena.specs.declared.number.NodeId.{NodeId};

use lunit::NoMemory;
use node_arena::NodeId;
use std::alloc::Global;
use std::collections::BTreeSet;
use std::marker::Model;

/// A set of numbers of nodes.
#[derive(Drop)]
pub(crate) struct NumberSet {
    numbers: BTreeSet<NodeId>,
}

impl Model for NumberSet {
    ghost use Rattle.std.specs.Prelude.{List};
    ghost use Rattle.node_arena.specs.declared.number.NodeId.{NodeId};

    ghost Value = { List NodeId };

    ghost view = { λ a. a.numbers.keys };

    ghost invariant = { λ a. Unit {0} };
}

impl NumberSet {
    pub(crate) fn new(alloc: Global) -> NumberSet
        ensures { result ≡ [] }
    {
        NumberSet {
            numbers: BTreeSet::new(alloc),
        }
    }

    /// Whether a number is in the set.
    pub(crate) fn has(&self, id: NodeId) -> bool
        ensures { result ≡ is_among id self.now }
    {
        self.numbers.contains(&id)
    }

    /// Adds a number.
    pub(crate) fn add(&mut self, id: NodeId) -> Result<(), NoMemory>
        ensures { OnOk result
            ((n : NodeId) → is_among n self.new ≡ (same id n || is_among n self.old)) }
    {
        self.numbers.insert(id)?;
        Ok(())
    }
}
