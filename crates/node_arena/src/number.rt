ghost use Rattle.std.specs.Prelude.{◌≡◌};
ghost use Rattle.node_arena.specs.Numbers.{same};

/// The number of a node: the slot that it stands in, and its turn, which no other node of the arena ever has.
#[derive(Clone, Copy, Debug, PartialEq, Eq, PartialOrd, Ord)]
pub struct NodeId {
    pub(crate) slot: usize,
    pub(crate) turn: u64,
}

impl NodeId {
    /// The slot that the node stands in. Slots are used again, and those of all nodes lie close together, from 0 on.
    pub fn slot(self) -> usize
        ensures { result ≡ self.slot }
    {
        self.slot
    }

    #[tactic(auto, unfolding(crate::specs::Numbers::same))]
    /// Whether two numbers are the same.
    pub fn is(self, other: NodeId) -> bool
        ensures { result ≡ same self other }
    {
        self.slot == other.slot && self.turn == other.turn
    }
}
