//! What holds of every change. The law is the contract of a function that does nothing.

ghost use Rattle.std.specs.Prelude.{◌≡◌, ℕ};
ghost use Rattle.node_arena.specs.declared.number.NodeId.{NodeId};
ghost use Rattle.node_arena.specs.Plain.{Nodes, IsStale, with_value, with_node, without_node, with_move};

#[tactic(auto, using(crate::proofs::Stale::stale_put, crate::proofs::Stale::stale_node, crate::proofs::Stale::stale_removed, crate::proofs::Stale::stale_moved))]
/// A number that was drawn and names no node names none after any change, also where its slot is used again: `insert` draws a
/// new turn.
pub fn stale_stays_stale<T>()
    ensures put { (n : Nodes T) (m id : NodeId) (value : T) → IsStale n m →
        IsStale (with_value id value n) m }
    ensures insert { (n : Nodes T) (m parent id : NodeId) (index : ℕ) (value : T) →
        id.turn ≡ n.made → IsStale n m → IsStale (with_node parent index id value n) m }
    ensures remove { (n : Nodes T) (m id : NodeId) → IsStale n m → IsStale (without_node id n) m }
    ensures move_to { (n : Nodes T) (m id parent : NodeId) (index : ℕ) → IsStale n m →
        IsStale (with_move id parent index n) m }
{}
