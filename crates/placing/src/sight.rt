//! A node by its number. Contracts speak of it through the bare tree.

ghost use Rattle.std.specs.Prelude.{◌≡◌, ◌∷◌, ◌<◌, [], Some, IfSome, IfNone, length};
ghost use Rattle.node_arena.specs.Numbers.{top_numbers, value_at, IsNarrow};
ghost use Rattle.node_arena.specs.Plain.{IsSound};
ghost use Rattle.tree_rules.specs.Labels.{content_of, grid_of};
ghost use Rattle.placing.specs.Children.{IsNext, IsParent, IsTree};
ghost use Rattle.placing.specs.Kept.{kept_at, past_at};
ghost use Rattle.placing.specs.Nodes.{bare, bare_of, children_at, kids_at, label_of_bare, sight_at, IsLive};
ghost use Rattle.placing.specs.Walks.{IsStep, StepsDown};

use crate::node::Node;
use node_arena::{Arena, NodeId};

/// What holds of every arena.
fn stands(tree: &Arena<Node>) -> NodeId
    ensures root { top_numbers tree.now.tree ≡ result ∷ [] }
    ensures sound { IsSound tree.now }
{
    tree.root()
}

/// The root of the tree. What holds of the tree of every arena is told here.
pub fn root(tree: &Arena<Node>) -> NodeId
    ensures root { top_numbers (bare tree.now.tree) ≡ result ∷ [] }
    ensures live { IsLive (bare tree.now.tree) result }
    ensures top { (sight_at (bare tree.now.tree) result).chain ≡ [] }
    ensures tree { IsTree (bare tree.now.tree) }
    ensures steps { StepsDown (bare tree.now.tree) }
    ensures narrow { IsNarrow tree.now.most_children (bare tree.now.tree) }
{
    stands(tree)
}

/// The node of a live number.
pub fn node_at(tree: &Arena<Node>, id: NodeId) -> &Node
    requires { IsLive (bare tree.now.tree) id }
    ensures value { Some result.now ≡ value_at tree.now.tree id }
    ensures bare { Some (bare_of result.now) ≡ value_at (bare tree.now.tree) id }
    ensures label { label_of_bare (bare_of result.now) ≡ (sight_at (bare tree.now.tree) id).label }
    ensures name { result.now.name ≡ (sight_at (bare tree.now.tree) id).label.name }
    ensures kind { result.now.kind ≡ (sight_at (bare tree.now.tree) id).label.kind }
    ensures grid { grid_of result.now.style ≡ (sight_at (bare tree.now.tree) id).label.grid }
    ensures content { content_of result.now.style ≡
        (sight_at (bare tree.now.tree) id).label.content }
    ensures kept { result.now.kept ≡ kept_at tree.now.tree id }
    ensures past { result.now.past ≡ past_at tree.now.tree id }
{
    tree.get(id).unwrap()
}

/// How many children a node has.
pub fn count(tree: &Arena<Node>, id: NodeId) -> usize
    ensures kids { result ≡ length (kids_at (bare tree.now.tree) id) }
    ensures children { result ≡ length (children_at (bare tree.now.tree) id) }
{
    tree.count(id)
}

/// The numbers of a node's children, in document order.
pub(crate) fn children(tree: &Arena<Node>, id: NodeId) -> &[NodeId]
    ensures list { result.now ≡ children_at (bare tree.now.tree) id }
    ensures count { length result.now ≡ length (kids_at (bare tree.now.tree) id) }
{
    tree.children(id)
}

/// The child of an index among the children of a node.
pub(crate) fn child_among(
    tree: &Arena<Node>,
    id: NodeId,
    children: &[NodeId],
    index: usize,
) -> NodeId
    requires list { children.now ≡ children_at (bare tree.now.tree) id }
    requires index { index < length children.now }
    ensures { IsNext (bare tree.now.tree) id index result }
{
    stands(tree);
    children[index]
}

/// The child of an index, in document order.
pub fn child(tree: &Arena<Node>, id: NodeId, index: usize) -> NodeId
    requires { index < length (kids_at (bare tree.now.tree) id) }
    ensures next { IsNext (bare tree.now.tree) id index result }
    ensures step { IsStep (bare tree.now.tree) id index result }
{
    stands(tree);
    tree.child(id, index).unwrap()
}

/// The parent of a live number; `None` exactly where it is the root's. The chain of the root is empty.
pub fn parent(tree: &Arena<Node>, id: NodeId) -> Option<NodeId>
    requires { IsLive (bare tree.now.tree) id }
    ensures some { IfSome result (λ parent. IsParent (bare tree.now.tree) id parent) }
    ensures none { IfNone result ((sight_at (bare tree.now.tree) id).chain ≡ []) }
    ensures root { IfNone result (top_numbers (bare tree.now.tree) ≡ id ∷ []) }
{
    stands(tree);
    tree.parent(id)
}
