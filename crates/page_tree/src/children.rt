//! Walks over the nodes below a node.

ghost use Rattle.std.specs.Prelude.{◌≡◌, ◌≤◌, ℕ, List, Some, None, max, if◌then◌else◌, IfNone, IfSome};
ghost use Rattle.std.specs.BTreeMap.{get};
ghost use Rattle.std.specs.Cmp.Lexicographic.{slice_cmp};
ghost use Rattle.std.specs.Ordering.{nat_cmp};
ghost use Rattle.std.specs.Str.{bytes_eq};
ghost use Rattle.plain_tree.specs.Trees.{leafless, height_of};
ghost use Rattle.node_arena.specs.Faults.{is_top};
ghost use Rattle.node_arena.specs.Numbers.{below_at, value_at};
ghost use Rattle.layout_cache.specs.Reach.{from_tree};
ghost use Rattle.placing.specs.declared.node.Node.{Node};
ghost use Rattle.page_tree.specs.Registers.{IsNext, Without};

use lunit::Name;
use node_arena::{Arena, NodeId};
use placing::Node;
use std::collections::BTreeMap;

/// The number of a child; `None` exactly where there is no child of this index.
pub(crate) fn child_at(tree: &Arena<Node>, id: NodeId, index: usize) -> Option<NodeId>
    ensures none { IfNone result (from_tree index (below_at tree.now.tree id) ≡ leafless) }
    ensures some { IfSome result (IsNext tree.now.tree id index) }
{
    match tree.child(id, index) {
        Some(child) => match tree.get(child) {
            Some(_node) => Some(child),
            None => None,
        },
        None => None,
    }
}

/// Whether a node is a child of another.
pub(crate) fn has_child(tree: &Arena<Node>, parent: NodeId, id: NodeId) -> bool
    ensures { result ≡ is_top (below_at tree.now.tree parent) id }
{
    for index in 0..tree.count(parent) {
        let Some(child) = child_at(tree, parent, index) else {
            continue;
        };
        if child.is(id) {
            return true;
        }
    }
    false
}

fn larger(a: usize, b: usize) -> usize
    ensures { result ≡ max a b }
{
    if a < b { b } else { a }
}

#[tactic(auto, using(crate::proofs::Removals::falls))]
/// How many levels stand below a node.
pub(crate) fn height_below(tree: &Arena<Node>, id: NodeId) -> usize
    ensures value { result ≡ height_of (below_at tree.now.tree id) }
    ensures most { result ≤ 64 }
{
    let _ = tree.root();
    let mut highest = 0;
    for index in 0..tree.count(id) {
        let Some(child) = child_at(tree, id, index) else {
            continue;
        };
        highest = larger(highest, height_below(tree, child) + 1);
    }
    highest
}

/// Takes the name of a node out of a map.
fn take_name(tree: &Arena<Node>, id: NodeId, numbers: &mut BTreeMap<Name, NodeId>)
    ensures { (v : Node) → value_at tree.now.tree id ≡ Some v → (name : List ℕ) →
        get (slice_cmp nat_cmp) numbers.new name ≡
        (if bytes_eq v.name name then None else get (slice_cmp nat_cmp) numbers.old name) }
{
    match tree.get(id) {
        Some(node) => {
            numbers.remove(&node.name);
        }
        None => {}
    }
}

#[tactic(auto, using(crate::proofs::Removals::falls))]
/// Takes the names of all nodes below a node out of a map.
pub(crate) fn take_names(tree: &Arena<Node>, id: NodeId, numbers: &mut BTreeMap<Name, NodeId>)
    ensures { Without (below_at tree.now.tree id) (get (slice_cmp nat_cmp) numbers.old)
        (get (slice_cmp nat_cmp) numbers.new) }
{
    for index in 0..tree.count(id) {
        let Some(child) = child_at(tree, id, index) else {
            continue;
        };
        take_name(tree, child, numbers);
        take_names(tree, child, numbers);
    }
}
