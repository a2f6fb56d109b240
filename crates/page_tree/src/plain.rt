//! The plain document that a page stands for.

ghost use Rattle.std.specs.Prelude.{◌≡◌, IfOk, IsSome};
ghost use Rattle.node_arena.specs.Numbers.{part_at};
ghost use Rattle.page_tree.specs.Documents.{kind_of};
ghost use Rattle.page_tree.specs.Places.{IsPlainAt};

use crate::children::child_at;
use crate::node::node_of;
use doc_text::{Children, Kind, Plain};
use lunit::{Copied, NoMemory};
use node_arena::{Arena, NodeId};
use placing::{Node, NodeKind};
use std::alloc::Global;

/// The kind of a node as a document has it.
pub(crate) fn plain_kind(alloc: Global, kind: &NodeKind) -> Result<Kind, NoMemory>
    ensures { IfOk result (λ made. made ≡ kind_of kind.now) }
{
    match kind {
        NodeKind::Grid => Ok(Kind::Grid),
        NodeKind::Flex => Ok(Kind::Flex),
        NodeKind::Leaf(content) => Ok(Kind::Leaf(content.content().copy(alloc)?)),
    }
}

#[tactic(auto, using(crate::proofs::Plains::falls_there))]
/// A node with all below it as a document has it.
pub(crate) fn plain_at(alloc: Global, tree: &Arena<Node>, id: NodeId) -> Result<Plain, NoMemory>
    requires { IsSome (part_at tree.now.tree id) }
    ensures { IfOk result (IsPlainAt tree.now.tree id) }
{
    let mut children = Children::new(alloc);
    for index in 0..tree.count(id) {
        let Some(child) = child_at(tree, id, index) else {
            continue;
        };
        children.push(plain_at(alloc, tree, child)?)?;
    }
    let node = node_of(tree, id);
    Ok(Plain {
        name: node.name,
        kind: plain_kind(alloc, &node.kind)?,
        style: node.declared.copy(alloc)?,
        children,
    })
}
