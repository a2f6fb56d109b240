//! Nodes as the arena holds them.

ghost use Rattle.std.specs.Prelude.{◌≡◌, [], IfOk, IsSome, Some};
ghost use Rattle.node_arena.specs.Numbers.{part_at, value_at};
ghost use Rattle.style_types.specs.Computed.{computed_style};
ghost use Rattle.placing.specs.Told.{no_past};
ghost use Rattle.page_tree.specs.Documents.{kind_of};

use doc_text::Kind;
use layout_cache::Kept;
use lunit::{Copied, Lu, Name, NoMemory};
use node_arena::{Arena, NodeId};
use placing::{Node, NodeKind, Past};
use std::alloc::Global;
use style_types::Declared;
use tree_rules::SharedContent;

/// The kind of a node in the arena.
pub(crate) fn node_kind(alloc: Global, kind: &Kind) -> Result<NodeKind, NoMemory>
    ensures { IfOk result (λ made. kind_of made ≡ kind.now) }
{
    match kind {
        Kind::Grid => Ok(NodeKind::Grid),
        Kind::Flex => Ok(NodeKind::Flex),
        Kind::Leaf(content) => {
            let content = content.copy(alloc)?;
            Ok(NodeKind::Leaf(SharedContent::new(alloc, content)?))
        }
    }
}

/// A node of this turn that keeps nothing, whose font size is `em` where that of the root is `rem`.
pub(crate) fn made(
    alloc: Global,
    name: Name,
    kind: NodeKind,
    declared: Declared,
    em: Lu,
    rem: Lu,
    turn: u64,
) -> Result<Node, NoMemory>
    ensures name { IfOk result (λ node. node.name ≡ name) }
    ensures kind { IfOk result (λ node. node.kind ≡ kind) }
    ensures declared { IfOk result (λ node. node.declared ≡ declared) }
    ensures style { IfOk result (λ node. node.style ≡ computed_style em rem declared) }
    ensures kept { IfOk result (λ node. node.kept ≡ []) }
    ensures past { IfOk result (λ node. node.past ≡ no_past) }
    ensures turn { IfOk result (λ node. node.turn ≡ turn) }
{
    let style = declared.computed(alloc, em, rem)?;
    Ok(Node {
        name,
        kind,
        declared,
        style,
        kept: Kept::new(alloc)?,
        turn,
        past: Past::new(),
    })
}

/// The node of a number that names one.
pub(crate) fn node_of(tree: &Arena<Node>, id: NodeId) -> &Node
    requires { IsSome (part_at tree.now.tree id) }
    ensures { Some result.now ≡ value_at tree.now.tree id }
{
    match tree.get(id) {
        Some(node) => node,
        None => unreachable!(),
    }
}
