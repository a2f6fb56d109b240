//! Where the nodes of a document are found by their names.

ghost use Rattle.std.specs.Prelude.{◌≡◌};
ghost use Rattle.std.specs.Option.{option_copied};
ghost use Rattle.doc_text.specs.View.{trees_of};
ghost use Rattle.doc_text.specs.Named.{tree_at};
ghost use Rattle.edit_journal.specs.Changes.{tree_of_node, IsSound};
ghost use Rattle.edit_journal.specs.Steps.{top_of, node_at, place_in, position_in, position_of};

use doc_text::{Doc, Plain};
use lunit::Name;

#[tactic(auto, using(crate::proofs::Found::finding))]
/// The first node of this name among a node and all below it.
fn find<'a>(node: &'a Plain, name: &Name) -> Option<&'a Plain>
    ensures { option_copied result ≡ top_of (tree_at name.now (tree_of_node node.now)) }
{
    if node.name == *name {
        return Some(node);
    }
    for child in node.children.nodes() {
        if let Some(found) = find(child, name) {
            return Some(found);
        }
    }
    None
}

/// The node of this name; the root where no node has it.
pub(crate) fn node_at<'a>(doc: &'a Doc, name: &Name) -> &'a Plain
    ensures { result.now ≡ node_at name.now doc.now }
{
    match find(&doc.root, name) {
        Some(node) => node,
        None => &doc.root,
    }
}

#[tactic(auto, using(crate::proofs::Found::placing))]
/// The index of the node of this name among these; `None` exactly where none has it.
fn place_among(nodes: &[Plain], name: &Name) -> Option<usize>
    ensures { result ≡ place_in name.now (trees_of nodes.now) }
{
    for index in 0..nodes.len() {
        if nodes[index].name == *name {
            return Some(index);
        }
    }
    None
}

#[tactic(auto, using(crate::proofs::Found::positioning))]
/// The name of the parent of the node of this name, which stands below a node, and its index among
/// its children.
fn position_below(node: &Plain, name: &Name) -> Option<(Name, usize)>
    ensures { result ≡ position_in name.now (tree_of_node node.now) }
{
    let children = node.children.nodes();
    if let Some(index) = place_among(children, name) {
        return Some((node.name, index));
    }
    for child in children {
        if let Some(position) = position_below(child, name) {
            return Some(position);
        }
    }
    None
}

/// The name of the parent of the node of this name, and the index among its children; as the first
/// child of the root where it stands under no node.
pub(crate) fn position_of(doc: &Doc, name: &Name) -> (Name, u32)
    requires { IsSound doc.now }
    ensures { result ≡ position_of name.now doc.now }
{
    match position_below(&doc.root, name) {
        Some(position) => (position.0, position.1 as u32),
        None => (doc.root.name, 0),
    }
}
