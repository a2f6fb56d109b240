//! A change applied to a document.

ghost use Rattle.std.specs.Prelude.{◌≡◌, IfOk, OnOk, OnErr};
ghost use Rattle.plain_tree.specs.Trees.{joined};
ghost use Rattle.doc_text.specs.View.{label_of, trees_of};
ghost use Rattle.doc_text.specs.Named.{IsDistinct, moved, put_at, replaced};
ghost use Rattle.doc_text.specs.Edits.{tree_of, with_root};
ghost use Rattle.edit_journal.specs.declared.change.Change.TheVariants as change;
ghost use Rattle.edit_journal.specs.Changes.{tree_of_node, turned, IsSound, IsThere, CanTurn};
ghost use Rattle.edit_journal.specs.Turning.{becomes, trees_of_option};

use crate::change::Change;
use crate::find::node_at;
use crate::values::with_values;
use doc_text::{Children, Doc, Plain};
use lunit::{Copied, Name, NoMemory};
use std::alloc::Global;

#[tactic(auto, using(doc_text::proofs::Nodes::child_laws))]
/// Adds copies of these nodes at the end of others.
fn push_all(alloc: Global, children: &mut Children, nodes: &[Plain]) -> Result<(), NoMemory>
    ensures { OnOk result (children.new ≡ joined children.old (trees_of nodes.now)) }
{
    for node in nodes {
        children.push(node.copy(alloc)?)?;
    }
    Ok(())
}

/// Copies of these nodes.
fn copy_all(alloc: Global, nodes: &[Plain]) -> Result<Children, NoMemory>
    ensures { IfOk result (λ children. children ≡ trees_of nodes.now) }
{
    let mut children = Children::new(alloc);
    push_all(alloc, &mut children, nodes)?;
    Ok(children)
}

#[tactic(auto, using(crate::proofs::Applied::put_split))]
/// Copies of these nodes, with a copy of another at an index, or at their end where there are
/// fewer.
fn with_child(
    alloc: Global,
    nodes: &[Plain],
    index: usize,
    child: &Plain,
) -> Result<Children, NoMemory>
    ensures { IfOk result
        (λ children. children ≡ put_at index (tree_of_node child.now) (trees_of nodes.now)) }
{
    let (before, after) = nodes.split_at(index.min(nodes.len()));
    let mut children = copy_all(alloc, before)?;
    children.push(child.copy(alloc)?)?;
    push_all(alloc, &mut children, after)?;
    Ok(children)
}

/// What a change of a node makes of it: no node where it is taken out.
fn becomes(alloc: Global, change: &Change, node: &Plain) -> Result<Option<Plain>, NoMemory>
    ensures { IfOk result
        (λ made. trees_of_option made ≡ becomes change.now (label_of node.now) node.now.children) }
{
    match change {
        Change::Style(_, values) => Ok(Some(Plain {
            name: node.name,
            kind: node.kind.copy(alloc)?,
            style: with_values(alloc, &node.style, values.as_slice())?,
            children: copy_all(alloc, node.children.nodes())?,
        })),
        Change::Take(_) => Ok(None),
        Change::Bring(_, index, child) => Ok(Some(Plain {
            name: node.name,
            kind: node.kind.copy(alloc)?,
            style: node.style.copy(alloc)?,
            children: with_child(alloc, node.children.nodes(), *index as usize, child)?,
        })),
        Change::Kind(_, kind) => Ok(Some(Plain {
            name: node.name,
            kind: kind.copy(alloc)?,
            style: node.style.copy(alloc)?,
            children: copy_all(alloc, node.children.nodes())?,
        })),
        Change::Shift(_, _, _) | Change::View(_, _) => Ok(Some(node.copy(alloc)?)),
    }
}

#[tactic(auto, using(crate::proofs::Applied::push_none))]
/// Adds a node at the end of others, if there is one.
fn push_made(children: &mut Children, made: Option<Plain>) -> Result<(), NoMemory>
    ensures { OnOk result (children.new ≡ joined children.old (trees_of_option made)) }
{
    match made {
        Some(node) => children.push(node),
        None => Ok(()),
    }
}

#[tactic(auto, using(crate::proofs::Applied::applying))]
/// A copy of a node and all below it, in which the node of a name is what a change makes of it.
fn turned_node(
    alloc: Global,
    node: &Plain,
    name: &Name,
    change: &Change,
) -> Result<Option<Plain>, NoMemory>
    requires { IsDistinct (tree_of_node node.now) }
    ensures { IfOk result
        (λ made. trees_of_option made ≡
        replaced name.now (becomes change.now) (tree_of_node node.now)) }
{
    if node.name == *name {
        return becomes(alloc, change, node);
    }
    let mut children = Children::new(alloc);
    for child in node.children.nodes() {
        push_made(&mut children, turned_node(alloc, child, name, change)?)?;
    }
    Ok(Some(Plain {
        name: node.name,
        kind: node.kind.copy(alloc)?,
        style: node.style.copy(alloc)?,
        children,
    }))
}

/// A copy of the root and all below it, in which the first node stands under the second as child of
/// this index, which is counted after it was taken out.
fn shifted(
    alloc: Global,
    doc: &Doc,
    name: &Name,
    parent: &Name,
    index: u32,
) -> Result<Option<Plain>, NoMemory>
    requires distinct { IsDistinct (tree_of doc.now) }
    requires there { IsThere name.now doc.now }
    ensures { IfOk result
        (λ made. trees_of_option made ≡ moved name.now parent.now index (tree_of doc.now)) }
{
    let node = node_at(doc, name).copy(alloc)?;
    match turned_node(alloc, &doc.root, name, &Change::Take(*name))? {
        Some(left) => {
            let bring = Change::Bring(*parent, index, node);
            turned_node(alloc, &left, parent, &bring)
        }
        None => Ok(None),
    }
}

/// Puts a root in the place of that of a document, if there is one.
fn set_root(doc: &mut Doc, root: Option<Plain>)
    ensures { doc.new ≡ with_root doc.old (doc.old.width, doc.old.height) (trees_of_option root) }
{
    match root {
        Some(root) => doc.root = root,
        None => {}
    }
}

/// The node of a name is what a change makes of it. Where memory is wanting the document is
/// unchanged.
fn turn_node(alloc: Global, doc: &mut Doc, name: &Name, change: &Change) -> Result<(), NoMemory>
    requires { IsDistinct (tree_of doc.old) }
    ensures ok { OnOk result
        (doc.new ≡
        with_root doc.old (doc.old.width, doc.old.height)
        (replaced name.now (becomes change.now) (tree_of doc.old))) }
    ensures err { OnErr result (doc.new ≡ doc.old) }
{
    let root = turned_node(alloc, &doc.root, name, change)?;
    set_root(doc, root);
    Ok(())
}

/// The first node stands under the second as child of this index, which is counted after it was
/// taken out. Where memory is wanting the document is unchanged.
fn shift(
    alloc: Global,
    doc: &mut Doc,
    name: &Name,
    parent: &Name,
    index: u32,
) -> Result<(), NoMemory>
    requires distinct { IsDistinct (tree_of doc.old) }
    requires there { IsThere name.now doc.old }
    ensures ok { OnOk result (doc.new ≡ turned (change.Shift name.now parent.now index) doc.old) }
    ensures err { OnErr result (doc.new ≡ doc.old) }
{
    let root = shifted(alloc, doc, name, parent, index)?;
    set_root(doc, root);
    Ok(())
}

/// Applies a change that can be applied: the nodes that it names are there, the root is neither
/// taken out nor moved, no node is moved below itself, an index is at most the number of children,
/// and the document after it is valid.
///
/// It copies the document. `NoMemory` where memory is wanting: then the document is unchanged.
pub fn turn(alloc: Global, doc: &mut Doc, change: &Change) -> Result<(), NoMemory>
    requires sound { IsSound doc.old }
    requires turns { CanTurn change.now doc.old }
    ensures ok { OnOk result (doc.new ≡ turned change.now doc.old) }
    ensures err { OnErr result (doc.new ≡ doc.old) }
{
    match change {
        Change::Style(name, _) | Change::Take(name) | Change::Kind(name, _) => {
            turn_node(alloc, doc, name, change)
        }
        Change::Bring(parent, _, _) => turn_node(alloc, doc, parent, change),
        Change::Shift(name, parent, index) => shift(alloc, doc, name, parent, *index),
        Change::View(width, height) => {
            doc.width = *width;
            doc.height = *height;
            Ok(())
        }
    }
}
