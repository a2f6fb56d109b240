//! Boxes that were found last and are forgotten.

ghost use Rattle.edit_journal.specs.Changes.{tree_of_node};
ghost use Rattle.node_arena.specs.Numbers.{is_among, value_at};
ghost use Rattle.page_tree.specs.Forgotten.{has_name, has_name_in, Forgets};

use crate::page::Page;
use box_layout::LastBoxes;
use doc_text::Plain;
use node_arena::NodeId;

/// Forgets the boxes of these containers. Takes no memory.
pub(crate) fn forget_all(ids: &[NodeId], last: &mut LastBoxes)
    ensures { Forgets (λ id. is_among id ids.now) last.old last.new }
{
    for index in 0..ids.len() {
        last.forget(ids[index]);
    }
}

/// Forgets what may be kept for the number of a node of this name. Takes no memory.
fn forget_name(page: &Page, node: &Plain, last: &mut LastBoxes)
    ensures { Forgets (λ id. has_name node.now.name (value_at page.now.nodes.tree id)) last.old
        last.new }
{
    if let Some(id) = page.find(&node.name) {
        last.forget(id);
    }
}

#[tactic(auto, using(crate::proofs::Filling::children_smaller))]
/// Forgets what may be kept for the numbers of the nodes of these names: that of a node and of all
/// below it. Takes no memory.
pub(crate) fn forget_brought(page: &Page, node: &Plain, last: &mut LastBoxes)
    ensures { Forgets (λ id. has_name_in (tree_of_node node.now) (value_at page.now.nodes.tree id))
        last.old last.new }
{
    forget_name(page, node, last);
    let children = node.children.nodes();
    for index in 0..children.len() {
        forget_brought(page, &children[index], last);
    }
}
