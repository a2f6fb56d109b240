//! What edits ask of a document. The answers are those of the plain document.

ghost use Rattle.std.specs.Prelude.{◌≡◌, ◌≤◌, not, nat_lt, nat_le, ◌+◌};
ghost use Rattle.plain_tree.specs.Trees.{size_of};
ghost use Rattle.doc_text.specs.Edits.{child_count, is_leaf_top};
ghost use Rattle.doc_text.specs.Growth.{holds};
ghost use Rattle.doc_text.specs.Documents.{is_leaf};
ghost use Rattle.doc_text.specs.Named.{level_of, tree_at};
ghost use Rattle.page_tree.specs.Rows.{or_later};
ghost use Rattle.page_tree.specs.Documents.{kind_of};
ghost use Rattle.page_tree.specs.Pages.{trees_in};

use crate::page::Page;
use lunit::Name;
use placing::NodeKind;
use text_scan::{Fault, Place};

/// The fault of a number at a place where it comes, and else what follows in the order of refusals.
pub(crate) fn or_later(comes: bool, number: u8, at: Place, later: Option<Fault>) -> Option<Fault>
    ensures { result ≡ or_later comes number at later }
{
    if comes {
        Some(Fault { number, place: at })
    } else {
        later
    }
}

/// Whether a node has the name.
pub(crate) fn has(page: &Page, name: &Name) -> bool
    ensures { result ≡ holds (trees_in page.now) name.now }
{
    page.find(name).is_some()
}

/// How many children the node of a name has; 0 where no node has the name.
pub(crate) fn count(page: &Page, name: &Name) -> usize
    ensures { result ≡ child_count name.now (trees_in page.now) }
{
    match page.find(name) {
        Some(id) => page.tree().count(id),
        None => 0,
    }
}

/// The level of the node of a name, 1 for the root; 0 where no node has the name.
pub(crate) fn level(page: &Page, name: &Name) -> usize
    ensures value { result ≡ level_of name.now (trees_in page.now) }
    ensures most { result ≤ 64 }
{
    match page.find(name) {
        Some(id) => page.tree().level(id),
        None => 0,
    }
}

/// How many nodes there are.
pub(crate) fn size(page: &Page) -> usize
    ensures { result ≡ size_of (trees_in page.now) }
{
    page.tree().len()
}

/// Whether a kind is that of a leaf.
fn is_leaf(kind: &NodeKind) -> bool
    ensures { result ≡ is_leaf (kind_of kind.now) }
{
    match kind {
        NodeKind::Grid | NodeKind::Flex => false,
        NodeKind::Leaf(_) => true,
    }
}

/// Whether the node of a name is a leaf; `false` where no node has the name.
pub(crate) fn is_leaf_at(page: &Page, name: &Name) -> bool
    ensures { result ≡ is_leaf_top (tree_at name.now (trees_in page.now)) }
{
    match page.find(name) {
        Some(id) => match page.tree().get(id) {
            Some(node) => is_leaf(&node.kind),
            None => false,
        },
        None => false,
    }
}
