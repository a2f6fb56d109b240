//! Why edits are refused.

ghost use Rattle.std.specs.Prelude.{◌≡◌, ◌+◌, ◌||◌, nat_lt, not, Some, None};
ghost use Rattle.plain_tree.specs.Trees.{size_of, height_of};
ghost use Rattle.doc_text.specs.Growth.{holds};
ghost use Rattle.doc_text.specs.Named.{removed, tree_at};
ghost use Rattle.track_text.specs.Gives.{fault_at};
ghost use Rattle.page_tree.specs.Moves.{place_refusal, AreApart};
ghost use Rattle.page_tree.specs.Registers.{Finds};
ghost use Rattle.page_tree.specs.Rows.{or_later};
ghost use Rattle.doc_text.specs.Documents.{node_limit};
ghost use Rattle.doc_text.specs.Edits.{are_too_many, child_count, first_refusal, passes_children, passes_levels, refusals};
ghost use Rattle.doc_text.specs.declared.document.Plain.{Plain};
ghost use Rattle.doc_text.specs.declared.kind.Kind.{Kind};
ghost use Rattle.doc_text.specs.declared.edit.Edit.TheVariants as edit;
ghost use Rattle.page_tree.specs.Pages.{document_of, trees_in};

use crate::children::{has_child, height_below};
use crate::lookup::{count, has, is_leaf_at, level, or_later, size};
use crate::page::Page;
use doc_text::{Edit, MAX_CHILDREN, MAX_LEVELS, Named, node_limit};
use node_arena::NodeId;
use text_scan::{Fault, Place};

/// The number of the fault of a name that another node has.
const DUPLICATE_NAME: u8 = 6;

/// The number of the fault of a node on level 65.
const TOO_DEEP: u8 = 12;

/// The number of the fault of a node too many.
const TOO_MANY_NODES: u8 = 13;

/// The number of the fault of a node under a leaf.
const LEAF_HAS_CHILDREN: u8 = 14;

/// The number of the fault of a name that no node has.
const UNKNOWN_NAME: u8 = 21;

/// The number of the fault of a root that is removed or moved.
const ROOT: u8 = 22;

/// The number of the fault of a parent that stands in the moved tree.
const CYCLE: u8 = 23;

/// The number of the fault of an index past the last child.
const BAD_INDEX: u8 = 24;

#[tactic(auto, using(crate::proofs::Refusals::at_least))]
/// Whether one child more than so many is more than a version allows.
fn passes_children(version: u8, children: usize) -> bool
    ensures { result ≡ are_too_many version (children + 1) }
{
    version == 2 && children >= MAX_CHILDREN
}

#[tactic(auto, using(crate::proofs::Refusals::at_least))]
/// Whether one node more is more than the version allows.
fn is_full(page: &Page) -> bool
    ensures { result ≡ nat_lt (node_limit page.now.version) (size_of (trees_in page.now) + 1) }
{
    size(page) >= node_limit(page.version())
}

/// Whether one child more under a parent is a node too many.
fn is_too_many(page: &Page, parent: &Named) -> bool
    ensures { result ≡
        (nat_lt (node_limit page.now.version) (size_of (trees_in page.now) + 1) ||
        passes_children page.now.version (trees_in page.now) parent.now) }
{
    is_full(page) || passes_children(page.version(), count(page, &parent.name))
}

#[tactic(auto, using(crate::proofs::Refusals::at_least))]
/// Whether a child of a node would stand on level 65.
fn is_too_deep(page: &Page, parent: &Named) -> bool
    ensures { result ≡ passes_levels (trees_in page.now) parent.now 1 }
{
    level(page, &parent.name) >= MAX_LEVELS
}

/// Whether an index is greater than the number of children.
fn is_past_last(page: &Page, parent: &Named, index: u32) -> bool
    ensures { result ≡ nat_lt (child_count parent.now.name (trees_in page.now)) index }
{
    count(page, &parent.name) < index as usize
}

/// Why an edit is refused, if it is: the first row of the table of refusals that comes.
pub(crate) fn of_edit(page: &Page, edit: &Edit) -> Option<Fault>
    ensures { result ≡ first_refusal (refusals (document_of page.now) edit.now) }
{
    let _ = page.stands();
    match edit {
        Edit::Set(named, _settings) => of_named(page, named),
        Edit::Unset(named, _props) => of_named(page, named),
        Edit::Insert(parent, index, at, named, _node) => {
            of_insert(page, parent, *index, *at, named)
        }
        Edit::Remove(named) => of_removal(page, named),
        Edit::Move(named, parent, index, at) => of_move(page, named, parent, *index, *at),
        Edit::Content(named, _kind) => of_content(page, named),
        Edit::Viewport(_, _) => None,
        Edit::Undo(_, _) | Edit::Redo(_, _) | Edit::Hit(_, _) => None,
    }
}

/// Why a new node under a parent, at an index of its children, is refused.
fn of_insert(page: &Page, parent: &Named, index: u32, at: Place, named: &Named) -> Option<Fault>
    ensures { (node : Plain) →
        result ≡
        first_refusal
        (refusals (document_of page.now) (edit.Insert parent.now index at named.now node)) }
{
    let _ = page.stands();
    let leaf = is_leaf_at(page, &parent.name);
    let later = or_later(leaf, LEAF_HAS_CHILDREN, parent.at, None);
    let many = is_too_many(page, parent);
    let later = or_later(many, TOO_MANY_NODES, named.at, later);
    let deep = is_too_deep(page, parent);
    let later = or_later(deep, TOO_DEEP, named.at, later);
    let there = has(page, &named.name);
    let later = or_later(there, DUPLICATE_NAME, named.at, later);
    let past = is_past_last(page, parent, index);
    let later = or_later(past, BAD_INDEX, at, later);
    or_later(!has(page, &parent.name), UNKNOWN_NAME, parent.at, later)
}

/// Why an edit is refused that asks of its node alone that it is there.
fn of_named(page: &Page, named: &Named) -> Option<Fault>
    ensures { result ≡
        or_later (not (holds (trees_in page.now) named.now.name)) 21 named.now.at None }
{
    or_later(!has(page, &named.name), UNKNOWN_NAME, named.at, None)
}

/// Why another content of a node is refused.
fn of_content(page: &Page, named: &Named) -> Option<Fault>
    ensures { (kind : Kind) →
        result ≡ first_refusal (refusals (document_of page.now) (edit.Content named.now kind)) }
{
    let _ = page.stands();
    let parent = count(page, &named.name) > 0;
    let later = or_later(parent, LEAF_HAS_CHILDREN, named.at, None);
    or_later(!has(page, &named.name), UNKNOWN_NAME, named.at, later)
}

/// Why the removal of a node is refused.
fn of_removal(page: &Page, named: &Named) -> Option<Fault>
    ensures { result ≡ first_refusal (refusals (document_of page.now) (edit.Remove named.now)) }
{
    let _ = page.stands();
    let Some(id) = page.find(&named.name) else {
        return told(UNKNOWN_NAME, named.at);
    };
    if page.tree().root().is(id) {
        return told(ROOT, named.at);
    }
    None
}

/// Why a move of a node under a parent, at an index of the children that are left, is refused.
fn of_move(page: &Page, named: &Named, parent: &Named, index: u32, at: Place) -> Option<Fault>
    ensures { result ≡
        first_refusal (refusals (document_of page.now) (edit.Move named.now parent.now index at)) }
{
    let _ = page.stands();
    let Some(id) = page.find(&named.name) else {
        return told(UNKNOWN_NAME, named.at);
    };
    let Some(to) = page.find(&parent.name) else {
        return told(UNKNOWN_NAME, parent.at);
    };
    of_move_to(page, id, to, named, parent, index, at)
}

/// Why a move is refused where both nodes are there, by their numbers.
fn of_move_to(
    page: &Page,
    id: NodeId,
    to: NodeId,
    named: &Named,
    parent: &Named,
    index: u32,
    at: Place,
) -> Option<Fault>
    requires found { Finds page.now.nodes.tree named.now.name (Some id) }
    requires onto { Finds page.now.nodes.tree parent.now.name (Some to) }
    ensures { result ≡
        first_refusal (refusals (document_of page.now) (edit.Move named.now parent.now index at)) }
{
    let _ = page.stands();
    let tree = page.tree();
    if tree.root().is(id) {
        return told(ROOT, named.at);
    }
    if tree.is_on_way(id, to) {
        return told(CYCLE, parent.at);
    }
    of_place(page, id, to, named, parent, index, at)
}

/// Why the place of a node that moves is refused. The levels of the moved tree are counted only
/// where the index is that of a child.
fn of_place(
    page: &Page,
    id: NodeId,
    to: NodeId,
    named: &Named,
    parent: &Named,
    index: u32,
    at: Place,
) -> Option<Fault>
    requires { AreApart page.now.nodes.tree named.now.name parent.now.name id to }
    ensures { result ≡
        place_refusal page.now.version (trees_in page.now) named.now parent.now index at }
{
    let children = count_left(page, id, to, named, parent);
    if children < index as usize {
        return told(BAD_INDEX, at);
    }
    let leaf = is_leaf_at(page, &parent.name);
    let later = or_later(leaf, LEAF_HAS_CHILDREN, parent.at, None);
    let full = passes_children(page.version(), children);
    let later = or_later(full, TOO_MANY_NODES, named.at, later);
    let deep = is_too_low(page, id, to, named, parent);
    or_later(deep, TOO_DEEP, named.at, later)
}

/// A fault of this number at a place.
fn told(number: u8, at: Place) -> Option<Fault>
    ensures { result ≡ Some (fault_at number at) }
{
    Some(Fault { number, place: at })
}

/// How many children a node has without one that moves.
fn count_left(page: &Page, id: NodeId, to: NodeId, named: &Named, parent: &Named) -> usize
    requires { AreApart page.now.nodes.tree named.now.name parent.now.name id to }
    ensures { result ≡ child_count parent.now.name (removed named.now.name (trees_in page.now)) }
{
    let tree = page.tree();
    let count = tree.count(to);
    if has_child(tree, to, id) {
        count - 1
    } else {
        count
    }
}

/// Whether a node of the tree that moves would stand on level 65.
fn is_too_low(page: &Page, id: NodeId, to: NodeId, named: &Named, parent: &Named) -> bool
    requires { AreApart page.now.nodes.tree named.now.name parent.now.name id to }
    ensures { result ≡
        passes_levels (removed named.now.name (trees_in page.now)) parent.now
        (height_of (tree_at named.now.name (trees_in page.now))) }
{
    let tree = page.tree();
    let below = height_below(tree, id);
    MAX_LEVELS < level(page, &parent.name) + (below + 1)
}
