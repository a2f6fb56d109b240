//! A tree of nodes that grows by one node after another, in document order.

ghost use Rattle.std.specs.Prelude.{◌≡◌, ◌≤◌, ◌<◌, ◌+◌, ◌∷◌, [], true, false, length, min, nat_lt, MatchOption, IfOk, OnOk};
ghost use Rattle.plain_tree.specs.Trees.{leafless, tree, size_of};
ghost use Rattle.track_text.specs.Gives.{Reads};
ghost use Rattle.doc_text.specs.View.{label_of};
ghost use Rattle.doc_text.specs.Open.{assembled, EndsBare, HasMore};
ghost use Rattle.doc_text.specs.Growth.{holds, open_levels, last_on, parent_on, put_last};
ghost use Rattle.doc_text.specs.Documents.{node_limit, child_count, has_room_below, has_room, is_leaf, is_leaf_node, has_root, is_second_root, standing_on};
ghost use Rattle.doc_text.specs.NamedFaults.{first_fault};

use crate::document::{Children, Plain};
use crate::kind::Kind;
use crate::text::fault;
use lunit::{Name, NoMemory, Sequence};
use std::alloc::Global;
use std::collections::BTreeSet;
use std::marker::Model;
use style_types::Declared;
use text_scan::Place;
use track_text::ReadError;

/// The number of the fault of a name that another node has.
pub(crate) const DUPLICATE_NAME: u8 = 6;

/// The number of the fault of a node on level 65.
pub(crate) const TOO_DEEP: u8 = 12;

/// The number of the fault of a node too many.
pub(crate) const TOO_MANY_NODES: u8 = 13;

/// The number of the fault of a node under a leaf.
pub(crate) const LEAF_HAS_CHILDREN: u8 = 14;

/// The number of the fault of a second node without indentation.
pub(crate) const SECOND_ROOT: u8 = 15;

/// How many levels a tree has at most (own rule).
pub const MAX_LEVELS: usize = 64;

/// How many children a node has at most in version 2 (own rule).
pub const MAX_CHILDREN: usize = 65_536;

/// How many nodes a document of a version has at most (own rule).
pub fn node_limit(version: u8) -> usize
    ensures { result ≡ node_limit version }
{
    if version == 2 { 131_072 } else { 32_768 }
}

/// Whether the kind is that of a leaf.
fn is_leaf(kind: &Kind) -> bool
    ensures { result ≡ is_leaf kind.now }
{
    match kind {
        Kind::Grid | Kind::Flex => false,
        Kind::Leaf(_) => true,
    }
}

#[tactic(auto, using(crate::proofs::Closing::adopted))]
/// The last node becomes the last child of the one before.
fn adopt_last(path: Sequence<Plain>) -> Result<Sequence<Plain>, NoMemory>
    requires { 2 ≤ length path }
    ensures same { IfOk result (λ left. assembled left ≡ assembled path) }
    ensures shorter { IfOk result (λ left. length left + 1 ≡ length path) }
{
    let mut path = path;
    if let Some(node) = path.pop() {
        if let Some(mut parent) = path.pop() {
            parent.children.push(node)?;
            path.push(parent)?;
        }
    }
    Ok(path)
}

/// The nodes below a level stand as children, so that at most so many are left.
fn closed(path: Sequence<Plain>, level: usize) -> Result<Sequence<Plain>, NoMemory>
    requires { 1 ≤ level }
    ensures same { IfOk result (λ left. assembled left ≡ assembled path) }
    ensures short { IfOk result (λ left. length left ≡ min level (length path)) }
{
    let mut left = path;
    while left.len() > level {
        left = adopt_last(left)?;
    }
    Ok(left)
}

#[tactic(auto, using(crate::proofs::Opening::on_levels))]
/// Whether the last node on a level has fewer than 65,536 children.
fn has_room_on(path: &[Plain], level: usize) -> bool
    requires { level < length path.now }
    ensures { result ≡ nat_lt (child_count (last_on level (assembled path.now))) 65536 }
{
    let count = path[level].children.len();
    if level + 1 < path.len() {
        // The last child is not there yet.
        count < MAX_CHILDREN - 1
    } else {
        count < MAX_CHILDREN
    }
}

/// Whether the node above a level has room for one child more.
fn has_room_below(path: &[Plain], version: u8, level: usize) -> bool
    requires { level ≤ length path.now }
    ensures { result ≡ has_room_below version (parent_on level (assembled path.now)) }
{
    version != 2 || level == 0 || has_room_on(path, level - 1)
}

#[tactic(auto, using(crate::proofs::Opening::on_levels))]
/// Whether the last node on a level is a leaf.
fn is_leaf_on(path: &[Plain], level: usize) -> bool
    requires { level < length path.now }
    ensures { result ≡ is_leaf_node (last_on level (assembled path.now)) }
{
    is_leaf(&path[level].kind)
}

/// Whether the node above a level is a leaf.
fn is_leaf_below(path: &[Plain], level: usize) -> bool
    requires { level ≤ length path.now }
    ensures { result ≡ is_leaf_node (parent_on level (assembled path.now)) }
{
    level > 0 && is_leaf_on(path, level - 1)
}

#[tactic(auto, using(crate::proofs::Opening::pushing))]
/// The nodes with one more on a level, which has no children.
fn pushed(path: Sequence<Plain>, level: usize, node: Plain) -> Result<Sequence<Plain>, NoMemory>
    requires level { level ≤ length path }
    requires root { is_second_root level (assembled path) ≡ false }
    requires bare { node.children ≡ leafless }
    ensures last { IfOk result
        (λ left. assembled left ≡ put_last level (label_of node) (assembled path)) }
    ensures bare { IfOk result (λ left. EndsBare left) }
    ensures names { IfOk result (λ left. HasMore left path node.name) }
    ensures count { IfOk result (λ left. size_of (assembled left) ≡ size_of (assembled path) + 1) }
{
    let mut path = closed(path, level.max(1))?;
    path.push(node)?;
    Ok(path)
}

/// The tree so far. Contracts see it as a list of trees, of which there is at most one.
#[derive(Drop)]
pub(crate) struct Growth {
    // The last node of each level, from the root down to the last node of all. Of the children of
    // each the last is not there: it is the next of these.
    path: Sequence<Plain>,
    names: BTreeSet<Name>,
    count: usize,
}

impl Model for Growth {
    ghost use Rattle.plain_tree.specs.Trees.{Trees, coded_trees};
    ghost use Rattle.doc_text.specs.Label.{Label, coded_label};

    ghost Value = { Trees Label };

    ghost coded = { coded_trees coded_label };

    ghost use Rattle.doc_text.specs.Open.{assembled, IsKept};

    ghost view = { λ a. assembled a.path };

    ghost invariant = { λ a. IsKept a.path a.names a.count };
}

impl Growth {
    #[tactic(auto, using(crate::proofs::Opening::kept_none))]
    /// No node yet. Takes no memory.
    pub(crate) fn new(alloc: Global) -> Growth
        ensures { result ≡ leafless }
    {
        Growth {
            path: Sequence::new(alloc),
            names: BTreeSet::new(alloc),
            count: 0,
        }
    }

    #[tactic(auto, using(crate::proofs::Opening::levels_of))]
    /// How many levels a next node could have its parent on.
    pub(crate) fn levels(&self) -> usize
        ensures { result ≡ open_levels self.now }
    {
        self.path.len()
    }

    #[tactic(auto, using(crate::proofs::Opening::within_path))]
    /// Whether there is room for one node more on a level.
    fn has_room(&self, version: u8, level: usize) -> bool
        requires { level ≤ open_levels self.now }
        ensures { result ≡ has_room version level self.now }
    {
        self.count < node_limit(version) && has_room_below(self.path.as_slice(), version, level)
    }

    /// Whether a node has the name.
    fn holds(&self, name: &Name) -> bool
        ensures { result ≡ holds self.now name.now }
    {
        self.names.contains(name)
    }

    #[tactic(auto, using(crate::proofs::Opening::root_of))]
    /// Whether there is a node.
    fn has_root(&self) -> bool
        ensures { result ≡ has_root self.now }
    {
        self.path.len() > 0
    }

    /// Whether a node on this level would be a second root.
    fn is_second_root(&self, level: usize) -> bool
        ensures { result ≡ is_second_root level self.now }
    {
        level == 0 && self.has_root()
    }

    #[tactic(auto, using(crate::proofs::Opening::within_path))]
    /// Whether a node may stand on this level as the next one, whatever its name; else fault 12, 13,
    /// 14 or 15 at this place.
    pub(crate) fn standing_on(&self, version: u8, level: usize, at: Place) -> Result<(), ReadError>
        requires { level ≤ open_levels self.now }
        ensures standing { Reads result (standing_on version level at self.now) }
        ensures room { OnOk result (size_of self.now < 131072) }
        ensures root { OnOk result (is_second_root level self.now ≡ false) }
    {
        if level >= MAX_LEVELS {
            return Err(fault(TOO_DEEP, at));
        }
        if !self.has_room(version, level) {
            return Err(fault(TOO_MANY_NODES, at));
        }
        if is_leaf_below(self.path.as_slice(), level) {
            return Err(fault(LEAF_HAS_CHILDREN, at));
        }
        if self.is_second_root(level) {
            return Err(fault(SECOND_ROOT, at));
        }
        Ok(())
    }

    /// The first fault of a node of this name at this place: 6 where a node has the name, and else
    /// the one that was found after it.
    pub(crate) fn first_fault(&self, name: &Name, at: Place, later: ReadError) -> ReadError
        ensures { result ≡ first_fault (holds self.now name.now) at later }
    {
        if self.holds(name) {
            fault(DUPLICATE_NAME, at)
        } else {
            later
        }
    }

    #[tactic(auto, using(crate::proofs::Opening::growing))]
    /// The tree with one node more on this level, which has no children; `None` exactly where a node
    /// has its name.
    pub(crate) fn grown(self, level: usize, node: Plain) -> Result<Option<Growth>, NoMemory>
        requires level { level ≤ open_levels self }
        requires root { is_second_root level self ≡ false }
        requires room { size_of self < 131072 }
        requires bare { node.children ≡ leafless }
        ensures { IfOk result
            (λ grown. MatchOption grown (holds self node.name ≡ true)
            (λ more. (holds self node.name ≡ false) ×
            (more ≡ put_last level (label_of node) self))) }
    {
        let Growth { path, names, count } = self;
        let mut names = names;
        if !names.insert(node.name)? {
            return Ok(None);
        }
        Ok(Some(Growth {
            path: pushed(path, level, node)?,
            names,
            count: count + 1,
        }))
    }

    #[tactic(auto, using(crate::proofs::Opening::last_root))]
    /// The root with all below it; `None` where there is no node.
    pub(crate) fn root(self) -> Result<Option<Plain>, NoMemory>
        ensures { IfOk result
            (λ root. MatchOption root (self ≡ leafless)
            (λ node. self ≡ tree (label_of node) node.children leafless)) }
    {
        let Growth {
            path,
            names: _,
            count: _,
        } = self;
        let mut path = closed(path, 1)?;
        Ok(path.pop())
    }
}
