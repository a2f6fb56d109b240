ghost use Rattle.std.specs.Prelude.{◌≡◌, ◌∷◌, [], ◌+◌, ◌^◌, ◌<◌, ◌≤◌, IfSome, IfOk, OnOk, OnErr, IsTrue, Some, None, is_none, length};
ghost use Rattle.std.specs.Option.{option_copied, option_copied_mut};
ghost use Rattle.std.specs.Borrow.{sem};
ghost use Rattle.plain_tree.specs.Trees.{size_of, height_of};
ghost use Rattle.node_arena.specs.Numbers.{part_at, below_at, value_at, count_at, child_at, parent_at, way_up, way_of, top_numbers, dropped, is_among, IsChild, IsNumbered};
ghost use Rattle.node_arena.specs.Edits.{tree_at};
ghost use Rattle.node_arena.specs.Plain.{first_node, is_live, with_value, with_node, without_node, with_move, IsSound};
ghost use Rattle.node_arena.specs.Lends.{lends_value};
ghost use Rattle.node_arena.specs.Faults.{is_top, Answers, AnswersOrNoMemory, put_fault, insert_fault, remove_fault, move_fault, place_fault};

use crate::error::ArenaError;
use crate::number::NodeId;
use crate::slots::{
    Slot, count_others, find, height, link, make_room, nth, set_parent, sweep, unlink,
};
use slab::Slab;
use std::alloc::{AllocError, Global};
use std::marker::Model;
use std::mem;

/// The most levels of a tree.
const LEVELS: usize = 64;

/// The nodes of one tree, each under a number.
#[derive(Drop)]
pub struct Arena<T> {
    slots: Slab<Slot<T>>,
    root: NodeId,
    made: u64,
    most_nodes: usize,
    most_children: usize,
    alloc: Global,
}

impl<T> Model for Arena<T> {
    ghost use Rattle.node_arena.specs.Plain.{Nodes, nodes_code};

    ghost Value = { Nodes T };

    ghost coded = { nodes_code T.code };

    ghost use Rattle.node_arena.specs.Inside.{whole, Fits};

    ghost view = { λ a. record { tree = whole a.slots.slots a.root; made = a.made; most_nodes = a.most_nodes; most_children = a.most_children } };

    ghost invariant = { λ a. Fits a.slots.slots a.root a.made a.most_nodes a.most_children (whole a.slots.slots a.root) };
}

impl<T: Drop> Arena<T> {
    /// A tree of one node, for at most so many nodes, and so many children of one node; both are at least 1.
    ///
    /// It answers `AllocError` where memory is wanting.
    pub fn new(
        alloc: Global,
        root: T,
        nodes: usize,
        children: usize,
    ) -> Result<(Arena<T>, NodeId), AllocError>
        requires { (1 ≤ nodes) × (1 ≤ children) }
        ensures { IfOk result (λ made. made.0 ≡ first_node made.1 root nodes children) }
    {
        let mut slots = Slab::new(alloc);
        let slot = slots.insert(Slot {
            turn: 0,
            value: root,
            parent: None,
            children: Vec::new(alloc),
        })?;
        let root = NodeId { slot, turn: 0 };
        let arena = Arena {
            slots,
            root,
            made: 1,
            most_nodes: nodes,
            most_children: children,
            alloc,
        };
        Ok((arena, root))
    }

    /// The root of the tree. What holds of every arena is told here.
    pub fn root(&self) -> NodeId
        ensures root { top_numbers self.now.tree ≡ result ∷ [] }
        ensures sound { IsSound self.now }
    {
        self.root
    }

    /// How many nodes there are.
    pub fn len(&self) -> usize
        ensures { result ≡ size_of self.now.tree }
    {
        self.slots.len()
    }

    /// How many nodes were made so far, the root among them.
    pub fn inserted(&self) -> u64
        ensures { result ≡ self.now.made }
    {
        self.made
    }

    /// Whether a number names a node. No node stands below level 64.
    pub fn is_live(&self, id: NodeId) -> bool
        ensures live { result ≡ is_live self.now id }
        ensures level { length (way_up self.now.tree id) ≤ 64 }
    {
        match find(&self.slots, id) {
            Some(_) => true,
            None => false,
        }
    }

    /// The value of a node; `None` exactly where the number names none.
    pub fn get(&self, id: NodeId) -> Option<&T>
        ensures { option_copied result ≡ value_at self.now.tree id }
    {
        match find(&self.slots, id) {
            Some(slot) => Some(&slot.value),
            None => None,
        }
    }

    /// How many children a node has; 0 where the number names none.
    pub fn count(&self, id: NodeId) -> usize
        ensures { result ≡ count_at self.now.tree id }
    {
        match find(&self.slots, id) {
            Some(slot) => slot.children.len(),
            None => 0,
        }
    }

    /// The numbers of a node's children, in document order; none where the number names no node.
    pub fn children(&self, id: NodeId) -> &[NodeId]
        ensures { result.now ≡ top_numbers (below_at self.now.tree id) }
    {
        match find(&self.slots, id) {
            Some(slot) => &slot.children,
            None => &[],
        }
    }

    /// The number of a child; `None` exactly where there is no child of this index.
    pub fn child(&self, id: NodeId, index: usize) -> Option<NodeId>
        ensures number { result ≡ child_at self.now.tree id index }
        ensures child { IfSome result (λ c. IsChild self.now.tree id index c) }
        ensures numbered { IsNumbered self.now.tree }
    {
        match find(&self.slots, id) {
            Some(slot) => nth(&slot.children, index),
            None => None,
        }
    }

    /// The number of a node's parent; `None` exactly where the number is the root's or names no node.
    pub fn parent(&self, id: NodeId) -> Option<NodeId>
        ensures number { result ≡ parent_at self.now.tree id }
        ensures live { IfSome result (λ parent. IsTrue (is_live self.now parent)) }
        ensures way { IsTrue (is_live self.now id) →
            way_up self.now.tree id ≡ id ∷ way_of self.now.tree result }
        ensures root { IsTrue (is_live self.now id) → is_none result ≡ is_top self.now.tree id }
    {
        match find(&self.slots, id) {
            Some(slot) => slot.parent,
            None => None,
        }
    }

    #[tactic(auto, using(crate::proofs::Reading::way_laws))]
    /// The level of a node, 1 for the root; 0 where the number names none.
    pub fn level(&self, id: NodeId) -> usize
        ensures value { result ≡ length (way_up self.now.tree id) }
        ensures most { result ≤ 64 }
    {
        if !self.is_live(id) {
            return 0;
        }
        let mut level = 0;
        let mut next = Some(id);
        while let Some(number) = next {
            level += 1;
            next = self.parent(number);
        }
        level
    }

    #[tactic(auto, using(crate::proofs::Reading::way_laws))]
    /// Whether a node is another one or stands above it; `false` where the other number names none.
    pub fn is_on_way(&self, id: NodeId, other: NodeId) -> bool
        ensures { result ≡ is_among id (way_up self.now.tree other) }
    {
        if !self.is_live(other) {
            return false;
        }
        let mut next = Some(other);
        while let Some(number) = next {
            if number.is(id) {
                return true;
            }
            next = self.parent(number);
        }
        false
    }

    /// Lends the value of a node; `None` exactly where the number names none.
    pub fn get_mut(&mut self, id: NodeId) -> Option<&mut T>
        ensures* writes_back { sem 𝓛 (lends_value T.row self.entry id result) }
        ensures value { option_copied_mut result ≡ value_at self.old.tree id }
        ensures numbered { IsNumbered self.old.tree }
    {
        if !self.is_live(id) {
            return None;
        }
        match self.slots.get_mut(id.slot) {
            Some(slot) => Some(&mut slot.value),
            None => None,
        }
    }

    /// Gives a node another value, and returns its old one. No node is made.
    pub fn put(&mut self, id: NodeId, value: T) -> Result<T, ArenaError>
        ensures answer { Answers (put_fault self.old id) result }
        ensures ok { OnOk result (self.new ≡ with_value id value self.old) }
        ensures old { IfOk result (λ old. Some old ≡ value_at self.old.tree id) }
        ensures err { OnErr result (self.new ≡ self.old) }
    {
        match self.get_mut(id) {
            Some(place) => Ok(mem::replace(place, value)),
            None => Err(ArenaError::Stale),
        }
    }

    /// Makes a node under a parent, at an index of its children.
    ///
    /// Errors, of which the first that holds is answered: `Stale` exactly where the parent's number names no node,
    /// `BadIndex` where the parent has fewer children, `TooDeep` where the node would stand on level 65, `Full` where
    /// there are as many nodes, or children of the parent, as there may be, and `NoMemory` where memory is wanting.
    pub fn insert(&mut self, parent: NodeId, index: usize, value: T) -> Result<NodeId, ArenaError>
        requires { self.old.made + 1 < 2 ^ 64 }
        ensures answer { AnswersOrNoMemory (insert_fault self.old parent index) result }
        ensures ok { IfOk result (λ id. self.new ≡ with_node parent index id value self.old) }
        ensures turn { IfOk result (λ id. id.turn ≡ self.old.made) }
        ensures fresh { IfOk result (λ id. part_at self.old.tree id ≡ None) }
        ensures err { OnErr result (self.new ≡ self.old) }
    {
        self.may_insert(parent, index)?;
        make_room(&mut self.slots, parent)?;
        let slot = self.slots.insert(Slot {
            turn: self.made,
            value,
            parent: Some(parent),
            children: Vec::new(self.alloc),
        })?;
        let id = NodeId {
            slot,
            turn: self.made,
        };
        link(&mut self.slots, parent, index, id);
        self.made += 1;
        Ok(id)
    }

    fn may_insert(&self, parent: NodeId, index: usize) -> Result<(), ArenaError>
        ensures { Answers (insert_fault self.now parent index) result }
    {
        if !self.is_live(parent) {
            return Err(ArenaError::Stale);
        }
        let count = self.count(parent);
        if index > count {
            return Err(ArenaError::BadIndex);
        }
        if self.level(parent) >= LEVELS {
            return Err(ArenaError::TooDeep);
        }
        if self.len() >= self.most_nodes || count >= self.most_children {
            return Err(ArenaError::Full);
        }
        Ok(())
    }

    /// Removes a node and all below it. Their numbers never name a node again.
    ///
    /// Errors: `Stale` exactly where the number names no node, `Root` where it is the root's.
    pub fn remove(&mut self, id: NodeId) -> Result<(), ArenaError>
        ensures answer { Answers (remove_fault self.old id) result }
        ensures ok { OnOk result (self.new ≡ without_node id self.old) }
        ensures err { OnErr result (self.new ≡ self.old) }
    {
        if !self.is_live(id) {
            return Err(ArenaError::Stale);
        }
        match self.parent(id) {
            Some(parent) => {
                unlink(&mut self.slots, parent, id);
                sweep(&mut self.slots, &[id], 64);
                Ok(())
            }
            None => Err(ArenaError::Root),
        }
    }

    /// Moves a node and all below it under a parent, at an index of the children that the parent has without it.
    ///
    /// Errors, of which the first that holds is answered: `Stale` exactly where a number names no node, `Root` where
    /// the root is to move, `Cycle` where the new parent stands in the moved tree, `BadIndex` where the new parent has
    /// fewer other children, `TooDeep` where a node would stand on level 65, `Full` where the new parent has as many
    /// other children as there may be, and `NoMemory` where memory is wanting.
    pub fn move_to(&mut self, id: NodeId, parent: NodeId, index: usize) -> Result<(), ArenaError>
        ensures answer { AnswersOrNoMemory (move_fault self.old id parent index) result }
        ensures ok { OnOk result (self.new ≡ with_move id parent index self.old) }
        ensures err { OnErr result (self.new ≡ self.old) }
    {
        let before = self.may_move(id, parent, index)?;
        make_room(&mut self.slots, parent)?;
        unlink(&mut self.slots, before, id);
        set_parent(&mut self.slots, id, parent);
        link(&mut self.slots, parent, index, id);
        Ok(())
    }

    /// The parent from which a node may move.
    fn may_move(&self, id: NodeId, parent: NodeId, index: usize) -> Result<NodeId, ArenaError>
        ensures answer { Answers (move_fault self.now id parent index) result }
        ensures before { IfOk result (λ before. parent_at self.now.tree id ≡ Some before) }
    {
        if !self.is_live(id) || !self.is_live(parent) {
            return Err(ArenaError::Stale);
        }
        let before = match self.parent(id) {
            Some(before) => before,
            None => return Err(ArenaError::Root),
        };
        if self.is_on_way(id, parent) {
            return Err(ArenaError::Cycle);
        }
        self.may_place(id, parent, index)?;
        Ok(before)
    }

    fn may_place(&self, id: NodeId, parent: NodeId, index: usize) -> Result<(), ArenaError>
        requires { IsTrue (is_live self.now id) }
        ensures { Answers (place_fault self.now id parent index) result }
    {
        let count = self.count_others(parent, id);
        if index > count {
            return Err(ArenaError::BadIndex);
        }
        if self.level(parent) + self.height(id) > LEVELS {
            return Err(ArenaError::TooDeep);
        }
        if count >= self.most_children {
            return Err(ArenaError::Full);
        }
        Ok(())
    }

    /// How many children a node has without one of them.
    fn count_others(&self, parent: NodeId, id: NodeId) -> usize
        ensures { result ≡ length (dropped id (top_numbers (below_at self.now.tree parent))) }
    {
        match find(&self.slots, parent) {
            Some(slot) => count_others(&slot.children, id),
            None => 0,
        }
    }

    /// How many levels a node and all below it have.
    fn height(&self, id: NodeId) -> usize
        requires { IsTrue (is_live self.now id) }
        ensures value { result ≡ height_of (tree_at id self.now.tree) }
        ensures most { result ≤ 64 }
    {
        height(&self.slots, &[id], 64)
    }
}
