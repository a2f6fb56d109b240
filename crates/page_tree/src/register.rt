//! The arena of the nodes, with their numbers by name.

ghost use Rattle.std.specs.Prelude.{◌≡◌, ◌≤◌, ◌<◌, ◌+◌, ◌^◌, [], false, IfOk, OnErr, OnOk, IsSome, None};
ghost use Rattle.layout_cache.specs.Reach.{all_forgot};
ghost use Rattle.node_arena.specs.Numbers.{part_at, times};
ghost use Rattle.node_arena.specs.Faults.{is_top};
ghost use Rattle.node_arena.specs.Plain.{first_node, with_node, with_move, with_value, without_node};
ghost use Rattle.node_arena.specs.Edits.{removed};
ghost use Rattle.doc_text.specs.Growth.{holds};
ghost use Rattle.placing.specs.Keeping.{without_answers, without_past_of};
ghost use Rattle.box_layout.specs.BoxesSeen.{bare_boxes, AreNear};
ghost use Rattle.box_layout.specs.FoundRoots.{IsRootFrame};
ghost use Rattle.box_layout.specs.LastBoxes.{AreFound};
ghost use Rattle.box_layout.specs.LeafHeights.{AreMeasured};
ghost use Rattle.box_layout.specs.Paths.{IsAllKept, IsAsked, IsCutShort, IsPathKept};
ghost use Rattle.placing.specs.Ranges.{AreReadable};
ghost use Rattle.placing.specs.Walks.{state, Walk};
ghost use Rattle.placing.specs.Kept.{kept_at, IsRight};
ghost use Rattle.placing.specs.Nodes.{bare};
ghost use Rattle.page_tree.specs.Documents.{plain_trees};
ghost use Rattle.page_tree.specs.Registers.{AreNamed, Finds, HasName};
ghost use Rattle.page_tree.specs.Restyled.{with_styles};
ghost use Rattle.page_tree.specs.RootFrames.{boxes_in, IsKeptIn, IsRootIn};

use crate::children::take_names;
use crate::restyle::write_all;
use box_layout::{BoxSink, LastBoxes, RootFrame, kept_boxes, walk_boxes};
use layout_cache::drop_reached;
use lunit::{Lu, Name, NoMemory, Sequence, Steps};
use node_arena::{Arena, NodeId};
use outside::{Ruler, Tally};
use placing::{Node, drop_past};
use std::alloc::Global;
use std::collections::BTreeMap;
use std::marker::Model;
use std::sync::ledger::Ledger;
use style_types::Style;

/// The nodes of a document in their arena, each found by its name. Contracts see the arena.
#[derive(Drop)]
pub struct Register {
    tree: Arena<Node>,
    numbers: BTreeMap<Name, NodeId>,
}

impl Model for Register {
    ghost use Rattle.node_arena.specs.Plain.{Nodes, nodes_code};
    ghost use Rattle.placing.specs.declared.node.Node.{Node};
    ghost use Rattle.placing.specs.contracts.node.Node as node;

    ghost Value = { Nodes Node };

    ghost coded = { nodes_code node.the_row.coded };

    ghost use Rattle.std.specs.BTreeMap.{get};
    ghost use Rattle.std.specs.Ordering.{nat_cmp};
    ghost use Rattle.std.specs.Cmp.Lexicographic.{slice_cmp};
    ghost use Rattle.page_tree.specs.Registers.{IsRegister};

    ghost view = { λ a. a.tree };

    ghost invariant = { λ a. IsRegister (get (slice_cmp nat_cmp) a.numbers) a.tree.tree };
}

impl Register {
    /// A tree of one node, for at most so many nodes, and so many children of one node.
    pub(crate) fn new(
        alloc: Global,
        root: Node,
        nodes: usize,
        children: usize,
    ) -> Result<(Register, NodeId), NoMemory>
        requires { (1 ≤ nodes) × (1 ≤ children) }
        ensures { IfOk result (λ made. made.0 ≡ first_node made.1 root nodes children) }
    {
        let name = root.name;
        let (tree, id) = Arena::new(alloc, root, nodes, children)?;
        let mut numbers = BTreeMap::new(alloc);
        numbers.insert(name, id)?;
        Ok((Register { tree, numbers }, id))
    }

    /// The arena.
    pub fn tree(&self) -> &Arena<Node>
        ensures { result.now ≡ self.now }
    {
        &self.tree
    }

    /// The number of the node of a name; `None` exactly where no node has the name.
    pub fn find(&self, name: &Name) -> Option<NodeId>
        ensures { Finds self.now.tree name.now result }
    {
        match self.numbers.get(name) {
            Some(id) => Some(*id),
            None => None,
        }
    }

    /// Makes a node of a new name under a parent, at an index of its children. Where the arena
    /// refuses, and where memory is wanting, nothing is changed.
    pub(crate) fn insert(
        &mut self,
        parent: NodeId,
        index: usize,
        node: Node,
    ) -> Result<NodeId, NoMemory>
        requires new { holds (plain_trees self.old.tree) node.name ≡ false }
        requires parent { IsSome (part_at self.old.tree parent) }
        requires made { self.old.made + 1 < 2 ^ 64 }
        ensures ok { IfOk result (λ id. self.new ≡ with_node parent index id node self.old) }
        ensures fresh { IfOk result (λ id. part_at self.old.tree id ≡ None) }
        ensures err { OnErr result (self.new ≡ self.old) }
    {
        let name = node.name;
        self.numbers.insert(name, parent)?;
        match self.tree.insert(parent, index, node) {
            Ok(id) => {
                // The name is there, so this takes no memory.
                self.numbers.insert(name, id)?;
                Ok(id)
            }
            Err(_) => {
                self.numbers.remove(&name);
                Err(NoMemory)
            }
        }
    }

    /// Gives a node other values under its name.
    pub(crate) fn put(&mut self, id: NodeId, node: Node)
        requires live { IsSome (part_at self.old.tree id) }
        requires name { HasName id node.name self.old.tree }
        ensures { self.new ≡ with_value id node self.old }
    {
        match self.tree.put(id, node) {
            Ok(old) => drop(old),
            Err(_) => unreachable!(),
        }
    }

    /// Removes a node that is not the root and has this name, with all below it. Takes no memory.
    pub(crate) fn remove(&mut self, id: NodeId, name: &Name)
        requires live { IsSome (part_at self.old.tree id) }
        requires low { is_top self.old.tree id ≡ false }
        requires name { HasName id name.now self.old.tree }
        ensures { self.new ≡ without_node id self.old }
    {
        let _ = self.tree.root();
        self.numbers.remove(name);
        take_names(&self.tree, id, &mut self.numbers);
        match self.tree.remove(id) {
            Ok(()) => {}
            Err(_) => unreachable!(),
        }
    }

    /// Moves a node and all below it under another that does not stand in its tree, at an index of
    /// the children that are left. Where the arena refuses, and where memory is wanting, nothing is
    /// changed.
    pub(crate) fn move_to(&mut self, id: NodeId, to: NodeId, index: usize) -> Result<(), NoMemory>
        requires live { IsSome (part_at (removed id self.old.tree) to) }
        requires once { times to (removed id self.old.tree) ≤ 1 }
        ensures ok { OnOk result (self.new ≡ with_move id to index self.old) }
        ensures err { OnErr result (self.new ≡ self.old) }
    {
        match self.tree.move_to(id, to, index) {
            Ok(()) => Ok(()),
            Err(_) => Err(NoMemory),
        }
    }

    /// Hands over the boxes of all nodes in a viewport of this size, in document order. What is
    /// kept is taken, and what is found is kept.
    pub(crate) fn lay_out<T: BoxSink, R: Ruler, L: Ledger>(
        &mut self,
        alloc: Global,
        size: (Lu, Lu),
        told: &mut T,
        last: &mut LastBoxes,
        ruler: &mut R,
        tally: &mut Tally,
        passes: &mut Steps<L>,
    ) -> Result<RootFrame, NoMemory>
        requires right { IsRight self.old.tree }
        requires readable { AreReadable (bare self.old.tree) }
        requires last { AreFound (bare self.old.tree) (kept_at self.old.tree) last.old }
        ensures root { IfOk result (λ root. IsRootFrame (bare self.old.tree) size.0 size.1 root) }
        ensures value { OnOk result
            (T.adds told.old told.new (bare_boxes size.0 size.1 (bare self.old.tree))) }
        ensures near { OnOk result (AreNear (bare_boxes size.0 size.1 (bare self.old.tree))) }
        ensures bare { bare self.new.tree ≡ bare self.old.tree }
        ensures right { IsRight self.new.tree }
        ensures laid { OnOk result
            (Walk (IsAsked (bare self.old.tree) size.0 size.1) 0 []
            (state self.old tally.old passes.old (R.log ruler.old))
            (state self.new tally.new passes.new (R.log ruler.new))) }
        ensures cut { OnErr result
            (IsCutShort (bare self.old.tree) size.0 size.1
            (state self.old tally.old passes.old (R.log ruler.old))
            (state self.new tally.new passes.new (R.log ruler.new))) }
        ensures paths { OnOk result
            (IsPathKept (bare self.old.tree) size.0 size.1
            (state self.new tally.new passes.new (R.log ruler.new))) }
        ensures leaves { OnOk result
            (AreMeasured (bare self.old.tree) size.0 size.1
            (state self.old tally.old passes.old (R.log ruler.old))
            (state self.new tally.new passes.new (R.log ruler.new))) }
        ensures quiet { IsAllKept (bare self.old.tree) size.0 size.1
            (state self.old tally.old passes.old (R.log ruler.old)) →
            state self.new tally.new passes.new (R.log ruler.new) ≡
            state self.old tally.old passes.old (R.log ruler.old) }
        ensures last { AreFound (bare self.new.tree) (kept_at self.new.tree) last.new }
    {
        walk_boxes(
            alloc,
            &mut self.tree,
            size,
            told,
            last,
            ruler,
            tally,
            passes,
        )
    }

    /// Hands over the boxes as a layout does, by the frame that it found for the root, where
    /// nothing was let go since. Nothing changes.
    pub(crate) fn kept_boxes<T: BoxSink, L: Ledger>(
        &mut self,
        alloc: Global,
        root_frame: &RootFrame,
        told: &mut T,
        last: &mut LastBoxes,
        passes: &mut Steps<L>,
    ) -> Result<(), NoMemory>
        requires right { IsRight self.old.tree }
        requires readable { AreReadable (bare self.old.tree) }
        requires last { AreFound (bare self.old.tree) (kept_at self.old.tree) last.old }
        requires root { IsRootIn self.old root_frame.now }
        requires kept { IsKeptIn self.old root_frame.now }
        ensures value { OnOk result (T.adds told.old told.new (boxes_in self.old root_frame.now)) }
        ensures near { OnOk result (AreNear (boxes_in self.old root_frame.now)) }
        ensures same { self.new ≡ self.old }
        ensures passes { passes.new ≡ passes.old }
        ensures last { AreFound (bare self.new.tree) (kept_at self.new.tree) last.new }
    {
        kept_boxes(alloc, &mut self.tree, root_frame, told, last, passes)
    }

    /// Lets the answers of these nodes go, and passes over a number that names no node. Takes no
    /// memory.
    pub(crate) fn let_go(&mut self, reached: &[NodeId])
        ensures { self.new ≡ all_forgot without_answers reached.now self.old }
    {
        drop_reached(&mut self.tree, reached);
    }

    /// Lets go what these nodes keep longer than their answers, of `all` of them or of those alone
    /// that may be subgrids, and passes over a number that names no node. Takes no memory.
    pub(crate) fn let_past_go(&mut self, reached: &[NodeId], all: bool)
        ensures { self.new ≡ all_forgot (without_past_of all) reached.now self.old }
    {
        drop_past(&mut self.tree, reached, all);
    }

    /// The arena. Each node is the one of its number and of its name.
    pub(crate) fn named_tree(&self) -> &Arena<Node>
        ensures same { result.now ≡ self.now }
        ensures named { AreNamed self.now.tree }
    {
        &self.tree
    }

    /// Gives each of these nodes its computed style, and passes over a number that names no node.
    /// It takes no memory.
    pub(crate) fn restyle(&mut self, styles: Sequence<(NodeId, Style)>)
        ensures { self.new ≡ with_styles styles self.old }
    {
        write_all(&mut self.tree, styles);
    }
}
