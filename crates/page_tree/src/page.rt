//! A document as the engine holds it.

ghost use Rattle.std.specs.Prelude.{◌≡◌, [], ⊤, false, Ok, Some, IfOk, IsOk, OnOk, OnErr, IsSome};
ghost use Rattle.plain_tree.specs.Trees.{leafless};
ghost use Rattle.node_arena.specs.Edits.{removed};
ghost use Rattle.node_arena.specs.Faults.{is_top};
ghost use Rattle.node_arena.specs.Numbers.{part_at};
ghost use Rattle.doc_text.specs.Edits.{tree_of};
ghost use Rattle.doc_text.specs.Growth.{holds};
ghost use Rattle.doc_text.specs.Label.{Label};
ghost use Rattle.doc_text.specs.Named.{IsDistinct};
ghost use Rattle.doc_text.specs.View.{label_of};
ghost use Rattle.box_layout.specs.BoxesSeen.{AreNear};
ghost use Rattle.box_layout.specs.LastBoxes.{AreFound};
ghost use Rattle.box_layout.specs.LeafHeights.{AreMeasured};
ghost use Rattle.box_layout.specs.Paths.{IsAllKept, IsAsked, IsCutShort, IsPathKept};
ghost use Rattle.doc_text.specs.Valid.{IsValid};
ghost use Rattle.placing.specs.Walks.{state, Walk};
ghost use Rattle.layout_cache.specs.Reach.{all_forgot};
ghost use Rattle.placing.specs.Keeping.{without_answers, without_past_of, KeepsNone};
ghost use Rattle.placing.specs.Nodes.{bare};
ghost use Rattle.page_tree.specs.Answered.{HasSize};
ghost use Rattle.page_tree.specs.Boxes.{boxes_of};
ghost use Rattle.placing.specs.Kept.{kept_at, IsRight};
ghost use Rattle.page_tree.specs.Documents.{kind_of, Becomes};
ghost use Rattle.page_tree.specs.Filled.{Fills, IsLone};
ghost use Rattle.page_tree.specs.Fits.{AreNamedAnew};
ghost use Rattle.page_tree.specs.Moves.{AreApart};
ghost use Rattle.page_tree.specs.Pages.{document_of, trees_in, IsAround, IsRoot, Stands, StandsUnder};
ghost use Rattle.page_tree.specs.RootFrames.{IsRootOf, KeepsPath};
ghost use Rattle.page_tree.specs.Registers.{Finds, HasName};
ghost use Rattle.page_tree.specs.Shapes.{Adds, Relabels, Shifts};

use crate::font::{font_at, font_of_root, root_font};
use crate::laws::valid_documents_are_readable;
use crate::node::{made, node_kind};
use crate::plain::plain_at;
use crate::register::Register;
use crate::restyle::{fonts_with, styles_below, styles_under};
use box_layout::{BoxSink, LastBoxes, RootFrame};
use doc_text::{Doc, MAX_CHILDREN, Plain, node_limit};
use lunit::{Copied, Lu, Name, NoMemory, Steps};
use node_arena::{Arena, NodeId};
use outside::{Ruler, Tally};
use placing::{Node, NodeKind, turn_of};
use std::alloc::Global;
use std::marker::Model;
use std::sync::ledger::Ledger;
use style_types::Declared;

/// A document in the form that edits and layouts work on: its nodes in an arena, found by their
/// names, each with its computed style and the answers that it keeps.
#[derive(Drop)]
pub struct Page {
    version: u8,
    width: Lu,
    height: Lu,
    nodes: Register,
    alloc: Global,
}

impl Model for Page {
    ghost use Rattle.page_tree.specs.Pages.{Held, held_code, IsPage};

    ghost Value = { Held };

    ghost coded = { held_code };

    ghost view = { λ a. record { version = a.version; width = a.width; height = a.height; nodes = a.nodes } };

    ghost invariant = { λ a. IsPage a.nodes.tree };
}

impl Page {
    /// The version of the language, 1 or 2.
    pub fn version(&self) -> u8
        ensures { result ≡ self.now.version }
    {
        self.version
    }

    /// The width of the viewport.
    pub(crate) fn width(&self) -> Lu
        ensures { result ≡ self.now.width }
    {
        self.width
    }

    /// The height of the viewport.
    pub(crate) fn height(&self) -> Lu
        ensures { result ≡ self.now.height }
    {
        self.height
    }

    /// The nodes.
    pub fn tree(&self) -> &Arena<Node>
        ensures { result.now ≡ self.now.nodes }
    {
        self.nodes.tree()
    }

    /// The nodes. What holds of every page is told here.
    pub(crate) fn stands(&self) -> &Arena<Node>
        ensures { Stands self.now.nodes.tree }
    {
        let tree = self.nodes.named_tree();
        let _ = tree.root();
        tree
    }

    /// The viewport has this size. No kept answer depends on it.
    pub(crate) fn set_viewport(&mut self, width: Lu, height: Lu)
        ensures size { HasSize width height self.old self.new }
        ensures nodes { self.new.nodes ≡ self.old.nodes }
    {
        self.width = width;
        self.height = height;
    }

    /// The number of the node of a name; `None` exactly where no node has the name.
    pub fn find(&self, name: &Name) -> Option<NodeId>
        ensures { Finds self.now.nodes.tree name.now result }
    {
        self.nodes.find(name)
    }

    /// The document of a root alone, and the number of the root.
    fn of_root(alloc: Global, doc: &Doc) -> Result<(Page, NodeId), NoMemory>
        ensures { IfOk result (λ made. IsRoot doc.now made.1 made.0) }
    {
        let font = font_of_root(&doc.root.style);
        let kind = node_kind(alloc, &doc.root.kind)?;
        let declared = doc.root.style.copy(alloc)?;
        let root = made(alloc, doc.root.name, kind, declared, font, font, 1)?;
        let (nodes, id) = Register::new(alloc, root, node_limit(doc.version), MAX_CHILDREN)?;
        let page = Page {
            version: doc.version,
            width: doc.width,
            height: doc.height,
            nodes,
            alloc,
        };
        Ok((page, id))
    }

    /// A node as it stands under another.
    fn node_under(&self, parent: NodeId, plain: &Plain) -> Result<Node, NoMemory>
        requires { IsSome (part_at self.now.nodes.tree parent) }
        ensures { IfOk result (λ node. StandsUnder parent self.now.nodes.tree plain.now node) }
    {
        let tree = self.nodes.tree();
        let root = root_font(tree);
        let font = plain.style.font(font_at(tree, root, parent), root);
        let kind = node_kind(self.alloc, &plain.kind)?;
        let declared = plain.style.copy(self.alloc)?;
        made(self.alloc, plain.name, kind, declared, font, root, 1)
    }

    /// Makes a node without children under another, at an index of its children. It takes all its
    /// memory first.
    pub(crate) fn add(
        &mut self,
        parent: NodeId,
        index: usize,
        plain: &Plain,
    ) -> Result<NodeId, NoMemory>
        requires live { IsSome (part_at self.old.nodes.tree parent) }
        requires new { holds (trees_in self.old) plain.now.name ≡ false }
        ensures adds { IfOk result
            (λ id. Adds parent index (label_of plain.now) id self.old.nodes.tree
            self.new.nodes.tree) }
        ensures around { IsAround self.old self.new }
        ensures err { OnErr result (self.new ≡ self.old) }
    {
        if self.nodes.tree().inserted() == u64::MAX {
            return Err(NoMemory);
        }
        let node = self.node_under(parent, plain)?;
        let id = self.nodes.insert(parent, index, node)?;
        Ok(id)
    }

    /// Gives the node of a name and a number another kind and other values, and where these change
    /// its font size, all nodes below it the computed styles that follow. It takes all its memory
    /// first.
    pub(crate) fn relabel(
        &mut self,
        name: &Name,
        id: NodeId,
        kind: NodeKind,
        declared: Declared,
    ) -> Result<(), NoMemory>
        requires { Finds self.old.nodes.tree name.now (Some id) }
        ensures around { OnOk result (IsAround self.old self.new) }
        ensures changes { OnOk result
            ((change : Label → Label) →
            Becomes id change
            (record { name = name.now; kind = kind_of kind; style = declared })
            self.old.nodes.tree →
            Relabels name.now change self.old.nodes.tree self.new.nodes.tree) }
        ensures err { OnErr result (self.new ≡ self.old) }
    {
        let tree = self.nodes.tree();
        let _ = tree.root();
        let (font, root) = fonts_with(tree, id, &declared);
        let styles = styles_below(self.alloc, tree, id, font, root)?;
        let turn = turn_of(tree, id);
        let node = made(self.alloc, *name, kind, declared, font, root, turn)?;
        self.nodes.put(id, node);
        self.nodes.restyle(styles);
        Ok(())
    }

    /// Takes the node of a number and a name, which is not the root, out with all below it. Takes
    /// no memory.
    pub(crate) fn take_out(&mut self, id: NodeId, name: &Name)
        requires live { IsSome (part_at self.old.nodes.tree id) }
        requires low { is_top self.old.nodes.tree id ≡ false }
        requires name { HasName id name.now self.old.nodes.tree }
        ensures nodes { self.new.nodes.tree ≡ removed id self.old.nodes.tree }
        ensures around { IsAround self.old self.new }
    {
        self.nodes.remove(id, name);
    }

    /// Moves the node of a name and a number under that of another, at an index of the children
    /// that are left. It takes all its memory first.
    pub(crate) fn move_under(
        &mut self,
        name: &Name,
        parent: &Name,
        id: NodeId,
        to: NodeId,
        index: usize,
    ) -> Result<(), NoMemory>
        requires { AreApart self.old.nodes.tree name.now parent.now id to }
        ensures changes { OnOk result
            (Shifts name.now parent.now index self.old.nodes.tree self.new.nodes.tree) }
        ensures around { OnOk result (IsAround self.old self.new) }
        ensures err { OnErr result (self.new ≡ self.old) }
    {
        let tree = self.nodes.tree();
        let _ = tree.root();
        let styles = styles_under(self.alloc, tree, id, to)?;
        self.nodes.move_to(id, to, index)?;
        self.nodes.restyle(styles);
        Ok(())
    }

    /// Hands over the boxes of the document in its viewport, each with the name of its node, in
    /// document order, in units of 1/64 px (CSS Grid 2, section 6; CSS Flexbox 1, section 9). Kept
    /// answers are taken, and what is found is kept; each of both is right. So it is with the boxes
    /// of containers that were found last.
    ///
    /// It answers the frame of the root, by which the boxes are found again while nothing is let
    /// go. `NoMemory` where memory is wanting; what was kept by then is right, and the document is
    /// the same.
    pub fn lay_out<T: BoxSink, R: Ruler, L: Ledger>(
        &mut self,
        told: &mut T,
        last: &mut LastBoxes,
        ruler: &mut R,
        tally: &mut Tally,
        passes: &mut Steps<L>,
    ) -> Result<RootFrame, NoMemory>
        requires valid { IsValid (document_of self.old) }
        requires right { IsRight self.old.nodes.tree }
        requires last { AreFound (bare self.old.nodes.tree) (kept_at self.old.nodes.tree) last.old }
        ensures root { IfOk result (λ root. IsRootOf self.old root) }
        ensures boxes { OnOk result (T.adds told.old told.new (boxes_of (document_of self.old))) }
        ensures near { OnOk result (AreNear (boxes_of (document_of self.old))) }
        ensures document { document_of self.new ≡ document_of self.old }
        ensures bare { bare self.new.nodes.tree ≡ bare self.old.nodes.tree }
        ensures right { IsRight self.new.nodes.tree }
        ensures laid { OnOk result
            (Walk (IsAsked (bare self.old.nodes.tree) self.old.width self.old.height) 0 []
            (state self.old.nodes tally.old passes.old (R.log ruler.old))
            (state self.new.nodes tally.new passes.new (R.log ruler.new))) }
        ensures cut { OnErr result
            (IsCutShort (bare self.old.nodes.tree) self.old.width self.old.height
            (state self.old.nodes tally.old passes.old (R.log ruler.old))
            (state self.new.nodes tally.new passes.new (R.log ruler.new))) }
        ensures paths { OnOk result
            (IsPathKept (bare self.old.nodes.tree) self.old.width self.old.height
            (state self.new.nodes tally.new passes.new (R.log ruler.new))) }
        ensures leaves { OnOk result
            (AreMeasured (bare self.old.nodes.tree) self.old.width self.old.height
            (state self.old.nodes tally.old passes.old (R.log ruler.old))
            (state self.new.nodes tally.new passes.new (R.log ruler.new))) }
        ensures quiet { IsAllKept (bare self.old.nodes.tree) self.old.width self.old.height
            (state self.old.nodes tally.old passes.old (R.log ruler.old)) →
            state self.new.nodes tally.new passes.new (R.log ruler.new) ≡
            state self.old.nodes tally.old passes.old (R.log ruler.old) }
        ensures last { AreFound (bare self.new.nodes.tree) (kept_at self.new.nodes.tree) last.new }
    {
        let _ = self.stands();
        valid_documents_are_readable(self);
        let size = (self.width, self.height);
        self.nodes
            .lay_out(self.alloc, size, told, last, ruler, tally, passes)
    }

    /// Hands over the boxes as [`Page::lay_out`] does, by the frame that it found for the root and
    /// by what the containers keep since. Nothing is asked anew, and nothing changes. `NoMemory`
    /// where memory is wanting.
    pub fn kept_boxes<T: BoxSink, L: Ledger>(
        &mut self,
        root_frame: &RootFrame,
        told: &mut T,
        last: &mut LastBoxes,
        passes: &mut Steps<L>,
    ) -> Result<(), NoMemory>
        requires valid { IsValid (document_of self.old) }
        requires right { IsRight self.old.nodes.tree }
        requires last { AreFound (bare self.old.nodes.tree) (kept_at self.old.nodes.tree) last.old }
        requires root { IsRootOf self.old root_frame.now }
        requires kept { KeepsPath self.old }
        ensures boxes { OnOk result (T.adds told.old told.new (boxes_of (document_of self.old))) }
        ensures near { OnOk result (AreNear (boxes_of (document_of self.old))) }
        ensures same { self.new ≡ self.old }
        ensures passes { passes.new ≡ passes.old }
        ensures last { AreFound (bare self.new.nodes.tree) (kept_at self.new.nodes.tree) last.new }
    {
        let _ = self.stands();
        valid_documents_are_readable(self);
        self.nodes
            .kept_boxes(self.alloc, root_frame, told, last, passes)
    }

    /// The document. `NoMemory` where memory is wanting.
    pub fn document(&self) -> Result<Doc, NoMemory>
        ensures { IfOk result (λ doc. doc ≡ document_of self.now) }
    {
        let _ = self.stands();
        let tree = self.tree();
        let root = plain_at(self.alloc, tree, tree.root())?;
        Ok(Doc {
            version: self.version,
            width: self.width,
            height: self.height,
            root,
        })
    }

    /// Lets the answers of these nodes go. Takes no memory.
    pub(crate) fn let_go(&mut self, reached: &[NodeId])
        ensures document { document_of self.new ≡ document_of self.old }
        ensures nodes { self.new.nodes ≡ all_forgot without_answers reached.now self.old.nodes }
    {
        self.nodes.let_go(reached);
    }

    /// Lets go what these nodes keep longer than their answers: of `all` of them, or of those alone
    /// that may be subgrids. Takes no memory.
    pub(crate) fn let_past_go(&mut self, reached: &[NodeId], all: bool)
        ensures document { document_of self.new ≡ document_of self.old }
        ensures nodes { self.new.nodes ≡
            all_forgot (without_past_of all) reached.now self.old.nodes }
    {
        self.nodes.let_past_go(reached, all);
    }

    /// Where memory is taken.
    pub fn alloc(&self) -> Global {
        self.alloc
    }

    /// The page of a document whose names differ, as those of every valid document do. No answer is
    /// kept yet.
    ///
    /// `NoMemory` where memory is wanting.
    pub fn new(alloc: Global, doc: &Doc) -> Result<Page, NoMemory>
        requires { IsDistinct (tree_of doc.now) }
        ensures document { IfOk result (λ page. document_of page ≡ doc.now) }
        ensures right { IfOk result (λ page. IsRight page.nodes.tree) }
        ensures none { IfOk result (λ page. KeepsNone page.nodes.tree) }
    {
        let (mut page, root) = Page::of_root(alloc, doc)?;
        fill(&mut page, root, &doc.root)?;
        Ok(page)
    }
}

#[tactic(auto, using(crate::proofs::Filling::filling))]
/// Makes all nodes below one that has none yet. Where memory is wanting some of them were made.
pub(crate) fn fill(page: &mut Page, id: NodeId, node: &Plain) -> Result<(), NoMemory>
    requires lone { IsLone id page.old.nodes.tree }
    requires names { AreNamedAnew node.now.children (trees_in page.old) }
    ensures ok { OnOk result
        (Fills (λ below. below ≡ node.now.children) id page.old.nodes.tree page.new.nodes.tree) }
    ensures err { OnErr result (Fills (λ below. ⊤) id page.old.nodes.tree page.new.nodes.tree) }
    ensures bare { node.now.children ≡ leafless → IsOk result }
    ensures around { IsAround page.old page.new }
{
    let _ = page.stands();
    let children = node.children.nodes();
    for index in 0..children.len() {
        let _ = page.stands();
        let child = &children[index];
        let below = page.add(id, index, child)?;
        fill(page, below, child)?;
    }
    Ok(())
}
