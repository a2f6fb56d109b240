ghost use Rattle.std.specs.Prelude.{◌≡◌, ◌+◌, ◌-◌, ◌^◌, ◌≤◌, ◌∷◌, [], List, Option, Ok, false, true, min, IfOk, OnOk, OnErr};
ghost use Rattle.outside.specs.declared.event.Event.{Event};
ghost use Rattle.placing.specs.Keeping.{KeepsNone};
ghost use Rattle.sparing.specs.Sparing.{Touches};
ghost use Rattle.session.specs.Spares.{SparesDue, SparesAfter};
ghost use Rattle.doc_text.specs.declared.edit.Edit.TheVariants as edit;
ghost use Rattle.doc_text.specs.Laws.{IsChange, NamesItsNode};
ghost use Rattle.doc_text.specs.Valid.{IsValid};
ghost use Rattle.session.specs.Boxes.{boxes_of};
ghost use Rattle.session.specs.Courses.{no_steps};
ghost use Rattle.session.specs.Engine.{Applies, IsEdit, IsSame, IsToldEdit};
ghost use Rattle.session.specs.Hits.{box_under};
ghost use Rattle.session.specs.Laying.{IsQuiet, LaysOut, Keeps, KeepsAll, KeepsMore, KeepsPath, Walks};
ghost use Rattle.std.specs.List.{All};
ghost use Rattle.session.specs.Logs.{LogsFront};
ghost use Rattle.session.specs.Printing.{IsPrintableBox};
ghost use Rattle.session.specs.Standing.{doc_of, HaveLed, IsSound};

use crate::faults::{NOTHING_TO_REDO, NOTHING_TO_UNDO};
use crate::laying::lay_out;
use crate::pointed::{PointedBoxes, kept_boxes};
use crate::tracing::{edit, make_all_again, take_all_back};
use box_layout::{BoxList, BoxSink, LastBoxes, RootFrame};
use doc_text::{Doc, Edit};
use edit_journal::Journal;
use lunit::{Lu, Name, NoMemory, Rect, Sequence, Steps};
use outside::{Ruler, Tally};
use page_tree::{EditError, Page};
use std::alloc::Global;
use std::marker::Model;
use std::sync::ledger::Ledger;
use text_scan::{Fault, Place};

/// A valid document that is edited and laid out, with the steps that led to it, so that edits can
/// be taken back. Every answer that its nodes keep is right, and so are the boxes of containers
/// that were found last, which contracts do not see.
#[derive(Drop)]
pub struct Engine {
    page: Page,
    last: LastBoxes,
    journal: Journal,
    calls: u32,
    // The frame of the root, where the document was laid out since it was made or changed.
    root: Option<RootFrame>,
    // The boxes of the document, once a point was asked for.
    pointed: Option<PointedBoxes>,
}

impl Model for Engine {
    ghost use Rattle.session.specs.Standing.{Standing, standing_code, steps_of};

    ghost Value = { Standing };

    ghost coded = { standing_code };

    ghost use Rattle.std.specs.Prelude.{IfSome, is_some};

    ghost view = { λ a. record { page = a.page; calls = a.calls; laid = is_some a.root; steps = steps_of a.journal } };

    ghost use Rattle.std.specs.Prelude.{◌≡◌};
    ghost use Rattle.page_tree.specs.Pages.{document_of};
    ghost use Rattle.session.specs.Boxes.{boxes_of};
    ghost use Rattle.session.specs.Standing.{IsLaidBy, IsWell};

    ghost invariant = { λ a. IsWell a.page a.last (steps_of a.journal) × (IfSome a.root (IsLaidBy a.page) × IfSome a.pointed (λ boxes. boxes ≡ boxes_of (document_of a.page))) };
}

/// The boxes of a document, in document order, and what it took to lay it out.
#[derive(Drop)]
pub struct Layout {
    /// Each node's name and its border box, in units of 1/64 px.
    pub boxes: Sequence<(Name, Rect)>,
    /// How often a leaf was measured, or 2^64 - 1 where that is less.
    pub measured: u64,
    /// How many answers were kept, or 2^64 - 1 where that is less.
    pub added: u64,
}

/// What it took to lay a document out.
#[derive(Clone, Copy, Debug)]
pub struct Counted {
    /// How often a leaf was measured, or 2^64 - 1 where that is less.
    pub measured: u64,
    /// How many answers were kept, or 2^64 - 1 where that is less.
    pub added: u64,
}

impl Engine {
    #[tactic(auto, using(crate::proofs::Sound::beginning))]
    /// The engine of a valid document, as every document is that is read. No answer is kept yet,
    /// and there is nothing to take back. Or `NoMemory`.
    pub fn new(alloc: Global, doc: Doc) -> Result<Engine, NoMemory>
        requires { IsValid doc }
        ensures document { IfOk result (λ engine. doc_of engine ≡ doc) }
        ensures calls { IfOk result (λ engine. engine.calls ≡ 0) }
        ensures laid { IfOk result (λ engine. engine.laid ≡ false) }
        ensures none { IfOk result (λ engine. KeepsNone engine.page.nodes.tree) }
        ensures steps { IfOk result (λ engine. engine.steps ≡ no_steps) }
    {
        let page = Page::new(alloc, &doc)?;
        let last = LastBoxes::new(alloc);
        let journal = Journal::new(alloc);
        Ok(Engine {
            page,
            last,
            journal,
            calls: 0,
            root: None,
            pointed: None,
        })
    }

    /// How many calls of [`Engine::apply`] there were. The count stands still at 2^32 - 1.
    pub fn calls(&self) -> u32
        ensures { result ≡ self.now.calls }
    {
        self.calls
    }

    /// What holds of every engine between two calls. Its document is valid. Every answer that a
    /// node keeps is right: it is the one that the rules give for the document as it stands, the
    /// questions of a node differ, and each fits it. The steps led to the document, and lead back.
    /// Where it is laid out each container keeps the question for its frames that its box gives it.
    pub fn stands(&self)
        ensures sound { IsSound self.now.page }
        ensures led { HaveLed self.now.steps (doc_of self.now) }
        ensures path { self.now.laid ≡ true → KeepsPath self.now.page self.now.page }
    {
        let _ = &self.page;
    }

    /// The version of the language of the document, 1 or 2.
    pub fn version(&self) -> u8
        ensures { result ≡ (doc_of self.now).version }
    {
        self.page.version()
    }

    /// The document is valid at all times. Does nothing.
    #[inline(always)]
    pub fn stays_valid(&self)
        ensures { IsValid (doc_of self.now) }
    {
        let _ = &self.page;
    }

    /// The document as the edits so far left it, which is valid. Or `NoMemory`.
    pub fn doc(&self) -> Result<Doc, NoMemory>
        ensures document { IfOk result (λ doc. doc ≡ doc_of self.now) }
        ensures valid { IfOk result IsValid }
    {
        self.page.document()
    }

    /// Applies an edit that is a change by itself.
    fn edit(&mut self, change: Edit) -> Result<(), EditError>
        requires change { IsChange change }
        requires named { NamesItsNode change }
        requires told { IsToldEdit (doc_of self.old).version change }
        ensures applies { Applies result change self.old self.new }
        ensures calls { self.new.calls ≡ self.old.calls }
    {
        match edit(&mut self.page, &mut self.last, &mut self.journal, change) {
            Ok(()) => {
                self.root = None;
                self.pointed = None;
                Ok(())
            }
            Err(error) => Err(error),
        }
    }

    /// Takes so many edits back, where there are as many; their number stands at this place.
    fn undo(&mut self, count: u32, at: Place) -> Result<(), EditError>
        ensures applies { Applies result (edit.Undo count at) self.old self.new }
        ensures calls { self.new.calls ≡ self.old.calls }
    {
        if self.journal.done() < count as usize {
            return Err(EditError::Refused(Fault {
                number: NOTHING_TO_UNDO,
                place: at,
            }));
        }
        self.root = None;
        self.pointed = None;
        match take_all_back(&mut self.page, &mut self.last, &mut self.journal, count) {
            Ok(()) => (),
            Err(NoMemory) => return Err(EditError::NoMemory),
        }
        Ok(())
    }

    /// Makes so many edits again that were taken back, where there are as many; their number stands
    /// at this place.
    fn redo(&mut self, count: u32, at: Place) -> Result<(), EditError>
        ensures applies { Applies result (edit.Redo count at) self.old self.new }
        ensures calls { self.new.calls ≡ self.old.calls }
    {
        if self.journal.undone() < count as usize {
            return Err(EditError::Refused(Fault {
                number: NOTHING_TO_REDO,
                place: at,
            }));
        }
        self.root = None;
        self.pointed = None;
        match make_all_again(&mut self.page, &mut self.last, &mut self.journal, count) {
            Ok(()) => (),
            Err(NoMemory) => return Err(EditError::NoMemory),
        }
        Ok(())
    }

    /// Applies an edit or refuses it. Its values, contents and sizes are ones that a text of the
    /// version tells, as those of every edit that is read, and an inserted node has the name that
    /// the edit gives it.
    ///
    /// `Undo` takes the last so many edits back, and `Redo` makes the last so many again that were
    /// taken back; any other edit that is accepted ends what could be made again. For what an edit
    /// touches both count as the changes that they make.
    ///
    /// `Refused` comes exactly where the definition of the next history refuses the edit: 21 where
    /// a name names no node, 22 where the root is removed or moved, 23 where a node is moved below
    /// itself, 24 where an index is past the last child, 6 where a name is there, 12 where a node
    /// would stand on level 65, 13 where there would be too many nodes, 14 where a leaf would have
    /// children; the first of these; 25 where fewer edits than asked for can be taken back, and 26
    /// where fewer can be made again. After that and after `NoMemory` the document, the steps and
    /// all answers that are kept are as before; but after `NoMemory` of `Undo` and `Redo` some of
    /// their changes may have been made, each whole. An edit that touches a leaf of the document
    /// after it touches its parent too.
    ///
    /// A hit is no edit: [`Engine::hit`] answers it.
    pub fn apply(&mut self, edit: Edit) -> Result<(), EditError>
        requires edit { IsEdit edit }
        requires named { NamesItsNode edit }
        requires told { IsToldEdit (doc_of self.old).version edit }
        ensures applies { Applies result edit self.old self.new }
        ensures calls { self.new.calls ≡ min (self.old.calls + 1) (2 ^ 32 - 1) }
    {
        self.calls = self.calls.saturating_add(1);
        match edit {
            Edit::Undo(count, at) => self.undo(count, at),
            Edit::Redo(count, at) => self.redo(count, at),
            edit => self.edit(edit),
        }
    }

    #[tactic(auto, using(crate::proofs::Laid::laying, crate::proofs::Walks::walking))]
    /// Lays the document out as [`Engine::layout`] does, and hands each box over as it is found.
    pub fn lay_out<T: BoxSink, R: Ruler, L: Ledger>(
        &mut self,
        k: u32,
        told: &mut T,
        ruler: &mut R,
        passes: &mut Steps<L>,
    ) -> Result<Counted, NoMemory>
        ensures boxes { OnOk result (T.adds told.old told.new (boxes_of (doc_of self.old))) }
        ensures printable { OnOk result (All IsPrintableBox (boxes_of (doc_of self.old))) }
        ensures laid { IfOk result
            (λ counted. LaysOut k (doc_of self.old) (R.log ruler.old) (R.log ruler.new)
            counted.measured) }
        ensures stopped { OnErr result
            (LogsFront (R.log ruler.old) (R.log ruler.new) k (Ok (doc_of self.old) ∷ [])) }
        ensures same { IsSame self.old self.new }
        ensures done { OnOk result (self.new.laid ≡ true) }
        ensures kept { IfOk result
            (λ counted. Keeps self.old.page self.new.page 0 counted.added passes.old passes.new) }
        ensures kept_some { OnErr result (KeepsMore self.old.page self.new.page) }
        ensures walks { IfOk result
            (λ counted. Walks k self.old.page self.new.page (R.log ruler.old) (R.log ruler.new)
            counted.measured counted.added passes.old passes.new) }
        ensures paths { OnOk result (KeepsPath self.old.page self.new.page) }
        ensures quiet { KeepsAll self.old.page →
            IfOk result
            (λ counted. IsQuiet k self.old.page self.new.page (R.log ruler.old)
            (R.log ruler.new) counted.measured counted.added passes.old passes.new) }
        ensures spares { (touches : Touches) (before : Option (List Event)) →
            SparesDue touches before (R.log ruler.old) k self.old.page →
            SparesAfter touches before (R.log ruler.new) self.new.page result }
    {
        let page = &mut self.page;
        let last = &mut self.last;
        self.root = None;
        self.pointed = None;
        ruler.begin(k)?;
        let mut tally = Tally::new();
        let root = lay_out(page, told, last, ruler, &mut tally, passes)?;
        self.root = Some(root);
        Ok(Counted {
            measured: tally.measured,
            added: tally.added,
        })
    }

    /// Lays the document out: the ruler is told that the layout with the number `k` begins, and
    /// then measures leaves. Or `NoMemory`; then a front of that was told. The document is as
    /// before, and every answer that is kept is right. Each one that is added answers a question
    /// that laying out the document can ask.
    pub fn layout<R: Ruler, L: Ledger>(
        &mut self,
        k: u32,
        ruler: &mut R,
        passes: &mut Steps<L>,
    ) -> Result<Layout, NoMemory>
        ensures boxes { IfOk result (λ layout. layout.boxes ≡ boxes_of (doc_of self.old)) }
        ensures printable { IfOk result (λ layout. All IsPrintableBox layout.boxes) }
        ensures laid { IfOk result
            (λ layout. LaysOut k (doc_of self.old) (R.log ruler.old) (R.log ruler.new)
            layout.measured) }
        ensures stopped { OnErr result
            (LogsFront (R.log ruler.old) (R.log ruler.new) k (Ok (doc_of self.old) ∷ [])) }
        ensures same { IsSame self.old self.new }
        ensures done { OnOk result (self.new.laid ≡ true) }
        ensures kept { IfOk result
            (λ layout. Keeps self.old.page self.new.page 0 layout.added passes.old passes.new) }
        ensures kept_some { OnErr result (KeepsMore self.old.page self.new.page) }
        ensures walks { IfOk result
            (λ layout. Walks k self.old.page self.new.page (R.log ruler.old) (R.log ruler.new)
            layout.measured layout.added passes.old passes.new) }
        ensures paths { OnOk result (KeepsPath self.old.page self.new.page) }
        ensures quiet { KeepsAll self.old.page →
            IfOk result
            (λ layout. IsQuiet k self.old.page self.new.page (R.log ruler.old) (R.log ruler.new)
            layout.measured layout.added passes.old passes.new) }
        ensures spares { (touches : Touches) (before : Option (List Event)) →
            SparesDue touches before (R.log ruler.old) k self.old.page →
            SparesAfter touches before (R.log ruler.new) self.new.page result }
    {
        let mut list = BoxList::new(self.page.alloc());
        let counted = self.lay_out(k, &mut list, ruler, passes)?;
        Ok(Layout {
            boxes: Sequence::from_vec(list.boxes),
            measured: counted.measured,
            added: counted.added,
        })
    }

    /// The boxes of a document that was laid out, by what is kept of its layout. Or `NoMemory`.
    fn found_boxes<L: Ledger>(&mut self, passes: &mut Steps<L>) -> Result<PointedBoxes, NoMemory>
        requires laid { self.old.laid ≡ true }
        ensures boxes { IfOk result (λ boxes. boxes ≡ boxes_of (doc_of self.old)) }
        ensures same { self.new ≡ self.old }
        ensures passes { passes.new ≡ passes.old }
    {
        match &self.root {
            Some(root) => kept_boxes(&mut self.page, root, &mut self.last, passes),
            None => Err(NoMemory),
        }
    }

    /// The name of the box under a point, in units of 1/64 px, of a document that was laid out
    /// since it was made or changed: of the last one in document order that contains the point.
    /// That is where the point lies from the left edge of the border box up to, not including, the
    /// right one, and from the upper edge up to the lower one. None where no box does.
    ///
    /// It is answered by what is kept of the layout: nothing is found anew, no ruler is asked, and
    /// nothing changes. `NoMemory` at want of memory, which the first call after a layout takes
    /// alone.
    pub fn hit<L: Ledger>(
        &mut self,
        x: Lu,
        y: Lu,
        passes: &mut Steps<L>,
    ) -> Result<Option<Name>, NoMemory>
        requires laid { self.old.laid ≡ true }
        ensures found { IfOk result (λ name. name ≡ box_under (boxes_of (doc_of self.old)) x y) }
        ensures same { self.new ≡ self.old }
        ensures passes { passes.new ≡ passes.old }
    {
        if let Some(boxes) = &self.pointed {
            return Ok(boxes.under(x, y));
        }
        let boxes = self.found_boxes(passes)?;
        let name = boxes.under(x, y);
        self.pointed = Some(boxes);
        Ok(name)
    }
}
