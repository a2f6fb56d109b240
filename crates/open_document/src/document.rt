ghost use Rattle.std.specs.Prelude.{◌≡◌, ◌<◌, Ok, IfErr, IfOk, IfSome, OnErr, OnOk};
ghost use Rattle.std.specs.Option.{option_copied, option_map};
ghost use Rattle.doc_text.specs.Laws.{NamesItsNode};
ghost use Rattle.doc_text.specs.Valid.{IsValid};
ghost use Rattle.doc_writer.specs.Documents.{IsDue, canonical};
ghost use Rattle.hit_index.specs.Hits.{hit_of};
ghost use Rattle.session.specs.Boxes.{boxes_of};
ghost use Rattle.session.specs.Engine.{IsEdit, IsToldEdit};
ghost use Rattle.open_document.specs.Apart.{AreBoxes};
ghost use Rattle.open_document.specs.Calls.{Applies, Edits, Opens, hit_in, moves, printed, rect_of};
ghost use Rattle.open_document.specs.Opened.{boxes_in, changed_now, doc_of, laid_out};

use crate::changed::rect_in;
use crate::coming::{Coming, next_of, take_place};
use crate::errors::OpenError;
use crate::line::line_in;
use crate::text::read;
use doc_text::{Doc, Edit, ReadError, read_edit};
use doc_writer::{WriteError, write_doc};
use hit_index::HitIndex;
use lunit::{Along, Name, NoMemory, Rect, Sequence, Steps};
use outside::WordRuler;
use session::{ApplyError as EditError, Counted, Engine, print_boxes};
use std::alloc::Global;
use std::marker::{Brand, Model};
use std::sync::ledger::{Blank, Ledger};
use text_scan::{Fault, Place};

/// The fault of a line that is no edit.
const NO_EDIT: Fault = Fault {
    number: 20,
    place: Place { line: 1, column: 1 },
};

/// Whether an edit moves others, of which some can be moved where memory is wanting for more.
fn moves(edit: &Edit) -> bool
    ensures { result ≡ moves edit.now }
{
    matches!(edit, Edit::Undo(_, _) | Edit::Redo(_, _))
}

/// The index of the last of the boxes that contains a point.
fn under(index: &HitIndex, x: i64, y: i64) -> Option<usize>
    ensures { result ≡ hit_of index.now x y }
{
    match index.hit(Along::of(x), Along::of(y)) {
        Some(number) => Some(number as usize),
        None => None,
    }
}

/// An open document, which is edited and laid out. Its boxes can be read from a layout on until the
/// next edit is accepted, and are always those that the document has when it is laid out from
/// scratch.
///
/// Leaves are measured by their contents: who draws text measures each word once and tells the
/// widths, as `content NAME words LINE SPACE w1 w2 ..`.
#[derive(Drop)]
pub struct OpenDocument {
    alloc: Global,
    engine: Engine,
    // The boxes of the last layout, and which of them the layout before it does not have.
    last: Vec<(Name, Rect)>,
    changed: Sequence<usize>,
    // Whether no edit was accepted since.
    laid: bool,
    // The index of those boxes, once a point was asked for.
    index: Option<HitIndex>,
}

impl Model for OpenDocument {
    ghost use Rattle.open_document.specs.Opened.{Opened, opened_code};

    ghost Value = { Opened };

    ghost coded = { opened_code };

    ghost use Rattle.session.specs.Standing.{history_of};

    ghost view = { λ a. record {
      history = history_of a.engine;
      last = a.last.items;
      changed = a.changed;
      laid = a.laid;
    } };

    ghost use Rattle.std.specs.Prelude.{◌≡◌, true, IfSome};
    ghost use Rattle.hit_index.specs.Hits.{rects_of};
    ghost use Rattle.session.specs.Boxes.{boxes_of};
    ghost use Rattle.session.specs.Standing.{doc_of};
    ghost use Rattle.open_document.specs.Apart.{AreBoxes};

    ghost invariant = { λ a. (a.laid ≡ true → a.last.items ≡ boxes_of (doc_of a.engine)) ×
        (AreBoxes a.last.items × IfSome a.index (λ rects. rects ≡ rects_of a.last.items)) };
}

impl OpenDocument {
    #[tactic(auto, using(crate::proofs::Opening::opening))]
    /// Opens the document that a text is, of at most 2^26 bytes. `Refused` is the first fault of
    /// the text, where it has one. The whole text is the document: no line of it ends it.
    pub fn open(alloc: Global, text: &[u8]) -> Result<OpenDocument, OpenError>
        ensures { Opens text.now result }
    {
        let doc = read(alloc, text)?;
        let engine = Engine::new(alloc, doc)?;
        Ok(OpenDocument {
            alloc,
            engine,
            last: Vec::new(alloc),
            changed: Sequence::new(alloc),
            laid: false,
            index: None,
        })
    }

    #[tactic(auto, using(crate::proofs::Editing::line_editing))]
    /// Edits the document by a line of a script, without its line feed: `set`, `unset`, `insert`,
    /// `remove`, `move`, `content`, `viewport`, `undo` or `redo`. From then on there are no boxes
    /// until the next layout.
    ///
    /// `Refused` is the fault of the line or of the edit, in line 1; then nothing is changed. A hit
    /// is no edit: it is refused as 20 in column 1. So is a line that is empty or a comment. After
    /// `NoMemory` nothing is changed either, but that of the edits that `undo` or `redo` were to
    /// move some may have been moved, each whole.
    pub fn edit(&mut self, line: &[u8]) -> Result<(), EditError>
        ensures { Edits line.now self.old self.new result }
    {
        let line = line_in(self.alloc, line)?;
        match read_edit(self.alloc, &line, self.engine.version()) {
            Ok(edit) => self.apply(edit),
            Err(ReadError::Fault(fault)) => Err(EditError::Refused(fault)),
            Err(ReadError::NoMemory) => Err(EditError::NoMemory),
        }
    }

    /// Applies an edit that a line tells.
    fn apply(&mut self, edit: Edit) -> Result<(), EditError>
        requires named { NamesItsNode edit }
        requires told { IsToldEdit (doc_of self.old).version edit }
        ensures { Applies edit self.old self.new result }
    {
        match edit {
            Edit::Hit(_, _) => Err(EditError::Refused(NO_EDIT)),
            edit => self.apply_edit(edit),
        }
    }

    #[tactic(auto, using(crate::proofs::Editing::applying))]
    /// Applies an edit that is no hit.
    fn apply_edit(&mut self, edit: Edit) -> Result<(), EditError>
        requires edit { IsEdit edit }
        requires named { NamesItsNode edit }
        requires told { IsToldEdit (doc_of self.old).version edit }
        ensures { Applies edit self.old self.new result }
    {
        let moves = moves(&edit);
        match self.engine.apply(edit) {
            Ok(()) => {
                self.laid = false;
                Ok(())
            }
            Err(EditError::Refused(fault)) => Err(EditError::Refused(fault)),
            Err(EditError::NoMemory) => {
                self.laid = self.laid && !moves;
                Err(EditError::NoMemory)
            }
        }
    }

    /// Lays out what the edits since the last layout reach. From then on the boxes of the document
    /// can be read, until the next edit is accepted. `NoMemory` changes nothing.
    pub fn layout(&mut self) -> Result<Counted, NoMemory>
        ensures ok { OnOk result (self.new ≡ laid_out self.old) }
        ensures err { OnErr result (self.new ≡ self.old) }
    {
        self.layout_by::<Brand>(Blank::new(1))
    }

    #[tactic(auto, using(crate::proofs::Laying::laying))]
    /// The same, with a ledger of its steps.
    fn layout_by<L: Ledger>(&mut self, blank: Blank) -> Result<Counted, NoMemory>
        requires name { blank.name ≡ L.name }
        requires parts { blank.parts ≡ L.parts }
        requires some { 0 < blank.parts }
        ensures ok { OnOk result (self.new ≡ laid_out self.old) }
        ensures err { OnErr result (self.new ≡ self.old) }
    {
        let mut passes: Steps<L> = Steps::new(blank);
        let mut ruler = WordRuler::new();
        let mut coming = Coming::new(self.alloc, self.last.as_slice());
        self.engine.stays_valid();
        let counted = self
            .engine
            .lay_out(0, &mut coming, &mut ruler, &mut passes)?;
        let next = next_of(self.alloc, coming)?;
        self.changed = take_place(&mut self.last, next);
        self.laid = true;
        self.index = None;
        Ok(counted)
    }

    /// The boxes of the document, in document order: each node's name and its border box, in units
    /// of 1/64 px. None where it was not laid out since the last edit.
    pub fn boxes(&self) -> Option<&[(Name, Rect)]>
        ensures boxes { option_copied result ≡ boxes_in self.now }
        ensures scratch { IfSome result (λ boxes. boxes.now ≡ boxes_of (doc_of self.now)) }
        ensures each { IfSome result (λ boxes. AreBoxes boxes.now) }
    {
        if self.laid {
            Some(self.last.as_slice())
        } else {
            None
        }
    }

    /// The indices, ascending, of the boxes that the layout before the last one does not have: with
    /// the same name and the same rectangle. All of them after the first layout. None where the
    /// document was not laid out since the last edit.
    pub fn changed(&self) -> Option<&[usize]>
        ensures { option_copied result ≡ changed_now self.now }
    {
        if self.laid {
            Some(self.changed.as_slice())
        } else {
            None
        }
    }

    /// The box of the node of a name, which is looked for from the first box on. None where there
    /// is no such node, or the document was not laid out since the last edit.
    pub fn box_of(&self, name: &[u8]) -> Option<Rect>
        ensures { result ≡ rect_of self.now name.now }
    {
        if self.laid {
            rect_in(self.last.as_slice(), name)
        } else {
            None
        }
    }

    #[tactic(auto, using(crate::proofs::Laying::pointing))]
    /// The index of the last box that contains a point, in units of 1/64 px. None where no box does,
    /// or the document was not laid out since the last edit. Takes memory at the first call after a
    /// layout alone; `NoMemory` changes nothing.
    pub fn hit(&mut self, x: i64, y: i64) -> Result<Option<usize>, NoMemory>
        ensures found { IfOk result (λ found. found ≡ hit_in self.old x y) }
        ensures same { self.new ≡ self.old }
    {
        if !self.laid {
            return Ok(None);
        }
        if let Some(index) = &self.index {
            return Ok(under(index, x, y));
        }
        let index = HitIndex::build(self.alloc, self.last.as_slice())?;
        let found = under(&index, x, y);
        self.index = Some(index);
        Ok(found)
    }

    /// What `gridlay layout` prints of the document: a line `layout 0`, then a line for each box.
    /// None where it was not laid out since the last edit.
    pub fn print(&self) -> Result<Option<Vec<u8>>, NoMemory>
        ensures { IfOk result (λ text. option_map (λ bytes. bytes.items) text ≡ printed self.now) }
    {
        if !self.laid {
            return Ok(None);
        }
        let text = print_boxes(self.alloc, 0, self.last.as_slice())?;
        Ok(Some(text))
    }

    /// The canonical text of the document, which reads as the same document. `TooLong` names the
    /// first node whose line would have more than 65,536 bytes.
    pub fn write(&self) -> Result<Vec<u8>, WriteError>
        ensures text { IfOk result (λ text. canonical (doc_of self.now) ≡ Ok text.items) }
        ensures err { IfErr result (λ e. IsDue e (canonical (doc_of self.now))) }
    {
        let doc = self.doc()?;
        write_doc(self.alloc, &doc)
    }

    /// The document as the edits left it, which is valid.
    pub fn doc(&self) -> Result<Doc, NoMemory>
        ensures document { IfOk result (λ doc. doc ≡ doc_of self.now) }
        ensures valid { IfOk result IsValid }
    {
        self.engine.doc()
    }
}
