ghost use Rattle.std.specs.Prelude.{◌≡◌, ◌+◌, ◌≤◌, ◌++◌, ◌∷◌, [], List, Err, false, true, OnOk, IfOk, IfSome};
ghost use Rattle.outside.specs.Faults.{HasCauseOf};
ghost use Rattle.text_scan.specs.Stream.{empty_stream};
ghost use Rattle.text_scan.specs.declared.line.Line.{Line};
ghost use Rattle.session.specs.Input.{limit, AsksOn};
ghost use Rattle.doc_text.specs.Documents.{document_of};
ghost use Rattle.doc_text.specs.Valid.{IsShort, AreShort};
ghost use Rattle.session.specs.Script.{is_end_of_document};
ghost use Rattle.session.specs.Serving.{BeginsNone, Holds, ReadsText};

use crate::Status;
use crate::input::{PIECE, Reader, next_line};
use doc_text::{ReadError, read_doc};
use lunit::{NoMemory, Sequence};
use outside::Source;
use std::alloc::Global;
use text_scan::{Fault, Line, Place};

/// The text of a document.
#[derive(Drop)]
pub(crate) struct Text {
    /// Its lines, without those that are skipped; or lines that are no document, where its lines
    /// are none.
    pub(crate) lines: Sequence<Line>,
    /// The place of the line that ended it, or column 1 of the line after the last one.
    pub(crate) end: Place,
    /// Whether a line ended it: then a script follows.
    pub(crate) has_script: bool,
}

/// How many lines a document has at most that are not skipped: two of its head, and one for each
/// node.
const MOST_LINES: usize = 131_074;

/// Whether the line ends the text of a document: it is `---`, these three bytes and nothing else.
/// Edits follow it.
fn is_end_of_document(line: &Line) -> bool
    ensures { result ≡ is_end_of_document line.now }
{
    line.fault.is_none() && line.bytes.as_slice() == b"---".as_slice()
}

/// The fault of the document that the lines are, where their text ends at this place; none where it
/// has none.
fn fault_of(alloc: Global, lines: &[Line], end: Place) -> Result<Option<Fault>, NoMemory>
    ensures { IfOk result (λ found. IfSome found (λ fault. document_of lines.now end ≡ Err fault)) }
{
    match read_doc(alloc, lines, end) {
        Ok(_) => Ok(None),
        Err(ReadError::Fault(fault)) => Ok(Some(fault)),
        Err(ReadError::NoMemory) => Err(NoMemory),
    }
}

#[tactic(auto, using(crate::proofs::Fronts::fronts))]
/// Whether the lines have a fault that stays whatever lines follow them: one that does not depend
/// on where the text ends.
fn begins_none(alloc: Global, lines: &[Line]) -> Result<bool, NoMemory>
    ensures { IfOk result (λ none. none ≡ true → BeginsNone lines.now) }
{
    let first = match fault_of(alloc, lines, Place { line: 1, column: 1 })? {
        Some(fault) => fault,
        None => return Ok(false),
    };
    let second = match fault_of(alloc, lines, Place { line: 2, column: 1 })? {
        Some(fault) => fault,
        None => return Ok(false),
    };
    Ok(first.place.line == second.place.line)
}

/// The lines of a document as they are held: none that is skipped, and no more once they can begin
/// no document.
#[derive(Drop)]
pub struct Held {
    /// The lines that are held.
    pub lines: Sequence<Line>,
    // At so many lines it is looked next whether they can begin one.
    next: usize,
    // They can't.
    lost: bool,
}

impl Held {
    /// No lines yet. Takes no memory.
    pub fn new(alloc: Global) -> Held
        ensures { (result.lines ≡ []) × (result.lost ≡ false) }
    {
        Held {
            lines: Sequence::new(alloc),
            next: MOST_LINES,
            lost: false,
        }
    }

    #[tactic(auto, using(crate::proofs::Texts::holding))]
    /// Adds a line. It looks at all lines where there are more than a document has, and then each
    /// time when there are twice as many, so the time stays linear.
    pub fn add(&mut self, alloc: Global, line: Line) -> Result<(), NoMemory>
        requires { IsShort line }
        ensures holds { (given : List Line) → Holds self.old given →
            OnOk result (Holds self.new (given ++ line ∷ [])) }
        ensures short { AreShort self.old.lines → OnOk result (AreShort self.new.lines) }
    {
        if self.lost {
            return Ok(());
        }
        if line.is_skipped() {
            return Ok(());
        }
        self.lines.push(line)?;
        if self.lines.len() < self.next {
            return Ok(());
        }
        self.next = self.next.saturating_mul(2);
        self.lost = begins_none(alloc, self.lines.as_slice())?;
        Ok(())
    }
}

/// The text of the lines that are held, which ends after so many lines.
fn ended(held: Held, count: u32, has_script: bool) -> Text
    requires { count ≤ 67108864 }
    ensures lines { result.lines ≡ held.lines }
    ensures end { result.end ≡ record { line = count + 1; column = 1 } }
    ensures script { result.has_script ≡ has_script }
{
    Text {
        lines: held.lines,
        end: Place {
            line: count + 1,
            column: 1,
        },
        has_script,
    }
}

#[tactic(auto, using(crate::proofs::Texts::text_reading))]
/// Reads the lines of the document, up to the line that ends it or to the end of the input.
pub(crate) fn read_text<S: Source>(
    alloc: Global,
    source: &mut S,
    room: &mut [u8; PIECE],
    reader: &mut Reader,
) -> Result<Text, Status>
    requires new { (reader.old.lines ≡ empty_stream) × (reader.old.count ≡ 0) ×
        (reader.old.ended ≡ false) }
    ensures text { ReadsText (S.left source.old) (S.left source.new) reader.new.lines
        reader.new.ended result }
    ensures short { IfOk result (λ text. AreShort text.lines) }
    ensures count { OnOk result (reader.new.lines.fed ≡ reader.new.count) }
    ensures within { OnOk result (reader.new.count ≤ limit) }
    ensures cause { HasCauseOf (S.faults source.old) (S.faults source.new)
        (result ≡ Err Status.ReadFault) }
    ensures asks { AsksOn (S.left source.old) (S.left source.new) (S.asked source.old)
        (S.asked source.new) reader.new.count reader.new.ended result }
{
    let mut held = Held::new(alloc);
    let mut count = 0;
    loop {
        match next_line(source, room, reader) {
            Ok(Some(line)) => {
                if is_end_of_document(&line) {
                    return Ok(ended(held, count, true));
                }
                count += 1;
                match held.add(alloc, line) {
                    Ok(()) => (),
                    Err(NoMemory) => return Err(Status::NoMemory),
                }
            }
            Ok(None) => return Ok(ended(held, count, false)),
            Err(status) => return Err(status),
        }
    }
}
