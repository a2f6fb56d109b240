//! What holds after any calls of an open document.

ghost use Rattle.std.specs.Prelude.{ℕ, List};
ghost use Rattle.open_document.specs.Calls.{IsOpened};
ghost use Rattle.open_document.specs.Opened.{Opened, doc_of};
ghost use Rattle.open_document.specs.Runs.{Call, IsFromScratch, Lead};

/// Whatever edits and layouts follow the opening of a text, and however they are answered but for
/// want of memory: the document is that of the text with the edits that were not refused, one
/// after another, and boxes that can be read are those that this document has from scratch.
pub fn boxes_are_those_from_scratch()
    ensures { (text : List ℕ) (first last : Opened) (calls : List Call) →
        IsOpened text first → Lead calls first last → IsFromScratch (doc_of first) calls last }
{}
