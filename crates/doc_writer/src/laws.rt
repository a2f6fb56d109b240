//! What is written is read again.

ghost use Rattle.std.specs.Prelude.{◌≡◌, ◌∷◌, [], ℕ, List, Ok};
ghost use Rattle.style_types.specs.declared.declared.DeclaredValue.{DeclaredValue};
ghost use Rattle.style_types.specs.declared.prop.Prop.{Prop};
ghost use Rattle.text_scan.specs.declared.line.Place.{Place};
ghost use Rattle.text_scan.specs.Lines.{lines_of};
ghost use Rattle.value_text.specs.Declarations.{declaration};
ghost use Rattle.doc_text.specs.declared.document.Doc.{Doc};
ghost use Rattle.doc_text.specs.Documents.{document_of};
ghost use Rattle.doc_text.specs.Valid.{IsDeclared, IsValid};
ghost use Rattle.doc_writer.specs.Documents.{declaration_words, canonical};
ghost use Rattle.doc_writer.specs.Spaces.{words_text};

/// The canonical declaration of a value that some declaration of the version sets reads back,
/// wherever it stands: it sets the property to the same value with the same units, and nothing
/// else.
pub fn declarations_read_back()
    ensures { (version : ℕ) (at : Place) (p : Prop) (value : DeclaredValue) →
        IsDeclared version p value →
        declaration version at (words_text (declaration_words p value)) ≡ Ok ((p, value) ∷ []) }
{}

/// The lines of the canonical text of a document read as the same document.
pub fn documents_read_back()
    ensures { (doc : Doc) (text : List ℕ) (end : Place) → IsValid doc → canonical doc ≡ Ok text →
        document_of (lines_of text) end ≡ Ok doc }
{}

/// What the lines of a canonical text read as has the same canonical text.
pub fn canonical_text_is_fixed()
    ensures { (doc again : Doc) (text : List ℕ) (end : Place) → IsValid doc →
        canonical doc ≡ Ok text → document_of (lines_of text) end ≡ Ok again →
        canonical again ≡ Ok text }
{}
