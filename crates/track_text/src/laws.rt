//! Laws of the definitions, each as the clause of a function that does nothing.

ghost use Rattle.std.specs.Prelude.{◌≡◌, Ok};
ghost use Rattle.track_text.specs.declared.side.Side.{Side};
ghost use Rattle.track_text.specs.declared.side.ReadList.{ReadList};
ghost use Rattle.track_text.specs.Values.{is_relative};
ghost use Rattle.track_text.specs.Words.{Word, words_of};
ghost use Rattle.track_text.specs.Templates.{tracks_value};
ghost use Rattle.track_text.specs.PlainText.{plain_text, IsPlain};
ghost use Rattle.track_text.specs.Gives.{reading_of};

use text_scan::Place;

#[tactic(auto, using(crate::proofs::PlainLists::read_again))]
/// A track list without repeats, written as its sets and sizes with one space between, reads back as the list with its
/// units, whatever words are chosen for its sides of those that stand for them in the version.
pub fn plain_text_reads_back(at: Place, version: u8)
    ensures { (spell : Side → Word) (list : ReadList) → IsPlain (is_relative version) spell list →
        reading_of version at (words_of (plain_text spell list)) ≡ Ok (tracks_value list) }
{}
