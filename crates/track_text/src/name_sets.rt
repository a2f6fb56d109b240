ghost use Rattle.std.specs.Prelude.{◌≡◌, if◌then◌else◌, Some, None, codes};
ghost use Rattle.track_text.specs.Words.{rest_up_to};
ghost use Rattle.track_text.specs.NameSets.{is_reserved, is_line_name, name_first};
ghost use Rattle.track_text.specs.Gives.{Gives};

use crate::errors::Stop;
use crate::words::Words;
use lunit::{Name, Sequence};
use std::alloc::Global;

/// Whether the word names neither a line nor an area.
fn is_reserved(word: &[u8]) -> bool
    ensures { result ≡ is_reserved word.now }
{
    word == b"span".as_slice()
        || word == b"auto".as_slice()
        || word == b"inherit".as_slice()
        || word == b"initial".as_slice()
        || word == b"unset".as_slice()
        || word == b"revert".as_slice()
}

/// The name of a line or an area that the word is.
pub fn line_name(word: &[u8]) -> Option<Name>
    ensures { result ≡ (if is_line_name word.now then Some word.now else None) }
{
    let name = Name::read(word).ok()?;
    if is_reserved(word) { None } else { Some(name) }
}

#[tactic(auto, using(crate::proofs::Rests::names))]
/// The names after `[` up to `]`, and the words after that.
pub(crate) fn names_after(alloc: Global, words: Words) -> Result<(Sequence<Name>, Words), Stop>
    ensures { Gives result (rest_up_to (codes "]") name_first words.entry) }
{
    let mut names = Sequence::new(alloc);
    let mut words = words;
    loop {
        let (word, rest) = words.first().ok_or(Stop::Bad)?;
        words = rest;
        if word == b"]".as_slice() {
            return Ok((names, words));
        }
        names.push(line_name(word).ok_or(Stop::Bad)?)?;
    }
}
