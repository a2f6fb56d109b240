//! The words that the program is started with: which command they are, and its options, read by `clap`.
#![tactic(auto)]

ghost use Rattle.std.specs.Prelude.{◌≡◌, None, Some, IfOk, IsErrOf, string_bytes};
ghost use Rattle.std.specs.Str.{bytes_eq};
ghost use Rattle.command_words.specs.Commands.{command_of, write_of, HasNodes};
ghost use Rattle.command_words.specs.Options.{texts};

mod layout;
mod make;
mod numbers;
mod options;

use crate::layout::read_layout;
use crate::make::read_make;
use std::alloc::Global;

/// What the program is asked to do.
#[derive(Clone, Copy, Debug, PartialEq, Eq)]
pub enum Command {
    /// `layout`, or `layout --stats`.
    Layout {
        /// A line of counts follows each layout.
        stats: bool,
    },
    /// `make --seed N --nodes M`.
    Make {
        /// N.
        seed: u64,
        /// M, from 1 to 20,000.
        nodes: u16,
    },
    /// `write`.
    Write,
}

/// Why words are no command.
#[derive(Clone, Copy, Debug, PartialEq, Eq)]
pub enum WordsError {
    /// They are not those of the table.
    BadWords,
    /// Memory was wanting.
    NoMemory,
}

#[tactic(auto, using(crate::proofs::Words::naming))]
/// The command that the words are, without the program's name (own rule). The first is `layout`, `make` or `write`. The options of a
/// command stand after it in any order, each once, as `--name value` or `--name=value`, and `--stats` alone; `write` has none.
///
/// - `BadWords` exactly where the words are no command.
/// - `NoMemory` at want of memory.
pub fn read_command(alloc: Global, words: &[String]) -> Result<Command, WordsError>
    ensures taken { IfOk result (λ command. command_of (texts words.now) ≡ Some command) }
    ensures nodes { IfOk result HasNodes }
    ensures bad { IsErrOf result WordsError.BadWords → command_of (texts words.now) ≡ None }
{
    match words.split_first() {
        Some((first, rest)) => {
            if is_word(first, "layout") {
                read_layout(alloc, rest)
            } else if is_word(first, "make") {
                read_make(alloc, rest)
            } else if is_word(first, "write") {
                read_write(rest)
            } else {
                Err(WordsError::BadWords)
            }
        }
        None => Err(WordsError::BadWords),
    }
}

#[tactic(auto, using(crate::proofs::Words::writing))]
/// The command `write`, after which no word stands.
fn read_write(words: &[String]) -> Result<Command, WordsError>
    ensures taken { IfOk result (λ command. write_of (texts words.now) ≡ Some command) }
    ensures nodes { IfOk result HasNodes }
    ensures bad { IsErrOf result WordsError.BadWords → write_of (texts words.now) ≡ None }
{
    if words.is_empty() {
        Ok(Command::Write)
    } else {
        Err(WordsError::BadWords)
    }
}

/// Whether the word is this one.
fn is_word(word: &String, name: &str) -> bool
    ensures { result ≡ bytes_eq (string_bytes word.now) name.now }
{
    word.as_str() == name
}
