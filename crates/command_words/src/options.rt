ghost use Rattle.std.specs.Prelude.{◌≡◌, IfOk, IsErrOf, true, false};
ghost use Rattle.clap.specs.Words.{App, app_of, is_simple_and_free};
ghost use Rattle.command_words.specs.Options.{texts, has_dashes, is_taken, Reads};

use crate::WordsError;
use clap::error::ErrorKind;
use clap::{ArgMatches, Command};

/// Whether one of the words is `--`, which `clap` takes at the end of any options.
pub(crate) fn has_dashes(words: &[String]) -> bool
    ensures { result ≡ has_dashes (texts words.now) }
{
    for word in words {
        if word.as_str() == "--" {
            return true;
        }
    }
    false
}

/// What the command finds in the words.
pub(crate) fn matches_by<'a>(
    command: Command<'a>,
    words: &'a [String],
) -> Result<ArgMatches<'a>, WordsError>
    requires free { is_simple_and_free (app_of command) ≡ true }
    ensures read { IfOk result (Reads (app_of command.entry) (texts words.entry.now)) }
    ensures bad { IsErrOf result WordsError.BadWords → is_taken (app_of command.entry) (texts words.entry.now) ≡ false }
{
    match command.try_get_matches_from(words) {
        Ok(matches) => Ok(matches),
        Err(error) if error.kind() == ErrorKind::OutOfMemory => Err(WordsError::NoMemory),
        Err(_) => Err(WordsError::BadWords),
    }
}
