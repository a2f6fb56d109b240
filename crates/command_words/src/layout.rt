ghost use Rattle.std.specs.Prelude.{◌≡◌, None, Some, IfOk, IsErrOf, option_map};
ghost use Rattle.clap.specs.Words.{app_of};
ghost use Rattle.command_words.specs.Commands.{is_given, layout_of};
ghost use Rattle.command_words.specs.Options.{layout, texts};

use crate::options::{has_dashes, matches_by};
use crate::{Command as Asked, WordsError};
use clap::{Arg, ArgAction, Command};
use std::alloc::{AllocError, Global};

fn layout_command<'a>(alloc: Global) -> Result<Command<'a>, AllocError>
    ensures { IfOk result (λ c. app_of c ≡ layout) }
{
    let stats = Arg::new(alloc, "stats")
        .long("stats")
        .action(ArgAction::SetTrue);
    Command::new(alloc, "layout")
        .no_binary_name(true)
        .disable_help_flag(true)
        .arg(stats)
}

/// Whether the value of a flag says that it is there.
fn is_given(value: Option<&str>) -> bool
    ensures { result ≡ is_given (option_map (λ s. s.now) value.entry) }
{
    match value {
        Some(value) => value == "true",
        None => false,
    }
}

#[tactic(auto, using(crate::proofs::Asked::laying))]
/// The command `layout` with the options that the words are.
pub(crate) fn read_layout(alloc: Global, words: &[String]) -> Result<Asked, WordsError>
    ensures taken { IfOk result (λ command. layout_of (texts words.now) ≡ Some command) }
    ensures bad { IsErrOf result WordsError.BadWords → layout_of (texts words.now) ≡ None }
{
    if has_dashes(words) {
        return Err(WordsError::BadWords);
    }
    let command = match layout_command(alloc) {
        Ok(command) => command,
        Err(_) => return Err(WordsError::NoMemory),
    };
    match matches_by(command, words) {
        Ok(matches) => Ok(Asked::Layout {
            stats: is_given(matches.get_str("stats")),
        }),
        Err(error) => Err(error),
    }
}
