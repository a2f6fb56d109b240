ghost use Rattle.std.specs.Prelude.{◌≡◌, None, Some, IfOk, IsErrOf, option_map};
ghost use Rattle.clap.specs.Words.{app_of};
ghost use Rattle.command_words.specs.Commands.{make_of, made_by, made_of};
ghost use Rattle.command_words.specs.Options.{make, texts};

use crate::numbers::{nodes_of, number_of};
use crate::options::{has_dashes, matches_by};
use crate::{Command as Asked, WordsError};
use clap::{Arg, ArgAction, Command};
use std::alloc::{AllocError, Global};

fn make_command<'a>(alloc: Global) -> Result<Command<'a>, AllocError>
    ensures { IfOk result (λ c. app_of c ≡ make) }
{
    let seed = Arg::new(alloc, "seed")
        .long("seed")
        .action(ArgAction::Set)
        .required(true);
    let nodes = Arg::new(alloc, "nodes")
        .long("nodes")
        .action(ArgAction::Set)
        .required(true);
    let command = Command::new(alloc, "make")
        .no_binary_name(true)
        .disable_help_flag(true);
    command.arg(seed)?.arg(nodes)
}

/// The command `make` with these numbers, where both are there.
fn made_of(seed: Option<u64>, nodes: Option<u16>) -> Option<Asked>
    ensures { result ≡ made_of seed nodes }
{
    match seed {
        Some(seed) => match nodes {
            Some(nodes) => Some(Asked::Make { seed, nodes }),
            None => None,
        },
        None => None,
    }
}

/// The command `make` with these values, where both are numbers.
fn made_by(seed: Option<&str>, nodes: Option<&str>) -> Option<Asked>
    ensures { result ≡ made_by (option_map (λ s. s.now) seed.entry) (option_map (λ s. s.now) nodes.entry) }
{
    match seed {
        Some(seed) => match nodes {
            Some(nodes) => made_of(number_of(seed), nodes_of(nodes)),
            None => None,
        },
        None => None,
    }
}

#[tactic(auto, using(crate::proofs::Asked::making))]
/// The command `make` with the options that the words are.
pub(crate) fn read_make(alloc: Global, words: &[String]) -> Result<Asked, WordsError>
    ensures taken { IfOk result (λ command. make_of (texts words.now) ≡ Some command) }
    ensures bad { IsErrOf result WordsError.BadWords → make_of (texts words.now) ≡ None }
{
    if has_dashes(words) {
        return Err(WordsError::BadWords);
    }
    let command = match make_command(alloc) {
        Ok(command) => command,
        Err(_) => return Err(WordsError::NoMemory),
    };
    match matches_by(command, words) {
        Ok(matches) => match made_by(matches.get_str("seed"), matches.get_str("nodes")) {
            Some(command) => Ok(command),
            None => Err(WordsError::BadWords),
        },
        Err(error) => Err(error),
    }
}
