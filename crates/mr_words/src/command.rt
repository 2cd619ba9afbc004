//! The folder as `clap` reads it. Which words are in form is tested before.
ghost use Rattle.std.specs.Prelude.{◌≡◌, IfOk, IfErr, true};
ghost use Rattle.clap.specs.Words.{app_of, kind_of};
ghost use Rattle.mr_words.specs.Command.{app};

use clap::error::ErrorKind;
use clap::{Arg, ArgAction, Command, Error};
use std::alloc::{AllocError, Global};

/// The command line of a folder.
fn command<'a>(alloc: Global) -> Result<Command<'a>, AllocError>
    ensures { IfOk result (λ c. app_of c ≡ app) }
{
    let folder = Arg::new(alloc, "folder")
        .required(true)
        .action(ArgAction::Set);
    Command::new(alloc, "run")
        .disable_help_flag(true)
        .no_binary_name(true)
        .arg(folder)
}

/// Whether `clap` finds the folder in its word, which it is given behind `--`. It fails for want of memory only.
pub(crate) fn finds_folder(alloc: Global, word: &str) -> Result<bool, Error>
    ensures found { IfOk result (λ finds. finds ≡ true) }
    ensures memory { IfErr result (λ e. kind_of e ≡ ErrorKind.OutOfMemory) }
{
    let command = command(alloc)?;
    let words = ["--", word];
    match command.try_get_matches_from(words.as_slice()) {
        Ok(matches) => Ok(matches.get_str("folder").is_some()),
        Err(error) => Err(error),
    }
}
