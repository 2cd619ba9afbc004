//! The command line as `clap` reads it. It takes words that are in no form too, so they are tested
//! before.

ghost use Rattle.std.specs.Prelude.{◌≡◌, IfOk, IfErr, true, codes, map, option_map, string_bytes};
ghost use Rattle.clap.specs.Words.{app_of, kind_of};
ghost use Rattle.mr_moments.specs.Command.{app};
ghost use Rattle.mr_moments.specs.Form.{are_option, value_of};

use clap::error::ErrorKind;
use clap::{Arg, ArgAction, Command, Error};
use std::alloc::{AllocError, Global};

/// The command line of the program.
fn command<'a>(alloc: Global) -> Result<Command<'a>, AllocError>
    ensures { IfOk result (λ c. app_of c ≡ app) }
{
    let now = Arg::new(alloc, "now").long("now").action(ArgAction::Set);
    let clock = Arg::new(alloc, "clock")
        .long("clock")
        .action(ArgAction::Set);
    Command::new(alloc, "mr_reference")
        .disable_help_flag(true)
        .no_binary_name(true)
        .arg(now)?
        .arg(clock)
}

/// The values of the two options, where they stand among the words.
#[derive(Clone, Copy, Drop)]
pub struct Found<'a> {
    pub now: Option<&'a str>,
    pub clock: Option<&'a str>,
}

/// The value of the one option that stands there.
pub fn read_option<'a>(alloc: Global, words: &'a [String]) -> Result<Found<'a>, Error>
    requires { are_option (map string_bytes words.now) ≡ true }
    ensures now { IfOk result (λ o. option_map (λ s. s.now) o.now ≡ value_of (codes "--now=") (map string_bytes words.entry.now)) }
    ensures clock { IfOk result (λ o. option_map (λ s. s.now) o.clock ≡ value_of (codes "--clock=") (map string_bytes words.entry.now)) }
    ensures memory { IfErr result (λ e. kind_of e ≡ ErrorKind.OutOfMemory) }
{
    let command = command(alloc)?;
    match command.try_get_matches_from(words) {
        Ok(matches) => Ok(Found {
            now: matches.get_str("now"),
            clock: matches.get_str("clock"),
        }),
        Err(error) => Err(error),
    }
}
