//! What `clap` makes of the words.
ghost use Rattle.std.specs.Prelude.{◌≡◌, Some, false, codes, map, IfOk, MatchOption, string_bytes};
ghost use Rattle.std.specs.List.{list_any};
ghost use Rattle.std.specs.Str.{bytes_eq};
ghost use Rattle.clap.specs.Words.{app_of, found_of, new_rule, rule_of};
ghost use Rattle.command_words.specs.Command.{macek_app, AreRefused, AreMatched};

use clap::error::ErrorKind;
use clap::{Arg, ArgAction, ArgMatches, Command};
use std::alloc::{AllocError, Global};

/// Whether a word is `--` alone. `clap` would take it, and each word after it as a plain value.
pub fn has_dashes(words: &[String]) -> bool
    ensures { result ≡ list_any (λ word. bytes_eq word (codes "--")) (map (λ s. string_bytes s) words.now) }
{
    for word in words {
        let dashes = word.as_str() == "--";
        if dashes {
            return true;
        }
    }
    false
}

/// What `clap` makes of the words; None where it refuses them.
pub fn parsed<'a>(alloc: Global, words: &'a [String]) -> Result<Option<ArgMatches<'a>>, AllocError>
    ensures { IfOk result (λ o. MatchOption o
        (AreRefused (map (λ s. string_bytes s) words.entry.now))
        (λ m. AreMatched (map (λ s. string_bytes s) words.entry.now) (found_of m))) }
{
    let command = command(alloc)?;
    match command.try_get_matches_from(words) {
        Ok(matches) => Ok(Some(matches)),
        Err(error) => {
            if error.kind() == ErrorKind::OutOfMemory {
                return Err(AllocError);
            }
            Ok(None)
        }
    }
}

// An option of this long name.
fn option<'a>(alloc: Global, name: &'a str, action: ArgAction) -> Arg<'a>
    ensures rule { rule_of result ≡ record (new_rule name.entry.now) { long = Some name.entry.now; action = Some action } }
    ensures local { result.global ≡ false }
{
    Arg::new(alloc, name).long(name).action(action)
}

// The command of both programs: two options that take one text each, and a flag.
fn command<'a>(alloc: Global) -> Result<Command<'a>, AllocError>
    ensures { IfOk result (λ c. app_of c ≡ macek_app) }
{
    Command::new(alloc, "macek")
        .no_binary_name(true)
        .disable_help_flag(true)
        .disable_version_flag(true)
        .arg(option(alloc, "workers", ArgAction::Set))?
        .arg(option(alloc, "sample", ArgAction::Set))?
        .arg(option(alloc, "orderly", ArgAction::SetTrue))
}
