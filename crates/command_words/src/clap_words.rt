//! The assignment of the words by `clap`.
ghost use Rattle.std.specs.Prelude.{◌≡◌, false, drop, map, string_bytes, IfOk, IsErrOf};
ghost use Rattle.clap.specs.Words.{app_of, found_of, rule_of};
ghost use Rattle.command_words.specs.Parsed.{IsInTable, IsMatched, bare_app, command_arg, files_arg, flag_arg, the_app, value_arg};

use crate::{CommandName, WordsFault};
use clap::error::ErrorKind;
use clap::{Arg, ArgAction, ArgMatches, Command};
use std::alloc::{AllocError, Global};

/// The command that is parsed, without its arguments. Help and version are words like any other.
fn bare_command<'a>(alloc: Global) -> Command<'a>
    ensures { app_of result ≡ bare_app }
{
    Command::new(alloc, "ssfnet")
        .no_binary_name(true)
        .disable_help_flag(true)
        .disable_version_flag(true)
        .args_override_self(true)
}

/// The positional that is the command's name.
fn command_arg<'a>(alloc: Global) -> Arg<'a>
    ensures rule { rule_of result ≡ command_arg }
    ensures global { result.global ≡ false }
{
    Arg::new(alloc, "command")
}

/// The positional of the files.
fn files_arg<'a>(alloc: Global) -> Arg<'a>
    ensures rule { rule_of result ≡ files_arg }
    ensures global { result.global ≡ false }
{
    Arg::new(alloc, "files").action(ArgAction::Append)
}

/// An option that takes a value.
fn value_arg<'a>(alloc: Global, name: &'a str) -> Arg<'a>
    ensures rule { rule_of result ≡ value_arg name.entry.now }
    ensures global { result.global ≡ false }
{
    Arg::new(alloc, name).long(name)
}

/// An option that takes none.
fn flag_arg<'a>(alloc: Global, name: &'a str) -> Arg<'a>
    ensures rule { rule_of result ≡ flag_arg name.entry.now }
    ensures global { result.global ≡ false }
{
    Arg::new(alloc, name).long(name).action(ArgAction::SetTrue)
}

/// The command that is parsed: first the command's name, then files and options.
fn parsed_command<'a>(alloc: Global) -> Result<Command<'a>, AllocError>
    ensures { IfOk result (λ c. app_of c ≡ the_app) }
{
    bare_command(alloc)
        .arg(command_arg(alloc))?
        .arg(files_arg(alloc))?
        .arg(value_arg(alloc, "until"))?
        .arg(value_arg(alloc, "align"))?
        .arg(value_arg(alloc, "threshold"))?
        .arg(value_arg(alloc, "budget"))?
        .arg(value_arg(alloc, "schedule"))?
        .arg(value_arg(alloc, "workers"))?
        .arg(value_arg(alloc, "seed"))?
        .arg(value_arg(alloc, "size"))?
        .arg(flag_arg(alloc, "flat"))?
        .arg(flag_arg(alloc, "report"))
}

/// The matches of words that the rule has taken. `clap` refuses none of them but for want of memory.
pub(crate) fn matches_of<'a>(
    alloc: Global,
    name: CommandName,
    words: &'a [String],
) -> Result<ArgMatches<'a>, WordsFault>
    requires { IsInTable name (map string_bytes words.now) }
    ensures memory { IsErrOf result WordsFault.Words → ⊥ }
    ensures matched { IfOk result (λ m. IsMatched (found_of m) (drop 1 (map string_bytes words.entry.now))) }
{
    let command = parsed_command(alloc)?;
    match command.try_get_matches_from(words) {
        Ok(matches) => Ok(matches),
        Err(error) => match error.kind() {
            ErrorKind::OutOfMemory => Err(WordsFault::Memory),
            _ => unreachable!(),
        },
    }
}
