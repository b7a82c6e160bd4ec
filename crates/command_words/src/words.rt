//! What words ask.
ghost use Rattle.std.specs.Prelude.{◌≡◌, ◌≤◌, ℕ, List, true, vec_len, length, Bool, map, option_map, string_bytes, codes, [], drop, unwrap_or, IfOk, IsErrOf, IsErrAnd, None, Some};
ghost use Rattle.clap.specs.Words.{first_value, found_of, matched_of, one_text, raw_values};
ghost use Rattle.command_words.specs.Parsed.{flag_text};
ghost use Rattle.command_words.specs.Schedule.{is_schedule};
ghost use Rattle.command_words.specs.Table.{MostFiles};
ghost use Rattle.command_words.specs.Words.{AllFit, IsInRange, asked_of_words, command_by};

use crate::clap_words::matches_of;
use crate::options::{command_by, files_in, schedule_in};
use crate::rule::command_of;
use crate::{Command, CommandName, WordsFault};
use clap::ArgMatches;
use std::alloc::Global;

/// What the words ask: a command, and the names of its files.
#[derive(Drop)]
pub struct Request {
    /// The command, with the numbers that it is asked.
    pub command: Command,
    /// The schedule of `step`, where one is given: a word of steps joined by commas.
    pub schedule: Option<String>,
    /// Whether a report is wanted.
    pub report: bool,
    /// The names of the files of the model, at most 64, in the order of the words.
    pub files: Vec<String>,
}

/// What these matches of a command say.
fn request_of(alloc: Global, name: CommandName, matches: &ArgMatches) -> Result<Request, WordsFault>
    requires { AllFit (λ option. first_value (found_of matches.now) (drop 2 option)) }
    ensures command { IfOk result (λ r. (flat : Bool) → one_text (found_of matches.now) (codes "flat") ≡ Some (flag_text flat) → r.command ≡ command_by name (λ option. first_value (found_of matches.now) (drop 2 option)) flat) }
    ensures schedule { IfOk result (λ r. option_map string_bytes r.schedule ≡ first_value (found_of matches.now) (codes "schedule")) }
    ensures report { IfOk result (λ r. (given : Bool) → one_text (found_of matches.now) (codes "report") ≡ Some (flag_text given) → r.report ≡ given) }
    ensures files { IfOk result (λ r. map string_bytes r.files.items ≡ unwrap_or (option_map raw_values (matched_of (found_of matches.now) (codes "files"))) []) }
    ensures len { IfOk result (λ r. vec_len r.files ≡ length (map string_bytes r.files.items)) }
    ensures memory { IsErrOf result WordsFault.Words → ⊥ }
{
    let command = command_by(name, matches.get_flag("flat"), matches);
    let report = matches.get_flag("report");
    let schedule = schedule_in(alloc, matches)?;
    let files = files_in(alloc, matches)?;
    Ok(Request {
        command,
        schedule,
        report,
        files,
    })
}

/// Reads the words after the program's name.
///
/// # Errors
/// `Words` exactly where they are not in the table, and `Memory`.
pub fn read_words(alloc: Global, words: &[String]) -> Result<Request, WordsFault>
    ensures ok { IfOk result (λ r. asked_of_words (map string_bytes words.now) ≡ Some (record { command = r.command; schedule = option_map string_bytes r.schedule; report = r.report; files = map string_bytes r.files.items })) }
    ensures words { IsErrOf result WordsFault.Words → asked_of_words (map string_bytes words.now) ≡ None }
    ensures refused { asked_of_words (map string_bytes words.now) ≡ None → IsErrAnd result (λ fault. fault ≡ WordsFault.Words) }
    ensures range { IfOk result (λ r. IsInRange r.command) }
    ensures scheduled { IfOk result (λ r. (word : List ℕ) → option_map string_bytes r.schedule ≡ Some word → is_schedule word ≡ true) }
    ensures files { IfOk result (λ r. vec_len r.files ≤ MostFiles) }
{
    let Some(name) = command_of(words) else {
        return Err(WordsFault::Words);
    };
    let matches = matches_of(alloc, name, words)?;
    request_of(alloc, name, &matches)
}
